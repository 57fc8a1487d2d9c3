//! The headers of frames, as rules look at them.

use crate::faults::CaseFault;
use crate::lines::{bytes, parts, text};
use ether_frames::{Headers, Ip, headers};
use std::alloc::Global;
use vtep_base::{Bytes, Inner};

/// The headers of a frame without tag of 14 bytes at least.
pub fn headers_of(frame: &[u8]) -> Result<Headers, CaseFault> {
    if frame.len() < 14 {
        return Err(CaseFault::Form);
    }
    let (addresses, rest) = frame.split_at(12);
    Ok(headers(&Inner::new(addresses, rest)))
}

fn say_ip(alloc: Global, ip: &Ip, answer: &mut Bytes) -> Result<(), CaseFault> {
    answer.push(b' ')?;
    ip.source.print(answer)?;
    answer.push(b' ')?;
    ip.destination.print(answer)?;
    let protocol = format!(in alloc; " {}", ip.protocol)?;
    answer.append(protocol.as_bytes())?;
    if let Some(ports) = &ip.ports {
        let ports = format!(in alloc; " ports {} {}", ports.source, ports.destination)?;
        answer.append(ports.as_bytes())?;
    }
    if let Some(flags) = ip.tcp_flags {
        let flags = format!(in alloc; " flags {flags}")?;
        answer.append(flags.as_bytes())?;
    }
    if let Some(icmp) = &ip.icmp {
        let icmp = format!(in alloc; " icmp {} {}", icmp.kind, icmp.code)?;
        answer.append(icmp.as_bytes())?;
    }
    Ok(())
}

fn say_headers(alloc: Global, frame: &[u8], answer: &mut Bytes) -> Result<(), CaseFault> {
    let headers = headers_of(frame)?;
    headers.destination.print(answer)?;
    answer.push(b' ')?;
    headers.source.print(answer)?;
    let ethertype = format!(in alloc; " {:04x}", headers.ethertype)?;
    answer.append(ethertype.as_bytes())?;
    if let Some(ip) = &headers.ip {
        say_ip(alloc, ip, answer)?;
    }
    Ok(answer.push(b'\n')?)
}

fn say_fronts(alloc: Global, frame: &[u8], answer: &mut Bytes) -> Result<(), CaseFault> {
    'fronts: for length in 14..frame.len() {
        let (front, _) = frame.split_at(length);
        say_headers(alloc, front, answer)?;
    }
    say_headers(alloc, frame, answer)
}

/// Adds the headers of each frame: destination, source and type, and where they are there the IPv4 addresses and the protocol,
/// ports, flags, and type and code of ICMP. Behind `fronts` each front of the frame from 14 bytes on is read.
pub fn answer(alloc: Global, asked: &[Bytes], answer: &mut Bytes) -> Result<(), CaseFault> {
    'asked: for line in asked {
        let (word, rest) = parts(text(line)?);
        if word == "fronts" {
            say_fronts(alloc, bytes(alloc, rest)?.as_slice(), answer)?;
        } else {
            say_headers(alloc, bytes(alloc, word)?.as_slice(), answer)?;
        }
    }
    Ok(())
}
