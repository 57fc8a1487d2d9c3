//! Where frames go by the forwarding state of rows.

use crate::facts::{Known, sound_state};
use crate::faults::CaseFault;
use crate::lines::{bytes, parts, say};
use ether_frames::read;
use forward_program::{Hops, Origin, Outcome};
use std::alloc::Global;
use vtep_base::{Bytes, Inner, Name, Plain, Vlan, Vni};

fn outcome_text(outcome: Outcome) -> &'static str {
    match outcome {
        Outcome::Done => "done",
        Outcome::Unbound => "unbound",
        Outcome::Denied => "denied",
        Outcome::NoVni => "no vni",
    }
}

/// Adds the VNI, the ports and the addresses.
fn say_hops(hops: &Hops<Plain>, answer: &mut Bytes) -> Result<(), CaseFault> {
    if let Some(vni) = hops.vni() {
        answer.append(b"vni ")?;
        vni.print(answer)?;
        answer.append(b"\n")?;
    }
    'ports: for (port, vlan) in hops.ports() {
        answer.append_all(&[b"port ", port.as_slice(), b" "])?;
        vlan.print(answer)?;
        answer.append(b"\n")?;
    }
    'addresses: for ip in hops.addresses() {
        answer.append(b"address ")?;
        ip.print(answer)?;
        answer.append(b"\n")?;
    }
    Ok(())
}

fn hop(
    alloc: Global,
    known: &Known,
    origin: Origin,
    inner: &Inner<'_>,
    answer: &mut Bytes,
) -> Result<(), CaseFault> {
    let fib = sound_state(alloc, known)?;
    if fib.broken() {
        return Err(CaseFault::Form);
    }
    let mut hops = Hops::new(alloc);
    fib.reserve_hops(&mut hops)?;
    let outcome = fib.hop(origin, inner, &mut hops)?;
    say(answer, outcome_text(outcome))?;
    say_hops(&hops, answer)
}

fn vlan_of(word: &str) -> Result<Vlan, CaseFault> {
    Ok(Vlan::parse(word.as_bytes())?)
}

/// Adds where a frame without tag goes: `PORT VLAN FRAME`, of one that enters at a port.
pub fn from_port(
    alloc: Global,
    known: &Known,
    line: &str,
    answer: &mut Bytes,
) -> Result<(), CaseFault> {
    let (port, rest) = parts(line);
    let (vlan, frame) = parts(rest);
    let origin = Origin::Port {
        port: Name::parse(port.as_bytes())?,
        vlan: vlan_of(vlan)?,
    };
    let bytes = bytes(alloc, frame)?;
    match read(bytes.as_slice()) {
        Ok(frame) => hop(alloc, known, origin, &frame.inner, answer),
        Err(_) => Err(CaseFault::Form),
    }
}

/// The same of one that comes out of a tunnel: `VNI FRAME`.
pub fn from_tunnel(
    alloc: Global,
    known: &Known,
    line: &str,
    answer: &mut Bytes,
) -> Result<(), CaseFault> {
    let (vni, frame) = parts(line);
    let origin = Origin::Tunnel {
        vni: Vni::parse(vni.as_bytes())?,
    };
    let bytes = bytes(alloc, frame)?;
    match read(bytes.as_slice()) {
        Ok(frame) => hop(alloc, known, origin, &frame.inner, answer),
        Err(_) => Err(CaseFault::Form),
    }
}
