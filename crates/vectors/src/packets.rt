//! VXLAN packets: what each says, and how that is written.

use crate::faults::CaseFault;
use crate::lines::{bytes, parts, say, say_hex, text};
use std::alloc::Global;
use vtep_base::{Bytes, RoomyBytes};
use vxlan_frames::{Packet, decode, encode, encode_within};

/// Adds the addresses, the network and the inner frame.
fn say_said(alloc: Global, packet: &Packet<'_>, answer: &mut Bytes) -> Result<(), CaseFault> {
    packet.src.print(answer)?;
    answer.push(b' ')?;
    packet.dst.print(answer)?;
    answer.push(b' ')?;
    packet.vni.print(answer)?;
    answer.push(b' ')?;
    let mut inner = Bytes::new(alloc);
    inner.append_all(&[packet.inner.addresses(), packet.inner.rest()])?;
    say_hex(alloc, inner.as_slice(), answer)
}

fn say_packet(alloc: Global, bytes: &[u8], answer: &mut Bytes) -> Result<(), CaseFault> {
    let packet = match decode(bytes) {
        Ok(packet) => packet,
        Err(fault) => {
            let fault = format!(in alloc; "{:?} {}", fault.kind, fault.offset)?;
            return Ok(say(answer, fault.as_str())?);
        }
    };
    say_said(alloc, &packet, answer)?;
    let Packet {
        src,
        dst,
        vni,
        inner,
    } = packet;
    let mut written = Bytes::new(alloc);
    encode(src, dst, vni, &inner, &mut written)?;
    say_hex(alloc, written.as_slice(), answer)?;
    let mut within = RoomyBytes::new(Bytes::new(alloc), 36 + inner.len())?;
    encode_within(src, dst, vni, &inner, &mut within);
    if within.into_bytes().as_slice() != written.as_slice() {
        say(answer, "within room other bytes are written")?;
    }
    Ok(())
}

fn say_fronts(alloc: Global, bytes: &[u8], answer: &mut Bytes) -> Result<(), CaseFault> {
    'fronts: for length in 0..bytes.len() {
        let (front, _) = bytes.split_at(length);
        say_packet(alloc, front, answer)?;
    }
    Ok(())
}

/// Adds what each packet is decoded as, and how that is written: two lines, or one with the fault and its offset. Behind `fronts`
/// each shorter front of the packet is decoded.
pub fn answer(alloc: Global, asked: &[Bytes], answer: &mut Bytes) -> Result<(), CaseFault> {
    'asked: for line in asked {
        let (word, rest) = parts(text(line)?);
        if word == "fronts" {
            say_fronts(alloc, bytes(alloc, rest)?.as_slice(), answer)?;
        } else {
            say_packet(alloc, bytes(alloc, word)?.as_slice(), answer)?;
        }
    }
    Ok(())
}
