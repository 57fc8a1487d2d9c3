//! Packets as lines.

ghost use Rattle.std.specs.Prelude.{◌≡◌, ◌++◌, Ok, Err, OnOk, MatchResult};
ghost use Rattle.vtep_base.specs.Memory.{joined};
ghost use Rattle.vxlan_frames.specs.Packets.{packet_of};
ghost use Rattle.fabric_world.specs.Outputs.{packet_text, shown_packet};

use itoa::Buffer;
use std::alloc::Global;
use vtep_base::{Bytes, OutOfMemory};
use vtep_fabric::{append_word, packet_kind_text};
use vxlan_frames::{Packet, PacketFault, decode};

/// A packet, by the first fault alone.
fn decoded(bytes: &[u8]) -> Result<Packet<'_>, PacketFault>
    ensures { MatchResult result (λ p. packet_of bytes.now ≡ Ok (p.src, p.dst, p.vni, p.inner))
        (λ e. packet_of bytes.now ≡ Err e) }
{
    decode(bytes)
}

/// Shows a packet: what it says, or why the bytes are none.
pub(crate) fn write_packet(alloc: Global, bytes: &[u8], out: &mut Bytes) -> Result<(), OutOfMemory>
    ensures { OnOk result (out.new ≡ out.old ++ packet_text bytes.now) }
{
    match decoded(bytes) {
        Ok(packet) => write_said(alloc, &packet, out),
        Err(fault) => write_refused(fault, out),
    }
}

/// Shows what a packet says.
fn write_said(alloc: Global, packet: &Packet<'_>, out: &mut Bytes) -> Result<(), OutOfMemory>
    ensures { OnOk result (out.new ≡ out.old
        ++ joined (shown_packet (Ok (
          packet.now.src,
          packet.now.dst,
          packet.now.vni,
          packet.now.inner,
        )))) }
{
    out.append(b"packet ")?;
    packet.src.print(out)?;
    out.append(b" ")?;
    packet.dst.print(out)?;
    let mut vni = Buffer::new();
    out.append_all(&[b" ", vni.format(packet.vni.number()).as_bytes(), b" "])?;
    append_word(alloc, packet.inner.addresses(), out)?;
    append_word(alloc, packet.inner.rest(), out)?;
    out.append(b"\n")?;
    Ok(())
}

/// Writes why bytes are no packet.
fn write_refused(fault: PacketFault, out: &mut Bytes) -> Result<(), OutOfMemory>
    ensures { OnOk result (out.new ≡ out.old ++ joined (shown_packet (Err fault))) }
{
    let mut offset = Buffer::new();
    out.append_all(&[
        b"refused ",
        packet_kind_text(&fault.kind),
        b" ",
        offset.format(fault.offset).as_bytes(),
        b"\n",
    ])
}
