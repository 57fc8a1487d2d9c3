//! What comes of events at gateways, as lines.

ghost use Rattle.std.specs.Prelude.{◌≡◌, ◌++◌, OnOk};
ghost use Rattle.std.specs.Prelude.{map};
ghost use Rattle.vtep_base.specs.Memory.{joined};
ghost use Rattle.fabric_world.specs.Outputs.{framing_kind_text, frame_kind_text, packet_kind_text, reason_words, output_text, outputs_text, Message, Failed, Dropped, Lost};
ghost use Rattle.fabric_world.specs.Outputs as outputs;
ghost use Rattle.fabric_world.specs.Happenings.{messages, failures, session_of, fulls, drops, answer_outputs, fault_of};
ghost use Rattle.vtep_gateway.specs.declared.Reason.TheVariants as reason;
ghost use Rattle.vtep_fabric.specs.Fabrics.{refusal_of};

use crate::hexadecimal::append_word;
use crate::{FabricFault, refused};
use ether_frames::{FrameFault, FrameKind};
use forward_program::Out;
use itoa::Buffer;
use rpc_framing::{Framing, FramingKind};
use std::alloc::Global;
use vtep_base::{Bytes, Ipv4, LineReason, Name, OutOfMemory, Plain};
use vtep_gateway::{Answer, Event, EventRefused, Outgoing, Reason};
use vxlan_frames::{PacketFault, PacketKind};

/// Why a gateway refuses an event, at the line's word.
pub(crate) fn fault_of(why: EventRefused) -> FabricFault
    ensures { refusal_of result ≡ Some (fault_of why) }
{
    match why {
        EventRefused::Repeated => refused(2, LineReason::Repeated),
        EventRefused::Ports => refused(0, LineReason::Limit),
        EventRefused::NoPort | EventRefused::NoSession => refused(2, LineReason::Unknown),
    }
}

fn framing_kind_text(kind: &FramingKind) -> &[u8]
    ensures { result.now ≡ framing_kind_text kind.now }
{
    match kind {
        FramingKind::NotObject => b"NotObject",
        FramingKind::TooDeep => b"TooDeep",
        FramingKind::TooLong => b"TooLong",
        FramingKind::BadJson => b"BadJson",
        FramingKind::BadMessage => b"BadMessage",
    }
}

/// Writes that a message goes to a session.
fn write_message(gateway: &Name, message: &Outgoing, out: &mut Bytes) -> Result<(), OutOfMemory>
    ensures { OnOk result (out.new ≡ out.old ++ output_text (Message gateway.now message.now)) }
{
    let mut session = Buffer::new();
    out.append_all(&[
        b"rpc ",
        gateway.as_slice(),
        b" ",
        session.format(message.session).as_bytes(),
        b" ",
        message.bytes.as_slice(),
        b"\n",
    ])
}

/// Writes that a session is refused.
fn write_failed(
    gateway: &Name,
    session: u32,
    framing: &Framing,
    out: &mut Bytes,
) -> Result<(), OutOfMemory>
    ensures { OnOk result (out.new ≡ out.old
        ++ output_text (Failed gateway.now session framing.now)) }
{
    let mut number = Buffer::new();
    let mut offset = Buffer::new();
    out.append_all(&[
        b"failed ",
        gateway.as_slice(),
        b" ",
        number.format(session).as_bytes(),
        b" ",
        framing_kind_text(&framing.kind),
        b" ",
        offset.format(framing.offset).as_bytes(),
        b"\n",
    ])
}

/// Writes the messages that go to sessions other than the controller's.
fn write_messages(gateway: &Name, sends: &[Outgoing], out: &mut Bytes) -> Result<(), OutOfMemory>
    ensures { OnOk result (out.new ≡ out.old ++ outputs_text (messages gateway.now sends.now)) }
{
    'sends: for message in sends {
        if message.session != 0 {
            write_message(gateway, message, out)?;
        }
    }
    Ok(())
}

fn write_failure(
    gateway: &Name,
    session: u32,
    failed: &Option<Framing>,
    out: &mut Bytes,
) -> Result<(), OutOfMemory>
    ensures { OnOk result (out.new ≡ out.old
        ++ outputs_text (failures gateway.now session failed.now)) }
{
    match failed {
        Some(framing) if session != 0 => write_failed(gateway, session, framing, out),
        _ => Ok(()),
    }
}

/// The session that an event comes from; 0 where it comes from none.
fn session_of(event: &Event) -> u32
    ensures { result ≡ session_of event.now }
{
    match event {
        Event::Bytes { session, .. } => *session,
        _ => 0,
    }
}

fn frame_kind_text(kind: &FrameKind) -> &[u8]
    ensures { result.now ≡ frame_kind_text kind.now }
{
    match kind {
        FrameKind::Short => b"Short",
        FrameKind::SecondTag => b"SecondTag",
        FrameKind::Long => b"Long",
    }
}

/// The word of a fault of a packet.
pub fn packet_kind_text(kind: &PacketKind) -> &[u8]
    ensures { result.now ≡ packet_kind_text kind.now }
{
    match kind {
        PacketKind::Short => b"Short",
        PacketKind::Version => b"Version",
        PacketKind::HeaderLength => b"HeaderLength",
        PacketKind::TotalLength => b"TotalLength",
        PacketKind::Checksum => b"Checksum",
        PacketKind::Fragment => b"Fragment",
        PacketKind::Protocol => b"Protocol",
        PacketKind::Port => b"Port",
        PacketKind::UdpLength => b"UdpLength",
        PacketKind::NoVni => b"NoVni",
        PacketKind::InnerShort => b"InnerShort",
        PacketKind::InnerTag => b"InnerTag",
        PacketKind::InnerLong => b"InnerLong",
    }
}

fn write_frame_fault(fault: &FrameFault, text: &mut Bytes) -> Result<(), OutOfMemory>
    ensures { OnOk result (text.new ≡ text.old ++ joined (reason_words (reason.Frame fault.now))) }
{
    let mut offset = Buffer::new();
    text.append_all(&[
        b" frame ",
        frame_kind_text(&fault.kind),
        b" ",
        offset.format(fault.offset).as_bytes(),
        b"\n",
    ])
}

fn write_packet_fault(fault: &PacketFault, text: &mut Bytes) -> Result<(), OutOfMemory>
    ensures { OnOk result (text.new ≡ text.old ++ joined (reason_words (reason.Packet fault.now))) }
{
    let mut offset = Buffer::new();
    text.append_all(&[
        b" packet ",
        packet_kind_text(&fault.kind),
        b" ",
        offset.format(fault.offset).as_bytes(),
        b"\n",
    ])
}

fn write_reason(why: &Reason, text: &mut Bytes) -> Result<(), OutOfMemory>
    ensures { OnOk result (text.new ≡ text.old ++ joined (reason_words why.now)) }
{
    match why {
        Reason::Frame(fault) => write_frame_fault(fault, text),
        Reason::Packet(fault) => write_packet_fault(fault, text),
        Reason::Unbound => text.append(b" unbound\n"),
        Reason::Denied => text.append(b" acl\n"),
        Reason::Address => text.append(b" address\n"),
        Reason::Vni => text.append(b" vni\n"),
    }
}

/// Writes that a source could not be learnt, where this is so.
fn write_full(gateway: &Name, full: bool, text: &mut Bytes) -> Result<(), OutOfMemory>
    ensures { OnOk result (text.new ≡ text.old ++ outputs_text (fulls gateway.now full)) }
{
    if full {
        return text.append_all(&[b"full ", gateway.as_slice(), b"\n"]);
    }
    Ok(())
}

/// Writes why a frame or packet goes nowhere, where it does.
fn write_drop(gateway: &Name, why: &Option<Reason>, text: &mut Bytes) -> Result<(), OutOfMemory>
    ensures { OnOk result (text.new ≡ text.old ++ outputs_text (drops gateway.now why.now)) }
{
    let Some(why) = why else {
        return Ok(());
    };
    text.append_all(&[b"drop ", gateway.as_slice()])?;
    write_reason(why, text)
}

/// Writes that a frame leaves a port.
fn write_out(
    alloc: Global,
    gateway: &Name,
    frame: &Out,
    text: &mut Bytes,
) -> Result<(), OutOfMemory>
    ensures { OnOk result (text.new ≡ text.old
        ++ output_text (outputs.Out gateway.now frame.now.port frame.now.bytes)) }
{
    text.append_all(&[
        b"out ",
        gateway.as_slice(),
        b" ",
        frame.port.as_slice(),
        b" ",
    ])?;
    append_word(alloc, frame.bytes.as_slice(), text)?;
    text.append(b"\n")?;
    Ok(())
}

/// Writes the frames that leave ports.
fn write_outs(
    alloc: Global,
    gateway: &Name,
    frames: &[Out],
    text: &mut Bytes,
) -> Result<(), OutOfMemory>
    ensures { OnOk result (text.new ≡ text.old
        ++ outputs_text (map (λ o. outputs.Out gateway.now o.port o.bytes) frames.now)) }
{
    'frames: for frame in frames {
        write_out(alloc, gateway, frame, text)?;
    }
    Ok(())
}

/// Writes that a packet's address is nobody's.
pub(crate) fn write_lost(ip: Ipv4, text: &mut Bytes) -> Result<(), OutOfMemory>
    ensures { OnOk result (text.new ≡ text.old ++ output_text (Lost ip)) }
{
    text.append(b"lost ")?;
    ip.print(text)?;
    text.append(b"\n")
}

/// Writes what becomes of a frame or packet: that its source could not be learnt, why it goes nowhere, and the frames that leave.
fn write_forwarded(
    alloc: Global,
    gateway: &Name,
    answer: &Answer<Plain>,
    text: &mut Bytes,
) -> Result<(), OutOfMemory>
    ensures { OnOk result (text.new ≡ text.old
        ++ outputs_text (fulls gateway.now answer.now.full ++ (drops gateway.now answer.now.dropped
        ++ map (λ o. outputs.Out gateway.now o.port o.bytes) answer.now.sent.outs))) }
{
    write_full(gateway, answer.full, text)?;
    write_drop(gateway, &answer.dropped, text)?;
    write_outs(alloc, gateway, answer.sent.outs().as_slice(), text)
}

/// Writes what comes of an event: messages to sessions, the refusal of the session that it came from, that a source could not be learnt,
/// why a frame or packet goes nowhere, and the frames that leave.
pub(crate) fn write_answer(
    alloc: Global,
    gateway: &Name,
    event: &Event,
    answer: &Answer<Plain>,
    text: &mut Bytes,
) -> Result<(), OutOfMemory>
    ensures { OnOk result (text.new ≡ text.old
        ++ outputs_text (answer_outputs gateway.now event.now answer.now)) }
{
    write_messages(gateway, answer.sends.as_slice(), text)?;
    write_failure(gateway, session_of(event), &answer.failed, text)?;
    write_forwarded(alloc, gateway, answer, text)
}
