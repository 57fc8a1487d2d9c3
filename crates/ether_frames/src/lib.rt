//! Ethernet frames: their tags (IEEE 802.1Q, one tag at most), and the headers that rules look at.
#![tactic(auto)]

ghost use Rattle.std.specs.Prelude.{◌≡◌, ◌≤◌, ◌++◌, length, Ok, Err, IfOk, IsOkAnd, MatchResult, OnOk, OnErr, ℕ, List};
ghost use Rattle.ether_frames.specs.Frames.{Carries, begins_tag, untagged_frame, tagged_frame, frame_of, tagged};

mod fields;
mod parsing;

pub use fields::{Headers, Icmp, Ip, Ports};
pub use parsing::headers;
use vtep_base::{Bytes, Inner, OutOfMemory, Vlan};

/// Why bytes are no frame.
#[derive(Clone, Copy, Debug, PartialEq, Eq)]
pub enum FrameKind {
    /// Fewer than 14 bytes, or fewer than 18 with a tag.
    Short,
    /// The type after the tag is that of a tag.
    SecondTag,
    /// The frame without its tag has more than 9216 bytes.
    Long,
}

/// Where bytes are no frame, and why: the first fault.
#[derive(Clone, Copy, Debug, PartialEq, Eq)]
pub struct FrameFault {
    /// The byte at fault, counted from the frame's first byte: the frame's end where it is short, the second tag's type, or the
    /// first byte beyond the limit.
    pub offset: usize,
    /// The fault.
    pub kind: FrameKind,
}

/// What a frame carries: a VLAN, and the frame without its tag.
#[derive(Debug, Drop)]
pub struct Frame<'a> {
    /// The VLAN of the tag; 0 for an untagged frame and for a priority tag.
    pub vlan: Vlan,
    /// The frame without its tag.
    pub inner: Inner<'a>,
}

/// The most bytes of a frame without its tag.
const MOST: usize = 9216;

/// The first two bytes of a tag (IEEE 802.1Q).
const TAG: [u8; 2] = [0x81, 0x00];

fn begins_tag(bytes: &[u8]) -> bool
    ensures { result ≡ begins_tag bytes.now }
{
    bytes.len() >= 2 && bytes[0] == TAG[0] && bytes[1] == TAG[1]
}

/// Reads a frame without tag.
fn read_untagged(bytes: &[u8]) -> Result<Frame<'_>, FrameFault>
    requires { 14 ≤ length bytes.now }
    ensures { MatchResult result (λ f. untagged_frame bytes.now ≡ Ok (f.vlan, f.inner))
        (λ e. untagged_frame bytes.now ≡ Err e) }
{
    if bytes.len() > MOST {
        return Err(FrameFault {
            offset: MOST,
            kind: FrameKind::Long,
        });
    }
    let (addresses, rest) = bytes.split_at(12);
    Ok(Frame {
        vlan: Vlan::new(0),
        inner: Inner::new(addresses, rest),
    })
}

/// Reads a frame with a tag.
fn read_tagged(bytes: &[u8]) -> Result<Frame<'_>, FrameFault>
    requires { 14 ≤ length bytes.now }
    ensures { MatchResult result (λ f. tagged_frame bytes.now ≡ Ok (f.vlan, f.inner))
        (λ e. tagged_frame bytes.now ≡ Err e) }
{
    if bytes.len() < 18 {
        return Err(FrameFault {
            offset: bytes.len(),
            kind: FrameKind::Short,
        });
    }
    let (front, behind) = bytes.split_at(16);
    if begins_tag(behind) {
        return Err(FrameFault {
            offset: 16,
            kind: FrameKind::SecondTag,
        });
    }
    if bytes.len() > MOST + 4 {
        return Err(FrameFault {
            offset: MOST + 4,
            kind: FrameKind::Long,
        });
    }
    let (addresses, _) = front.split_at(12);
    let vlan = (u16::from(bytes[14]) * 256 + u16::from(bytes[15])) % 4096;
    Ok(Frame {
        vlan: Vlan::new(vlan),
        inner: Inner::new(addresses, behind),
    })
}

/// Reads a frame: its VLAN and what it carries, or its first fault. Takes no memory.
///
/// A frame has destination, source, type and data. Type 0x8100 is a tag (IEEE 802.1Q): two more bytes follow, whose low
/// 12 bits are the VLAN, and then the type, which is no tag again. An untagged frame has VLAN 0.
pub fn read(bytes: &[u8]) -> Result<Frame<'_>, FrameFault>
    // What is read is carried.
    ensures found { IfOk result (λ f. Carries bytes.now f.vlan f.inner) }
    // What is carried is read.
    ensures only { (vlan : ℕ) (inner : List ℕ) → Carries bytes.now vlan inner
        → IsOkAnd result (λ f. (f.vlan ≡ vlan) × (f.inner ≡ inner)) }
    // Which fault it is.
    ensures exact { MatchResult result (λ f. frame_of bytes.now ≡ Ok (f.vlan, f.inner))
        (λ e. frame_of bytes.now ≡ Err e) }
{
    read_exactly(bytes)
}

fn read_exactly(bytes: &[u8]) -> Result<Frame<'_>, FrameFault>
    ensures { MatchResult result (λ f. frame_of bytes.now ≡ Ok (f.vlan, f.inner))
        (λ e. frame_of bytes.now ≡ Err e) }
{
    if bytes.len() < 14 {
        return Err(FrameFault {
            offset: bytes.len(),
            kind: FrameKind::Short,
        });
    }
    let (_, rest) = bytes.split_at(12);
    if begins_tag(rest) {
        read_tagged(bytes)
    } else {
        read_untagged(bytes)
    }
}

/// Appends the one written form: without tag for VLAN 0, else with a tag whose upper bits are 0.
pub fn write(vlan: Vlan, inner: &Inner<'_>, out: &mut Bytes) -> Result<(), OutOfMemory>
    ensures ok { OnOk result (out.new ≡ out.old ++ tagged vlan inner.now) }
    ensures err { OnErr result (out.new ≡ out.old) }
{
    let number = vlan.number();
    if number == 0 {
        return out.append_all(&[inner.addresses(), inner.rest()]);
    }
    let control = [(number / 256) as u8, (number % 256) as u8];
    out.append_all(&[inner.addresses(), &TAG, &control, inner.rest()])
}

/// A law: reading the written form of what some bytes carry gives its VLAN and its inner frame.
pub fn written_is_read()
    ensures { (bytes inner : List ℕ) (vlan : ℕ) → Carries bytes vlan inner
        → frame_of (tagged vlan inner) ≡ Ok (vlan, inner) }
{}
