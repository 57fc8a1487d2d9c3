//! VXLAN packets: Ethernet frames in VXLAN (RFC 7348 section 5), in UDP (RFC 768), in IPv4 (RFC 791).
#![tactic(auto)]

ghost use Rattle.std.specs.Prelude.{◌≡◌, ◌≤◌, ◌<◌, ◌+◌, ◌^◌, ◌*◌, ◌%◌, ◌++◌, length, sum, false, Ok, Err, IfOk, IsOkAnd, MatchResult, OnOk, OnErr, ℕ, List};
ghost use Rattle.vxlan_frames.specs.Packets.{IsPacket, IsInner, word, three_bytes, four_bytes, tag_at, ones_add, ones_sum, header_length, total_length, udp_length, lengths_checked, header_checked, udp_checked, inner_checked, packet_of, ip_header, summed_header, source_port, udp_header, vxlan_header, canon};

use vtep_base::{Bytes, Inner, Ipv4, OutOfMemory, RoomyBytes, Vni};

/// Why bytes are no packet.
#[derive(Clone, Copy, Debug, PartialEq, Eq)]
pub enum PacketKind {
    /// Fewer than 20 bytes, or a total length without a UDP header.
    Short,
    /// The version is not 4.
    Version,
    /// The header has fewer than 20 bytes, or more than there are.
    HeaderLength,
    /// The total length is below the header's, or above the bytes there.
    TotalLength,
    /// The header's ones' complement sum is not 0xffff.
    Checksum,
    /// A fragment of a packet.
    Fragment,
    /// The protocol is not UDP.
    Protocol,
    /// The destination port is not VXLAN's.
    Port,
    /// The UDP length has no room for both headers, or is above the bytes there.
    UdpLength,
    /// The flag that says that a network is named is clear.
    NoVni,
    /// The inner frame has fewer than 14 bytes.
    InnerShort,
    /// The inner frame has a tag.
    InnerTag,
    /// The inner frame has more than 9216 bytes.
    InnerLong,
}

/// Where bytes are no packet, and why: the first fault.
#[derive(Clone, Copy, Debug, PartialEq, Eq)]
pub struct PacketFault {
    /// The byte at fault, counted from the packet's first byte.
    pub offset: usize,
    /// The fault.
    pub kind: PacketKind,
}

/// What a packet says: its addresses, its network, and the frame that it carries.
#[derive(Debug, Drop)]
pub struct Packet<'a> {
    /// The source of the IPv4 header.
    pub src: Ipv4,
    /// The destination of the IPv4 header.
    pub dst: Ipv4,
    /// The network.
    pub vni: Vni,
    /// The frame, without tag.
    pub inner: Inner<'a>,
}

/// The UDP port of VXLAN (RFC 7348 section 5).
const PORT: u16 = 4789;

/// A UDP checksum that is not made (RFC 7348 section 5).
const NO_CHECKSUM: [u8; 2] = [0, 0];

/// The number of UDP in an IPv4 header (RFC 768).
const UDP: u8 = 17;

/// The most bytes of an inner frame.
const MOST: usize = 9216;

fn fault(offset: usize, kind: PacketKind) -> Result<(), PacketFault>
    ensures { result ≡ Err (record { offset = offset; kind = kind }) }
{
    Err(PacketFault { offset, kind })
}

/// Two bytes as a number, the high byte first.
fn word(bytes: &[u8], at: usize) -> u16
    requires { at + 1 < length bytes.now }
    ensures value { result ≡ word bytes.now at }
{
    u16::from(bytes[at]) * 256 + u16::from(bytes[at + 1])
}

fn three_bytes(bytes: &[u8], at: usize) -> u32
    requires { at + 2 < length bytes.now }
    ensures value { result ≡ three_bytes bytes.now at }
    ensures fits { result < 2 ^ 24 }
{
    u32::from(word(bytes, at)) * 256 + u32::from(bytes[at + 2])
}

fn four_bytes(bytes: &[u8], at: usize) -> u32
    requires { at + 3 < length bytes.now }
    ensures value { result ≡ four_bytes bytes.now at }
{
    u32::from(word(bytes, at)) * 65536 + u32::from(word(bytes, at + 2))
}

/// The type at an offset is that of a tag (IEEE 802.1Q).
fn tag_at(bytes: &[u8], at: usize) -> bool
    requires { at + 1 < length bytes.now }
    ensures { result ≡ tag_at bytes.now at }
{
    bytes[at] == 0x81 && bytes[at + 1] == 0x00
}

/// A sum of 16 bits to which its carry is added again.
fn ones_add(a: u16, b: u16) -> u16
    ensures { result ≡ ones_add a b }
{
    let sum = u32::from(a) + u32::from(b);
    (sum / 65536 + sum % 65536) as u16
}

/// The ones' complement sum of the 16-bit words of the bytes (RFC 791).
fn ones_sum(bytes: &[u8]) -> u16
    requires { length bytes.now % 2 ≡ 0 }
    ensures { result ≡ ones_sum bytes.now }
{
    let mut sum = 0;
    'words: for index in 0..bytes.len() / 2 {
        sum = ones_add(sum, word(bytes, 2 * index));
    }
    sum
}

fn header_length(bytes: &[u8]) -> usize
    requires { 1 ≤ length bytes.now }
    ensures value { result ≡ header_length bytes.now }
    ensures small { result ≤ 60 }
{
    4 * usize::from(bytes[0] % 16)
}

fn total_length(bytes: &[u8]) -> usize
    requires { 4 ≤ length bytes.now }
    ensures value { result ≡ total_length bytes.now }
{
    usize::from(word(bytes, 2))
}

fn udp_length(bytes: &[u8]) -> usize
    requires some { 1 ≤ length bytes.now }
    requires reached { header_length bytes.now + 6 ≤ length bytes.now }
    ensures value { result ≡ udp_length bytes.now }
    ensures small { result < 2 ^ 16 }
{
    usize::from(word(bytes, header_length(bytes) + 4))
}

fn check_lengths(bytes: &[u8]) -> Result<(), PacketFault>
    ensures value { result ≡ lengths_checked bytes.now }
    ensures least { IfOk result (λ _. 20 ≤ header_length bytes.now) }
    ensures header { IfOk result (λ _. header_length bytes.now ≤ total_length bytes.now) }
    ensures total { IfOk result (λ _. total_length bytes.now ≤ length bytes.now) }
{
    if bytes.len() < 20 {
        return fault(bytes.len(), PacketKind::Short);
    }
    if bytes[0] / 16 != 4 {
        return fault(0, PacketKind::Version);
    }
    let header = header_length(bytes);
    if header < 20 || bytes.len() < header {
        return fault(0, PacketKind::HeaderLength);
    }
    let total = total_length(bytes);
    if total < header || bytes.len() < total {
        return fault(2, PacketKind::TotalLength);
    }
    Ok(())
}

fn check_header(bytes: &[u8]) -> Result<(), PacketFault>
    requires least { 20 ≤ header_length bytes.now }
    requires header { header_length bytes.now ≤ length bytes.now }
    ensures { result ≡ header_checked bytes.now }
{
    let (header, _) = bytes.split_at(header_length(bytes));
    if ones_sum(header) != 0xffff {
        return fault(10, PacketKind::Checksum);
    }
    // More fragments, or an offset of a fragment.
    if word(bytes, 6) % (1 << 14) != 0 {
        return fault(6, PacketKind::Fragment);
    }
    if bytes[9] != UDP {
        return fault(9, PacketKind::Protocol);
    }
    Ok(())
}

fn check_udp(bytes: &[u8]) -> Result<(), PacketFault>
    requires least { 20 ≤ header_length bytes.now }
    requires header { header_length bytes.now ≤ total_length bytes.now }
    requires total { total_length bytes.now ≤ length bytes.now }
    ensures value { result ≡ udp_checked bytes.now }
    ensures headers { IfOk result (λ _. 16 ≤ udp_length bytes.now) }
    ensures within { IfOk result (λ _. header_length bytes.now + udp_length bytes.now
        ≤ length bytes.now) }
{
    let header = header_length(bytes);
    let total = total_length(bytes);
    if total < header + 8 {
        return fault(total, PacketKind::Short);
    }
    if word(bytes, header + 2) != PORT {
        return fault(header + 2, PacketKind::Port);
    }
    let length = udp_length(bytes);
    if length < 16 || total - header < length {
        return fault(header + 4, PacketKind::UdpLength);
    }
    Ok(())
}

fn check_inner(bytes: &[u8]) -> Result<(), PacketFault>
    requires least { 20 ≤ header_length bytes.now }
    requires headers { 16 ≤ udp_length bytes.now }
    requires within { header_length bytes.now + udp_length bytes.now ≤ length bytes.now }
    ensures value { result ≡ inner_checked bytes.now }
    ensures enough { IfOk result (λ _. 30 ≤ udp_length bytes.now) }
{
    let header = header_length(bytes);
    let length = udp_length(bytes);
    if bytes[header + 8] / 8 % 2 == 0 {
        return fault(header + 8, PacketKind::NoVni);
    }
    if length < 30 {
        return fault(header + length, PacketKind::InnerShort);
    }
    if tag_at(bytes, header + 28) {
        return fault(header + 28, PacketKind::InnerTag);
    }
    if length > 16 + MOST {
        return fault(header + 16 + MOST, PacketKind::InnerLong);
    }
    Ok(())
}

/// Reads a packet: its addresses, its network and the frame that it carries, or its first fault. Takes no memory.
///
/// A packet is an IPv4 header with its options (RFC 791), a UDP header to port 4789 (RFC 768), a VXLAN header whose flag
/// 0x08 is set (RFC 7348 section 5), and a frame without tag of 14 to 9216 bytes. Other flags, reserved bytes, options,
/// the UDP checksum, the source port, type of service, identification, time to live, and bytes beyond the total length
/// are not looked at.
pub fn decode(bytes: &[u8]) -> Result<Packet<'_>, PacketFault>
    // What is decoded is a packet.
    ensures found { IfOk result (λ p. IsPacket bytes.now p.src p.dst p.vni p.inner) }
    // A packet is decoded.
    ensures only { (src dst vni : ℕ) (inner : List ℕ) → IsPacket bytes.now src dst vni inner
        → IsOkAnd result (λ p. (p.src ≡ src) × (p.dst ≡ dst) × (p.vni ≡ vni) × (p.inner ≡ inner)) }
    // Which fault it is.
    ensures exact { MatchResult result
        (λ p. packet_of bytes.now ≡ Ok (p.src, p.dst, p.vni, p.inner))
        (λ e. packet_of bytes.now ≡ Err e) }
{
    decode_exactly(bytes)
}

#[tactic(auto, unfolding(crate::specs::Packets::packet_of))]
fn decode_exactly(bytes: &[u8]) -> Result<Packet<'_>, PacketFault>
    ensures { MatchResult result (λ p. packet_of bytes.now ≡ Ok (p.src, p.dst, p.vni, p.inner))
        (λ e. packet_of bytes.now ≡ Err e) }
{
    check_lengths(bytes)?;
    check_header(bytes)?;
    check_udp(bytes)?;
    check_inner(bytes)?;
    let header = header_length(bytes);
    let (front, _) = bytes.split_at(header + udp_length(bytes));
    let (_, inner) = front.split_at(header + 16);
    let (addresses, rest) = inner.split_at(12);
    Ok(Packet {
        src: Ipv4::from_bits(four_bytes(bytes, 12)),
        dst: Ipv4::from_bits(four_bytes(bytes, 16)),
        vni: Vni::new(three_bytes(bytes, header + 12)),
        inner: Inner::new(addresses, rest),
    })
}

/// An IPv4 header without options: don't-fragment alone, 64 hops, and UDP (RFC 791).
fn ip_header(total: u16, checksum: u16, src: Ipv4, dst: Ipv4) -> [u8; 20]
    ensures { result ≡ ip_header total checksum src dst }
{
    let total = total.to_be_bytes();
    let checksum = checksum.to_be_bytes();
    let src = src.bits().to_be_bytes();
    let dst = dst.bits().to_be_bytes();
    [
        0x45,
        0,
        total[0],
        total[1],
        0,
        0,
        0x40,
        0,
        64,
        UDP,
        checksum[0],
        checksum[1],
        src[0],
        src[1],
        src[2],
        src[3],
        dst[0],
        dst[1],
        dst[2],
        dst[3],
    ]
}

/// The header with the checksum that makes its sum 0xffff.
fn summed_header(total: u16, src: Ipv4, dst: Ipv4) -> [u8; 20]
    ensures { result ≡ summed_header total src dst }
{
    let sum = ones_sum(&ip_header(total, 0, src, dst));
    ip_header(total, 0xffff - sum, src, dst)
}

/// The sum of a few bytes.
fn byte_sum(bytes: &[u8]) -> u16
    requires { length bytes.now ≤ 12 }
    ensures value { result ≡ sum bytes.now }
    ensures small { result ≤ 255 * length bytes.now }
{
    let mut sum = 0;
    'bytes: for byte in bytes {
        sum += u16::from(*byte);
    }
    sum
}

/// A source port that differs with the addresses and the type of the inner frame.
fn source_port(inner: &Inner<'_>) -> u16
    ensures { result ≡ source_port inner.now }
{
    let (type_bytes, _) = inner.rest().split_at(2);
    49152 + (byte_sum(inner.addresses()) + byte_sum(type_bytes)) % 16384
}

/// A UDP header without checksum, with the port of VXLAN as the destination.
fn udp_header(port: u16, size: u16) -> [u8; 8]
    requires { size ≤ 9216 }
    ensures { result ≡ udp_header port size }
{
    let source = port.to_be_bytes();
    let destination = PORT.to_be_bytes();
    let length = (16 + size).to_be_bytes();
    [
        source[0],
        source[1],
        destination[0],
        destination[1],
        length[0],
        length[1],
        NO_CHECKSUM[0],
        NO_CHECKSUM[1],
    ]
}

/// A VXLAN header, whose only flag says that a network is named.
fn vxlan_header(vni: Vni) -> [u8; 8]
    ensures { result ≡ vxlan_header vni }
{
    let network = (256 * vni.number()).to_be_bytes();
    [
        0x08, 0, 0, 0, network[0], network[1], network[2], network[3],
    ]
}

/// Appends the one written form: 36 bytes of headers, and the inner frame.
pub fn encode(
    src: Ipv4,
    dst: Ipv4,
    vni: Vni,
    inner: &Inner<'_>,
    out: &mut Bytes,
) -> Result<(), OutOfMemory>
    requires least { 14 ≤ length inner.now }
    requires most { length inner.now ≤ 9216 }
    requires untagged { tag_at inner.now 12 ≡ false }
    ensures ok { OnOk result (out.new ≡ out.old ++ canon src dst vni inner.now) }
    ensures err { OnErr result (out.new ≡ out.old) }
{
    let size = inner.len() as u16;
    let header = summed_header(36 + size, src, dst);
    let udp = udp_header(source_port(inner), size);
    let vxlan = vxlan_header(vni);
    out.append_all(&[&header, &udp, &vxlan, inner.addresses(), inner.rest()])
}

/// Appends the one written form where there is room for its 36 bytes of headers and the inner frame. Takes no memory.
pub fn encode_within(src: Ipv4, dst: Ipv4, vni: Vni, inner: &Inner<'_>, out: &mut RoomyBytes)
    requires least { 14 ≤ length inner.now }
    requires most { length inner.now ≤ 9216 }
    requires untagged { tag_at inner.now 12 ≡ false }
    requires room { 36 + length inner.now ≤ out.old.1 }
    ensures bytes { out.new.0 ≡ out.old.0 ++ canon src dst vni inner.now }
    ensures room { out.old.1 ≤ out.new.1 + (36 + length inner.now) }
{
    let size = inner.len() as u16;
    let header = summed_header(36 + size, src, dst);
    let udp = udp_header(source_port(inner), size);
    let vxlan = vxlan_header(vni);
    out.append(&header);
    out.append(&udp);
    out.append(&vxlan);
    out.append(inner.addresses());
    out.append(inner.rest());
}

/// A law: the written form is a packet that says what it was made of, and decoding it gives that back.
pub fn written_is_decoded()
    ensures packet { (src dst vni : ℕ) (inner : List ℕ) → src < 2 ^ 32 → dst < 2 ^ 32 → vni < 2 ^ 24
        → IsInner inner
        → IsPacket (canon src dst vni inner) src dst vni inner }
    ensures decoded { (src dst vni : ℕ) (inner : List ℕ) → src < 2 ^ 32 → dst < 2 ^ 32 → vni
        < 2 ^ 24 → IsInner inner
        → packet_of (canon src dst vni inner) ≡ Ok (src, dst, vni, inner) }
{}
