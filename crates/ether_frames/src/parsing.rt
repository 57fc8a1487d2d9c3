//! The headers of a frame, as rules look at them.

ghost use Rattle.std.specs.Prelude.{◌≡◌, ◌≤◌, ◌<◌, ◌+◌, length, IsTrue};
ghost use Rattle.vtep_base.specs.Addresses.{be};
ghost use Rattle.ether_frames.specs.Headers.{word, four_bytes, header_length, has_ipv4, payload, ports_of, tcp_flags_of, icmp_of, ip_of, carried_ip, headers_of};

use crate::fields::{Headers, Icmp, Ip, Ports};
use vtep_base::{Inner, Ipv4, Mac};

/// The EtherType of IPv4 (RFC 894).
const IPV4: u16 = 0x0800;

/// ICMP (RFC 792).
const ICMP: u8 = 1;

/// TCP (RFC 9293).
const TCP: u8 = 6;

/// UDP (RFC 768).
const UDP: u8 = 17;

fn address(bytes: &[u8]) -> Mac
    requires { length bytes.now ≡ 6 }
    ensures { result ≡ be bytes.now }
{
    Mac::from_bytes([bytes[0], bytes[1], bytes[2], bytes[3], bytes[4], bytes[5]])
}

/// Two bytes as a number, the high byte first.
fn word(bytes: &[u8], at: usize) -> u16
    requires { at + 1 < length bytes.now }
    ensures { result ≡ word bytes.now at }
{
    u16::from(bytes[at]) * 256 + u16::from(bytes[at + 1])
}

fn four_bytes(bytes: &[u8], at: usize) -> u32
    requires { at + 3 < length bytes.now }
    ensures { result ≡ four_bytes bytes.now at }
{
    u32::from(word(bytes, at)) * 65536 + u32::from(word(bytes, at + 2))
}

fn header_length(packet: &[u8]) -> usize
    requires { 1 ≤ length packet.now }
    ensures { result ≡ header_length packet.now }
{
    4 * usize::from(packet[0] % 16)
}

/// Whether the bytes begin with an IPv4 header (RFC 791).
fn has_ipv4(packet: &[u8]) -> bool
    ensures value { result ≡ has_ipv4 packet.now }
    ensures least { IsTrue result → 20 ≤ header_length packet.now }
    ensures within { IsTrue result → header_length packet.now ≤ length packet.now }
{
    if packet.len() < 20 || packet[0] / 16 != 4 {
        return false;
    }
    let length = header_length(packet);
    length >= 20 && length <= packet.len()
}

/// What follows the header, in the first fragment; no bytes in a later one.
fn payload(packet: &[u8]) -> &[u8]
    requires least { 20 ≤ header_length packet.now }
    requires within { header_length packet.now ≤ length packet.now }
    ensures { result.now ≡ payload packet.now }
{
    // The offset of a fragment is the low 13 bits.
    if word(packet, 6) % (1 << 13) != 0 {
        return &[];
    }
    let (_, payload) = packet.split_at(header_length(packet));
    payload
}

fn ports(protocol: u8, payload: &[u8]) -> Option<Ports>
    ensures { result ≡ ports_of protocol payload.now }
{
    if protocol != TCP && protocol != UDP || payload.len() < 4 {
        return None;
    }
    Some(Ports {
        source: word(payload, 0),
        destination: word(payload, 2),
    })
}

fn tcp_flags(protocol: u8, payload: &[u8]) -> Option<u16>
    ensures { result ≡ tcp_flags_of protocol payload.now }
{
    if protocol != TCP || payload.len() < 14 {
        return None;
    }
    Some(word(payload, 12) % 512)
}

fn icmp(protocol: u8, payload: &[u8]) -> Option<Icmp>
    ensures { result ≡ icmp_of protocol payload.now }
{
    if protocol != ICMP || payload.len() < 2 {
        return None;
    }
    Some(Icmp {
        kind: payload[0],
        code: payload[1],
    })
}

fn ip(packet: &[u8]) -> Option<Ip>
    ensures { result ≡ ip_of packet.now }
{
    if !has_ipv4(packet) {
        return None;
    }
    let protocol = packet[9];
    let payload = payload(packet);
    Some(Ip {
        source: Ipv4::from_bits(four_bytes(packet, 12)),
        destination: Ipv4::from_bits(four_bytes(packet, 16)),
        protocol,
        ports: ports(protocol, payload),
        tcp_flags: tcp_flags(protocol, payload),
        icmp: icmp(protocol, payload),
    })
}

fn carried(ethertype: u16, packet: &[u8]) -> Option<Ip>
    ensures { result ≡ carried_ip ethertype packet.now }
{
    if ethertype == IPV4 { ip(packet) } else { None }
}

/// The fields of a frame's headers that rules look at, from IEEE 802.3, RFC 791, 768, 9293 and 792. Takes no memory.
///
/// The IPv4 fields are there where the EtherType is 0x0800 and an IPv4 header follows: at least 20 bytes, version 4, and a
/// header length of at least 20 that is within the bytes. Neither checksum nor total length is looked at. The rest is
/// there only in a fragment of offset 0: ports for TCP and UDP with at least 4 bytes behind the header, flags for TCP with
/// at least 14, type and code for ICMP with at least 2.
pub fn headers(inner: &Inner<'_>) -> Headers
    ensures { result ≡ headers_of inner.now }
{
    let (destination, source) = inner.addresses().split_at(6);
    let ethertype = word(inner.rest(), 0);
    let (_, packet) = inner.rest().split_at(2);
    Headers {
        destination: address(destination),
        source: address(source),
        ethertype,
        ip: carried(ethertype, packet),
    }
}
