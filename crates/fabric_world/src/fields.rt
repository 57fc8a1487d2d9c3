//! What entries of access lists look at.

use vtep_base::{Ipv4, Mac, Txt};

/// The fields of an entry of an access list: one for each optional column of its row, in the order
/// of the table. A field that is absent says nothing of a frame.
#[derive(Debug, Drop)]
pub struct AclFields {
    pub source_mac: Option<Mac>,
    pub dest_mac: Option<Mac>,
    /// `0x` and four hexadecimal digits, as they were written.
    pub ethertype: Option<Txt>,
    pub source_ip: Option<Ipv4>,
    pub source_mask: Option<Ipv4>,
    pub dest_ip: Option<Ipv4>,
    pub dest_mask: Option<Ipv4>,
    pub protocol: Option<u8>,
    pub icmp_type: Option<u8>,
    pub icmp_code: Option<u8>,
    pub source_port_min: Option<u16>,
    pub source_port_max: Option<u16>,
    pub dest_port_min: Option<u16>,
    pub dest_port_max: Option<u16>,
    pub tcp_flags: Option<u16>,
    pub tcp_flags_mask: Option<u16>,
}

/// One of the fields of an entry, with its value.
#[derive(Debug, Drop)]
pub enum AclField {
    SourceMac(Mac),
    DestMac(Mac),
    Ethertype(Txt),
    SourceIp(Ipv4),
    SourceMask(Ipv4),
    DestIp(Ipv4),
    DestMask(Ipv4),
    Protocol(u8),
    IcmpType(u8),
    IcmpCode(u8),
    SourcePortMin(u16),
    SourcePortMax(u16),
    DestPortMin(u16),
    DestPortMax(u16),
    TcpFlags(u16),
    TcpFlagsMask(u16),
}

/// The names of the fields.
#[derive(Clone, Copy, Debug, PartialEq, Eq)]
pub enum FieldName {
    SourceMac,
    DestMac,
    Ethertype,
    SourceIp,
    SourceMask,
    DestIp,
    DestMask,
    Protocol,
    IcmpType,
    IcmpCode,
    SourcePortMin,
    SourcePortMax,
    DestPortMin,
    DestPortMax,
    TcpFlags,
    TcpFlagsMask,
}
