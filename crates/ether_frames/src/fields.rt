//! The fields of a frame's headers that rules look at.

use vtep_base::{Ipv4, Mac};

/// The ports of TCP or UDP.
#[derive(Clone, Copy, Debug, PartialEq, Eq)]
pub struct Ports {
    /// The port that sends.
    pub source: u16,
    /// The port that is sent to.
    pub destination: u16,
}

/// What an ICMP message is (RFC 792).
#[derive(Clone, Copy, Debug, PartialEq, Eq)]
pub struct Icmp {
    /// The field `Type`.
    pub kind: u8,
    /// The field `Code`.
    pub code: u8,
}

/// The fields of an IPv4 header (RFC 791), and of what follows it where that is the first fragment.
#[derive(Clone, Copy, Debug, PartialEq, Eq)]
pub struct Ip {
    /// The address that sends.
    pub source: Ipv4,
    /// The address that is sent to.
    pub destination: Ipv4,
    /// The number of the protocol: 1 for ICMP, 6 for TCP, 17 for UDP.
    pub protocol: u8,
    /// The ports, where they are there.
    pub ports: Option<Ports>,
    /// The nine flags of TCP from NS down to FIN, below 512, where they are there.
    pub tcp_flags: Option<u16>,
    /// Type and code of ICMP, where they are there.
    pub icmp: Option<Icmp>,
}

/// The fields of a frame without tag that rules look at.
#[derive(Clone, Copy, Debug, PartialEq, Eq)]
pub struct Headers {
    /// The address that the frame is for.
    pub destination: Mac,
    /// The address that it comes from.
    pub source: Mac,
    /// The type of what the frame carries (IEEE 802.3).
    pub ethertype: u16,
    /// The IPv4 header, where it is there.
    pub ip: Option<Ip>,
}
