//! Entries of access lists.

use vtep_base::{Action, Direction, Ipv4, Mac, RowId};

/// An entry of an access list: one field for each column of its row. A field that is absent says nothing of a frame.
#[derive(Clone, Copy, Debug, PartialEq, Eq)]
pub struct Entry {
    /// The row.
    pub id: RowId,
    /// The place among the entries: lower numbers come first.
    pub sequence: u32,
    /// Which way a frame passes the port.
    pub direction: Direction,
    /// What becomes of a frame.
    pub action: Action,
    /// The source of the frame.
    pub source_mac: Option<Mac>,
    /// The destination of the frame.
    pub dest_mac: Option<Mac>,
    /// The type of what the frame carries.
    pub ethertype: Option<u16>,
    /// The source in the IPv4 header.
    pub source_ip: Option<Ipv4>,
    /// The bits of `source_ip` that are looked at; all, where it is absent.
    pub source_mask: Option<Ipv4>,
    /// The destination in the IPv4 header.
    pub dest_ip: Option<Ipv4>,
    /// The bits of `dest_ip` that are looked at; all, where it is absent.
    pub dest_mask: Option<Ipv4>,
    /// The number of the protocol in the IPv4 header.
    pub protocol: Option<u8>,
    /// The type of the ICMP message.
    pub icmp_type: Option<u8>,
    /// The code of the ICMP message.
    pub icmp_code: Option<u8>,
    /// The least source port; 0, where it is absent and the greatest is given.
    pub source_port_min: Option<u16>,
    /// The greatest source port; 65535, where it is absent and the least is given.
    pub source_port_max: Option<u16>,
    /// The least destination port; 0, where it is absent and the greatest is given.
    pub dest_port_min: Option<u16>,
    /// The greatest destination port; 65535, where it is absent and the least is given.
    pub dest_port_max: Option<u16>,
    /// The nine flags of TCP from NS down to FIN.
    pub tcp_flags: Option<u16>,
    /// The flags that are looked at; all nine, where it is absent.
    pub tcp_flags_mask: Option<u16>,
}
