//! The rules of tables and columns.

ghost use Rattle.std.specs.Prelude.{◌≡◌};

use crate::{Column, Table};

/// Texts of which a column holds one.
#[derive(Clone, Copy, Debug, PartialEq, Eq)]
pub enum Words {
    /// `encapsulation_type`: `vxlan_over_ipv4`.
    Encapsulations,
    /// `replication_mode`: `service_node` or `source_node`.
    ReplicationModes,
    /// `direction`: `ingress` or `egress`.
    Directions,
    /// `action`: `permit` or `deny`.
    Actions,
}

/// What an atom of a column may be.
#[derive(Clone, Copy, Debug, PartialEq, Eq)]
pub enum Domain {
    /// A whole number from the least to the most, both included.
    Whole { least: u32, most: u32 },
    /// Any text of at most 255 bytes.
    Text,
    /// One of these texts.
    Word(Words),
    /// A MAC address.
    Mac,
    /// A MAC address of one station: its first byte is even.
    SingleMac,
    /// A MAC address of a group, whose first byte is odd, or `unknown-dst`.
    GroupMac,
    /// An IPv4 address.
    Ipv4,
    /// `0x` and four hexadecimal digits.
    Ethertype,
    /// The identifier of a row of a table.
    Row(Table),
}

/// When a column is written.
#[derive(Clone, Copy, Debug, PartialEq, Eq)]
pub enum Given {
    /// An insertion may leave it out.
    Optional,
    /// An insertion gives it.
    Required,
    /// An insertion gives it, and it never changes.
    Fixed,
}

/// What a column holds: a set of atoms, or a map where `value` is there.
#[derive(Clone, Copy, Debug, PartialEq, Eq)]
pub struct ColumnRule {
    /// What an atom of the set, or a key of the map, may be.
    pub key: Domain,
    /// What a value of the map may be; None for a set.
    pub value: Option<Domain>,
    /// The least size of the set or the map.
    pub least: u32,
    /// The greatest size of the set or the map.
    pub most: u32,
    /// When it is written.
    pub given: Given,
}

/// What a table is.
#[derive(Clone, Copy, Debug, PartialEq, Eq)]
pub struct TableRule {
    /// Its rows stay where nothing names them.
    pub root: bool,
    /// The most rows.
    pub most: u64,
    /// Sessions insert and delete rows, and write all columns.
    pub open_to_sessions: bool,
}
