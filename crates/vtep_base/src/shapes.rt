//! Words that tables and lists of rules share.

/// What an atom of a column is.
#[derive(Clone, Copy, Debug, PartialEq, Eq)]
pub enum Kind {
    Integer,
    Text,
    /// The identifier of a row.
    Id,
}

/// What a column holds: a set of atoms, or a map where `value` is there.
#[derive(Clone, Copy, Debug, PartialEq, Eq)]
pub struct Shape {
    /// The kind of the set's atoms, or of the map's keys.
    pub key: Kind,
    /// The kind of the map's values; None for a set.
    pub value: Option<Kind>,
}

/// Which way a frame passes a port.
#[derive(Clone, Copy, Debug, PartialEq, Eq)]
pub enum Direction {
    /// Into the gateway.
    Ingress,
    /// Out of the gateway.
    Egress,
}

/// What an entry of an access list does with a frame.
#[derive(Clone, Copy, Debug, PartialEq, Eq)]
pub enum Action {
    Permit,
    Deny,
}
