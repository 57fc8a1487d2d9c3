//! Places of a fabric, and frames without their tag.

ghost use Rattle.std.specs.Prelude.{◌≡◌, ◌+◌, ◌++◌, ◌≤◌, length, take, drop};

use crate::names::Name;
use crate::numbers::Vlan;
use std::marker::Model;

/// A VLAN of a port of a gateway, which a switch may be bound to. Bindings are in the order of gateway, port and VLAN.
#[derive(Clone, Copy, Debug, PartialEq, Eq, PartialOrd, Ord)]
pub struct Binding {
    /// The name of the gateway.
    pub gateway: Name,
    /// The name of its port.
    pub port: Name,
    /// The VLAN; 0 for frames without tag.
    pub vlan: Vlan,
}

/// A frame without tag: twelve bytes of addresses, then at least two bytes from the type on. Contracts see the two joined.
#[derive(Debug, Drop)]
pub struct Inner<'a> {
    addresses: &'a [u8],
    rest: &'a [u8],
}

impl<'a> Model for Inner<'a> {
    ghost use Rattle.std.specs.Prelude.{◌≡◌, ◌≤◌, ◌++◌, ℕ, List, length};

    ghost Value = { List ℕ };

    ghost view = { λ i. i.addresses.now ++ i.rest.now };

    ghost invariant = { λ i. (length i.addresses.now ≡ 12) × (2 ≤ length i.rest.now) };
}

impl<'a> Inner<'a> {
    /// The frame of these two parts.
    pub fn new(addresses: &'a [u8], rest: &'a [u8]) -> Inner<'a>
        requires twelve { length addresses.now ≡ 12 }
        requires has_type { 2 ≤ length rest.now }
        ensures { result ≡ addresses.entry.now ++ rest.entry.now }
    {
        Inner { addresses, rest }
    }

    /// The destination and the source.
    pub fn addresses(&self) -> &'a [u8]
        ensures value { result.now ≡ take 12 self.now }
        ensures twelve { length result.now ≡ 12 }
    {
        self.addresses
    }

    /// The type and the data.
    pub fn rest(&self) -> &'a [u8]
        ensures value { result.now ≡ drop 12 self.now }
        ensures has_type { 2 ≤ length result.now }
    {
        self.rest
    }

    /// How many bytes both have.
    pub fn len(&self) -> usize
        ensures { result ≡ length self.now }
    {
        self.addresses.len() + self.rest.len()
    }
}
