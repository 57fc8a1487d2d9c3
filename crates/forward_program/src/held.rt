//! What stands at the places of the forwarding state.

ghost use Rattle.std.specs.Prelude.{◌≡◌, ◌≤◌, length, vec_len};
ghost use Rattle.forward_program.specs.Same.{same_number, same_lists, same_binding};

use acl_rules::FewRules;
use std::marker::Model;
use vtep_base::{Ipv4, Mode, Name, RowId, Vlan, Vni};

/// A list of at most 64 items.
#[derive(Drop)]
pub struct Few<T: Drop> {
    items: Vec<T>,
}

impl<T: Drop> Model for Few<T> {
    ghost use Rattle.std.specs.Prelude.{List, ◌≤◌, vec_len};

    ghost Value = { List T };

    ghost view = { λ f. f.items.items };

    ghost invariant = { λ f. vec_len f.items ≤ 64 };
}

impl<T: Drop> Few<T> {
    /// The items of a vector. Takes no memory.
    pub fn new(items: Vec<T>) -> Few<T>
        requires { vec_len items ≤ 64 }
        ensures { result ≡ items.items }
    {
        Few { items }
    }

    /// The items in their order.
    pub fn as_slice(&self) -> &[T]
        ensures items { result.now ≡ self.now }
        ensures few { length result.now ≤ 64 }
    {
        self.items.as_slice()
    }
}

/// The ACLs of a VLAN of a port, by their rows (vtep(5), `acl_bindings` of Physical_Port).
#[derive(Clone, Copy)]
pub struct Lists {
    /// That of all VLANs, at key 0.
    pub all: Option<RowId>,
    /// That of the VLAN, where it is not 0.
    pub own: Option<RowId>,
}

fn same_id(a: Option<RowId>, b: Option<RowId>) -> bool
    ensures { result ≡ same_number a b }
{
    match a {
        None => b.is_none(),
        Some(a) => match b {
            None => false,
            Some(b) => a == b,
        },
    }
}

impl Lists {
    fn same(&self, other: &Lists) -> bool
        ensures { result ≡ same_lists self.now other.now }
    {
        same_id(self.all, other.all) && same_id(self.own, other.own)
    }
}

/// What stands at a place.
#[derive(Drop)]
pub enum Held {
    /// At a VLAN of a port: its binding.
    Bound {
        switch: RowId,
        lists: Lists,
    },
    /// At a switch: its `tunnel_key` and `replication_mode`.
    Switch {
        vni: Option<Vni>,
        mode: Mode,
    },
    /// At a member of a switch.
    Lists(Lists),
    /// At a group of a switch: its locator set.
    Set(RowId),
    /// At an address of a switch: where it was learnt, and the locator of its remote row.
    Host {
        here: Option<(Name, Vlan)>,
        there: Option<RowId>,
    },
    /// At a network: its switch.
    Of(RowId),
    /// At a locator set: its locators.
    Members(Few<RowId>),
    /// At a locator: its address, which is not the gateway's own.
    Address(Ipv4),
    /// At an ACL: its entries.
    Rules(FewRules),
}

impl Held {
    /// Whether both are the same, where they stand at a place of a binding.
    pub(crate) fn same_binding(&self, other: &Held) -> bool
        ensures { result ≡ same_binding self.now other.now }
    {
        match self {
            Held::Bound { switch, lists } => match other {
                Held::Bound {
                    switch: other_switch,
                    lists: other_lists,
                } => switch == other_switch && lists.same(other_lists),
                _ => false,
            },
            Held::Lists(lists) => match other {
                Held::Lists(other_lists) => lists.same(other_lists),
                _ => false,
            },
            _ => false,
        }
    }
}
