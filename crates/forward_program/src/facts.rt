//! The facts of the forwarding state.

ghost use Rattle.std.specs.Prelude.{◌≡◌};
ghost use Rattle.forward_program.specs.Places.{is_here};

use acl_rules::Entry;
use vtep_base::{Ipv4, List, Mac, Name, RowId, Vlan, Vni};

/// Where an address of a switch is.
#[derive(Clone, Copy, Debug, PartialEq, Eq)]
pub enum Place {
    /// At a VLAN of a port of this gateway.
    Here { port: Name, vlan: Vlan },
    /// Behind the gateway of this address.
    There(Ipv4),
}

impl Place {
    pub(crate) fn is_here(&self) -> bool
        ensures { result ≡ is_here self.now }
    {
        matches!(self, Place::Here { .. })
    }
}

/// One thing that the forwarding state says. Switches and ACLs are named by their rows.
#[derive(Drop)]
pub enum Fact {
    /// A bound switch and its network.
    Vni {
        vni: Vni,
        switch: RowId,
    },
    /// A VLAN of a port, the switch that it is bound to, and its ACLs, that of key 0 first.
    Bind {
        port: Name,
        vlan: Vlan,
        switch: RowId,
        lists: List<RowId>,
    },
    /// An ACL that some binding's lists name, and its entries, by sequence and then by row.
    Acl {
        acl: RowId,
        entries: List<Entry>,
    },
    /// A learnt address, or one of a bound switch behind another gateway, and where it is.
    Mac {
        switch: RowId,
        mac: Mac,
        place: Place,
    },
    /// Where frames of a bound switch to a group address are sent, or, where the group is None,
    /// those to an individual address that is not known and to a group without a fact of its own.
    Flood {
        switch: RowId,
        group: Option<Mac>,
        addresses: List<Ipv4>,
    },
}
