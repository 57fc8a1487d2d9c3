//! The places of the forwarding state.

ghost use Rattle.std.specs.Prelude.{◌≡◌};
ghost use Rattle.forward_program.specs.BindingSpots.{is_binding_spot};

use vtep_base::{Mac, Name, RowId, Vlan, Vni};

/// What belongs to a switch, in this order.
#[derive(Clone, Copy, PartialEq, Eq, PartialOrd, Ord)]
pub enum Part {
    /// The switch's own row.
    Itself,
    /// A VLAN of a port that is bound to the switch.
    Member(Name, Vlan),
    /// A group address, or all destinations that are not known.
    Group(Option<Mac>),
    /// An individual address.
    Host(Mac),
}

/// A place of the forwarding state, named by rows. Places are in the order of this text, so that
/// all that belongs to a switch stands together, its bindings by port and VLAN.
#[derive(Clone, Copy, PartialEq, Eq, PartialOrd, Ord)]
pub enum Spot {
    /// A VLAN of a port.
    Port(Name, Vlan),
    /// A part of a switch.
    Switch(RowId, Part),
    /// A network.
    Vni(Vni),
    /// A locator set.
    Set(RowId),
    /// A locator.
    Locator(RowId),
    /// An ACL.
    Acl(RowId),
}

impl Spot {
    /// Whether it is a VLAN of a port, or a member of a switch.
    pub(crate) fn is_binding(&self) -> bool
        ensures { result ≡ is_binding_spot self.now }
    {
        matches!(self, Spot::Port(..) | Spot::Switch(_, Part::Member(..)))
    }
}
