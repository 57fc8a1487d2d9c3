//! Where a frame goes.

ghost use Rattle.std.specs.Prelude.{◌≡◌, ◌++◌, [], ◌∷◌, None, OnOk, OnErr, ◌≤◌, length};
ghost use Rattle.forward_program.specs.Rooms.{KeepsRoom};

use std::alloc::Global;
use std::marker::{Model, PhantomData};
use vtep_base::{Ipv4, Ledger, Name, OutOfMemory, RowId, Vlan, Vni};

/// Where a frame comes from.
#[derive(Clone, Copy)]
pub enum Origin {
    /// It entered at this VLAN of a port.
    Port { port: Name, vlan: Vlan },
    /// It came in a packet of this network.
    Tunnel { vni: Vni },
}

/// What becomes of a frame.
#[derive(Clone, Copy, Debug, PartialEq, Eq)]
pub enum Outcome {
    /// It goes where the ports and addresses say.
    Done,
    /// The VLAN of the port is bound to no switch.
    Unbound,
    /// An ACL of the binding denies it.
    Denied,
    /// No bound switch has the network.
    NoVni,
}

/// Whether a frame may enter at a VLAN of a port.
#[derive(Clone, Copy, Debug, PartialEq, Eq)]
pub enum Admission {
    /// The VLAN of the port is bound to no switch.
    Unbound,
    /// An ACL of the binding denies it.
    Denied,
    /// It comes to this switch.
    To(RowId),
}

/// Where a frame goes: out of VLANs of ports, and to addresses in packets of a network. Contracts
/// see the two lists, the network, and for how many ports and addresses there is room.
#[derive(Drop)]
pub struct Hops<L: Ledger> {
    of: PhantomData<L>,
    ports: Vec<(Name, Vlan)>,
    pub(crate) addresses: Vec<Ipv4>,
    vni: Option<Vni>,
}

impl<L: Ledger> Model for Hops<L> {
    ghost use Rattle.std.specs.Prelude.{vec_capacity};
    ghost use Rattle.forward_program.specs.Hops.{Hops as Handed, hops_code};

    ghost Value = { Handed };

    ghost coded = { hops_code };

    ghost view = { λ h. record {
      ports = h.ports.items;
      addresses = h.addresses.items;
      vni = h.vni;
      port_room = vec_capacity h.ports;
      address_room = vec_capacity h.addresses;
    } };
}

impl<L: Ledger> Hops<L> {
    /// Nowhere. Takes no memory, as the calls of reading below.
    pub fn new(alloc: Global) -> Hops<L>
        ensures ports { result.ports ≡ [] }
        ensures addresses { result.addresses ≡ [] }
        ensures vni { result.vni ≡ None }
    {
        Hops {
            of: PhantomData,
            ports: Vec::new(alloc),
            addresses: Vec::new(alloc),
            vni: None,
        }
    }

    /// The VLANs of ports, by port and VLAN.
    pub fn ports(&self) -> &[(Name, Vlan)]
        ensures { result.now ≡ self.now.ports }
    {
        self.ports.as_slice()
    }

    /// The addresses, ascending.
    pub fn addresses(&self) -> &[Ipv4]
        ensures { result.now ≡ self.now.addresses }
    {
        self.addresses.as_slice()
    }

    /// The network of the packets.
    pub fn vni(&self) -> Option<Vni>
        ensures { result ≡ self.now.vni }
    {
        self.vni
    }

    pub(crate) fn clear(&mut self)
        ensures ports { self.new.ports ≡ [] }
        ensures addresses { self.new.addresses ≡ [] }
        ensures vni { self.new.vni ≡ None }
        ensures port_room { self.new.port_room ≡ self.old.port_room }
        ensures address_room { self.new.address_room ≡ self.old.address_room }
    {
        self.ports.clear();
        self.addresses.clear();
        self.vni = None;
    }

    pub(crate) fn set_vni(&mut self, vni: Option<Vni>)
        ensures { self.new ≡ record self.old { vni = vni } }
    {
        self.vni = vni;
    }

    pub(crate) fn push_port(&mut self, port: (Name, Vlan)) -> Result<(), OutOfMemory>
        ensures ports { OnOk result (self.new.ports ≡ self.old.ports ++ port ∷ []) }
        ensures addresses { self.new.addresses ≡ self.old.addresses }
        ensures vni { self.new.vni ≡ self.old.vni }
        ensures port_room { self.old.port_room ≤ self.new.port_room }
        ensures address_room { self.new.address_room ≡ self.old.address_room }
        ensures full { OnErr result (self.old.port_room ≤ length self.old.ports) }
    {
        self.ports.push(port)?;
        Ok(())
    }

    pub(crate) fn push_address(&mut self, ip: Ipv4) -> Result<(), OutOfMemory>
        ensures addresses { OnOk result (self.new.addresses ≡ self.old.addresses ++ ip ∷ []) }
        ensures ports { self.new.ports ≡ self.old.ports }
        ensures vni { self.new.vni ≡ self.old.vni }
        ensures port_room { self.new.port_room ≡ self.old.port_room }
        ensures address_room { self.old.address_room ≤ self.new.address_room }
        ensures full { OnErr result (self.old.address_room ≤ length self.old.addresses) }
    {
        self.addresses.push(ip)?;
        Ok(())
    }

    pub(crate) fn reserve(&mut self, ports: usize, addresses: usize) -> Result<(), OutOfMemory>
        ensures lists { OnOk result ((self.new.ports ≡ self.old.ports)
            × (self.new.addresses ≡ self.old.addresses) × (self.new.vni ≡ self.old.vni)) }
        ensures ports { OnOk result (ports ≤ self.new.port_room) }
        ensures addresses { OnOk result (addresses ≤ self.new.address_room) }
        ensures kept { KeepsRoom self.old self.new }
    {
        self.ports.reserve(ports)?;
        self.addresses.reserve(addresses)?;
        Ok(())
    }
}
