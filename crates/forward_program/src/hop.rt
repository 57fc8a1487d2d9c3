//! Where a frame goes by the forwarding state.

ghost use Rattle.std.specs.Prelude.{◌≡◌, ◌++◌, List, [], ◌∷◌, false, None, IfOk, IsOk, OnOk, OnErr, ◌≤◌, ◌<◌, ◌+◌, ◌^◌, length, count_by};
ghost use Rattle.std.specs.Option.{option_to_list};
ghost use Rattle.vtep_base.specs.Addresses.{be};
ghost use Rattle.vtep_rows.specs.Rows.{Rows as AllRows, IsRows};
ghost use Rattle.vtep_rows.specs.Sound.{Sound};
ghost use Rattle.replication.specs.Targets.{targets};
ghost use Rattle.acl_rules.specs.Permits.{permits};
ghost use Rattle.ether_frames.specs.Headers.{headers_of};
ghost use Rattle.forward_program.specs.Built.{acl_rows, built};
ghost use Rattle.forward_program.specs.Shown.{shown};
ghost use Rattle.mac_learning.specs.declared.Learnt.{Learnt};
ghost use Rattle.mac_learning.specs.Learning.{IsOnce};
ghost use Rattle.forward_program.specs.Joins.{flood_at, mode_at, addresses_at};
ghost use Rattle.forward_program.specs.Hop.{source, may_pass, let_out, admitted, admission, but, group_targets, flooded, tunnelled, place_of, ports_to, addresses_to, sent_on, from_port, from_tunnel, hop, ways_at, ways_of};
ghost use Rattle.forward_program.specs.HopIs.{HopIs};
ghost use Rattle.forward_program.specs.Rooms.{HasRoom, KeepsRoom, Lacks, addresses_needed, is_binding};

use crate::facts::Place;
use crate::fib::Fib;
use crate::held::{Held, Lists};
use crate::hops::{Admission, Hops, Origin, Outcome};
use crate::looks::Step;
use crate::spots::{Part, Spot};
use ether_frames::{Headers, headers};
use vtep_base::{Direction, Inner, Ipv4, Ledger, Mac, Mode, Name, OutOfMemory, RowId, Vlan, Vni};

/// The most locators of a set.
const MOST_LOCATORS: usize = 64;

fn mac_of(bytes: &[u8]) -> Mac
    requires { length bytes.now ≡ 6 }
    ensures { result ≡ be bytes.now }
{
    Mac::from_bytes([bytes[0], bytes[1], bytes[2], bytes[3], bytes[4], bytes[5]])
}

/// The address that a frame comes from.
pub fn source(inner: &Inner<'_>) -> Mac
    ensures { result ≡ source inner.now }
{
    let (_, second) = inner.addresses().split_at(6);
    mac_of(second)
}

fn push_other<L: Ledger>(
    from: &Option<(Name, Vlan)>,
    port: (Name, Vlan),
    out: &mut Hops<L>,
) -> Result<(), OutOfMemory>
    ensures ports { OnOk result (out.new.ports ≡ out.old.ports ++ but from.now (port ∷ [])) }
    ensures addresses { out.new.addresses ≡ out.old.addresses }
    ensures vni { out.new.vni ≡ out.old.vni }
    ensures kept { KeepsRoom out.old out.new }
    ensures full { OnErr result (out.old.port_room ≤ length out.old.ports) }
{
    if let Some(entered) = from {
        if port.0 == entered.0 && port.1 == entered.1 {
            return Ok(());
        }
    }
    out.push_port(port)
}

fn push_tunnel<L: Ledger>(ip: Ipv4, out: &mut Hops<L>) -> Result<(), OutOfMemory>
    requires { out.old.addresses ≡ [] }
    ensures addresses { OnOk result (out.new.addresses ≡ tunnelled out.old.vni (ip ∷ [])) }
    ensures ports { out.new.ports ≡ out.old.ports }
    ensures vni { out.new.vni ≡ out.old.vni }
    ensures kept { KeepsRoom out.old out.new }
    ensures full { OnErr result (out.old.address_room ≤ 0) }
{
    if out.vni().is_none() {
        return Ok(());
    }
    out.push_address(ip)
}

impl<L: Ledger> Fib<L> {
    fn permits(&self, acl: RowId, headers: &Headers, direction: Direction) -> bool
        ensures { result
            ≡ permits ((ways_at self.now.entries).entries acl) headers.now direction }
    {
        match self.rules(acl) {
            Some(rules) => rules.permits(headers, direction),
            None => true,
        }
    }

    fn permits_if(&self, acl: Option<RowId>, headers: &Headers, direction: Direction) -> bool
        ensures { result
            ≡ may_pass (ways_at self.now.entries) direction headers.now (option_to_list acl) }
    {
        match acl {
            Some(acl) => self.permits(acl, headers, direction),
            None => true,
        }
    }

    /// Whether each list permits a frame this way.
    fn may_pass(&self, lists: &Lists, headers: &Headers, direction: Direction) -> bool
        ensures { result
            ≡ may_pass (ways_at self.now.entries) direction headers.now (acl_rows lists.now) }
    {
        self.permits_if(lists.all, headers, direction)
            && self.permits_if(lists.own, headers, direction)
    }

    fn lists(&self, port: Name, vlan: Vlan) -> Lists
        ensures { acl_rows result ≡ (ways_at self.now.entries).lists (port, vlan) }
    {
        match self.bound(port, vlan) {
            Some(bound) => bound.1,
            None => Lists {
                all: None,
                own: None,
            },
        }
    }

    /// Adds a binding, unless the frame entered there or its lists do not let the frame out.
    fn push_listed(
        &self,
        from: &Option<(Name, Vlan)>,
        port: (Name, Vlan),
        lists: &Lists,
        headers: &Headers,
        out: &mut Hops<L>,
    ) -> Result<(), OutOfMemory>
        ensures ports { OnOk result (out.new.ports ≡ out.old.ports ++ but from.now
            (let_out (ways_at self.now.entries) headers.now ((port, acl_rows lists.now) ∷ []))) }
        ensures addresses { out.new.addresses ≡ out.old.addresses }
        ensures vni { out.new.vni ≡ out.old.vni }
        ensures kept { KeepsRoom out.old out.new }
        ensures full { OnErr result (out.old.port_room ≤ length out.old.ports) }
    {
        if !self.may_pass(lists, headers, Direction::Egress) {
            return Ok(());
        }
        push_other(from, port, out)
    }

    fn push_here(
        &self,
        from: &Option<(Name, Vlan)>,
        port: (Name, Vlan),
        headers: &Headers,
        out: &mut Hops<L>,
    ) -> Result<(), OutOfMemory>
        ensures ports { OnOk result (out.new.ports ≡ out.old.ports ++ but from.now
            (let_out (ways_at self.now.entries) headers.now
            ((port, (ways_at self.now.entries).lists port) ∷ []))) }
        ensures addresses { out.new.addresses ≡ out.old.addresses }
        ensures vni { out.new.vni ≡ out.old.vni }
        ensures kept { KeepsRoom out.old out.new }
        ensures full { OnErr result (out.old.port_room ≤ length out.old.ports) }
    {
        self.push_listed(from, port, &self.lists(port.0, port.1), headers, out)
    }

    fn flood_ports(
        &self,
        switch: RowId,
        from: &Option<(Name, Vlan)>,
        headers: &Headers,
        out: &mut Hops<L>,
    ) -> Result<(), OutOfMemory>
        ensures ports { OnOk result (out.new.ports ≡ out.old.ports
            ++ but from.now (let_out (ways_at self.now.entries) headers.now
            ((ways_at self.now.entries).ports switch))) }
        ensures addresses { out.new.addresses ≡ out.old.addresses }
        ensures vni { out.new.vni ≡ out.old.vni }
        ensures kept { KeepsRoom out.old out.new }
        ensures full { OnErr result (out.old.port_room < length out.old.ports
            + length ((ways_at self.now.entries).ports switch)) }
    {
        'members: for (spot, held) in self.entries.walk(Some(&Spot::Switch(switch, Part::Itself))) {
            match Step::of(switch, spot, held) {
                Step::Itself => {}
                Step::Member(port, vlan, lists) => {
                    self.push_listed(from, (port, vlan), &lists, headers, out)?;
                }
                Step::Other => return Ok(()),
            }
        }
        Ok(())
    }

    /// Where the switch sends the frames of a group, or of all destinations that are not known.
    fn put_targets(
        &self,
        switch: RowId,
        group: Option<Mac>,
        out: &mut Hops<L>,
    ) -> Result<(), OutOfMemory>
        requires { out.old.addresses ≡ [] }
        ensures addresses { OnOk result
            (out.new.addresses ≡ flood_at self.now.entries switch group) }
        ensures ports { out.new.ports ≡ out.old.ports }
        ensures vni { out.new.vni ≡ out.old.vni }
        ensures kept { KeepsRoom out.old out.new }
        ensures full { OnErr result (out.old.address_room < addresses_needed) }
    {
        match self.entries.find(&Spot::Switch(switch, Part::Group(group))) {
            Some(Held::Set(set)) => self.put_set_targets(switch, *set, out),
            _ => Ok(()),
        }
    }

    fn put_set_targets(
        &self,
        switch: RowId,
        set: RowId,
        out: &mut Hops<L>,
    ) -> Result<(), OutOfMemory>
        requires { out.old.addresses ≡ [] }
        ensures addresses { OnOk result (out.new.addresses
            ≡ targets (mode_at self.now.entries switch) (addresses_at self.now.entries set)) }
        ensures ports { out.new.ports ≡ out.old.ports }
        ensures vni { out.new.vni ≡ out.old.vni }
        ensures kept { KeepsRoom out.old out.new }
        ensures full { OnErr result (out.old.address_room < addresses_needed) }
    {
        self.put_addresses(set, &mut out.addresses)?;
        match self.mode(switch) {
            Mode::Source => {}
            Mode::Service => out.addresses.truncate(1),
        }
        Ok(())
    }

    fn put_group_targets(
        &self,
        switch: RowId,
        destination: Mac,
        out: &mut Hops<L>,
    ) -> Result<(), OutOfMemory>
        requires { out.old.addresses ≡ [] }
        ensures addresses { OnOk result (out.new.addresses
            ≡ group_targets (ways_at self.now.entries) switch destination) }
        ensures ports { out.new.ports ≡ out.old.ports }
        ensures vni { out.new.vni ≡ out.old.vni }
        ensures kept { KeepsRoom out.old out.new }
        ensures full { OnErr result (out.old.address_room < addresses_needed) }
    {
        if destination.is_group() {
            self.put_targets(switch, Some(destination), out)
        } else {
            Ok(())
        }
    }

    fn flood_tunnels(
        &self,
        switch: RowId,
        destination: Mac,
        out: &mut Hops<L>,
    ) -> Result<(), OutOfMemory>
        requires { out.old.addresses ≡ [] }
        ensures addresses { OnOk result (out.new.addresses
            ≡ flooded (ways_at self.now.entries) switch destination) }
        ensures ports { out.new.ports ≡ out.old.ports }
        ensures vni { out.new.vni ≡ out.old.vni }
        ensures kept { KeepsRoom out.old out.new }
        ensures full { OnErr result (out.old.address_room < addresses_needed) }
    {
        self.put_group_targets(switch, destination, out)?;
        if out.addresses().is_empty() {
            return self.put_targets(switch, None, out);
        }
        Ok(())
    }

    fn flood(
        &self,
        switch: RowId,
        from: &Option<(Name, Vlan)>,
        headers: &Headers,
        out: &mut Hops<L>,
    ) -> Result<(), OutOfMemory>
        requires ports { out.old.ports ≡ [] }
        requires addresses { out.old.addresses ≡ [] }
        ensures ports { OnOk result (out.new.ports
            ≡ ports_to (ways_at self.now.entries) switch from.now headers.now None) }
        ensures addresses { OnOk result (out.new.addresses ≡ addresses_to
            (ways_at self.now.entries) switch out.old.vni headers.now.destination None) }
        ensures vni { out.new.vni ≡ out.old.vni }
        ensures kept { KeepsRoom out.old out.new }
        ensures full { OnErr result (Lacks self.now.entries out.old) }
    {
        self.flood_ports(switch, from, headers, out)?;
        if out.vni().is_none() {
            return Ok(());
        }
        self.flood_tunnels(switch, headers.destination, out)
    }

    fn known(&self, switch: RowId, destination: Mac) -> Option<Place>
        ensures { result ≡ place_of (ways_at self.now.entries) switch destination }
    {
        if destination.is_group() {
            return None;
        }
        self.place(switch, destination)
    }

    fn forward(
        &self,
        switch: RowId,
        from: &Option<(Name, Vlan)>,
        headers: &Headers,
        out: &mut Hops<L>,
    ) -> Result<(), OutOfMemory>
        requires ports { out.old.ports ≡ [] }
        requires addresses { out.old.addresses ≡ [] }
        ensures ports { OnOk result (out.new.ports
            ≡ ports_to (ways_at self.now.entries) switch from.now headers.now
            (place_of (ways_at self.now.entries) switch headers.now.destination)) }
        ensures addresses { OnOk result (out.new.addresses ≡ addresses_to
            (ways_at self.now.entries) switch out.old.vni headers.now.destination
            (place_of (ways_at self.now.entries) switch headers.now.destination)) }
        ensures vni { out.new.vni ≡ out.old.vni }
        ensures kept { KeepsRoom out.old out.new }
        ensures full { OnErr result (Lacks self.now.entries out.old) }
    {
        match &self.known(switch, headers.destination) {
            None => self.flood(switch, from, headers, out),
            Some(Place::Here { port, vlan }) => self.push_here(from, (*port, *vlan), headers, out),
            Some(Place::There(ip)) => push_tunnel(*ip, out),
        }
    }

    fn send_on(
        &self,
        switch: RowId,
        from: &Option<(Name, Vlan)>,
        headers: &Headers,
        out: &mut Hops<L>,
    ) -> Result<Outcome, OutOfMemory>
        requires ports { out.old.ports ≡ [] }
        requires addresses { out.old.addresses ≡ [] }
        ensures way { IfOk result (λ outcome. HopIs outcome out.new
            (sent_on (ways_at self.now.entries) switch from.now out.old.vni headers.now)) }
        ensures kept { KeepsRoom out.old out.new }
        ensures full { OnErr result (Lacks self.now.entries out.old) }
    {
        if headers.destination != headers.source {
            self.forward(switch, from, headers, out)?;
        }
        Ok(Outcome::Done)
    }

    fn enter(&self, port: Name, vlan: Vlan, headers: &Headers) -> Admission
        ensures { result ≡ admitted (ways_at self.now.entries) (port, vlan) headers.now
            ((ways_at self.now.entries).bound (port, vlan)) }
    {
        let Some((switch, lists)) = self.bound(port, vlan) else {
            return Admission::Unbound;
        };
        if self.may_pass(&lists, headers, Direction::Ingress) {
            Admission::To(switch)
        } else {
            Admission::Denied
        }
    }

    /// Whether a frame may enter at a VLAN of a port, and the switch that it then comes to: the
    /// VLAN is bound, and each list of its binding permits the frame to come in. Takes no memory.
    pub fn admit(&self, port: Name, vlan: Vlan, inner: &Inner<'_>) -> Admission
        ensures admission { result
            ≡ admission (ways_at self.now.entries) (port, vlan) inner.now }
        // Of sound rows it is what the facts say that are built from the rows and the learnt
        // addresses.
        ensures built { (r : AllRows) → (l : List Learnt) → IsRows r → Sound r → IsOnce l
            → self.now.entries ≡ shown r l
            → result ≡ admission (ways_of (built r l)) (port, vlan) inner.now }
    {
        self.enter(port, vlan, &headers(inner))
    }

    fn hop_from_port(
        &self,
        port: Name,
        vlan: Vlan,
        headers: &Headers,
        out: &mut Hops<L>,
    ) -> Result<Outcome, OutOfMemory>
        requires ports { out.old.ports ≡ [] }
        requires addresses { out.old.addresses ≡ [] }
        requires vni { out.old.vni ≡ None }
        ensures way { IfOk result (λ outcome. HopIs outcome out.new
            (from_port (ways_at self.now.entries) (port, vlan) headers.now
            (admitted (ways_at self.now.entries) (port, vlan) headers.now
            ((ways_at self.now.entries).bound (port, vlan))))) }
        ensures kept { KeepsRoom out.old out.new }
        ensures full { OnErr result (Lacks self.now.entries out.old) }
    {
        match self.enter(port, vlan, headers) {
            Admission::Unbound => Ok(Outcome::Unbound),
            Admission::Denied => Ok(Outcome::Denied),
            Admission::To(switch) => {
                out.set_vni(self.vni(switch));
                self.send_on(switch, &Some((port, vlan)), headers, out)
            }
        }
    }

    fn hop_from_tunnel(
        &self,
        vni: Vni,
        headers: &Headers,
        out: &mut Hops<L>,
    ) -> Result<Outcome, OutOfMemory>
        requires ports { out.old.ports ≡ [] }
        requires addresses { out.old.addresses ≡ [] }
        requires vni { out.old.vni ≡ None }
        ensures way { IfOk result (λ outcome. HopIs outcome out.new
            (from_tunnel (ways_at self.now.entries) headers.now
            ((ways_at self.now.entries).network vni))) }
        ensures kept { KeepsRoom out.old out.new }
        ensures full { OnErr result (Lacks self.now.entries out.old) }
    {
        match self.network(vni) {
            Some(switch) => self.send_on(switch, &None, headers, out),
            None => Ok(Outcome::NoVni),
        }
    }

    fn hop_from(
        &self,
        origin: &Origin,
        inner: &Inner<'_>,
        out: &mut Hops<L>,
    ) -> Result<Outcome, OutOfMemory>
        ensures way { IfOk result (λ outcome. HopIs outcome out.new
            (hop (ways_at self.now.entries) origin.now inner.now)) }
        ensures kept { KeepsRoom out.old out.new }
        ensures full { OnErr result (Lacks self.now.entries out.old) }
    {
        out.clear();
        let headers = headers(inner);
        match origin {
            Origin::Port { port, vlan } => self.hop_from_port(*port, *vlan, &headers, out),
            Origin::Tunnel { vni } => self.hop_from_tunnel(*vni, &headers, out),
        }
    }

    /// Where a frame goes. What `out` held before is taken out first.
    ///
    /// From a port it goes nowhere where the VLAN is not bound, or a list of its binding does not
    /// permit it to come in. A frame to its own source goes nowhere; one to an address with a place
    /// goes there; each other one goes to all other bindings of its switch and, from a port, in a
    /// packet to each address of the group's fact or else of that for destinations that are not
    /// known. Of the bindings those are left out whose lists do not permit it to go out.
    pub fn hop(
        &self,
        origin: Origin,
        inner: &Inner<'_>,
        out: &mut Hops<L>,
    ) -> Result<Outcome, OutOfMemory>
        requires going { self.now.broken ≡ false }
        ensures way { IfOk result (λ outcome. HopIs outcome out.new
            (hop (ways_at self.now.entries) origin inner.now)) }
        // Of sound rows it goes where the facts say that are built from the rows and the learnt
        // addresses.
        ensures built { (r : AllRows) → (l : List Learnt) → IsRows r → Sound r → IsOnce l
            → self.now.entries ≡ shown r l → IfOk result (λ outcome. HopIs outcome out.new
            (hop (ways_of (built r l)) origin inner.now)) }
        ensures kept { KeepsRoom out.old out.new }
        // Where there is room it takes no memory.
        ensures fits { HasRoom self.now.entries out.old → IsOk result }
    {
        self.hop_from(&origin, inner, out)
    }

    fn bindings(&self) -> usize
        ensures count { result ≡ count_by is_binding self.now.entries.list }
        ensures small { result < 2 ^ 63 }
    {
        let mut count: usize = 0;
        'entries: for (spot, _) in self.entries.walk(None) {
            if spot.is_binding() {
                count += 1;
            }
        }
        count
    }

    /// Makes so much room that a hop by this state takes no memory: for one port more than there
    /// are bindings, and for as many addresses as a locator set has at most.
    pub fn reserve_hops(&self, out: &mut Hops<L>) -> Result<(), OutOfMemory>
        requires going { self.now.broken ≡ false }
        ensures room { OnOk result (HasRoom self.now.entries out.new) }
        ensures kept { KeepsRoom out.old out.new }
    {
        out.reserve(self.bindings() + 1, MOST_LOCATORS)
    }
}
