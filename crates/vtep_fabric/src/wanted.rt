//! What is wanted at a gateway.

ghost use Rattle.std.specs.Prelude.{◌≡◌, ◌++◌, map, IfOk, OnOk};
ghost use Rattle.std.specs.List.{flat_map};
ghost use Rattle.std.specs.Ordering.{nat_cmp};
ghost use Rattle.vtep_base.specs.Maps as maps;
ghost use Rattle.fabric_world.specs.Intentions.{bytes_cmp, binding_cmp};
ghost use Rattle.fabric_world.specs.Installer.{with_each, ascending, bound_at, ports_at, switches_in, acls_in, host_cmp, hosts_at, hosts_of, is_host, others, flood, floods_at};

use crate::intention::Intention;
use crate::peers::{Peer, Peers};
use std::alloc::Global;
use std::collections::BTreeSet;
use std::marker::Model;
use vtep_base::{Binding, Ipv4, List, Name, Ordered, OutOfMemory, RowId, Vlan};

/// A VLAN, and the switch that it is bound to, or the access list that guards it.
pub(crate) type Bound = (Vlan, Name);

/// The row of a port, its VLANs that are bound with their switches, and those that are guarded with
/// their access lists.
pub(crate) type Port = (RowId, List<Bound>, List<Bound>);

/// A switch with bindings at other gateways, and the addresses of these.
pub(crate) type Flood = (Name, List<Ipv4>);

/// At which gateways each switch has a binding.
#[derive(Drop)]
pub(crate) struct Hosts {
    pairs: BTreeSet<(Name, Name)>,
}

impl Model for Hosts {
    ghost use Rattle.std.specs.Prelude.{ℕ, List};

    ghost Value = { List (List ℕ × List ℕ) };

    ghost view = { λ h. h.pairs.keys };
}

fn in_order<K: Ord + Drop>(alloc: Global, ordered: BTreeSet<K>) -> Result<List<K>, OutOfMemory>
    ensures { IfOk result (λ list. list ≡ ordered.keys) }
{
    let mut list = List::new(alloc);
    'ordered: for key in ordered {
        list.push(key)?;
    }
    Ok(list)
}

/// What the VLANs of a port are bound to. It costs those and a look-up, whatever other bindings
/// there are.
fn bound_in(
    alloc: Global,
    bindings: &Ordered<Binding, Name>,
    gateway: Name,
    port: Name,
) -> Result<List<Bound>, OutOfMemory>
    ensures { IfOk result (λ list. list
        ≡ bound_at (maps.map_by binding_cmp bindings.now) gateway port) }
{
    let first = Binding {
        gateway,
        port,
        vlan: Vlan::new(0),
    };
    let mut list = List::new(alloc);
    'bindings: for (binding, switch) in bindings.walk(Some(&first)) {
        if binding.gateway != gateway || binding.port != port {
            return Ok(list);
        }
        list.push((binding.vlan, *switch))?;
    }
    Ok(list)
}

impl Intention {
    fn bound_at(&self, alloc: Global, gateway: Name, port: Name) -> Result<List<Bound>, OutOfMemory>
        ensures { IfOk result (λ list. list ≡ bound_at self.now.bindings gateway port) }
    {
        bound_in(alloc, &self.bindings, gateway, port)
    }

    fn guarded_at(
        &self,
        alloc: Global,
        gateway: Name,
        port: Name,
    ) -> Result<List<Bound>, OutOfMemory>
        ensures { IfOk result (λ list. list ≡ bound_at self.now.guards gateway port) }
    {
        bound_in(alloc, &self.guards, gateway, port)
    }
}

/// The ports that a gateway has, by name.
pub(crate) fn ports_at(
    alloc: Global,
    intention: &Intention,
    gateway: Name,
    peer: &Peer,
) -> Result<List<Port>, OutOfMemory>
    ensures { IfOk result (λ ports. ports ≡ ports_at intention.now gateway peer.now) }
{
    let mut ports = List::new(alloc);
    'ports: for (port, id) in peer.ports() {
        let bound = intention.bound_at(alloc, gateway, *port)?;
        let guarded = intention.guarded_at(alloc, gateway, *port)?;
        ports.push((*id, bound, guarded))?;
    }
    Ok(ports)
}

fn add_names(names: &mut BTreeSet<Name>, bound: &[Bound]) -> Result<(), OutOfMemory>
    ensures { OnOk result (names.new.keys
        ≡ with_each bytes_cmp names.old.keys (map (λ b. b.1) bound.now)) }
{
    'bound: for (_, name) in bound {
        names.insert(*name)?;
    }
    Ok(())
}

/// The switches of the ports' bindings, by name.
pub(crate) fn switches_in(alloc: Global, ports: &[Port]) -> Result<List<Name>, OutOfMemory>
    ensures { IfOk result (λ switches. switches ≡ switches_in ports.now) }
{
    let mut switches = BTreeSet::new(alloc);
    'ports: for (_, bound, _) in ports {
        add_names(&mut switches, bound.as_slice())?;
    }
    in_order(alloc, switches)
}

/// The access lists that guard the ports, by name.
pub(crate) fn acls_in(alloc: Global, ports: &[Port]) -> Result<List<Name>, OutOfMemory>
    ensures { IfOk result (λ acls. acls ≡ acls_in ports.now) }
{
    let mut acls = BTreeSet::new(alloc);
    'ports: for (_, _, guarded) in ports {
        add_names(&mut acls, guarded.as_slice())?;
    }
    in_order(alloc, acls)
}

fn add_hosts(
    pairs: &mut BTreeSet<(Name, Name)>,
    switches: &[Name],
    gateway: Name,
) -> Result<(), OutOfMemory>
    ensures { OnOk result (pairs.new.keys
        ≡ with_each host_cmp pairs.old.keys (map (λ s. (s, gateway)) switches.now)) }
{
    'switches: for switch in switches {
        pairs.insert((*switch, gateway))?;
    }
    Ok(())
}

impl Hosts {
    /// At which of these gateways each switch has a binding.
    pub(crate) fn of(
        alloc: Global,
        intention: &Intention,
        peers: &Peers,
    ) -> Result<Hosts, OutOfMemory>
        ensures { IfOk result (λ h. h ≡ hosts_of intention.now peers.now) }
    {
        let mut pairs = BTreeSet::new(alloc);
        'peers: for (gateway, peer) in peers.walk() {
            let ports = ports_at(alloc, intention, *gateway, peer)?;
            let switches = switches_in(alloc, ports.as_slice())?;
            add_hosts(&mut pairs, switches.as_slice(), *gateway)?;
        }
        Ok(Hosts { pairs })
    }

    fn has(&self, switch: Name, gateway: Name) -> bool
        ensures { result ≡ is_host self.now switch gateway }
    {
        self.pairs.contains(&(switch, gateway))
    }
}

/// The addresses of the other gateways at which a switch has a binding.
fn others(
    alloc: Global,
    hosts: &Hosts,
    peers: &Peers,
    gateway: Name,
    switch: Name,
) -> Result<List<Ipv4>, OutOfMemory>
    ensures { IfOk result (λ ips. ips ≡ others hosts.now peers.now gateway switch) }
{
    let mut ips = BTreeSet::new(alloc);
    'peers: for (name, peer) in peers.walk() {
        if *name != gateway && hosts.has(switch, *name) {
            ips.insert(peer.ip())?;
        }
    }
    in_order(alloc, ips)
}

/// Adds a switch and these addresses, where there are any.
fn add_flood(floods: &mut List<Flood>, switch: Name, ips: List<Ipv4>) -> Result<(), OutOfMemory>
    ensures { OnOk result (floods.new ≡ floods.old ++ flood switch ips) }
{
    if ips.is_empty() {
        return Ok(());
    }
    floods.push((switch, ips))
}

/// Those of the switches that have bindings at other gateways.
pub(crate) fn floods_at(
    alloc: Global,
    hosts: &Hosts,
    peers: &Peers,
    gateway: Name,
    switches: &[Name],
) -> Result<List<Flood>, OutOfMemory>
    ensures { IfOk result (λ floods. floods
        ≡ floods_at hosts.now peers.now gateway switches.now) }
{
    let mut floods = List::new(alloc);
    'switches: for switch in switches {
        let ips = others(alloc, hosts, peers, gateway, *switch)?;
        add_flood(&mut floods, *switch, ips)?;
    }
    Ok(floods)
}

fn add_addresses(addresses: &mut BTreeSet<Ipv4>, ips: &[Ipv4]) -> Result<(), OutOfMemory>
    ensures { OnOk result (addresses.new.keys ≡ with_each nat_cmp addresses.old.keys ips.now) }
{
    'ips: for ip in ips {
        addresses.insert(*ip)?;
    }
    Ok(())
}

/// All addresses of these, ascending.
pub(crate) fn addresses_in(alloc: Global, floods: &[Flood]) -> Result<List<Ipv4>, OutOfMemory>
    ensures { IfOk result (λ ips. ips ≡ ascending nat_cmp (flat_map (λ f. f.1) floods.now)) }
{
    let mut addresses = BTreeSet::new(alloc);
    'floods: for (_, ips) in floods {
        add_addresses(&mut addresses, ips.as_slice())?;
    }
    in_order(alloc, addresses)
}
