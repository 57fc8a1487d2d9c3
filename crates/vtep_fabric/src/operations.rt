//! What a gateway is asked to do, as the request of a transaction.

ghost use Rattle.std.specs.Prelude.{◌≡◌, false, ◌<◌, ◌≤◌, ◌++◌, ◌∷◌, [], map, length, option_map, codes, IfOk, OnOk};
ghost use Rattle.serde_json.specs.Data.{number, unsigned, string};
ghost use Rattle.rpc_framing.specs.Said.{Request, said};
ghost use Rattle.serde_json.specs.View.{view};
ghost use Rattle.serde_json.specs.Written.{has_float};
ghost use Rattle.std.specs.Ordering.{nat_cmp};
ghost use Rattle.json_notation.specs.Json.{list, to_members};
ghost use Rattle.ovsdb_values.specs.Notation.{datum_json, atom_json};
ghost use Rattle.ovsdb_values.specs.Sets.{one, set_of};
ghost use Rattle.ovsdb_values.specs.declared.atoms.Atom.TheVariants.{Integer, Text, Id};
ghost use Rattle.ovsdb_values.specs.declared.datums.Datum.TheVariants as datum;
ghost use Rattle.vtep_base.specs.Texts.{ipv4_text};
ghost use Rattle.vtep_base.specs.Maps as maps;
ghost use Rattle.vtep_schema.specs.Tables.{column_name};
ghost use Rattle.vtep_rows.specs.Row.{put_all};
ghost use Rattle.fabric_world.specs.Intentions.{bytes_cmp};
ghost use Rattle.fabric_world.specs.Installer.{hosts_of, row_name, new_row, row_in, columns_json, insert_json, numbered, locator_json, mode_text, switch_values, switch_json, at_id, bound_rows, port_json, update_json, ports_json, set_json, remote_json, floods_json, operations_for, operations_of, operations, request_text, request_of};

use crate::acls::insert_acls;
use crate::intention::Intention;
use crate::peers::Peers;
use crate::wanted::{
    Bound, Flood, Hosts, Port, acls_in, addresses_in, floods_at, ports_at, switches_in,
};
use fabric_world::Network;
use itoa::Buffer;
use ovsdb_values::{Atom, AtomMap, AtomSet, Datum, to_json};
use rpc_framing::{Message, print};
use serde_json::{Map, Value, put};
use std::alloc::Global;
use vtep_base::{Bytes, Ipv4, Kind, List, Mode, Name, Ordered, OutOfMemory, RowId, Shape, Txt};
use vtep_schema::{Column, Table, column_name, shape, table_name};

/// The numbers of new rows by the names of their switches or access lists.
pub(crate) type NamedRows = Ordered<Name, usize>;

/// The numbers of new rows by the addresses of their locators.
type LocatorRows = Ordered<Ipv4, usize>;

fn string_json(alloc: Global, text: &str) -> Result<Value, OutOfMemory>
    ensures { IfOk result (λ v. view v ≡ string text.now) }
{
    Ok(Value::String(String::from_str(alloc, text)?))
}

/// The name of the insertion of this number.
fn row_name(alloc: Global, number: usize) -> Result<Txt, OutOfMemory>
    ensures { IfOk result (λ name. name ≡ row_name number) }
{
    let mut digits = Buffer::new();
    let mut name = String::from_str(alloc, "r")?;
    name.push_str(digits.format(number))?;
    Ok(Txt::from_string(name))
}

/// The row of the insertion of this number.
pub(crate) fn new_row(alloc: Global, number: usize) -> Result<Atom, OutOfMemory>
    ensures { IfOk result (λ row. row ≡ new_row number) }
{
    Ok(Atom::Named(row_name(alloc, number)?))
}

pub(crate) fn name_text(alloc: Global, name: &Name) -> Result<Txt, OutOfMemory>
    ensures { IfOk result (λ text. text ≡ name.now) }
{
    let text = String::from_utf8_lossy(alloc, name.as_slice())?;
    Ok(Txt::from_string(text))
}

pub(crate) fn ip_text(alloc: Global, ip: Ipv4) -> Result<Txt, OutOfMemory>
    ensures { IfOk result (λ text. text ≡ ipv4_text ip) }
{
    let _bits = ip.bits();
    let mut bytes = Bytes::new(alloc);
    ip.print(&mut bytes)?;
    let text = String::from_utf8_lossy(alloc, bytes.as_slice())?;
    Ok(Txt::from_string(text))
}

pub(crate) fn one(alloc: Global, atom: Atom) -> Result<Datum, OutOfMemory>
    ensures { IfOk result (λ datum. datum ≡ one atom) }
{
    Ok(Datum::Set(AtomSet::one(alloc, atom)?))
}

pub(crate) fn word(alloc: Global, text: &str) -> Result<Datum, OutOfMemory>
    ensures { IfOk result (λ datum. datum ≡ one (Text text.now)) }
{
    one(alloc, Atom::Text(Txt::from_str(alloc, text)?))
}

/// The columns of a row, with their values.
fn columns_json(alloc: Global, values: &[(Column, Datum)]) -> Result<Value, OutOfMemory>
    ensures { IfOk result (λ v. view v ≡ columns_json values.now) }
{
    let mut members = Map::new(alloc);
    'values: for (column, datum) in values.iter().rev() {
        let value = to_json(alloc, datum, shape(*column))?;
        put(&mut members, alloc, column_name(*column), value)?;
    }
    Ok(Value::Object(members))
}

/// The insertion of this number.
pub(crate) fn insert_json(
    alloc: Global,
    table: Table,
    number: usize,
    values: &[(Column, Datum)],
) -> Result<Value, OutOfMemory>
    ensures { IfOk result (λ v. view v ≡ insert_json table number values.now) }
{
    let name = row_name(alloc, number)?;
    let mut members = Map::new(alloc);
    put(
        &mut members,
        alloc,
        "uuid-name",
        Value::String(name.into_string()),
    )?;
    put(
        &mut members,
        alloc,
        "table",
        string_json(alloc, table_name(table))?,
    )?;
    put(&mut members, alloc, "row", columns_json(alloc, values)?)?;
    put(&mut members, alloc, "op", string_json(alloc, "insert")?)?;
    Ok(Value::Object(members))
}

fn locator_json(alloc: Global, number: usize, ip: Ipv4) -> Result<Value, OutOfMemory>
    ensures { IfOk result (λ v. view v ≡ locator_json number ip) }
{
    let address = one(alloc, Atom::Text(ip_text(alloc, ip)?))?;
    let encapsulation = word(alloc, "vxlan_over_ipv4")?;
    let values = [
        (Column::LocatorDstIp, address),
        (Column::LocatorEncapsulationType, encapsulation),
    ];
    insert_json(alloc, Table::PhysicalLocator, number, &values)
}

/// Adds the insertions of locators, and gives their rows. All operations before them are
/// insertions.
fn insert_locators(
    alloc: Global,
    addresses: &[Ipv4],
    operations: &mut Vec<Value>,
) -> Result<LocatorRows, OutOfMemory>
    ensures rows { IfOk result (λ rows. maps.map_by nat_cmp rows ≡ put_all maps.empty
        (numbered (λ n ip. (ip, n)) (length operations.old.items) addresses.now)) }
    ensures added { OnOk result (map view operations.new.items ≡ map view operations.old.items
        ++ numbered locator_json (length operations.old.items) addresses.now) }
{
    let mut rows = Ordered::new(alloc);
    'addresses: for ip in addresses {
        let number = operations.len();
        operations.push(locator_json(alloc, number, *ip)?)?;
        rows.put(*ip, number)?;
    }
    Ok(rows)
}

fn mode_text(mode: Mode) -> &'static str
    ensures { result.now ≡ mode_text mode }
{
    match mode {
        Mode::Source => "source_node",
        Mode::Service => "service_node",
    }
}

/// The insertion of a switch.
fn switch_json(
    alloc: Global,
    number: usize,
    name: &Name,
    network: Option<&Network>,
) -> Result<Value, OutOfMemory>
    ensures { IfOk result (λ v. view v ≡ insert_json Table.LogicalSwitch number
        (switch_values name.now (option_map (λ n. n.now) network.entry))) }
{
    let name = one(alloc, Atom::Text(name_text(alloc, name)?))?;
    let Some(network) = network else {
        let values = [(Column::LogicalName, name)];
        return insert_json(alloc, Table::LogicalSwitch, number, &values);
    };
    let mode = word(alloc, mode_text(network.mode))?;
    let key = one(alloc, Atom::Integer(i64::from(network.vni.number())))?;
    let values = [
        (Column::LogicalName, name),
        (Column::LogicalReplicationMode, mode),
        (Column::LogicalTunnelKey, key),
    ];
    insert_json(alloc, Table::LogicalSwitch, number, &values)
}

impl Intention {
    /// The insertion of a switch with the network that is wanted for it.
    fn switch_json(&self, alloc: Global, number: usize, name: &Name) -> Result<Value, OutOfMemory>
        ensures { IfOk result (λ v. view v ≡ switch_json self.now number name.now) }
    {
        switch_json(alloc, number, name, self.switches.find(name))
    }
}

/// Adds the insertions of switches, and gives their rows. All operations before them are
/// insertions.
fn insert_switches(
    alloc: Global,
    intention: &Intention,
    switches: &[Name],
    operations: &mut Vec<Value>,
) -> Result<NamedRows, OutOfMemory>
    ensures rows { IfOk result (λ rows. maps.map_by bytes_cmp rows ≡ put_all maps.empty
        (numbered (λ n s. (s, n)) (length operations.old.items) switches.now)) }
    ensures added { OnOk result (map view operations.new.items ≡ map view operations.old.items
        ++ numbered (switch_json intention.now) (length operations.old.items) switches.now) }
{
    let mut rows = Ordered::new(alloc);
    'switches: for name in switches {
        let number = operations.len();
        operations.push(intention.switch_json(alloc, number, name)?)?;
        rows.put(*name, number)?;
    }
    Ok(rows)
}

fn named_row(alloc: Global, rows: &NamedRows, name: &Name) -> Result<Atom, OutOfMemory>
    ensures { IfOk result (λ row. row ≡ row_in (maps.map_by bytes_cmp rows.now) name.now) }
{
    let number = match rows.find(name) {
        Some(number) => *number,
        None => 0,
    };
    new_row(alloc, number)
}

fn locator_row(alloc: Global, rows: &LocatorRows, ip: Ipv4) -> Result<Atom, OutOfMemory>
    ensures { IfOk result (λ row. row ≡ row_in (maps.map_by nat_cmp rows.now) ip) }
{
    let number = match rows.find(&ip) {
        Some(number) => *number,
        None => 0,
    };
    new_row(alloc, number)
}

/// What each VLAN is bound to, as its row.
fn bound_rows(alloc: Global, rows: &NamedRows, bindings: &[Bound]) -> Result<Datum, OutOfMemory>
    ensures { IfOk result (λ d. d
        ≡ bound_rows (maps.map_by bytes_cmp rows.now) bindings.now) }
{
    let mut pairs = List::new(alloc);
    'bindings: for (vlan, name) in bindings {
        let row = named_row(alloc, rows, name)?;
        pairs.push((Atom::Integer(i64::from(vlan.number())), row))?;
    }
    Ok(Datum::Map(AtomMap::merged(alloc, pairs)?))
}

/// An identifier, as it is written.
fn id_json(alloc: Global, id: RowId) -> Result<Value, OutOfMemory>
    ensures { IfOk result (λ v. view v ≡ atom_json (Id id)) }
{
    let datum = one(alloc, Atom::Id(id))?;
    let shape = Shape {
        key: Kind::Id,
        value: None,
    };
    to_json(alloc, &datum, shape)
}

/// The row of this identifier, as a condition.
fn at_id(alloc: Global, id: RowId) -> Result<Value, OutOfMemory>
    ensures { IfOk result (λ v. view v ≡ at_id id) }
{
    let mut condition = Vec::new(alloc);
    condition.push(string_json(alloc, "_uuid")?)?;
    condition.push(string_json(alloc, "==")?)?;
    condition.push(id_json(alloc, id)?)?;
    let mut conditions = Vec::new(alloc);
    conditions.push(Value::Array(condition))?;
    Ok(Value::Array(conditions))
}

/// The update of a port, where switches and access lists have these rows.
fn port_json(
    alloc: Global,
    switches: &NamedRows,
    acls: &NamedRows,
    port: &Port,
) -> Result<Value, OutOfMemory>
    ensures { IfOk result (λ v. view v
        ≡ port_json (maps.map_by bytes_cmp switches.now)
        (maps.map_by bytes_cmp acls.now) port.now) }
{
    let bound = bound_rows(alloc, switches, port.1.as_slice())?;
    let guarded = bound_rows(alloc, acls, port.2.as_slice())?;
    let values = [
        (Column::PortAclBindings, guarded),
        (Column::PortVlanBindings, bound),
    ];
    let mut members = Map::new(alloc);
    put(&mut members, alloc, "where", at_id(alloc, port.0)?)?;
    put(
        &mut members,
        alloc,
        "table",
        string_json(alloc, table_name(Table::PhysicalPort))?,
    )?;
    put(&mut members, alloc, "row", columns_json(alloc, &values)?)?;
    put(&mut members, alloc, "op", string_json(alloc, "update")?)?;
    Ok(Value::Object(members))
}

/// Adds the update of a port, where it has bindings or is guarded.
fn update_port(
    alloc: Global,
    switches: &NamedRows,
    acls: &NamedRows,
    port: &Port,
    operations: &mut Vec<Value>,
) -> Result<(), OutOfMemory>
    ensures { OnOk result (map view operations.new.items ≡ map view operations.old.items
        ++ update_json (maps.map_by bytes_cmp switches.now)
        (maps.map_by bytes_cmp acls.now) port.now) }
{
    if port.1.is_empty() && port.2.is_empty() {
        return Ok(());
    }
    operations.push(port_json(alloc, switches, acls, port)?)?;
    Ok(())
}

/// Adds the updates of the ports that have bindings or are guarded.
fn update_ports(
    alloc: Global,
    switches: &NamedRows,
    acls: &NamedRows,
    ports: &[Port],
    operations: &mut Vec<Value>,
) -> Result<(), OutOfMemory>
    ensures { OnOk result (map view operations.new.items ≡ map view operations.old.items
        ++ ports_json (maps.map_by bytes_cmp switches.now)
        (maps.map_by bytes_cmp acls.now) ports.now) }
{
    'ports: for port in ports {
        update_port(alloc, switches, acls, port, operations)?;
    }
    Ok(())
}

fn locator_set(alloc: Global, locators: &LocatorRows, ips: &[Ipv4]) -> Result<Datum, OutOfMemory>
    ensures { IfOk result (λ d. d
        ≡ datum.Set (set_of (map (row_in (maps.map_by nat_cmp locators.now)) ips.now))) }
{
    let mut rows = List::new(alloc);
    'ips: for ip in ips {
        rows.push(locator_row(alloc, locators, *ip)?)?;
    }
    Ok(Datum::Set(AtomSet::merged(alloc, rows)?))
}

/// The insertion of a set of locators.
fn set_json(
    alloc: Global,
    locators: &LocatorRows,
    number: usize,
    ips: &[Ipv4],
) -> Result<Value, OutOfMemory>
    ensures { IfOk result (λ v. view v
        ≡ set_json (maps.map_by nat_cmp locators.now) number ips.now) }
{
    let set = locator_set(alloc, locators, ips)?;
    let values = [(Column::SetLocators, set)];
    insert_json(alloc, Table::PhysicalLocatorSet, number, &values)
}

/// The insertion of the row that sends what has no other place to the set of this number.
fn remote_json(
    alloc: Global,
    switches: &NamedRows,
    set: usize,
    switch: &Name,
) -> Result<Value, OutOfMemory>
    requires { set < usize.MAX }
    ensures { IfOk result (λ v. view v
        ≡ remote_json (maps.map_by bytes_cmp switches.now) set switch.now) }
{
    let address = word(alloc, "unknown-dst")?;
    let locators = one(alloc, new_row(alloc, set)?)?;
    let switch = one(alloc, named_row(alloc, switches, switch)?)?;
    let values = [
        (Column::McastRemoteMac, address),
        (Column::McastRemoteLocatorSet, locators),
        (Column::McastRemoteLogicalSwitch, switch),
    ];
    insert_json(alloc, Table::McastMacsRemote, set + 1, &values)
}

/// Adds the insertions of sets of locators, each before the row that sends there. Their numbers
/// begin at `first`, and at least as many operations are before them.
fn insert_floods(
    alloc: Global,
    locators: &LocatorRows,
    switches: &NamedRows,
    first: usize,
    floods: &[Flood],
    operations: &mut Vec<Value>,
) -> Result<(), OutOfMemory>
    requires { first ≤ length operations.old.items }
    ensures { OnOk result (map view operations.new.items ≡ map view operations.old.items
        ++ floods_json (maps.map_by nat_cmp locators.now) (maps.map_by bytes_cmp switches.now) first floods.now) }
{
    let mut number = first;
    'floods: for (switch, ips) in floods {
        operations.push(set_json(alloc, locators, number, ips.as_slice())?)?;
        operations.push(remote_json(alloc, switches, number, switch)?)?;
        number += 2;
    }
    Ok(())
}

/// The operations that make these ports, switches, access lists and floods, and the locators of
/// these addresses.
fn operations_for(
    alloc: Global,
    intention: &Intention,
    ports: &[Port],
    switches: &[Name],
    acls: &[Name],
    floods: &[Flood],
    addresses: &[Ipv4],
) -> Result<Vec<Value>, OutOfMemory>
    ensures { IfOk result (λ operations. map view operations.items
        ≡ operations_for intention.now ports.now switches.now acls.now floods.now addresses.now) }
{
    let mut operations = Vec::new(alloc);
    let locator_rows = insert_locators(alloc, addresses, &mut operations)?;
    let switch_rows = insert_switches(alloc, intention, switches, &mut operations)?;
    let acl_rows = insert_acls(alloc, intention, acls, &mut operations)?;
    let first = operations.len();
    update_ports(alloc, &switch_rows, &acl_rows, ports, &mut operations)?;
    insert_floods(
        alloc,
        &locator_rows,
        &switch_rows,
        first,
        floods,
        &mut operations,
    )?;
    Ok(operations)
}

/// What a gateway with these ports is asked to do.
fn operations_of(
    alloc: Global,
    intention: &Intention,
    peers: &Peers,
    hosts: &Hosts,
    gateway: Name,
    ports: &[Port],
) -> Result<Vec<Value>, OutOfMemory>
    requires { hosts.now ≡ hosts_of intention.now peers.now }
    ensures { IfOk result (λ operations. map view operations.items
        ≡ operations_of intention.now peers.now gateway ports.now) }
{
    let switches = switches_in(alloc, ports)?;
    let acls = acls_in(alloc, ports)?;
    let floods = floods_at(alloc, hosts, peers, gateway, switches.as_slice())?;
    let addresses = addresses_in(alloc, floods.as_slice())?;
    operations_for(
        alloc,
        intention,
        ports,
        switches.as_slice(),
        acls.as_slice(),
        floods.as_slice(),
        addresses.as_slice(),
    )
}

/// The parameters of the request of operations.
fn params_json(alloc: Global, operations: Vec<Value>) -> Result<Value, OutOfMemory>
    ensures { IfOk result (λ v. view v
        ≡ list (string (codes "hardware_vtep") ∷ map view operations.items)) }
{
    let mut params = Vec::new(alloc);
    params.push(string_json(alloc, "hardware_vtep")?)?;
    'operations: for operation in operations {
        params.push(operation)?;
    }
    Ok(Value::Array(params))
}

/// The request of a transaction with these parameters.
fn request(alloc: Global, params: Value) -> Result<Message, OutOfMemory>
    ensures { IfOk result (λ m. said m
        ≡ Request (codes "transact") (view params) (number (unsigned 2))) }
{
    Ok(Message::Request {
        method: Txt::from_str(alloc, "transact")?,
        params,
        id: Value::from(2u64),
    })
}

/// The request of operations, as it is sent.
fn request_text(alloc: Global, operations: Vec<Value>) -> Result<Bytes, OutOfMemory>
    requires { has_float (list (map view operations.items)) ≡ false }
    ensures { IfOk result (λ text. text ≡ request_text (map view operations.items)) }
{
    let params = params_json(alloc, operations)?;
    let message = request(alloc, params)?;
    let mut text = Bytes::new(alloc);
    print(alloc, &message, &mut text)?;
    Ok(text)
}

/// What a gateway is asked to do, as the request of a transaction; none where nothing is wanted of
/// it.
pub(crate) fn request_for(
    alloc: Global,
    intention: &Intention,
    peers: &Peers,
    hosts: &Hosts,
    gateway: Name,
) -> Result<Option<Bytes>, OutOfMemory>
    requires { hosts.now ≡ hosts_of intention.now peers.now }
    ensures { IfOk result (λ request. request
        ≡ request_of (operations intention.now peers.now gateway)) }
{
    let Some(peer) = peers.find(&gateway) else {
        return Ok(None);
    };
    let ports = ports_at(alloc, intention, gateway, peer)?;
    let operations = operations_of(alloc, intention, peers, hosts, gateway, ports.as_slice())?;
    if operations.is_empty() {
        return Ok(None);
    }
    Ok(Some(request_text(alloc, operations)?))
}
