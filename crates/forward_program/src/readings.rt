//! What the forwarding state reads of rows (vtep(5)).

ghost use Rattle.std.specs.Prelude.{◌≡◌, ◌<◌, ◌^◌, ◌==◌, pos, true, option_map, filter_map, IfSome};
ghost use Rattle.std.specs.List.{list_all};
ghost use Rattle.std.specs.List.Sorted.{IsStrictlySortedBy};
ghost use Rattle.std.specs.Map.{keys_of};
ghost use Rattle.ovsdb_values.specs.Atoms.{atom_cmp};
ghost use Rattle.ovsdb_values.specs.Sets.{value_in};
ghost use Rattle.vtep_rows.specs.Row.{first, text_in, nat_in, id_in, number_at, pairs_at, atoms_at};
ghost use Rattle.forward_program.specs.Readings.{text_in_row, ip_at, mac_at, id_at, own_address, port_name, number_and_id, is_vlan, id_at_key, acl_at, lists_at, mode_of, remote_of, group_in, group_of, other_address};
ghost use Rattle.forward_program.specs.Built.{IsIn, binding, bindings_of};

use crate::held::Lists;
use ovsdb_values::{Atom, Datum};
use std::cmp::Ord;
use vtep_base::{Ipv4, Mac, Mode, Name, RowId, Vlan, Vni};
use vtep_rows::{Row, Rows};
use vtep_schema::{Column, Table};

fn first_text(atoms: &[Atom]) -> Option<&[u8]>
    ensures { option_map (λ text. text.now) result ≡ first (filter_map text_in atoms.now) }
{
    'atoms: for atom in atoms {
        if let Atom::Text(text) = atom {
            return Some(text.as_slice());
        }
    }
    None
}

fn first_id(atoms: &[Atom]) -> Option<RowId>
    ensures { result ≡ first (filter_map id_in atoms.now) }
{
    'atoms: for atom in atoms {
        if let Atom::Id(id) = atom {
            return Some(*id);
        }
    }
    None
}

fn first_number(atoms: &[Atom]) -> Option<u64>
    ensures { result ≡ first (filter_map nat_in atoms.now) }
{
    'atoms: for atom in atoms {
        if let Atom::Integer(number) = atom {
            if let Ok(number) = u64::try_from(*number) {
                return Some(number);
            }
        }
    }
    None
}

pub(crate) fn atoms(row: &Row, column: Column) -> &[Atom]
    ensures { result.now ≡ atoms_at row.now column }
{
    match row.find(column) {
        Some(Datum::Set(set)) => set.as_slice(),
        _ => &[],
    }
}

pub(crate) fn number(row: &Row, column: Column) -> Option<u64>
    ensures { result ≡ number_at row.now column }
{
    first_number(atoms(row, column))
}

pub(crate) fn text(row: &Row, column: Column) -> Option<&[u8]>
    ensures { option_map (λ text. text.now) result ≡ text_in_row row.now column }
{
    first_text(atoms(row, column))
}

pub(crate) fn ip(row: &Row, column: Column) -> Option<Ipv4>
    ensures { result ≡ ip_at row.now column }
{
    Ipv4::parse(text(row, column)?).ok()
}

pub(crate) fn mac(row: &Row, column: Column) -> Option<Mac>
    ensures { result ≡ mac_at row.now column }
{
    Mac::parse(text(row, column)?).ok()
}

fn id(row: &Row, column: Column) -> Option<RowId>
    ensures { result ≡ id_at row.now column }
{
    first_id(atoms(row, column))
}

/// The address that the gateway's own row has in `tunnel_ips` (vtep(5), Physical_Switch). Takes no
/// memory.
pub fn own_address(rows: &Rows) -> Option<Ipv4>
    ensures { result ≡ own_address rows.now }
{
    'switches: for id in rows.ids(Table::PhysicalSwitch) {
        if let Some(row) = rows.get(Table::PhysicalSwitch, id) {
            if let Some(ip) = ip(row, Column::SwitchTunnelIps) {
                return Some(ip);
            }
        }
    }
    None
}

pub(crate) fn port_name(row: &Row) -> Option<Name>
    ensures { result ≡ port_name row.now }
{
    Name::parse(text(row, Column::PortName)?).ok()
}

/// The VLAN and the switch of a pair of `vlan_bindings`.
pub(crate) fn vlan_and_switch(pair: &(Atom, Atom)) -> Option<(Vlan, RowId)>
    requires { is_vlan pair.now ≡ true }
    ensures { result ≡ number_and_id pair.now }
{
    let (Atom::Integer(number), Atom::Id(switch)) = pair else {
        return None;
    };
    match u16::try_from(*number) {
        Ok(number) => Some((Vlan::new(number), *switch)),
        Err(_) => None,
    }
}

/// The value of a key among pairs in the order of their keys.
fn value_of<'a>(pairs: &'a [(Atom, Atom)], key: &Atom) -> Option<&'a Atom>
    requires { IsStrictlySortedBy atom_cmp (keys_of pairs.now) }
    ensures { option_map (λ value. value.now) result ≡ value_in pairs.now key.now }
{
    match pairs.binary_search_by(|pair| pair.0.cmp(key)) {
        Ok(at) => Some(&pairs[at].1),
        Err(_) => None,
    }
}

/// The row that a column names at a number.
pub fn id_at_key(row: &Row, column: Column, key: u16) -> Option<RowId>
    ensures { result ≡ id_at_key row.now column key }
{
    match row.find(column) {
        Some(Datum::Map(pairs)) => {
            match value_of(pairs.as_slice(), &Atom::Integer(i64::from(key))) {
                Some(Atom::Id(id)) => Some(*id),
                _ => None,
            }
        }
        _ => None,
    }
}

/// The pairs of `vlan_bindings`.
pub(crate) fn vlan_pairs(row: &Row) -> &[(Atom, Atom)]
    ensures pairs { result.now ≡ pairs_at row.now Column.PortVlanBindings }
    ensures vlans { list_all is_vlan result.now ≡ true }
    ensures ordered { IsStrictlySortedBy atom_cmp (keys_of result.now) }
{
    // It says that it is a row of its table.
    let _ = row.table();
    match row.find(Column::PortVlanBindings) {
        Some(Datum::Map(pairs)) => pairs.as_slice(),
        _ => &[],
    }
}

/// The switch to which a row binds a VLAN, where it is the row of the port.
pub(crate) fn bound_to(row: &Row, port: Name, vlan: Vlan) -> Option<RowId>
    ensures { IfSome result (λ switch.
        IsIn (binding port row.now (vlan, switch)) (bindings_of row.now)) }
{
    if port_name(row)? != port {
        return None;
    }
    id_at_key(row, Column::PortVlanBindings, vlan.number())
}

fn acl(row: &Row, key: u16) -> Option<RowId>
    ensures { result ≡ acl_at row.now key }
{
    id_at_key(row, Column::PortAclBindings, key)
}

pub(crate) fn lists(row: &Row, vlan: Vlan) -> Lists
    ensures { result ≡ lists_at row.now vlan }
{
    let number = vlan.number();
    Lists {
        all: acl(row, 0),
        own: if number == 0 { None } else { acl(row, number) },
    }
}

/// The `tunnel_key` of a switch.
pub(crate) fn tunnel_key(row: &Row) -> Option<Vni>
    ensures { result ≡ number_at row.now Column.LogicalTunnelKey }
{
    // It says that it is a row of its table.
    let _ = row.table();
    match first_number(atoms(row, Column::LogicalTunnelKey)) {
        Some(number) => Some(Vni::new(number as u32)),
        None => None,
    }
}

/// The `replication_mode` of a switch; an absent one counts as that of a service node.
pub(crate) fn mode(row: &Row) -> Mode
    ensures { result ≡ mode_of row.now }
{
    match text(row, Column::LogicalReplicationMode) {
        Some(word) => {
            if word == b"source_node".as_slice() {
                Mode::Source
            } else {
                Mode::Service
            }
        }
        None => Mode::Service,
    }
}

/// The locator of an address of a switch.
#[derive(Drop)]
pub struct Remote {
    pub switch: RowId,
    pub mac: Mac,
    pub locator: RowId,
}

/// The switch, the address and the locator of a row of Ucast_Macs_Remote.
pub fn read_remote(row: &Row) -> Option<Remote>
    ensures { result ≡ remote_of row.now }
{
    let switch = id(row, Column::UcastRemoteLogicalSwitch)?;
    let mac = mac(row, Column::UcastRemoteMac)?;
    let locator = id(row, Column::UcastRemoteLocator)?;
    Some(Remote {
        switch,
        mac,
        locator,
    })
}

/// The locator set of a group address of a switch, or of the destinations that are not known.
#[derive(Drop)]
pub struct Group {
    pub switch: RowId,
    pub group: Option<Mac>,
    pub set: RowId,
}

fn group_address(word: &[u8]) -> Option<Option<Mac>>
    ensures { result ≡ group_in word.now }
{
    if word == b"unknown-dst".as_slice() {
        return Some(None);
    }
    match Mac::parse(word) {
        Ok(mac) => Some(Some(mac)),
        Err(_) => None,
    }
}

pub(crate) fn read_group(row: &Row) -> Option<Group>
    ensures { result ≡ group_of row.now }
{
    let switch = id(row, Column::McastRemoteLogicalSwitch)?;
    let group = group_address(text(row, Column::McastRemoteMac)?)?;
    let set = id(row, Column::McastRemoteLocatorSet)?;
    Some(Group { switch, group, set })
}

/// The address of a locator, where it is not the gateway's own.
pub(crate) fn other_address(row: &Row, own: Ipv4) -> Option<Ipv4>
    ensures { result ≡ other_address own (ip_at row.now Column.LocatorDstIp) }
{
    let ip = ip(row, Column::LocatorDstIp)?;
    if ip == own { None } else { Some(ip) }
}
