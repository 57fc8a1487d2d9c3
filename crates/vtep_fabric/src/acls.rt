//! Access lists, as the insertions that make them.

ghost use Rattle.std.specs.Prelude.{◌≡◌, ◌≤◌, ◌+◌, ◌++◌, ◌∷◌, [], map, length, insert, position, nat_lt, option_map, IfOk, OnOk};
ghost use Rattle.serde_json.specs.View.{view};
ghost use Rattle.ovsdb_values.specs.declared.atoms.Atom.TheVariants.{Text};
ghost use Rattle.vtep_base.specs.Addresses.{mac_text};
ghost use Rattle.vtep_base.specs.Maps as maps;
ghost use Rattle.vtep_schema.specs.declared.Column.TheVariants.{EntryEthertype};
ghost use Rattle.vtep_rows.specs.Row.{put_all};
ghost use Rattle.fabric_world.specs.Intentions.{bytes_cmp, placed, in_sequence};
ghost use Rattle.fabric_world.specs.Installer.{new_row, numbered, given, mac_atom, ip_atom, number_atom, macs, ethertypes, ips, numbers, direction_text, action_text, entry_values, entry_json, acl_json, with_entries, acls_json, acl_rows};

use crate::intention::Intention;
use crate::operations::{NamedRows, insert_json, ip_text, name_text, new_row, one, word};
use fabric_world::{AclFields, WantedEntry};
use ovsdb_values::{Atom, AtomSet, Datum};
use serde_json::Value;
use std::alloc::Global;
use vtep_base::{Action, Bytes, Direction, Ipv4, List, Mac, Name, Ordered, OutOfMemory, Txt};
use vtep_schema::{Column, Table};

/// Columns of a row, with their values.
type Values = Vec<(Column, Datum)>;

fn mac_text(alloc: Global, mac: Mac) -> Result<Txt, OutOfMemory>
    ensures { IfOk result (λ text. text ≡ mac_text mac) }
{
    let mut bytes = Bytes::new(alloc);
    mac.print(&mut bytes)?;
    let text = String::from_utf8_lossy(alloc, bytes.as_slice())?;
    Ok(Txt::from_string(text))
}

fn direction_text(direction: Direction) -> &'static str
    ensures { result.now ≡ direction_text direction }
{
    match direction {
        Direction::Ingress => "ingress",
        Direction::Egress => "egress",
    }
}

fn action_text(action: Action) -> &'static str
    ensures { result.now ≡ action_text action }
{
    match action {
        Action::Permit => "permit",
        Action::Deny => "deny",
    }
}

/// A number of a byte, with the room of two.
fn wide(number: Option<u8>) -> Option<u16>
    ensures { result ≡ number }
{
    match number {
        Some(number) => Some(u16::from(number)),
        None => None,
    }
}

/// Adds those columns whose addresses are given.
fn add_macs(
    alloc: Global,
    columns: &[(Column, Option<Mac>)],
    values: &mut Values,
) -> Result<(), OutOfMemory>
    ensures { OnOk result (values.new.items ≡ values.old.items ++ given mac_atom columns.now) }
{
    'columns: for (column, mac) in columns {
        if let Some(mac) = mac {
            values.push((*column, one(alloc, Atom::Text(mac_text(alloc, *mac)?))?))?;
        }
    }
    Ok(())
}

/// The same of addresses of IPv4.
fn add_ips(
    alloc: Global,
    columns: &[(Column, Option<Ipv4>)],
    values: &mut Values,
) -> Result<(), OutOfMemory>
    ensures { OnOk result (values.new.items ≡ values.old.items ++ given ip_atom columns.now) }
{
    'columns: for (column, ip) in columns {
        if let Some(ip) = ip {
            values.push((*column, one(alloc, Atom::Text(ip_text(alloc, *ip)?))?))?;
        }
    }
    Ok(())
}

/// The same of numbers.
fn add_numbers(
    alloc: Global,
    columns: &[(Column, Option<u16>)],
    values: &mut Values,
) -> Result<(), OutOfMemory>
    ensures { OnOk result (values.new.items ≡ values.old.items ++ given number_atom columns.now) }
{
    'columns: for (column, number) in columns {
        if let Some(number) = number {
            values.push((*column, one(alloc, Atom::Integer(i64::from(*number)))?))?;
        }
    }
    Ok(())
}

/// Adds the type of what a frame carries, where it is given.
fn add_ethertype(
    alloc: Global,
    ethertype: Option<&Txt>,
    values: &mut Values,
) -> Result<(), OutOfMemory>
    ensures { OnOk result (values.new.items ≡ values.old.items
        ++ given Text ((EntryEthertype, option_map (λ t. t.now) ethertype.entry) ∷ [])) }
{
    if let Some(ethertype) = ethertype {
        let value = word(alloc, ethertype.as_str())?;
        values.push((Column::EntryEthertype, value))?;
    }
    Ok(())
}

/// Adds the columns of the addresses and types of frames and of packets.
fn add_addresses(alloc: Global, fields: &AclFields, values: &mut Values) -> Result<(), OutOfMemory>
    ensures { OnOk result (values.new.items ≡ values.old.items ++ given mac_atom (macs fields.now)
        ++ given Text (ethertypes fields.now) ++ given ip_atom (ips fields.now)) }
{
    let macs = [
        (Column::EntrySourceMac, fields.source_mac),
        (Column::EntryDestMac, fields.dest_mac),
    ];
    let ips = [
        (Column::EntrySourceIp, fields.source_ip),
        (Column::EntrySourceMask, fields.source_mask),
        (Column::EntryDestIp, fields.dest_ip),
        (Column::EntryDestMask, fields.dest_mask),
    ];
    add_macs(alloc, &macs, values)?;
    add_ethertype(alloc, fields.ethertype.as_ref(), values)?;
    add_ips(alloc, &ips, values)
}

/// Adds the columns of numbers.
fn add_field_numbers(
    alloc: Global,
    fields: &AclFields,
    values: &mut Values,
) -> Result<(), OutOfMemory>
    ensures { OnOk result (values.new.items ≡ values.old.items
        ++ given number_atom (numbers fields.now)) }
{
    let numbers = [
        (Column::EntryProtocol, wide(fields.protocol)),
        (Column::EntryIcmpType, wide(fields.icmp_type)),
        (Column::EntryIcmpCode, wide(fields.icmp_code)),
        (Column::EntrySourcePortMin, fields.source_port_min),
        (Column::EntrySourcePortMax, fields.source_port_max),
        (Column::EntryDestPortMin, fields.dest_port_min),
        (Column::EntryDestPortMax, fields.dest_port_max),
        (Column::EntryTcpFlags, fields.tcp_flags),
        (Column::EntryTcpFlagsMask, fields.tcp_flags_mask),
    ];
    add_numbers(alloc, &numbers, values)
}

/// The columns of an entry, but for those that are not given.
fn entry_values(alloc: Global, entry: &WantedEntry) -> Result<Values, OutOfMemory>
    ensures { IfOk result (λ values. values.items ≡ entry_values entry.now) }
{
    let sequence = one(alloc, Atom::Integer(i64::from(entry.sequence)))?;
    let direction = word(alloc, direction_text(entry.direction))?;
    let action = word(alloc, action_text(entry.action))?;
    let mut values = Vec::new(alloc);
    values.push((Column::EntrySequence, sequence))?;
    values.push((Column::EntryDirection, direction))?;
    values.push((Column::EntryAction, action))?;
    let fields = entry.fields.fields();
    add_addresses(alloc, fields, &mut values)?;
    add_field_numbers(alloc, fields, &mut values)?;
    Ok(values)
}

/// The insertion of an entry.
fn entry_json(alloc: Global, number: usize, entry: &WantedEntry) -> Result<Value, OutOfMemory>
    ensures { IfOk result (λ v. view v ≡ entry_json number entry.now) }
{
    let values = entry_values(alloc, entry)?;
    insert_json(alloc, Table::AclEntry, number, values.as_slice())
}

/// The place of the first entry that has a greater sequence.
fn first_behind(sorted: &[&WantedEntry], entry: &WantedEntry) -> Option<usize>
    ensures { result ≡ position (λ e. nat_lt entry.now.sequence e.now.sequence) sorted.now }
{
    sorted
        .iter()
        .position(|other| entry.sequence < other.sequence)
}

/// Where an entry goes among entries in order.
fn place_among(sorted: &[&WantedEntry], entry: &WantedEntry) -> usize
    ensures within { result ≤ length sorted.now }
    ensures place { insert (map (λ e. e.now) sorted.now) result entry.now
        ≡ placed entry.now (map (λ e. e.now) sorted.now) }
{
    first_behind(sorted, entry).unwrap_or(sorted.len())
}

/// The entries by sequence, and those of one sequence as they are.
fn in_sequence<'a>(
    alloc: Global,
    entries: &'a [WantedEntry],
) -> Result<Vec<&'a WantedEntry>, OutOfMemory>
    ensures { IfOk result (λ sorted. map (λ e. e.now) sorted.items
        ≡ in_sequence entries.entry.now) }
{
    let mut sorted = Vec::new(alloc);
    'entries: for entry in entries {
        let place = place_among(&sorted, entry);
        sorted.insert(place, entry)?;
    }
    Ok(sorted)
}

/// Adds the insertions of entries, and gives their rows. All operations before them are insertions.
fn insert_entries(
    alloc: Global,
    entries: &[&WantedEntry],
    operations: &mut Vec<Value>,
) -> Result<List<Atom>, OutOfMemory>
    ensures rows { IfOk result (λ rows. rows
        ≡ numbered (λ n e. new_row n) (length operations.old.items) entries.now) }
    ensures added { OnOk result (map view operations.new.items ≡ map view operations.old.items
        ++ numbered (λ n e. entry_json n e.now) (length operations.old.items) entries.now) }
{
    let mut rows = List::new(alloc);
    'entries: for entry in entries {
        let number = operations.len();
        operations.push(entry_json(alloc, number, entry)?)?;
        rows.push(new_row(alloc, number)?)?;
    }
    Ok(rows)
}

/// The insertion of an access list with the rows of its entries.
fn acl_json(
    alloc: Global,
    number: usize,
    name: &Name,
    rows: List<Atom>,
) -> Result<Value, OutOfMemory>
    ensures { IfOk result (λ v. view v ≡ acl_json number name.now rows) }
{
    let entries = Datum::Set(AtomSet::merged(alloc, rows)?);
    let name = one(alloc, Atom::Text(name_text(alloc, name)?))?;
    let values = [(Column::AclEntries, entries), (Column::AclName, name)];
    insert_json(alloc, Table::Acl, number, &values)
}

/// Adds the insertions of the entries of an access list, in their order, and then of the list, and
/// gives its number.
fn insert_acl(
    alloc: Global,
    name: &Name,
    entries: &[WantedEntry],
    operations: &mut Vec<Value>,
) -> Result<usize, OutOfMemory>
    ensures number { IfOk result (λ n. n
        ≡ length operations.old.items + length (in_sequence entries.now)) }
    ensures added { OnOk result (map view operations.new.items ≡ map view operations.old.items
        ++ with_entries (in_sequence entries.now) (length operations.old.items) name.now) }
{
    let sorted = in_sequence(alloc, entries)?;
    let rows = insert_entries(alloc, sorted.as_slice(), operations)?;
    let number = operations.len();
    operations.push(acl_json(alloc, number, name, rows)?)?;
    Ok(number)
}

/// Adds the insertions of access lists, and gives their rows. All operations before them are
/// insertions.
pub(crate) fn insert_acls(
    alloc: Global,
    intention: &Intention,
    names: &[Name],
    operations: &mut Vec<Value>,
) -> Result<NamedRows, OutOfMemory>
    ensures rows { IfOk result (λ rows. maps.map_by bytes_cmp rows ≡ put_all maps.empty
        (acl_rows intention.now (length operations.old.items) names.now)) }
    ensures added { OnOk result (map view operations.new.items ≡ map view operations.old.items
        ++ acls_json intention.now (length operations.old.items) names.now) }
{
    let mut rows = Ordered::new(alloc);
    'names: for name in names {
        let number = insert_acl(alloc, name, intention.entries(name), operations)?;
        rows.put(*name, number)?;
    }
    Ok(rows)
}
