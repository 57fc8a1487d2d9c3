//! Access lists, as the rows of a gateway have them (vtep(5), ACL and ACL_entry).

ghost use Rattle.std.specs.Prelude.{◌≡◌, ◌≤◌, ◌<◌, ◌+◌, ◌++◌, ◌^◌, [], ◌∷◌, length, vec_len, filter_map, option_and_then, IfOk, IfSome, OnOk};
ghost use Rattle.std.specs.Option.{option_to_list};
ghost use Rattle.std.specs.List.Sorted.{IsStrictlySortedBy};
ghost use Rattle.vtep_base.specs.Addresses.{hex_value};
ghost use Rattle.ovsdb_values.specs.Atoms.{atom_cmp};
ghost use Rattle.vtep_rows.specs.Row.{id_in, atoms_at};
ghost use Rattle.forward_program.specs.Acls.{number_below, four_digits, hex_word, ethertype_at, direction_of, action_of, entry_of, entry_at, entries_at};

use crate::readings::{atoms, ip, mac, number, text};
use acl_rules::{Entry, FewRules, Rules};
use ovsdb_values::{Atom, Datum};
use std::alloc::Global;
use vtep_base::{Action, Direction, OutOfMemory, RowId};
use vtep_rows::{Row, Rows};
use vtep_schema::{Column, Table};

fn byte(row: &Row, column: Column) -> Option<u8>
    ensures { result ≡ number_below (2 ^ 8) row.now column }
{
    u8::try_from(number(row, column)?).ok()
}

fn half_word(row: &Row, column: Column) -> Option<u16>
    ensures { result ≡ number_below (2 ^ 16) row.now column }
{
    u16::try_from(number(row, column)?).ok()
}

fn full_word(row: &Row, column: Column) -> Option<u32>
    ensures { result ≡ number_below (2 ^ 32) row.now column }
{
    u32::try_from(number(row, column)?).ok()
}

/// The value of a hexadecimal digit of either case.
fn hex_digit(byte: u8) -> Option<u16>
    ensures value { result ≡ hex_value byte }
    ensures within { IfSome result (λ digit. digit < 16) }
{
    match byte {
        b'0'..=b'9' => Some(u16::from(byte - b'0')),
        b'a'..=b'f' => Some(u16::from(byte - b'a' + 10)),
        b'A'..=b'F' => Some(u16::from(byte - b'A' + 10)),
        _ => None,
    }
}

fn four_digits(digits: &[u8]) -> Option<u16>
    ensures { result ≡ four_digits digits.now }
{
    if digits.len() != 4 {
        return None;
    }
    let first = hex_digit(digits[0])?;
    let second = hex_digit(digits[1])?;
    let third = hex_digit(digits[2])?;
    let fourth = hex_digit(digits[3])?;
    Some(16 * (16 * (16 * first + second) + third) + fourth)
}

/// `0x` and four hexadecimal digits.
fn hex_word(word: &[u8]) -> Option<u16>
    ensures { result ≡ hex_word word.now }
{
    if word.len() != 6 || word[0] != b'0' || word[1] != b'x' {
        return None;
    }
    four_digits(&word[2..])
}

fn ethertype(row: &Row) -> Option<u16>
    ensures { result ≡ ethertype_at row.now }
{
    hex_word(text(row, Column::EntryEthertype)?)
}

fn direction(row: &Row) -> Direction
    ensures { result ≡ direction_of row.now }
{
    match text(row, Column::EntryDirection) {
        Some(word) => {
            if word == b"egress".as_slice() {
                Direction::Egress
            } else {
                Direction::Ingress
            }
        }
        None => Direction::Ingress,
    }
}

fn action(row: &Row) -> Action
    ensures { result ≡ action_of row.now }
{
    match text(row, Column::EntryAction) {
        Some(word) => {
            if word == b"deny".as_slice() {
                Action::Deny
            } else {
                Action::Permit
            }
        }
        None => Action::Permit,
    }
}

/// Adds what a row of ACL_entry says.
fn push_entry(id: RowId, row: &Row, entries: &mut Vec<Entry>) -> Result<(), OutOfMemory>
    ensures items { OnOk result
        (entries.new.items ≡ entries.old.items ++ entry_of id row.now ∷ []) }
    ensures len { OnOk result (vec_len entries.new ≤ vec_len entries.old + 1) }
{
    let entry = Entry {
        id,
        sequence: full_word(row, Column::EntrySequence).unwrap_or(0),
        direction: direction(row),
        action: action(row),
        source_mac: mac(row, Column::EntrySourceMac),
        dest_mac: mac(row, Column::EntryDestMac),
        ethertype: ethertype(row),
        source_ip: ip(row, Column::EntrySourceIp),
        source_mask: ip(row, Column::EntrySourceMask),
        dest_ip: ip(row, Column::EntryDestIp),
        dest_mask: ip(row, Column::EntryDestMask),
        protocol: byte(row, Column::EntryProtocol),
        icmp_type: byte(row, Column::EntryIcmpType),
        icmp_code: byte(row, Column::EntryIcmpCode),
        source_port_min: half_word(row, Column::EntrySourcePortMin),
        source_port_max: half_word(row, Column::EntrySourcePortMax),
        dest_port_min: half_word(row, Column::EntryDestPortMin),
        dest_port_max: half_word(row, Column::EntryDestPortMax),
        tcp_flags: half_word(row, Column::EntryTcpFlags),
        tcp_flags_mask: half_word(row, Column::EntryTcpFlagsMask),
    };
    entries.push(entry)?;
    Ok(())
}

/// Adds the entry that an atom names.
fn push_named(rows: &Rows, atom: &Atom, entries: &mut Vec<Entry>) -> Result<(), OutOfMemory>
    ensures items { OnOk result (entries.new.items ≡ entries.old.items
        ++ option_to_list (option_and_then (entry_at rows.now) (id_in atom.now))) }
    ensures len { OnOk result (vec_len entries.new ≤ vec_len entries.old + 1) }
{
    let Atom::Id(id) = atom else {
        return Ok(());
    };
    match rows.get(Table::AclEntry, *id) {
        Some(row) => push_entry(*id, row, entries),
        None => Ok(()),
    }
}

/// The entries that atoms name, in their order.
fn named_entries(alloc: Global, rows: &Rows, atoms: &[Atom]) -> Result<Vec<Entry>, OutOfMemory>
    ensures items { IfOk result (λ entries. entries.items
        ≡ filter_map (entry_at rows.now) (filter_map id_in atoms.now)) }
    ensures few { IfOk result (λ entries. vec_len entries ≤ length atoms.now) }
{
    let mut entries = Vec::with_capacity(alloc, atoms.len())?;
    'atoms: for atom in atoms {
        push_named(rows, atom, &mut entries)?;
    }
    Ok(entries)
}

/// The entries that a row of ACL names, by sequence and then by row.
pub(crate) fn rules(alloc: Global, rows: &Rows, row: &Row) -> Result<FewRules, OutOfMemory>
    ensures { IfOk result (λ rules. rules ≡ entries_at rows.now row.now) }
{
    // It says that it is a row of its table.
    let _ = row.table();
    let entries = named_entries(alloc, rows, entry_atoms(row))?;
    let rules = Rules::of(alloc, entries.as_slice())?;
    Ok(FewRules::new(rules))
}

/// The atoms of `acl_entries`.
fn entry_atoms(row: &Row) -> &[Atom]
    ensures atoms { result.now ≡ atoms_at row.now Column.AclEntries }
    ensures ordered { IsStrictlySortedBy atom_cmp result.now }
{
    match row.find(Column::AclEntries) {
        Some(Datum::Set(set)) => set.as_slice(),
        _ => &[],
    }
}
