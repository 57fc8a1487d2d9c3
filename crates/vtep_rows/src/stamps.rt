//! A number for each unique key of a row.

ghost use Rattle.std.specs.Prelude.{◌≡◌, ◌+◌, ◌%◌, ◌^◌, unwrap_or};
ghost use Rattle.vtep_base.specs.Texts.{ipv4_of};
ghost use Rattle.vtep_rows.specs.Marks.{hash_from, text_number, whole_number, with_atom, with_atoms, stamp_of, stamp_at};
ghost use Rattle.vtep_rows.specs.Keyed.{stamp_with};

use crate::row::Row;
use ovsdb_values::Atom;
use vtep_base::{Ipv4, Mac, RowId};
use vtep_schema::{Column, Table, unique_keys};

/// The identifier that a unique key has, or 0, and a number made of its other atoms. Keys made of an identifier, a MAC address, an
/// IPv4 address or a number have one stamp only where they are equal; names are hashed.
#[derive(Clone, Copy)]
pub(crate) struct Stamp {
    pub(crate) id: RowId,
    pub(crate) number: u64,
}

/// Multiplies and adds, modulo 2^64. Names are keys of small tables alone, so equal hashes cost little time.
fn hash(text: &[u8]) -> u64
    ensures { result ≡ hash_from 0 text.now }
{
    let mut hash: u64 = 0;
    'bytes: for byte in text {
        hash = hash
            .wrapping_mul(1_099_511_628_211)
            .wrapping_add(u64::from(*byte));
    }
    hash
}

/// The 48 bits of an address.
fn mac_number(mac: Mac) -> u64
    ensures { result ≡ mac }
{
    let [a, b, c, d, e, f] = mac.bytes();
    u64::from_be_bytes([0, 0, a, b, c, d, e, f])
}

/// The bits of an address; 2^48, which no MAC address has, for `unknown-dst`; the hash of another text.
fn text_number(text: &[u8]) -> u64
    ensures { result ≡ text_number text.now }
{
    if text == b"unknown-dst".as_slice() {
        return 1 << 48;
    }
    match Mac::parse(text) {
        Ok(mac) => mac_number(mac),
        Err(_) => ip_number(text),
    }
}

fn ip_number(text: &[u8]) -> u64
    ensures { result ≡ unwrap_or (ipv4_of text.now) (hash_from 0 text.now) }
{
    match Ipv4::parse(text) {
        Ok(ip) => u64::from(ip.bits()),
        Err(_) => hash(text),
    }
}

fn whole_number(number: i64) -> u64
    ensures { result ≡ whole_number number }
{
    if number < 0 { 0 } else { number as u64 }
}

impl Stamp {
    /// The stamp of rows that hold these atoms in the columns of a key.
    pub(crate) fn of(key: &[Atom]) -> Stamp
        ensures { result ≡ stamp_with key.now }
    {
        Stamp { id: 0, number: 0 }.with_atoms(key)
    }

    fn with_atom(self, atom: &Atom) -> Stamp
        ensures { result ≡ with_atom self atom.now }
    {
        match atom {
            Atom::Integer(number) => self.plus(whole_number(*number)),
            Atom::Text(text) => self.plus(text_number(text.as_slice())),
            Atom::Id(id) => Stamp {
                id: *id,
                number: self.number,
            },
            Atom::Named(_) => self,
        }
    }

    fn plus(self, number: u64) -> Stamp
        ensures { result ≡ record { id = self.id; number = (self.number + number) % 2 ^ 64 } }
    {
        Stamp {
            id: self.id,
            number: self.number.wrapping_add(number),
        }
    }

    fn with_atoms(self, atoms: &[Atom]) -> Stamp
        ensures { result ≡ with_atoms self atoms.now }
    {
        let mut stamp = self;
        'atoms: for atom in atoms {
            stamp = stamp.with_atom(atom);
        }
        stamp
    }
}

/// The stamp of a key; none where a column holds nothing.
fn stamp_of(row: &Row, columns: &[Column]) -> Option<Stamp>
    ensures { result ≡ stamp_of row.now columns.now }
{
    let mut stamp = Stamp { id: 0, number: 0 };
    'columns: for column in columns {
        let atoms = row.atoms(*column);
        if atoms.is_empty() {
            return None;
        }
        stamp = stamp.with_atoms(atoms);
    }
    Some(stamp)
}

/// The stamp of one of the table's unique keys.
pub(crate) fn stamp_at(table: Table, place: u8, row: &Row) -> Option<Stamp>
    ensures { result ≡ stamp_at table place row.now }
{
    let keys = unique_keys(table);
    let place = usize::from(place);
    if place >= keys.len() {
        return None;
    }
    stamp_of(row, keys[place])
}
