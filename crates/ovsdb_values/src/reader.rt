//! What a JSON value means.

ghost use Rattle.std.specs.Prelude.{◌≡◌, ◌<◌, ◌^◌, [], ◌∷◌, map, option_map, option_and_then, codes, FitsSigned, IfSome, IfOk, IfErr, Ok, Err};
ghost use Rattle.std.specs.Int.{w64};
ghost use Rattle.std.specs.List.{AllByRecursion};
ghost use Rattle.serde_json.specs.View.{view};
ghost use Rattle.json_notation.specs.Json.{text_of, list_of, integer_of};
ghost use Rattle.ovsdb_values.specs.Notation.{pair_in, behind, id_of, id_in, name_in, atom_of, entry_of, each_from, atoms_of, pairs_of, as_set, as_map, datum_of, IsOrMemory, IsOfKind, IsOfPair, IsOfKinds, IsOf};

use crate::NotationFault;
use crate::atom_maps::AtomMap;
use crate::atom_sets::AtomSet;
use crate::atoms::Atom;
use crate::datums::Datum;
use serde_json::Value;
use std::alloc::Global;
use uuid::Uuid;
use vtep_base::{Kind, List, OutOfMemory, RowId, Shape, Txt};

fn items(value: &Value) -> Option<&[Value]>
    ensures { option_map (λ s. map view s.now) result ≡ list_of (view value.now) }
{
    match value.as_array() {
        Some(items) => Some(items.as_slice()),
        None => None,
    }
}

fn text(value: &Value) -> Option<&str>
    ensures { option_map (λ s. s.now) result ≡ text_of (view value.now) }
{
    match value {
        Value::String(text) => Some(text.as_str()),
        _ => None,
    }
}

fn integer(value: &Value) -> Option<i64>
    ensures value { result ≡ integer_of (view value.now) }
    ensures fits { IfSome result (FitsSigned w64) }
{
    match value {
        Value::Number(number) => number.as_i64(),
        _ => None,
    }
}

/// The two of an array of two.
fn pair_in(value: &Value) -> Option<(&Value, &Value)>
    ensures { option_map (λ p. (view p.0.now, view p.1.now)) result ≡ pair_in (view value.now) }
{
    match items(value)? {
        [first, second] => Some((first, second)),
        _ => None,
    }
}

/// What stands behind this word in an array of two.
fn behind<'a>(word: &str, value: &'a Value) -> Option<&'a Value>
    ensures { option_map (λ v. view v.now) result ≡ behind word.now (view value.now) }
{
    let (first, second) = pair_in(value)?;
    if text(first)?.as_bytes() == word.as_bytes() {
        Some(second)
    } else {
        None
    }
}

/// The identifier that a text of 36 bytes spells, in letters of either case (RFC 9562, section 4). Takes no memory.
pub fn parse_id(text: &str) -> Option<RowId>
    ensures value { result ≡ id_of text.now }
    ensures fits { IfSome result (λ id. id < 2 ^ 128) }
{
    if text.len() != 36 {
        return None;
    }
    match Uuid::parse_str(text) {
        Ok(id) => Some(id.as_u128()),
        Err(_) => None,
    }
}

fn id_in(value: &Value) -> Option<RowId>
    ensures value { result ≡ id_in (view value.now) }
    ensures fits { IfSome result (λ id. id < 2 ^ 128) }
{
    parse_id(text(behind("uuid", value)?)?)
}

fn name_in(value: &Value) -> Option<&str>
    ensures { option_map (λ s. s.now) result ≡ name_in (view value.now) }
{
    text(behind("named-uuid", value)?)
}

fn read_text(alloc: Global, value: &Value) -> Result<Option<Atom>, OutOfMemory>
    ensures { IfOk result (λ atom. atom ≡ option_map Atom.Text (text_of (view value.now))) }
{
    match text(value) {
        Some(text) => Ok(Some(Atom::Text(Txt::from_str(alloc, text)?))),
        None => Ok(None),
    }
}

fn read_name(alloc: Global, value: &Value) -> Result<Option<Atom>, OutOfMemory>
    ensures { IfOk result (λ atom. atom ≡ option_map Atom.Named (name_in (view value.now))) }
{
    match name_in(value) {
        Some(name) => Ok(Some(Atom::Named(Txt::from_str(alloc, name)?))),
        None => Ok(None),
    }
}

fn read_atom(alloc: Global, kind: Kind, value: &Value) -> Result<Option<Atom>, OutOfMemory>
    ensures value { IfOk result (λ atom. atom ≡ atom_of kind (view value.now)) }
    ensures of_kind { IfOk result (λ atom. IfSome atom (IsOfKind kind)) }
{
    match kind {
        Kind::Integer => Ok(integer(value).map(Atom::Integer)),
        Kind::Text => read_text(alloc, value),
        Kind::Id => match id_in(value) {
            Some(id) => Ok(Some(Atom::Id(id))),
            None => read_name(alloc, value),
        },
    }
}

fn read_entry(
    alloc: Global,
    key: Kind,
    value: Kind,
    entry: &Value,
) -> Result<Option<(Atom, Atom)>, OutOfMemory>
    ensures value { IfOk result (λ pair. pair ≡ entry_of key value (view entry.now)) }
    ensures of_kinds { IfOk result (λ pair. IfSome pair (IsOfPair key value)) }
{
    let Some((first, second)) = pair_in(entry) else {
        return Ok(None);
    };
    let Some(first) = read_atom(alloc, key, first)? else {
        return Ok(None);
    };
    let Some(second) = read_atom(alloc, value, second)? else {
        return Ok(None);
    };
    Ok(Some((first, second)))
}

#[tactic(auto, using(crate::proofs::Carried::all_pushed))]
fn read_each(alloc: Global, kind: Kind, values: &[Value]) -> Result<Option<List<Atom>>, OutOfMemory>
    ensures value { IfOk result (λ atoms. atoms
        ≡ each_from (atom_of kind) [] (map view values.now)) }
    ensures of_kind { IfOk result (λ atoms. IfSome atoms (AllByRecursion (IsOfKind kind))) }
{
    let mut atoms = List::new(alloc);
    'values: for value in values {
        let Some(atom) = read_atom(alloc, kind, value)? else {
            return Ok(None);
        };
        atoms.push(atom)?;
    }
    Ok(Some(atoms))
}

#[tactic(auto, using(crate::proofs::Carried::all_pushed))]
fn read_entries(
    alloc: Global,
    key: Kind,
    value: Kind,
    values: &[Value],
) -> Result<Option<List<(Atom, Atom)>>, OutOfMemory>
    ensures value { IfOk result (λ pairs. pairs
        ≡ each_from (entry_of key value) [] (map view values.now)) }
    ensures of_kinds { IfOk result (λ pairs. IfSome pairs (AllByRecursion (IsOfPair key value))) }
{
    let mut pairs = List::new(alloc);
    'values: for entry in values {
        let Some(pair) = read_entry(alloc, key, value, entry)? else {
            return Ok(None);
        };
        pairs.push(pair)?;
    }
    Ok(Some(pairs))
}

fn one(alloc: Global, atom: Atom) -> Result<List<Atom>, OutOfMemory>
    ensures { IfOk result (λ atoms. atoms ≡ atom ∷ []) }
{
    let mut atoms = Vec::with_capacity(alloc, 1)?;
    atoms.push(atom)?;
    Ok(List::from_vec(atoms))
}

/// The atoms of a set as they stand there, or none where the value has not the form of a set.
pub fn atoms_from_json(
    alloc: Global,
    kind: Kind,
    value: &Value,
) -> Result<Option<List<Atom>>, OutOfMemory>
    ensures value { IfOk result (λ atoms. atoms ≡ atoms_of kind (view value.now)) }
    ensures of_kind { IfOk result (λ atoms. IfSome atoms (AllByRecursion (IsOfKind kind))) }
{
    if let Some(atom) = read_atom(alloc, kind, value)? {
        return Ok(Some(one(alloc, atom)?));
    }
    match set_in(value) {
        Some(values) => read_each(alloc, kind, values),
        None => Ok(None),
    }
}

fn set_in(value: &Value) -> Option<&[Value]>
    ensures { option_map (λ s. map view s.now) result
        ≡ option_and_then list_of (behind (codes "set") (view value.now)) }
{
    items(behind("set", value)?)
}

fn map_in(value: &Value) -> Option<&[Value]>
    ensures { option_map (λ s. map view s.now) result
        ≡ option_and_then list_of (behind (codes "map") (view value.now)) }
{
    items(behind("map", value)?)
}

/// The pairs of a map as they stand there, or none where the value has not the form of a map.
pub fn pairs_from_json(
    alloc: Global,
    key: Kind,
    value: Kind,
    pairs: &Value,
) -> Result<Option<List<(Atom, Atom)>>, OutOfMemory>
    ensures value { IfOk result (λ read. read ≡ pairs_of key value (view pairs.now)) }
    ensures of_kinds { IfOk result (λ read. IfSome read (AllByRecursion (IsOfPair key value))) }
{
    match map_in(pairs) {
        Some(values) => read_entries(alloc, key, value, values),
        None => Ok(None),
    }
}

fn read_set(alloc: Global, kind: Kind, value: &Value) -> Result<Datum, NotationFault>
    ensures ok { IfOk result (λ datum. as_set (atoms_of kind (view value.now)) ≡ Ok datum) }
    ensures of_kind { IfOk result (IsOfKinds kind None) }
    ensures err { IfErr result (λ fault. IsOrMemory fault
        (as_set (atoms_of kind (view value.now)))) }
{
    let Some(atoms) = atoms_from_json(alloc, kind, value)? else {
        return Err(NotationFault::Notation);
    };
    match AtomSet::of(alloc, atoms)? {
        Some(set) => Ok(Datum::Set(set)),
        None => Err(NotationFault::Repeated),
    }
}

fn read_map(alloc: Global, key: Kind, value: Kind, pairs: &Value) -> Result<Datum, NotationFault>
    ensures ok { IfOk result (λ datum. as_map (pairs_of key value (view pairs.now)) ≡ Ok datum) }
    ensures of_kinds { IfOk result (IsOfKinds key (Some value)) }
    ensures err { IfErr result (λ fault. IsOrMemory fault
        (as_map (pairs_of key value (view pairs.now)))) }
{
    let Some(read) = pairs_from_json(alloc, key, value, pairs)? else {
        return Err(NotationFault::Notation);
    };
    match AtomMap::of(alloc, read)? {
        Some(map) => Ok(Datum::Map(map)),
        None => Err(NotationFault::Repeated),
    }
}

/// Reads a set or a map of a shape (RFC 7047, section 5.1).
///
/// An atom is a whole number of 64 bits, a text, `["uuid", text]` with 36 bytes of text, or `["named-uuid", name]`. A set is
/// `["set", [atom, ..]]`, or an atom, which stands for the set of it. A map is `["map", [[key, value], ..]]`.
pub fn from_json(alloc: Global, value: &Value, shape: Shape) -> Result<Datum, NotationFault>
    // What is read is what the value means.
    ensures ok { IfOk result (λ datum. datum_of shape (view value.now) ≡ Ok datum) }
    // Its atoms are of the shape's kinds and stand in order.
    ensures of_shape { IfOk result (IsOf shape) }
    // The value is in none of the forms of the shape, or an atom or a key stands twice.
    ensures err { IfErr result (λ fault. IsOrMemory fault (datum_of shape (view value.now))) }
{
    match shape.value {
        None => read_set(alloc, shape.key, value),
        Some(kind) => read_map(alloc, shape.key, kind, value),
    }
}
