//! Values as they stand in operations.

ghost use Rattle.std.specs.Prelude.{◌≡◌, ◌&&◌, map, IfOk, [], ◌∷◌, Ok, Err};
ghost use Rattle.std.specs.List.{list_all};
ghost use Rattle.serde_json.specs.View.{view};
ghost use Rattle.vtep_schema.specs.Tables.{kind_of};
ghost use Rattle.transact_profile.specs.Refusing.{Reads};
ghost use Rattle.transact_profile.specs.Values.{resolves, fits, holds_mac, lower_mac, lower_cased, set_fits, map_fits, set_of_atoms, set_value, map_of_pairs, map_value, a_set, a_map, value_by, column_value, id_rule, field_value, one_number, pairs_or_keys, deleted_value, mutation_value};

use crate::faults::Fault;
use crate::known::Known;
use crate::operations::{Field, Mutator};
use crate::room::list_of;
use ovsdb_values::{Atom, AtomMap, AtomSet, Datum, atoms_from_json, pairs_from_json};
use serde_json::Value;
use std::alloc::Global;
use vtep_base::{Kind, List, Mac, OutOfMemory, Txt, Word};
use vtep_rows::atom_allowed;
use vtep_schema::{Column, ColumnRule, Domain, Given, Table, column_rule};

const SYNTAX: Fault = Fault::Refused(Word::SyntaxError);

const UNKNOWN_NAME: Fault = Fault::Refused(Word::UnknownUuidName);

const OUT_OF_BOUNDS: Fault = Fault::Refused(Word::ConstraintViolation);

fn kind_of(domain: Domain) -> Kind
    ensures { result ≡ kind_of domain }
{
    match domain {
        Domain::Whole { .. } => Kind::Integer,
        Domain::Row(_) => Kind::Id,
        _ => Kind::Text,
    }
}

/// It is no name, or a known one.
fn resolves(known: &Known, atom: &Atom) -> bool
    ensures { result ≡ resolves known.now atom.now }
{
    match atom {
        Atom::Named(_) => known.has(atom),
        _ => true,
    }
}

fn all_resolve(known: &Known, atoms: &[Atom]) -> bool
    ensures { result ≡ list_all (resolves known.now) atoms.now }
{
    atoms.iter().all(|atom| resolves(known, atom))
}

fn pairs_resolve(known: &Known, pairs: &[(Atom, Atom)]) -> bool
    ensures { result ≡ list_all (λ p. resolves known.now p.0 && resolves known.now p.1) pairs.now }
{
    pairs.iter().all(|pair| resolves(known, &pair.0) && resolves(known, &pair.1))
}

fn fits(domain: Domain, atom: &Atom) -> bool
    ensures { result ≡ fits domain atom.now }
{
    match atom {
        Atom::Named(_) => matches!(domain, Domain::Row(_)),
        _ => atom_allowed(domain, atom),
    }
}

fn all_fit(domain: Domain, atoms: &[Atom]) -> bool
    ensures { result ≡ list_all (fits domain) atoms.now }
{
    atoms.iter().all(|atom| fits(domain, atom))
}

fn pairs_fit(key: Domain, value: Domain, pairs: &[(Atom, Atom)]) -> bool
    ensures { result ≡ list_all (λ p. fits key p.0 && fits value p.1) pairs.now }
{
    pairs
        .iter()
        .all(|pair| fits(key, &pair.0) && fits(value, &pair.1))
}

fn set_fits(rule: &ColumnRule, atoms: &[Atom]) -> bool
    ensures { result ≡ set_fits rule.now atoms.now }
{
    let size = atoms.len();
    rule.least as usize <= size && size <= rule.most as usize && all_fit(rule.key, atoms)
}

fn map_fits(rule: &ColumnRule, value: Domain, pairs: &[(Atom, Atom)]) -> bool
    ensures { result ≡ map_fits rule.now value pairs.now }
{
    let size = pairs.len();
    rule.least as usize <= size && size <= rule.most as usize && pairs_fit(rule.key, value, pairs)
}

fn holds_mac(domain: Domain) -> bool
    ensures { result ≡ holds_mac domain }
{
    matches!(domain, Domain::Mac | Domain::SingleMac | Domain::GroupMac)
}

/// The text of a MAC address in lower case; any other as it is.
fn lower_mac(text: Txt) -> Txt
    ensures { result ≡ lower_mac text }
{
    if Mac::parse(text.as_slice()).is_err() {
        return text;
    }
    let mut text = text.into_string();
    text.make_ascii_lowercase();
    Txt::from_string(text)
}

fn lower_cased(domain: Domain, atom: Atom) -> Atom
    ensures { result ≡ lower_cased domain atom }
{
    match atom {
        Atom::Text(text) if holds_mac(domain) => Atom::Text(lower_mac(text)),
        atom => atom,
    }
}

fn all_lower_cased(
    alloc: Global,
    domain: Domain,
    atoms: List<Atom>,
) -> Result<List<Atom>, OutOfMemory>
    ensures { IfOk result (λ all. all ≡ map (lower_cased domain) atoms) }
{
    if !holds_mac(domain) {
        return Ok(atoms);
    }
    let mut all = list_of(alloc, atoms.len())?;
    'atoms: for atom in atoms.into_vec() {
        all.push(lower_cased(domain, atom))?;
    }
    Ok(all)
}

fn set_of_atoms(
    alloc: Global,
    known: &Known,
    rule: &ColumnRule,
    atoms: List<Atom>,
) -> Result<AtomSet, Fault>
    ensures { Reads result (set_of_atoms known.now rule.now atoms) }
{
    if !all_resolve(known, atoms.as_slice()) {
        return Err(UNKNOWN_NAME);
    }
    let atoms = all_lower_cased(alloc, rule.key, atoms)?;
    let Some(set) = AtomSet::of(alloc, atoms)? else {
        return Err(OUT_OF_BOUNDS);
    };
    if !set_fits(rule, set.as_slice()) {
        return Err(OUT_OF_BOUNDS);
    }
    Ok(set)
}

fn set_value(
    alloc: Global,
    known: &Known,
    rule: &ColumnRule,
    value: &Value,
) -> Result<AtomSet, Fault>
    ensures { Reads result (set_value known.now rule.now (view value.now)) }
{
    let Some(atoms) = atoms_from_json(alloc, kind_of(rule.key), value)? else {
        return Err(SYNTAX);
    };
    set_of_atoms(alloc, known, rule, atoms)
}

fn map_of_pairs(
    alloc: Global,
    known: &Known,
    rule: &ColumnRule,
    domain: Domain,
    pairs: List<(Atom, Atom)>,
) -> Result<AtomMap, Fault>
    ensures { Reads result (map_of_pairs known.now rule.now domain pairs) }
{
    if !pairs_resolve(known, pairs.as_slice()) {
        return Err(UNKNOWN_NAME);
    }
    let Some(map) = AtomMap::of(alloc, pairs)? else {
        return Err(OUT_OF_BOUNDS);
    };
    if !map_fits(rule, domain, map.as_slice()) {
        return Err(OUT_OF_BOUNDS);
    }
    Ok(map)
}

fn a_set(alloc: Global, known: &Known, rule: &ColumnRule, value: &Value) -> Result<Datum, Fault>
    ensures { Reads result (a_set (set_value known.now rule.now (view value.now))) }
{
    Ok(Datum::Set(set_value(alloc, known, rule, value)?))
}

fn a_map(
    alloc: Global,
    known: &Known,
    rule: &ColumnRule,
    domain: Domain,
    value: &Value,
) -> Result<Datum, Fault>
    ensures { Reads result (a_map (map_value known.now rule.now domain (view value.now))) }
{
    let pairs = pairs_from_json(alloc, kind_of(rule.key), kind_of(domain), value)?;
    let Some(pairs) = pairs else {
        return Err(SYNTAX);
    };
    Ok(Datum::Map(map_of_pairs(alloc, known, rule, domain, pairs)?))
}

fn value_by(alloc: Global, known: &Known, rule: &ColumnRule, value: &Value) -> Result<Datum, Fault>
    ensures { Reads result (value_by known.now rule.now rule.now.value (view value.now)) }
{
    match rule.value {
        None => a_set(alloc, known, rule, value),
        Some(domain) => a_map(alloc, known, rule, domain, value),
    }
}

/// A whole value of a column.
pub(crate) fn column_value(
    alloc: Global,
    known: &Known,
    column: Column,
    value: &Value,
) -> Result<Datum, Fault>
    ensures { Reads result (column_value known.now column (view value.now)) }
{
    value_by(alloc, known, &column_rule(column), value)
}

/// One identifier of a row.
fn id_rule(table: Table) -> ColumnRule
    ensures { result ≡ id_rule table }
{
    ColumnRule {
        key: Domain::Row(table),
        value: None,
        least: 1,
        most: 1,
        given: Given::Optional,
    }
}

/// A value that a field is compared with.
pub(crate) fn field_value(
    alloc: Global,
    known: &Known,
    table: Table,
    field: Field,
    value: &Value,
) -> Result<Datum, Fault>
    ensures { Reads result (field_value known.now table field (view value.now)) }
{
    match field {
        Field::Id => a_set(alloc, known, &id_rule(table), value),
        Field::Of(column) => column_value(alloc, known, column, value),
    }
}

/// One number of 64 bits.
fn one_number(alloc: Global, value: &Value) -> Result<Datum, Fault>
    ensures { Reads result (one_number (view value.now)) }
{
    let Some(atoms) = atoms_from_json(alloc, Kind::Integer, value)? else {
        return Err(SYNTAX);
    };
    if atoms.len() != 1 {
        return Err(OUT_OF_BOUNDS);
    }
    let Some(set) = AtomSet::of(alloc, atoms)? else {
        return Err(OUT_OF_BOUNDS);
    };
    Ok(Datum::Set(set))
}

/// Pairs of a map, or keys.
fn pairs_or_keys(
    alloc: Global,
    known: &Known,
    rule: &ColumnRule,
    domain: Domain,
    value: &Value,
) -> Result<Datum, Fault>
    ensures { Reads result (pairs_or_keys known.now rule.now domain (view value.now)) }
{
    let pairs = pairs_from_json(alloc, kind_of(rule.key), kind_of(domain), value)?;
    match pairs {
        Some(pairs) => Ok(Datum::Map(map_of_pairs(alloc, known, rule, domain, pairs)?)),
        None => a_set(alloc, known, rule, value),
    }
}

fn deleted_value(
    alloc: Global,
    known: &Known,
    rule: &ColumnRule,
    value: &Value,
) -> Result<Datum, Fault>
    ensures { Reads result (deleted_value known.now rule.now rule.now.value (view value.now)) }
{
    match rule.value {
        None => a_set(alloc, known, rule, value),
        Some(domain) => pairs_or_keys(alloc, known, rule, domain, value),
    }
}

/// A value by which a column is changed.
pub(crate) fn mutation_value(
    alloc: Global,
    known: &Known,
    column: Column,
    mutator: Mutator,
    value: &Value,
) -> Result<Datum, Fault>
    ensures { Reads result (mutation_value known.now column mutator (view value.now)) }
{
    match mutator {
        Mutator::Insert => column_value(alloc, known, column, value),
        Mutator::Delete => deleted_value(alloc, known, &column_rule(column), value),
        _ => one_number(alloc, value),
    }
}
