//! The rows that meet conditions.

ghost use Rattle.std.specs.Prelude.{◌≡◌, not, option_map, IfOk, IfSome};
ghost use Rattle.std.specs.List.{list_all};
ghost use Rattle.ovsdb_values.specs.Sets.{one, has_atom, has_pair};
ghost use Rattle.ovsdb_values.specs.declared.atoms.Atom.TheVariants.{Id};
ghost use Rattle.transact_profile.specs.Conditions.{all_in, none_in, number_in, compares, compares_some, value_of, holds, Asks, AsksFor, meets_at, selected};

use crate::operations::{Condition, Field, Function};
use ovsdb_values::{Atom, AtomSet, Datum};
use std::alloc::Global;
use vtep_base::{List, OutOfMemory, RowId};
use vtep_rows::{Row, Rows};
use vtep_schema::{Column, Table, belongs};

fn has_pair(pairs: &[(Atom, Atom)], pair: &(Atom, Atom)) -> bool
    ensures { result ≡ has_pair pairs.now pair.now }
{
    pairs
        .iter()
        .any(|other| pair.0 == other.0 && pair.1 == other.1)
}

fn all_atoms_in(some: &[Atom], all: &AtomSet) -> bool
    ensures { result ≡ list_all (has_atom all.now) some.now }
{
    some.iter().all(|atom| all.contains(atom))
}

fn all_pairs_in(some: &[(Atom, Atom)], all: &[(Atom, Atom)]) -> bool
    ensures { result ≡ list_all (has_pair all.now) some.now }
{
    some.iter().all(|pair| has_pair(all, pair))
}

fn no_atom_in(some: &[Atom], all: &AtomSet) -> bool
    ensures { result ≡ list_all (λ x. not (has_atom all.now x)) some.now }
{
    some.iter().all(|atom| !all.contains(atom))
}

fn no_pair_in(some: &[(Atom, Atom)], all: &[(Atom, Atom)]) -> bool
    ensures { result ≡ list_all (λ p. not (has_pair all.now p)) some.now }
{
    some.iter().all(|pair| !has_pair(all, pair))
}

/// Each atom or pair of the first is in the second.
fn all_in(some: &Datum, all: &Datum) -> bool
    ensures { result ≡ all_in some.now all.now }
{
    match (some, all) {
        (Datum::Set(some), Datum::Set(all)) => all_atoms_in(some.as_slice(), all),
        (Datum::Map(some), Datum::Map(all)) => all_pairs_in(some.as_slice(), all.as_slice()),
        _ => false,
    }
}

fn none_in(some: &Datum, all: &Datum) -> bool
    ensures { result ≡ none_in some.now all.now }
{
    match (some, all) {
        (Datum::Set(some), Datum::Set(all)) => no_atom_in(some.as_slice(), all),
        (Datum::Map(some), Datum::Map(all)) => no_pair_in(some.as_slice(), all.as_slice()),
        _ => false,
    }
}

/// The number of a set of one number.
pub(crate) fn number_in(datum: &Datum) -> i64
    ensures { result ≡ number_in datum.now }
{
    match datum {
        Datum::Set(set) => match set.as_slice() {
            [Atom::Integer(number)] => *number,
            _ => 0,
        },
        Datum::Map(_) => 0,
    }
}

fn compares(function: Function, cell: &Datum, value: &Datum) -> bool
    ensures { result ≡ compares function cell.now value.now }
{
    match function {
        Function::Equal => *cell == *value,
        Function::Unequal => !(*cell == *value),
        Function::Less => number_in(cell) < number_in(value),
        Function::AtMost => number_in(cell) <= number_in(value),
        Function::AtLeast => number_in(value) <= number_in(cell),
        Function::More => number_in(value) < number_in(cell),
        Function::Includes => all_in(value, cell),
        Function::Excludes => none_in(value, cell),
    }
}

pub(crate) fn own_id(alloc: Global, id: RowId) -> Result<Datum, OutOfMemory>
    ensures { IfOk result (λ datum. datum ≡ one (Id id)) }
{
    Ok(Datum::Set(AtomSet::one(alloc, Atom::Id(id))?))
}

/// The value of a column, where it is one of the row's table.
pub(crate) fn value_of(row: &Row, column: Column) -> Option<&Datum>
    ensures { option_map (λ d. d.now) result ≡ value_of row.now column }
{
    if belongs(column, row.table()) {
        Some(row.value(column))
    } else {
        None
    }
}

fn column_holds(row: &Row, column: Column, condition: &Condition) -> bool
    ensures { result ≡ compares_some condition.now.function (value_of row.now column)
        condition.now.value }
{
    match value_of(row, column) {
        Some(cell) => compares(condition.function, cell, &condition.value),
        None => false,
    }
}

fn holds(alloc: Global, id: RowId, row: &Row, condition: &Condition) -> Result<bool, OutOfMemory>
    ensures { IfOk result (λ b. b ≡ holds id row.now condition.now) }
{
    match condition.field {
        Field::Id => {
            let own = own_id(alloc, id)?;
            Ok(compares(condition.function, &own, &condition.value))
        }
        Field::Of(column) => Ok(column_holds(row, column, condition)),
    }
}

/// All of the conditions hold.
fn all_hold(
    alloc: Global,
    id: RowId,
    row: &Row,
    conditions: &[Condition],
) -> Result<bool, OutOfMemory>
    ensures { IfOk result (λ b. b ≡ list_all (holds id row.now) conditions.now) }
{
    'conditions: for condition in conditions {
        if !holds(alloc, id, row, condition)? {
            return Ok(false);
        }
    }
    Ok(true)
}

fn meets(
    alloc: Global,
    rows: &Rows,
    table: Table,
    conditions: &[Condition],
    id: RowId,
) -> Result<bool, OutOfMemory>
    ensures { IfOk result (λ b. b ≡ meets_at table conditions.now rows.now id) }
{
    match rows.get(table, id) {
        Some(row) => all_hold(alloc, id, row, conditions),
        None => Ok(false),
    }
}

/// The one identifier that a value holds.
fn id_in(datum: &Datum) -> Option<RowId>
    ensures { IfSome result (λ id. datum.now ≡ one (Id id)) }
{
    match datum {
        Datum::Set(set) => match set.as_slice() {
            [Atom::Id(id)] => Some(*id),
            _ => None,
        },
        Datum::Map(_) => None,
    }
}

/// The identifier that a condition on `_uuid` asks for.
#[tactic(auto, using(crate::proofs::Selected::asks_for_id))]
fn asked_by(condition: &Condition) -> Option<RowId>
    ensures { IfSome result (λ id. Asks condition.now id) }
{
    match (condition.field, condition.function) {
        (Field::Id, Function::Equal) => id_in(&condition.value),
        _ => None,
    }
}

/// The identifier that some condition on `_uuid` asks for.
fn asked(conditions: &[Condition]) -> Option<RowId>
    ensures { IfSome result (λ id. AsksFor conditions.now id) }
{
    'conditions: for condition in conditions {
        if let Some(id) = asked_by(condition) {
            return Some(id);
        }
    }
    None
}

/// The row with the identifier that the conditions ask for, where it meets them all.
#[tactic(auto, using(crate::proofs::Selected::one_selected, crate::proofs::Selected::none_selected))]
fn looked_up(
    alloc: Global,
    rows: &Rows,
    table: Table,
    conditions: &[Condition],
    id: RowId,
) -> Result<List<RowId>, OutOfMemory>
    requires { AsksFor conditions.now id }
    ensures { IfOk result (λ ids. ids ≡ selected table conditions.now rows.now) }
{
    let mut ids = List::new(alloc);
    if !meets(alloc, rows, table, conditions, id)? {
        return Ok(ids);
    }
    ids.push(id)?;
    Ok(ids)
}

/// Each row of the table that meets the conditions.
fn scanned(
    alloc: Global,
    rows: &Rows,
    table: Table,
    conditions: &[Condition],
) -> Result<List<RowId>, OutOfMemory>
    ensures { IfOk result (λ ids. ids ≡ selected table conditions.now rows.now) }
{
    let mut ids = List::new(alloc);
    'rows: for id in rows.ids(table) {
        if meets(alloc, rows, table, conditions, id)? {
            ids.push(id)?;
        }
    }
    Ok(ids)
}

/// The rows of a table that meet the conditions, by identifier. Where a condition asks for one identifier, that row is looked
/// up, and the table is not gone through.
pub(crate) fn selected(
    alloc: Global,
    rows: &Rows,
    table: Table,
    conditions: &[Condition],
) -> Result<List<RowId>, OutOfMemory>
    ensures { IfOk result (λ ids. ids ≡ selected table conditions.now rows.now) }
{
    match asked(conditions) {
        Some(id) => looked_up(alloc, rows, table, conditions, id),
        None => scanned(alloc, rows, table, conditions),
    }
}
