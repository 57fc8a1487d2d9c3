//! What mutations and updates make of a row.

ghost use Rattle.std.specs.Prelude.{◌≡◌, IfOk, ◌&&◌, false, if◌then◌else◌, Some, None};
ghost use Rattle.transact_profile.specs.Refusing.{Reads, each};
ghost use Rattle.transact_profile.specs.Conditions.{number_in};
ghost use Rattle.transact_profile.specs.Mutations.{arithmetic, divides, is_zero, fits_64, mutated_number, mutated_atom, computed, is_insert, is_delete, mutated_value, written, mutated_once, mutated, updated};

use crate::faults::Fault;
use crate::operations::{Mutation, Mutator};
use crate::selecting::{number_in, value_of};
use ovsdb_values::{Atom, AtomSet, Datum};
use std::alloc::Global;
use vtep_base::{List, Word};
use vtep_rows::{Row, RowFault};
use vtep_schema::Column;

const OUT_OF_BOUNDS: Fault = Fault::Refused(Word::ConstraintViolation);

fn divides(mutator: Mutator) -> bool
    ensures { result ≡ divides mutator }
{
    matches!(mutator, Mutator::Divide | Mutator::Remainder)
}

/// The result, where it has 64 bits.
fn arithmetic(mutator: Mutator, number: i64, by: i64) -> Option<i64>
    requires { divides mutator && is_zero by ≡ false }
    ensures { result ≡ (if fits_64 (arithmetic mutator number by) then Some
        (arithmetic mutator number by) else None) }
{
    match mutator {
        Mutator::Add => number.checked_add(by),
        Mutator::Subtract => number.checked_sub(by),
        Mutator::Multiply => number.checked_mul(by),
        Mutator::Divide => number.checked_div(by),
        Mutator::Remainder => Some(number.wrapping_rem(by)),
        Mutator::Insert | Mutator::Delete => Some(number),
    }
}

#[tactic(auto, unfolding(crate::specs::Mutations::mutated_number))]
fn mutated_number(mutator: Mutator, by: i64, number: i64) -> Result<i64, Fault>
    ensures { Reads result (mutated_number mutator by number) }
{
    if divides(mutator) && by == 0 {
        return Err(Fault::Refused(Word::DomainError));
    }
    let Some(number) = arithmetic(mutator, number, by) else {
        return Err(Fault::Refused(Word::RangeError));
    };
    Ok(number)
}

#[tactic(auto, unfolding(crate::specs::Mutations::mutated_atom))]
fn mutated_atom(alloc: Global, mutator: Mutator, by: &Datum, atom: &Atom) -> Result<Atom, Fault>
    ensures { Reads result (mutated_atom mutator (number_in by.now) atom.now) }
{
    match atom {
        Atom::Integer(number) => Ok(Atom::Integer(mutated_number(
            mutator,
            number_in(by),
            *number,
        )?)),
        _ => Ok(atom.copy(alloc)?),
    }
}

fn mutated_atoms(
    alloc: Global,
    mutator: Mutator,
    by: &Datum,
    atoms: &[Atom],
) -> Result<List<Atom>, Fault>
    ensures { Reads result (each (mutated_atom mutator (number_in by.now)) atoms.now) }
{
    let mut all = List::new(alloc);
    'atoms: for atom in atoms {
        all.push(mutated_atom(alloc, mutator, by, atom)?)?;
    }
    Ok(all)
}

/// The datum with each of its numbers changed.
fn computed(alloc: Global, mutator: Mutator, by: &Datum, datum: &Datum) -> Result<Datum, Fault>
    ensures { Reads result (computed mutator (number_in by.now) datum.now) }
{
    match datum {
        Datum::Set(set) => {
            let atoms = mutated_atoms(alloc, mutator, by, set.as_slice())?;
            Ok(Datum::Set(AtomSet::merged(alloc, atoms)?))
        }
        Datum::Map(_) => Ok(datum.copy(alloc)?),
    }
}

fn is_insert(mutator: Mutator) -> bool
    ensures { result ≡ is_insert mutator }
{
    matches!(mutator, Mutator::Insert)
}

fn is_delete(mutator: Mutator) -> bool
    ensures { result ≡ is_delete mutator }
{
    matches!(mutator, Mutator::Delete)
}

fn mutated_value(alloc: Global, mutator: Mutator, datum: &Datum, by: &Datum) -> Result<Datum, Fault>
    ensures { Reads result (mutated_value mutator datum.now by.now) }
{
    if is_insert(mutator) {
        return Ok(datum.with_all(alloc, by)?);
    }
    if is_delete(mutator) {
        return Ok(datum.without_all(alloc, by)?);
    }
    computed(alloc, mutator, by, datum)
}

#[tactic(auto, unfolding(crate::specs::Mutations::written))]
fn written(alloc: Global, row: &Row, column: Column, datum: Datum) -> Result<Row, Fault>
    ensures value { Reads result (written row.now column datum) }
    ensures table { IfOk result (λ new. new.table ≡ row.now.table) }
{
    match row.with(alloc, column, datum) {
        Ok(row) => Ok(row),
        Err(RowFault::OutOfMemory) => Err(Fault::OutOfMemory),
        Err(RowFault::Values) => Err(OUT_OF_BOUNDS),
    }
}

fn mutated_once(alloc: Global, row: &Row, mutation: &Mutation) -> Result<Row, Fault>
    ensures value { Reads result (mutated_once row.now mutation.now) }
    ensures table { IfOk result (λ new. new.table ≡ row.now.table) }
{
    let Some(datum) = value_of(row, mutation.column) else {
        return Err(OUT_OF_BOUNDS);
    };
    let datum = mutated_value(alloc, mutation.mutator, datum, &mutation.value)?;
    written(alloc, row, mutation.column, datum)
}

/// The row after one mutation after the other.
pub(crate) fn mutated(alloc: Global, row: &Row, mutations: &[Mutation]) -> Result<Row, Fault>
    ensures value { Reads result (mutated row.now mutations.now) }
    ensures table { IfOk result (λ new. new.table ≡ row.now.table) }
{
    let mut new = row.copy(alloc)?;
    'mutations: for mutation in mutations {
        new = mutated_once(alloc, &new, mutation)?;
    }
    Ok(new)
}

fn with_cell(alloc: Global, row: &Row, cell: &(Column, Datum)) -> Result<Row, Fault>
    ensures value { Reads result (written row.now cell.now.0 cell.now.1) }
    ensures table { IfOk result (λ new. new.table ≡ row.now.table) }
{
    let datum = cell.1.copy(alloc)?;
    written(alloc, row, cell.0, datum)
}

/// The row with each value put in its column.
pub(crate) fn updated(alloc: Global, row: &Row, values: &[(Column, Datum)]) -> Result<Row, Fault>
    ensures value { Reads result (updated row.now values.now) }
    ensures table { IfOk result (λ new. new.table ≡ row.now.table) }
{
    let mut new = row.copy(alloc)?;
    'values: for cell in values {
        new = with_cell(alloc, &new, cell)?;
    }
    Ok(new)
}
