//! Names in values, and the rows that they stand for.

ghost use Rattle.std.specs.Prelude.{◌≡◌, map, IfOk};
ghost use Rattle.transact_profile.specs.Conditions.{atom_for, resolved_atom, resolved_pair, resolved, resolved_cells, resolved_condition, resolved_conditions, resolved_mutation, resolved_mutations, resolved_rows};

use crate::names::NamedRows;
use crate::operations::{Condition, Field, Mutation};
use crate::room::list_of;
use ovsdb_values::{Atom, AtomMap, AtomSet, Datum};
use std::alloc::Global;
use vtep_base::{List, OutOfMemory};
use vtep_schema::Column;

fn resolved_atom(alloc: Global, names: &NamedRows, atom: &Atom) -> Result<Atom, OutOfMemory>
    ensures { IfOk result (λ a. a ≡ resolved_atom names.now atom.now) }
{
    match atom {
        Atom::Named(_) => match names.find(atom) {
            Some(id) => Ok(Atom::Id(id)),
            None => atom.copy(alloc),
        },
        _ => atom.copy(alloc),
    }
}

fn resolved_atoms(
    alloc: Global,
    names: &NamedRows,
    atoms: &[Atom],
) -> Result<List<Atom>, OutOfMemory>
    ensures { IfOk result (λ all. all ≡ map (resolved_atom names.now) atoms.now) }
{
    let mut all = list_of(alloc, atoms.len())?;
    'atoms: for atom in atoms {
        all.push(resolved_atom(alloc, names, atom)?)?;
    }
    Ok(all)
}

fn resolved_pairs(
    alloc: Global,
    names: &NamedRows,
    pairs: &[(Atom, Atom)],
) -> Result<List<(Atom, Atom)>, OutOfMemory>
    ensures { IfOk result (λ all. all ≡ map (resolved_pair names.now) pairs.now) }
{
    let mut all = List::new(alloc);
    'pairs: for pair in pairs {
        let key = resolved_atom(alloc, names, &pair.0)?;
        let value = resolved_atom(alloc, names, &pair.1)?;
        all.push((key, value))?;
    }
    Ok(all)
}

/// The datum with rows in the place of their names.
fn resolved(alloc: Global, names: &NamedRows, datum: &Datum) -> Result<Datum, OutOfMemory>
    ensures { IfOk result (λ d. d ≡ resolved names.now datum.now) }
{
    match datum {
        Datum::Set(set) => {
            let atoms = resolved_atoms(alloc, names, set.as_slice())?;
            Ok(Datum::Set(AtomSet::merged(alloc, atoms)?))
        }
        Datum::Map(map) => {
            let pairs = resolved_pairs(alloc, names, map.as_slice())?;
            Ok(Datum::Map(AtomMap::merged(alloc, pairs)?))
        }
    }
}

pub(crate) fn resolved_row(
    alloc: Global,
    names: &NamedRows,
    row: &[(Column, Datum)],
) -> Result<List<(Column, Datum)>, OutOfMemory>
    ensures { IfOk result (λ all. all ≡ resolved_cells names.now row.now) }
{
    let mut all = list_of(alloc, row.len())?;
    'row: for cell in row {
        all.push((cell.0, resolved(alloc, names, &cell.1)?))?;
    }
    Ok(all)
}

fn resolved_given(
    alloc: Global,
    names: &NamedRows,
    cells: &[(Field, Datum)],
) -> Result<List<(Field, Datum)>, OutOfMemory>
    ensures { IfOk result (λ all. all ≡ resolved_cells names.now cells.now) }
{
    let mut all = List::new(alloc);
    'cells: for cell in cells {
        all.push((cell.0, resolved(alloc, names, &cell.1)?))?;
    }
    Ok(all)
}

pub(crate) fn resolved_rows(
    alloc: Global,
    names: &NamedRows,
    rows: &[List<(Field, Datum)>],
) -> Result<List<List<(Field, Datum)>>, OutOfMemory>
    ensures { IfOk result (λ all. all ≡ resolved_rows names.now rows.now) }
{
    let mut all = List::new(alloc);
    'rows: for cells in rows {
        all.push(resolved_given(alloc, names, cells.as_slice())?)?;
    }
    Ok(all)
}

pub(crate) fn resolved_conditions(
    alloc: Global,
    names: &NamedRows,
    conditions: &[Condition],
) -> Result<List<Condition>, OutOfMemory>
    ensures { IfOk result (λ all. all ≡ resolved_conditions names.now conditions.now) }
{
    let mut all = List::new(alloc);
    'conditions: for condition in conditions {
        all.push(Condition {
            field: condition.field,
            function: condition.function,
            value: resolved(alloc, names, &condition.value)?,
        })?;
    }
    Ok(all)
}

pub(crate) fn resolved_mutations(
    alloc: Global,
    names: &NamedRows,
    mutations: &[Mutation],
) -> Result<List<Mutation>, OutOfMemory>
    ensures { IfOk result (λ all. all ≡ resolved_mutations names.now mutations.now) }
{
    let mut all = List::new(alloc);
    'mutations: for mutation in mutations {
        all.push(Mutation {
            column: mutation.column,
            mutator: mutation.mutator,
            value: resolved(alloc, names, &mutation.value)?,
        })?;
    }
    Ok(all)
}
