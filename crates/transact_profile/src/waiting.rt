//! Whether the rows that are waited for are there.

ghost use Rattle.std.specs.Prelude.{◌≡◌, IfOk, Some};
ghost use Rattle.std.specs.List.{list_all, list_any};
ghost use Rattle.transact_profile.specs.Conditions.{value_of};
ghost use Rattle.transact_profile.specs.declared.operations.Field.TheVariants.{Of};
ghost use Rattle.transact_profile.specs.Meaning.{same_field, is_cell, agrees_some, agrees, is_asked, is_row_given, is_given_at, same_rows, waits_for};

use crate::operations::{Field, Until};
use crate::selecting::{own_id, value_of};
use ovsdb_values::Datum;
use std::alloc::Global;
use vtep_base::{List, OutOfMemory, RowId};
use vtep_rows::{Row, Rows};
use vtep_schema::{Column, Table};

fn same_field(one: Field, other: Field) -> bool
    ensures { result ≡ same_field one other }
{
    match (one, other) {
        (Field::Id, Field::Id) => true,
        (Field::Of(one), Field::Of(other)) => one == other,
        _ => false,
    }
}

fn is_value(datum: &Datum, field: Field, cell: &(Field, Datum)) -> bool
    ensures { result ≡ is_cell datum.now field cell.now }
{
    same_field(cell.0, field) && *datum == cell.1
}

fn is_given(datum: &Datum, field: Field, cells: &[(Field, Datum)]) -> bool
    ensures { result ≡ list_any (is_cell datum.now field) cells.now }
{
    cells.iter().any(|cell| is_value(datum, field, cell))
}

fn column_agrees(row: &Row, column: Column, cells: &[(Field, Datum)]) -> bool
    ensures { result ≡ agrees_some (value_of row.now column) (Of column) cells.now }
{
    match value_of(row, column) {
        Some(datum) => is_given(datum, Field::Of(column), cells),
        None => false,
    }
}

fn agrees(
    alloc: Global,
    id: RowId,
    row: &Row,
    cells: &[(Field, Datum)],
    field: Field,
) -> Result<bool, OutOfMemory>
    ensures { IfOk result (λ b. b ≡ agrees id row.now cells.now field) }
{
    match field {
        Field::Id => {
            let own = own_id(alloc, id)?;
            Ok(is_given(&own, field, cells))
        }
        Field::Of(column) => Ok(column_agrees(row, column, cells)),
    }
}

fn all_agree(
    alloc: Global,
    id: RowId,
    row: &Row,
    cells: &[(Field, Datum)],
    fields: &[Field],
) -> Result<bool, OutOfMemory>
    ensures { IfOk result (λ b. b ≡ list_all (agrees id row.now cells.now) fields.now) }
{
    'fields: for field in fields {
        if !agrees(alloc, id, row, cells, *field)? {
            return Ok(false);
        }
    }
    Ok(true)
}

fn is_asked(fields: &[Field], cell: &(Field, Datum)) -> bool
    ensures { result ≡ is_asked fields.now cell.now }
{
    fields.iter().any(|field| same_field(cell.0, *field))
}

fn all_asked(fields: &[Field], cells: &[(Field, Datum)]) -> bool
    ensures { result ≡ list_all (is_asked fields.now) cells.now }
{
    cells.iter().all(|cell| is_asked(fields, cell))
}

/// The row, cut to the fields, is the one that is given.
fn is_row_given(
    alloc: Global,
    fields: &[Field],
    id: RowId,
    cells: &[(Field, Datum)],
    row: &Row,
) -> Result<bool, OutOfMemory>
    ensures { IfOk result (λ b. b ≡ is_row_given fields.now id cells.now (Some row.now)) }
{
    if !all_asked(fields, cells) {
        return Ok(false);
    }
    all_agree(alloc, id, row, cells, fields)
}

fn is_given_at(
    alloc: Global,
    fields: &[Field],
    rows: &Rows,
    table: Table,
    id: RowId,
    cells: &[(Field, Datum)],
) -> Result<bool, OutOfMemory>
    ensures { IfOk result (λ b. b ≡ is_given_at fields.now rows.now table id cells.now) }
{
    match rows.get(table, id) {
        Some(row) => is_row_given(alloc, fields, id, cells, row),
        None => Ok(false),
    }
}

fn row_is_given(
    alloc: Global,
    fields: &[Field],
    rows: &Rows,
    table: Table,
    id: RowId,
    given: &[List<(Field, Datum)>],
) -> Result<bool, OutOfMemory>
    ensures { IfOk result (λ b. b ≡ list_any (is_given_at fields.now rows.now table id) given.now) }
{
    'given: for cells in given {
        if is_given_at(alloc, fields, rows, table, id, cells.as_slice())? {
            return Ok(true);
        }
    }
    Ok(false)
}

fn all_given(
    alloc: Global,
    fields: &[Field],
    rows: &Rows,
    table: Table,
    ids: &[RowId],
    given: &[List<(Field, Datum)>],
) -> Result<bool, OutOfMemory>
    ensures { IfOk result (λ b. b ≡ list_all
        (λ id. list_any (is_given_at fields.now rows.now table id) given.now) ids.now) }
{
    'ids: for id in ids {
        if !row_is_given(alloc, fields, rows, table, *id, given)? {
            return Ok(false);
        }
    }
    Ok(true)
}

fn is_there(
    alloc: Global,
    fields: &[Field],
    rows: &Rows,
    table: Table,
    ids: &[RowId],
    cells: &[(Field, Datum)],
) -> Result<bool, OutOfMemory>
    ensures { IfOk result (λ b. b ≡ list_any
        (λ id. is_given_at fields.now rows.now table id cells.now) ids.now) }
{
    'ids: for id in ids {
        if is_given_at(alloc, fields, rows, table, *id, cells)? {
            return Ok(true);
        }
    }
    Ok(false)
}

fn all_there(
    alloc: Global,
    fields: &[Field],
    rows: &Rows,
    table: Table,
    ids: &[RowId],
    given: &[List<(Field, Datum)>],
) -> Result<bool, OutOfMemory>
    ensures { IfOk result (λ b. b ≡ list_all
        (λ cells. list_any (λ id. is_given_at fields.now rows.now table id cells) ids.now)
        given.now) }
{
    'given: for cells in given {
        if !is_there(alloc, fields, rows, table, ids, cells.as_slice())? {
            return Ok(false);
        }
    }
    Ok(true)
}

/// The matched rows, cut to the fields, and those that are given are the same set.
pub(crate) fn same_rows(
    alloc: Global,
    fields: &[Field],
    rows: &Rows,
    table: Table,
    ids: &[RowId],
    given: &[List<(Field, Datum)>],
) -> Result<bool, OutOfMemory>
    ensures { IfOk result (λ b. b ≡ same_rows fields.now rows.now table ids.now given.now) }
{
    if !all_given(alloc, fields, rows, table, ids, given)? {
        return Ok(false);
    }
    all_there(alloc, fields, rows, table, ids, given)
}

pub(crate) fn waits_for(until: Until, same: bool) -> bool
    ensures { result ≡ waits_for until same }
{
    match until {
        Until::Same => same,
        Until::Different => !same,
    }
}
