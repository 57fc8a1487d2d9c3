//! Rows, conditions and mutations of an operation, whose columns are known.

ghost use Rattle.std.specs.Prelude.{◌≡◌, map, option_map, IfOk, None};
ghost use Rattle.serde_json.specs.View.{view, members_view};
ghost use Rattle.json_notation.specs.Json.{members_of};
ghost use Rattle.std.specs.List.{list_all};
ghost use Rattle.transact_profile.specs.Refusing.{Reads, each};
ghost use Rattle.transact_profile.specs.Operations.{table_read, field_read, column_read, field_of, chosen, cell, cells, condition_in, condition, conditions, mutation_in, mutation, mutations, waited_fields, is_given, waited_cell, waited_row, waited_rows};

use crate::columns::{
    field_name, field_named, function_named, mutator_named, takes_function, takes_mutator,
};
use crate::faults::Fault;
use crate::known::Known;
use crate::members::triple;
use crate::operations::{Condition, Field, Mutation};
use crate::room::list_of;
use crate::values::{column_value, field_value, mutation_value};
use ovsdb_values::Datum;
use serde_json::{Map, Value};
use std::alloc::Global;
use vtep_base::{List, OutOfMemory, Word};
use vtep_schema::named::{column, table};
use vtep_schema::{Column, Table, column_rule, columns};

const SYNTAX: Fault = Fault::Refused(Word::SyntaxError);

const UNKNOWN_COLUMN: Fault = Fault::Refused(Word::UnknownColumn);

pub(crate) fn table_read(name: &str) -> Result<Table, Fault>
    ensures { Reads result (table_read name.now) }
{
    let Some(table) = table(name) else {
        return Err(Fault::Refused(Word::UnknownTable));
    };
    Ok(table)
}

fn field_read(table: Table, name: &str) -> Result<Field, Fault>
    ensures { Reads result (field_read table name.now) }
{
    let Some(field) = field_named(table, name) else {
        return Err(UNKNOWN_COLUMN);
    };
    Ok(field)
}

fn column_read(table: Table, name: &str) -> Result<Column, Fault>
    ensures { Reads result (column_read table name.now) }
{
    let Some(column) = column(table, name) else {
        return Err(UNKNOWN_COLUMN);
    };
    Ok(column)
}

fn field_of(table: Table, value: &Value) -> Result<Field, Fault>
    ensures { Reads result (field_of table (view value.now)) }
{
    let Some(name) = value.as_str() else {
        return Err(UNKNOWN_COLUMN);
    };
    field_read(table, name)
}

fn fields(alloc: Global, table: Table, values: &[Value]) -> Result<List<Field>, Fault>
    ensures { Reads result (each (field_of table) (map view values.now)) }
{
    let mut fields = List::new(alloc);
    'values: for value in values {
        fields.push(field_of(table, value)?)?;
    }
    Ok(fields)
}

/// The columns that are asked for, or none where all are.
pub(crate) fn chosen(
    alloc: Global,
    table: Table,
    columns: Option<&[Value]>,
) -> Result<Option<List<Field>>, Fault>
    ensures { Reads result (chosen table (option_map (λ s. map view s.now) columns.entry)) }
{
    match columns {
        None => Ok(None),
        Some(values) => Ok(Some(fields(alloc, table, values)?)),
    }
}

fn cell(
    alloc: Global,
    known: &Known,
    table: Table,
    name: &str,
    value: &Value,
) -> Result<(Column, Datum), Fault>
    ensures { Reads result (cell known.now table (name.now, view value.now)) }
{
    let column = column_read(table, name)?;
    let datum = column_value(alloc, known, column, value)?;
    Ok((column, datum))
}

/// The values of a row, by key.
pub(crate) fn cells(
    alloc: Global,
    known: &Known,
    table: Table,
    row: &Map<String, Value>,
) -> Result<List<(Column, Datum)>, Fault>
    ensures { Reads result (cells known.now table (members_of (members_view row.now.entries))) }
{
    let mut cells = list_of(alloc, row.len())?;
    'row: for (name, value) in row.iter() {
        cells.push(cell(alloc, known, table, name.as_str(), value)?)?;
    }
    Ok(cells)
}

fn condition_in(
    alloc: Global,
    known: &Known,
    table: Table,
    name: &str,
    function: &str,
    value: &Value,
) -> Result<Condition, Fault>
    ensures { Reads result (condition_in known.now table (name.now, function.now, view value.now)) }
{
    let field = field_read(table, name)?;
    let Some(function) = function_named(function) else {
        return Err(SYNTAX);
    };
    if !takes_function(field, function) {
        return Err(SYNTAX);
    }
    let value = field_value(alloc, known, table, field, value)?;
    Ok(Condition {
        field,
        function,
        value,
    })
}

fn condition(alloc: Global, known: &Known, table: Table, value: &Value) -> Result<Condition, Fault>
    ensures { Reads result (condition known.now table (view value.now)) }
{
    let Some((name, function, value)) = triple(value) else {
        return Err(SYNTAX);
    };
    condition_in(alloc, known, table, name, function, value)
}

pub(crate) fn conditions(
    alloc: Global,
    known: &Known,
    table: Table,
    values: &[Value],
) -> Result<List<Condition>, Fault>
    ensures { Reads result (conditions known.now table (map view values.now)) }
{
    let mut conditions = List::new(alloc);
    'values: for value in values {
        conditions.push(condition(alloc, known, table, value)?)?;
    }
    Ok(conditions)
}

fn mutation_in(
    alloc: Global,
    known: &Known,
    table: Table,
    name: &str,
    mutator: &str,
    value: &Value,
) -> Result<Mutation, Fault>
    ensures { Reads result (mutation_in known.now table (name.now, mutator.now, view value.now)) }
{
    let column = column_read(table, name)?;
    let Some(mutator) = mutator_named(mutator) else {
        return Err(SYNTAX);
    };
    if !takes_mutator(&column_rule(column), mutator) {
        return Err(SYNTAX);
    }
    let value = mutation_value(alloc, known, column, mutator, value)?;
    Ok(Mutation {
        column,
        mutator,
        value,
    })
}

fn mutation(alloc: Global, known: &Known, table: Table, value: &Value) -> Result<Mutation, Fault>
    ensures { Reads result (mutation known.now table (view value.now)) }
{
    let Some((name, mutator, value)) = triple(value) else {
        return Err(SYNTAX);
    };
    mutation_in(alloc, known, table, name, mutator, value)
}

pub(crate) fn mutations(
    alloc: Global,
    known: &Known,
    table: Table,
    values: &[Value],
) -> Result<List<Mutation>, Fault>
    ensures { Reads result (mutations known.now table (map view values.now)) }
{
    let mut mutations = List::new(alloc);
    'values: for value in values {
        mutations.push(mutation(alloc, known, table, value)?)?;
    }
    Ok(mutations)
}

/// The fields of all columns.
pub(crate) fn all_fields(alloc: Global, table: Table) -> Result<List<Field>, OutOfMemory>
    ensures { IfOk result (λ fields. fields ≡ waited_fields table None) }
{
    let mut fields = List::new(alloc);
    'columns: for column in columns(table) {
        fields.push(Field::Of(*column))?;
    }
    Ok(fields)
}

/// Each of the fields is a member of the row.
fn gives_all(fields: &[Field], row: &Value) -> bool
    ensures { result ≡ list_all (is_given (view row.now)) fields.now }
{
    fields
        .iter()
        .all(|field| row.get(field_name(*field)).is_some())
}

fn waited_cell(
    alloc: Global,
    known: &Known,
    table: Table,
    name: &str,
    value: &Value,
) -> Result<(Field, Datum), Fault>
    ensures { Reads result (waited_cell known.now table (name.now, view value.now)) }
{
    let field = field_read(table, name)?;
    let datum = field_value(alloc, known, table, field, value)?;
    Ok((field, datum))
}

fn waited_cells(
    alloc: Global,
    known: &Known,
    table: Table,
    row: &Map<String, Value>,
) -> Result<List<(Field, Datum)>, Fault>
    ensures { Reads result (each (waited_cell known.now table)
        (members_of (members_view row.now.entries))) }
{
    let mut cells = list_of(alloc, row.len())?;
    'row: for (name, value) in row.iter() {
        cells.push(waited_cell(alloc, known, table, name.as_str(), value)?)?;
    }
    Ok(cells)
}

fn waited_row(
    alloc: Global,
    known: &Known,
    table: Table,
    fields: &[Field],
    row: &Value,
) -> Result<List<(Field, Datum)>, Fault>
    ensures { Reads result (waited_row known.now table fields.now (view row.now)) }
{
    if !gives_all(fields, row) {
        return Err(SYNTAX);
    }
    let Some(row) = row.as_object() else {
        return Err(SYNTAX);
    };
    waited_cells(alloc, known, table, row)
}

fn rows_with(
    alloc: Global,
    known: &Known,
    table: Table,
    fields: &[Field],
    values: &[Value],
) -> Result<List<List<(Field, Datum)>>, Fault>
    ensures { Reads result (waited_rows known.now table fields.now (map view values.now)) }
{
    let mut rows = List::new(alloc);
    'values: for value in values {
        rows.push(waited_row(alloc, known, table, fields, value)?)?;
    }
    Ok(rows)
}

/// The rows that are waited for, each of which gives each of the columns, or of all columns.
pub(crate) fn waited_rows(
    alloc: Global,
    known: &Known,
    table: Table,
    columns: &Option<List<Field>>,
    values: &[Value],
) -> Result<List<List<(Field, Datum)>>, Fault>
    ensures { Reads result (waited_rows known.now table (waited_fields table columns.now)
        (map view values.now)) }
{
    match columns {
        Some(fields) => rows_with(alloc, known, table, fields.as_slice(), values),
        None => {
            let fields = all_fields(alloc, table)?;
            rows_with(alloc, known, table, fields.as_slice(), values)
        }
    }
}
