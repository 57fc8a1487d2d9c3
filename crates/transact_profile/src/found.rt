//! The rows of a select, as they are written.

ghost use Rattle.std.specs.Prelude.{◌≡◌, map, IfOk, OnOk, None};
ghost use Rattle.serde_json.specs.View.{view, members_view};
ghost use Rattle.json_notation.specs.Json.{list};
ghost use Rattle.ovsdb_values.specs.Sets.{one};
ghost use Rattle.ovsdb_values.specs.Notation.{datum_json};
ghost use Rattle.ovsdb_values.specs.declared.atoms.Atom.TheVariants.{Id};
ghost use Rattle.transact_profile.specs.declared.operations.Field.TheVariants.{Of};
ghost use Rattle.transact_profile.specs.Conditions.{value_of, cell_of};
ghost use Rattle.transact_profile.specs.Meaning.{with_cell, row_members, row_json, row_found, found, selected_fields};

use crate::columns::field_name;
use crate::operations::Field;
use crate::selecting::{own_id, value_of};
use ovsdb_values::to_json;
use serde_json::{Map, Value, put};
use std::alloc::Global;
use vtep_base::{Kind, List, OutOfMemory, RowId, Shape};
use vtep_rows::{Row, Rows};
use vtep_schema::{Column, Table, columns, shape};

fn id_json(alloc: Global, id: RowId) -> Result<Value, OutOfMemory>
    ensures { IfOk result (λ v. view v ≡ datum_json (one (Id id))) }
{
    let id = own_id(alloc, id)?;
    let shape = Shape {
        key: Kind::Id,
        value: None,
    };
    to_json(alloc, &id, shape)
}

fn put_value(
    alloc: Global,
    row: &Row,
    column: Column,
    members: &mut Map<String, Value>,
) -> Result<(), OutOfMemory>
    ensures { OnOk result (members_view members.new.entries
        ≡ with_cell (Of column) (value_of row.now column) (members_view members.old.entries)) }
{
    let Some(datum) = value_of(row, column) else {
        return Ok(());
    };
    let value = to_json(alloc, datum, shape(column))?;
    put(members, alloc, field_name(Field::Of(column)), value)?;
    Ok(())
}

fn put_cell(
    alloc: Global,
    id: RowId,
    row: &Row,
    field: Field,
    members: &mut Map<String, Value>,
) -> Result<(), OutOfMemory>
    ensures { OnOk result (members_view members.new.entries
        ≡ with_cell field (cell_of id row.now field) (members_view members.old.entries)) }
{
    match field {
        Field::Id => {
            let value = id_json(alloc, id)?;
            put(members, alloc, field_name(Field::Id), value)?;
            Ok(())
        }
        Field::Of(column) => put_value(alloc, row, column, members),
    }
}

fn row_json(alloc: Global, fields: &[Field], id: RowId, row: &Row) -> Result<Value, OutOfMemory>
    ensures { IfOk result (λ v. view v ≡ row_json fields.now id row.now) }
{
    let mut members = Map::new(alloc);
    'fields: for field in fields {
        put_cell(alloc, id, row, *field, &mut members)?;
    }
    Ok(Value::Object(members))
}

fn found(
    alloc: Global,
    rows: &Rows,
    table: Table,
    fields: &[Field],
    id: RowId,
) -> Result<Value, OutOfMemory>
    ensures { IfOk result (λ v. view v ≡ found rows.now table fields.now id) }
{
    match rows.get(table, id) {
        Some(row) => row_json(alloc, fields, id, row),
        None => Ok(Value::Object(Map::new(alloc))),
    }
}

/// The rows of these identifiers, cut to the fields.
fn rows_json(
    alloc: Global,
    rows: &Rows,
    table: Table,
    fields: &[Field],
    ids: &[RowId],
) -> Result<Value, OutOfMemory>
    ensures { IfOk result (λ v. view v ≡ list (map (found rows.now table fields.now) ids.now)) }
{
    let mut items = Vec::new(alloc);
    'ids: for id in ids {
        items.push(found(alloc, rows, table, fields, *id)?)?;
    }
    Ok(Value::Array(items))
}

/// The identifier and all columns.
fn all_fields(alloc: Global, table: Table) -> Result<List<Field>, OutOfMemory>
    ensures { IfOk result (λ fields. fields ≡ selected_fields table None) }
{
    let mut fields = List::new(alloc);
    fields.push(Field::Id)?;
    'columns: for column in columns(table) {
        fields.push(Field::Of(*column))?;
    }
    Ok(fields)
}

/// The rows that a select finds, cut to its columns.
pub(crate) fn selected_rows(
    alloc: Global,
    rows: &Rows,
    table: Table,
    columns: &Option<List<Field>>,
    ids: &[RowId],
) -> Result<Value, OutOfMemory>
    ensures { IfOk result (λ v. view v
        ≡ list (map (found rows.now table (selected_fields table columns.now)) ids.now)) }
{
    match columns {
        Some(fields) => rows_json(alloc, rows, table, fields.as_slice(), ids),
        None => {
            let fields = all_fields(alloc, table)?;
            rows_json(alloc, rows, table, fields.as_slice(), ids)
        }
    }
}
