//! Row updates as they are sent (RFC 7047, section 4.1.6).

ghost use Rattle.std.specs.Prelude.{◌≡◌, [], Some, None, option_map, filter_map, IfOk, OnOk};
ghost use Rattle.serde_json.specs.Data.{put as with_member};
ghost use Rattle.serde_json.specs.View.{view, members_view};
ghost use Rattle.json_notation.specs.Json.{to_members};
ghost use Rattle.ovsdb_values.specs.Notation.{id_text, datum_json};
ghost use Rattle.ovsdb_values.specs.Sets.{same_datum};
ghost use Rattle.ovsdb_values.specs.declared.datums.Datum.TheVariants.{Set};
ghost use Rattle.vtep_schema.specs.Tables.{column_name};
ghost use Rattle.vtep_rows.specs.Row.{value_at};
ghost use Rattle.monitor_updates.specs.Noted.{cut, differing, asked_of, Insert, Delete, Modify};
ghost use Rattle.monitor_updates.specs.Updates.{members_json, update_json, table_member, tables_json};
ghost use Rattle.monitor_updates.specs.OneRow.{told_by, told_member, with_some, is_any};

use crate::requests::MonitorRequest;
use ovsdb_values::{AtomSet, Datum, to_json};
use serde_json::{Map, Value, put};
use std::alloc::Global;
use uuid::Uuid;
use vtep_base::{OutOfMemory, RowId};
use vtep_rows::{Row, RowChange};
use vtep_schema::{Column, Table, column_name, shape, table_name, tables};

/// What is asked of a table.
pub(crate) fn asked_of(request: &[MonitorRequest], table: Table) -> Option<&MonitorRequest>
    ensures { option_map (λ a. a.now) result ≡ asked_of request.now table }
{
    'request: for asked in request {
        if asked.table == table {
            return Some(asked);
        }
    }
    None
}

fn is_empty_set(datum: &Datum) -> bool
    ensures { result ≡ same_datum (Set []) datum.now }
{
    match datum {
        Datum::Set(set) => set.as_slice().is_empty(),
        Datum::Map(_) => false,
    }
}

fn is_same(old: &Row, new: &Row, column: Column) -> bool
    ensures { result ≡ same_datum (value_at old.now column) (value_at new.now column) }
{
    let old = old.find(column);
    let new = new.find(column);
    let Some(old) = old else {
        return match new {
            Some(new) => is_empty_set(new),
            None => true,
        };
    };
    match new {
        Some(new) => *old == *new,
        None => is_empty_set(old),
    }
}

/// Some column differs.
pub(crate) fn differ(columns: &[Column], old: &Row, new: &Row) -> bool
    ensures { result ≡ is_any (differing (cut columns.now old.now) (cut columns.now new.now)) }
{
    'columns: for column in columns {
        if !is_same(old, new, *column) {
            return true;
        }
    }
    false
}

/// The value of a column.
fn value_json(alloc: Global, row: &Row, column: Column) -> Result<Value, OutOfMemory>
    ensures { IfOk result (λ v. view v ≡ datum_json (value_at row.now column)) }
{
    match row.find(column) {
        Some(datum) => to_json(alloc, datum, shape(column)),
        None => to_json(alloc, &Datum::Set(AtomSet::new(alloc)), shape(column)),
    }
}

fn put_value(
    alloc: Global,
    row: &Row,
    column: Column,
    members: &mut Map<String, Value>,
) -> Result<(), OutOfMemory>
    ensures { OnOk result (members_view members.new.entries
        ≡ with_member (column_name column) (datum_json (value_at row.now column))
        (members_view members.old.entries)) }
{
    let value = value_json(alloc, row, column)?;
    Ok(put(members, alloc, column_name(column), value)?)
}

/// The monitored columns of a row.
fn cut_members(
    alloc: Global,
    columns: &[Column],
    row: &Row,
) -> Result<Map<String, Value>, OutOfMemory>
    ensures { IfOk result (λ m. members_view m.entries
        ≡ to_members (members_json (cut columns.now row.now))) }
{
    let mut members = Map::new(alloc);
    'columns: for column in columns.iter().rev() {
        put_value(alloc, row, *column, &mut members)?;
    }
    Ok(members)
}

/// The old values of the columns that differ.
fn differing_members(
    alloc: Global,
    columns: &[Column],
    old: &Row,
    new: &Row,
) -> Result<Map<String, Value>, OutOfMemory>
    ensures { IfOk result (λ m. members_view m.entries
        ≡ to_members (members_json (differing (cut columns.now old.now)
        (cut columns.now new.now)))) }
{
    let mut members = Map::new(alloc);
    'columns: for column in columns.iter().rev() {
        if !is_same(old, new, *column) {
            put_value(alloc, old, *column, &mut members)?;
        }
    }
    Ok(members)
}

/// A row that came: all its monitored columns.
pub(crate) fn insert_json(
    alloc: Global,
    asked: &MonitorRequest,
    new: &Row,
) -> Result<Value, OutOfMemory>
    ensures { IfOk result (λ v. view v ≡ update_json (Insert (cut asked.now.columns new.now))) }
{
    let mut update = Map::new(alloc);
    let columns = cut_members(alloc, asked.columns.as_slice(), new)?;
    put(&mut update, alloc, "new", Value::Object(columns))?;
    Ok(Value::Object(update))
}

/// A row that went: all its monitored columns.
fn delete_json(alloc: Global, asked: &MonitorRequest, old: &Row) -> Result<Value, OutOfMemory>
    ensures { IfOk result (λ v. view v ≡ update_json (Delete (cut asked.now.columns old.now))) }
{
    let mut update = Map::new(alloc);
    let columns = cut_members(alloc, asked.columns.as_slice(), old)?;
    put(&mut update, alloc, "old", Value::Object(columns))?;
    Ok(Value::Object(update))
}

/// A row that changed: the old values of the columns that differ, and all new ones.
fn modify_json(
    alloc: Global,
    asked: &MonitorRequest,
    old: &Row,
    new: &Row,
) -> Result<Value, OutOfMemory>
    ensures { IfOk result (λ v. view v
        ≡ update_json (Modify (differing (cut asked.now.columns old.now)
        (cut asked.now.columns new.now)) (cut asked.now.columns new.now))) }
{
    let mut update = Map::new(alloc);
    let before = differing_members(alloc, asked.columns.as_slice(), old, new)?;
    put(&mut update, alloc, "old", Value::Object(before))?;
    let columns = cut_members(alloc, asked.columns.as_slice(), new)?;
    put(&mut update, alloc, "new", Value::Object(columns))?;
    Ok(Value::Object(update))
}

/// What is told of a row that was there.
fn told_of_old(
    alloc: Global,
    asked: &MonitorRequest,
    old: &Row,
    new: Option<&Row>,
) -> Result<Option<Value>, OutOfMemory>
    ensures { IfOk result (λ o. option_map view o
        ≡ option_map update_json (told_by (Some asked.now) (Some old.now)
        (option_map (λ row. row.now) new.entry))) }
{
    let Some(new) = new else {
        if !asked.delete {
            return Ok(None);
        }
        return Ok(Some(delete_json(alloc, asked, old)?));
    };
    if !asked.modify || !differ(asked.columns.as_slice(), old, new) {
        return Ok(None);
    }
    Ok(Some(modify_json(alloc, asked, old, new)?))
}

fn told_json(
    alloc: Global,
    asked: &MonitorRequest,
    change: &RowChange,
) -> Result<Option<Value>, OutOfMemory>
    ensures { IfOk result (λ o. option_map view o
        ≡ option_map update_json (told_by (Some asked.now) change.now.old change.now.new)) }
{
    if let Some(old) = &change.old {
        return told_of_old(alloc, asked, old, change.new.as_ref());
    }
    match &change.new {
        Some(new) if asked.insert => Ok(Some(insert_json(alloc, asked, new)?)),
        _ => Ok(None),
    }
}

/// Adds a row's member.
pub(crate) fn put_row(
    alloc: Global,
    id: RowId,
    update: Value,
    members: &mut Map<String, Value>,
) -> Result<(), OutOfMemory>
    ensures { OnOk result (members_view members.new.entries
        ≡ with_member (id_text id) (view update) (members_view members.old.entries)) }
{
    let mut buffer = Uuid::encode_buffer();
    let text = Uuid::from_u128(id).hyphenated().encode_lower(&mut buffer);
    Ok(put(members, alloc, text, update)?)
}

/// The rows of a table that are told.
fn rows_told(
    alloc: Global,
    table: Table,
    asked: &MonitorRequest,
    change: &[RowChange],
) -> Result<Map<String, Value>, OutOfMemory>
    ensures { IfOk result (λ m. members_view m.entries
        ≡ to_members (filter_map (told_member table (Some asked.now)) change.now)) }
{
    let mut members = Map::new(alloc);
    'change: for row in change.iter().rev() {
        if row.table == table {
            if let Some(update) = told_json(alloc, asked, row)? {
                put_row(alloc, row.id, update, &mut members)?;
            }
        }
    }
    Ok(members)
}

fn table_told(
    alloc: Global,
    request: &[MonitorRequest],
    table: Table,
    change: &[RowChange],
) -> Result<Map<String, Value>, OutOfMemory>
    ensures { IfOk result (λ m. members_view m.entries
        ≡ to_members (filter_map (told_member table (asked_of request.now table)) change.now)) }
{
    match asked_of(request, table) {
        Some(asked) => rows_told(alloc, table, asked, change),
        None => Ok(Map::new(alloc)),
    }
}

/// Adds a table's member, where it has any row.
#[tactic(auto, using(crate::proofs::Tables::some_member))]
pub(crate) fn put_table(
    alloc: Global,
    table: Table,
    rows: Map<String, Value>,
    members: &mut Map<String, Value>,
) -> Result<(), OutOfMemory>
    ensures { OnOk result (members_view members.new.entries
        ≡ with_some (table_member table (members_view rows.entries))
        (members_view members.old.entries)) }
{
    if rows.is_empty() {
        return Ok(());
    }
    Ok(put(members, alloc, table_name(table), Value::Object(rows))?)
}

/// The tables that have rows to tell.
#[tactic(auto, using(crate::proofs::Tables::with_some_is))]
pub(crate) fn tables_told(
    alloc: Global,
    request: &[MonitorRequest],
    change: &[RowChange],
) -> Result<Map<String, Value>, OutOfMemory>
    ensures { IfOk result (λ m. members_view m.entries
        ≡ tables_json (λ t. filter_map (told_member t (asked_of request.now t)) change.now)) }
{
    let mut members = Map::new(alloc);
    'tables: for table in tables().iter().rev() {
        let rows = table_told(alloc, request, *table, change)?;
        put_table(alloc, *table, rows, &mut members)?;
    }
    Ok(members)
}
