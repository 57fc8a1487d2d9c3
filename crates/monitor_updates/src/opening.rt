//! What a new monitor is told.

ghost use Rattle.std.specs.Prelude.{◌≡◌, true, filter_map, IfOk};
ghost use Rattle.serde_json.specs.View.{view, members_view};
ghost use Rattle.json_notation.specs.Json.{to_members};
ghost use Rattle.vtep_rows.specs.Rows.{ids_of};
ghost use Rattle.monitor_updates.specs.Noted.{asked_of};
ghost use Rattle.monitor_updates.specs.Updates.{tables_json, opening_json};
ghost use Rattle.monitor_updates.specs.OneRow.{initial_member, there_member};

use crate::requests::MonitorRequest;
use crate::updates::{asked_of, insert_json, put_row, put_table};
use serde_json::{Map, Value};
use std::alloc::Global;
use vtep_base::{OutOfMemory, RowId};
use vtep_rows::Rows;
use vtep_schema::{Table, tables};

fn ids_in(alloc: Global, rows: &Rows, table: Table) -> Result<Vec<RowId>, OutOfMemory>
    ensures { IfOk result (λ ids. ids.items ≡ ids_of table rows.now) }
{
    let mut ids = Vec::new(alloc);
    'ids: for id in rows.ids(table) {
        ids.push(id)?;
    }
    Ok(ids)
}

/// These rows of a table, all monitored columns of each.
fn rows_there(
    alloc: Global,
    table: Table,
    asked: &MonitorRequest,
    rows: &Rows,
    ids: &[RowId],
) -> Result<Map<String, Value>, OutOfMemory>
    ensures { IfOk result (λ m. members_view m.entries
        ≡ to_members (filter_map (there_member table asked.now rows.now) ids.now)) }
{
    let mut members = Map::new(alloc);
    'ids: for id in ids.iter().rev() {
        if let Some(row) = rows.get(table, *id) {
            let update = insert_json(alloc, asked, row)?;
            put_row(alloc, *id, update, &mut members)?;
        }
    }
    Ok(members)
}

fn table_there(
    alloc: Global,
    request: &[MonitorRequest],
    table: Table,
    rows: &Rows,
) -> Result<Map<String, Value>, OutOfMemory>
    ensures { IfOk result (λ m. members_view m.entries
        ≡ to_members (filter_map (initial_member table (asked_of request.now table) rows.now)
        (ids_of table rows.now))) }
{
    let Some(asked) = asked_of(request, table) else {
        return Ok(Map::new(alloc));
    };
    if !asked.initial {
        return Ok(Map::new(alloc));
    }
    let ids = ids_in(alloc, rows, table)?;
    rows_there(alloc, table, asked, rows, ids.as_slice())
}

#[tactic(auto, using(crate::proofs::Tables::with_some_is))]
fn tables_there(
    alloc: Global,
    request: &[MonitorRequest],
    rows: &Rows,
) -> Result<Map<String, Value>, OutOfMemory>
    ensures { IfOk result (λ m. members_view m.entries
        ≡ tables_json (λ t. filter_map (initial_member t (asked_of request.now t) rows.now)
        (ids_of t rows.now))) }
{
    let mut members = Map::new(alloc);
    'tables: for table in tables().iter().rev() {
        let there = table_there(alloc, request, *table, rows)?;
        put_table(alloc, *table, there, &mut members)?;
    }
    Ok(members)
}

/// The answer to a monitor's request: the rows that are there.
pub(crate) fn opening(
    alloc: Global,
    request: &[MonitorRequest],
    rows: &Rows,
) -> Result<Value, OutOfMemory>
    ensures { IfOk result (λ v. view v ≡ opening_json request.now rows.now) }
{
    Ok(Value::Object(tables_there(alloc, request, rows)?))
}
