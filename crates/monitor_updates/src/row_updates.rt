//! Table updates as a mirror reads them (RFC 7047, section 4.1.6).

ghost use Rattle.std.specs.Prelude.{◌≡◌, ◌∷◌, [], ◌<◌, ◌^◌, Some, None, option_map, IfOk, IfSome};
ghost use Rattle.serde_json.specs.View.{view, members_view};
ghost use Rattle.monitor_updates.specs.Mirrored.{holds_mac, lower_mac, lowered, value_if, value_in, told_value, values_from, told_values, told_whole, told_some, told_by, only_told, told_update, told_entry, rows_from, spells_each_once, told_table, tables_from, told_of};
ghost use Rattle.ovsdb_values.specs.Notation.{datum_of};
ghost use Rattle.vtep_schema.specs.Tables.{shape_of};

use ovsdb_values::{Atom, AtomSet, Datum, NotationFault, from_json, parse_id};
use serde_json::{Map, Value};
use std::alloc::Global;
use std::collections::BTreeSet;
use vtep_base::{List, Mac, OutOfMemory, RowId, Txt};
use vtep_rows::{Row, RowFault, allowed};
use vtep_schema::{Column, Domain, Table, column_rule, named, shape};

/// What a monitor tells of a row.
#[derive(Drop)]
pub(crate) enum RowUpdate {
    Insert(Row),
    Delete(Row),
    /// The old values of the columns that changed, and the row as it is.
    Modify(List<(Column, Datum)>, Row),
}

fn holds_mac(domain: Domain) -> bool
    ensures { result ≡ holds_mac domain }
{
    matches!(domain, Domain::Mac | Domain::SingleMac | Domain::GroupMac)
}

/// The text of a MAC address in lower case; any other as it is.
fn lower_mac(alloc: Global, text: &Txt) -> Result<Txt, OutOfMemory>
    ensures { IfOk result (λ lower. lower ≡ lower_mac text.now) }
{
    if Mac::parse(text.as_slice()).is_err() {
        return Txt::from_str(alloc, text.as_str());
    }
    let mut lower = String::from_str(alloc, text.as_str())?;
    lower.make_ascii_lowercase();
    Ok(Txt::from_string(lower))
}

fn lowered(alloc: Global, mac: bool, datum: Datum) -> Result<Datum, OutOfMemory>
    ensures { IfOk result (λ lower. lower ≡ lowered mac datum) }
{
    if !mac {
        return Ok(datum);
    }
    let Datum::Set(set) = datum else {
        return Ok(datum);
    };
    let [Atom::Text(text)] = set.as_slice() else {
        return Ok(Datum::Set(set));
    };
    let text = lower_mac(alloc, text)?;
    Ok(Datum::Set(AtomSet::one(alloc, Atom::Text(text))?))
}

fn value_if(column: Column, datum: Datum) -> Option<(Column, Datum)>
    ensures { result ≡ value_if column datum }
{
    if allowed(column, &datum) {
        Some((column, datum))
    } else {
        None
    }
}

fn value_in(
    alloc: Global,
    column: Column,
    value: &Value,
) -> Result<Option<(Column, Datum)>, OutOfMemory>
    ensures { IfOk result (λ o. o ≡ value_in column (datum_of (shape_of column) (view value.now))) }
{
    match from_json(alloc, value, shape(column)) {
        Ok(datum) => {
            let datum = lowered(alloc, holds_mac(column_rule(column).key), datum)?;
            Ok(value_if(column, datum))
        }
        Err(NotationFault::OutOfMemory) => Err(OutOfMemory),
        Err(_) => Ok(None),
    }
}

fn told_value(
    alloc: Global,
    table: Table,
    name: &str,
    value: &Value,
) -> Result<Option<(Column, Datum)>, OutOfMemory>
    ensures { IfOk result (λ o. o ≡ told_value table name.now (view value.now)) }
{
    match named::column(table, name) {
        Some(column) => value_in(alloc, column, value),
        None => Ok(None),
    }
}

fn values_in(
    alloc: Global,
    table: Table,
    members: &Map<String, Value>,
) -> Result<Option<List<(Column, Datum)>>, OutOfMemory>
    ensures { IfOk result (λ o. o ≡ values_from table [] (members_view members.now.entries)) }
{
    let mut values = List::new(alloc);
    'members: for (name, value) in members.iter() {
        let Some(told) = told_value(alloc, table, name.as_str(), value)? else {
            return Ok(None);
        };
        values.push(told)?;
    }
    Ok(Some(values))
}

fn told_values(
    alloc: Global,
    table: Table,
    value: &Value,
) -> Result<Option<List<(Column, Datum)>>, OutOfMemory>
    ensures { IfOk result (λ o. o ≡ told_values table (view value.now)) }
{
    match value.as_object() {
        Some(members) => values_in(alloc, table, members),
        None => Ok(None),
    }
}

/// A row of which every column is told.
fn told_whole(alloc: Global, table: Table, value: &Value) -> Result<Option<Row>, OutOfMemory>
    ensures { IfOk result (λ o. o ≡ told_whole table (view value.now)) }
{
    let Some(values) = told_values(alloc, table, value)? else {
        return Ok(None);
    };
    match Row::of(alloc, table, values) {
        Ok(row) => Ok(Some(row)),
        Err(RowFault::OutOfMemory) => Err(OutOfMemory),
        Err(RowFault::Values) => Ok(None),
    }
}

/// At least one value.
fn told_some(
    alloc: Global,
    table: Table,
    value: &Value,
) -> Result<Option<List<(Column, Datum)>>, OutOfMemory>
    ensures { IfOk result (λ o. o ≡ told_some table (view value.now)) }
{
    let Some(values) = told_values(alloc, table, value)? else {
        return Ok(None);
    };
    if values.is_empty() {
        return Ok(None);
    }
    Ok(Some(values))
}

fn told_changed(
    alloc: Global,
    table: Table,
    old: &Value,
    new: &Value,
) -> Result<Option<RowUpdate>, OutOfMemory>
    ensures { IfOk result (λ o. o ≡ told_by table (Some (view old.now)) (Some (view new.now))) }
{
    let Some(before) = told_some(alloc, table, old)? else {
        return Ok(None);
    };
    let Some(new) = told_whole(alloc, table, new)? else {
        return Ok(None);
    };
    Ok(Some(RowUpdate::Modify(before, new)))
}

fn told_by(
    alloc: Global,
    table: Table,
    old: Option<&Value>,
    new: Option<&Value>,
) -> Result<Option<RowUpdate>, OutOfMemory>
    ensures { IfOk result (λ o. o ≡ told_by table (option_map (λ v. view v.now) old.entry)
        (option_map (λ v. view v.now) new.entry)) }
{
    let Some(old) = old else {
        return match new {
            Some(new) => Ok(told_whole(alloc, table, new)?.map(RowUpdate::Insert)),
            None => Ok(None),
        };
    };
    match new {
        Some(new) => told_changed(alloc, table, old, new),
        None => Ok(told_whole(alloc, table, old)?.map(RowUpdate::Delete)),
    }
}

fn only_told(members: &Map<String, Value>) -> bool
    ensures { result ≡ only_told (members_view members.now.entries) }
{
    'members: for (name, _) in members.iter() {
        if name.as_str() != "old" && name.as_str() != "new" {
            return false;
        }
    }
    true
}

fn told_update(alloc: Global, table: Table, value: &Value) -> Result<Option<RowUpdate>, OutOfMemory>
    ensures { IfOk result (λ o. o ≡ told_update table (view value.now)) }
{
    let Some(members) = value.as_object() else {
        return Ok(None);
    };
    if !only_told(members) {
        return Ok(None);
    }
    told_by(alloc, table, value.get("old"), value.get("new"))
}

/// A row that is told.
pub(crate) type KeyedUpdate = ((Table, RowId), RowUpdate);

fn told_entry(
    alloc: Global,
    table: Table,
    name: &str,
    value: &Value,
) -> Result<Option<KeyedUpdate>, OutOfMemory>
    ensures { IfOk result (λ o. o ≡ told_entry table name.now (view value.now)) }
{
    let Some(id) = parse_id(name) else {
        return Ok(None);
    };
    let Some(told) = told_update(alloc, table, value)? else {
        return Ok(None);
    };
    Ok(Some(((table, id), told)))
}

/// Adds the rows of a table, where each is well told.
fn rows_from(
    alloc: Global,
    table: Table,
    mut told: List<KeyedUpdate>,
    members: &Map<String, Value>,
) -> Result<Option<List<KeyedUpdate>>, OutOfMemory>
    ensures { IfOk result (λ o. o ≡ rows_from table told (members_view members.now.entries)) }
{
    'members: for (name, value) in members.iter() {
        let Some(entry) = told_entry(alloc, table, name.as_str(), value)? else {
            return Ok(None);
        };
        told.push(entry)?;
    }
    Ok(Some(told))
}

/// None of the names spells an identifier that one before it spells; the letters of an identifier have either case.
fn spells_each_once(alloc: Global, members: &Map<String, Value>) -> Result<bool, OutOfMemory>
    ensures { IfOk result (λ once. once ≡ spells_each_once [] (members_view members.now.entries)) }
{
    let mut seen = BTreeSet::new(alloc);
    'members: for (name, _) in members.iter() {
        if let Some(id) = parse_id(name.as_str()) {
            if !seen.insert(id)? {
                return Ok(false);
            }
        }
    }
    Ok(true)
}

fn told_table(
    alloc: Global,
    told: List<KeyedUpdate>,
    name: &str,
    value: &Value,
) -> Result<Option<List<KeyedUpdate>>, OutOfMemory>
    ensures { IfOk result (λ o. o ≡ told_table told name.now (view value.now)) }
{
    let Some(table) = named::table(name) else {
        return Ok(None);
    };
    let Some(members) = value.as_object() else {
        return Ok(None);
    };
    if !spells_each_once(alloc, members)? {
        return Ok(None);
    }
    rows_from(alloc, table, told, members)
}

fn tables_in(
    alloc: Global,
    members: &Map<String, Value>,
) -> Result<Option<List<KeyedUpdate>>, OutOfMemory>
    ensures { IfOk result (λ o. o ≡ tables_from [] (members_view members.now.entries)) }
{
    let mut told = List::new(alloc);
    'members: for (name, value) in members.iter() {
        let Some(more) = told_table(alloc, told, name.as_str(), value)? else {
            return Ok(None);
        };
        told = more;
    }
    Ok(Some(told))
}

/// The rows that table updates tell of, in the order of their members; none where the value is no table updates of the schema.
pub(crate) fn told_of(
    alloc: Global,
    value: &Value,
) -> Result<Option<List<KeyedUpdate>>, OutOfMemory>
    ensures { IfOk result (λ o. o ≡ told_of (view value.now)) }
{
    match value.as_object() {
        Some(members) => tables_in(alloc, members),
        None => Ok(None),
    }
}
