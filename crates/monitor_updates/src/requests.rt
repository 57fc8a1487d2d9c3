//! What a session asks to be told (RFC 7047, section 4.1.5).

ghost use Rattle.std.specs.Prelude.{◌≡◌, [], Ok, Err, Some, None, option_map, option_and_then, filter, MatchResult, IfOk, IfErr};
ghost use Rattle.serde_json.specs.Find.{get, as_str};
ghost use Rattle.serde_json.specs.View.{view, items_view, members_view};
ghost use Rattle.vtep_schema.specs.Tables.{columns_of};
ghost use Rattle.monitor_updates.specs.Forms.{all_texts, names_of, flag, select_of, form_of, all_forms};
ghost use Rattle.monitor_updates.specs.Requests.{IsRefusal, form_among, the_form, is_column, all_columns, is_among, columns_asked, asked, asked_from, request_of};
ghost use Rattle.vtep_base.specs.declared.words.Word.TheVariants.{SyntaxError};
ghost use Rattle.monitor_updates.specs.Seen.{seen};

use serde_json::{Map, Value};
use std::alloc::Global;
use vtep_base::{List, OutOfMemory, Word};
use vtep_schema::{Column, Table, column_name, columns, named};

/// What a monitor asks of one table, its monitor request (RFC 7047, section 4.1.5).
#[derive(Debug, Drop)]
pub struct MonitorRequest {
    /// The table that is monitored.
    pub table: Table,
    /// The columns that are told, each once, in the order of the table's.
    pub columns: List<Column>,
    /// The rows that are there when the monitor is opened are told.
    pub initial: bool,
    /// Rows that come are told.
    pub insert: bool,
    /// Rows that go are told.
    pub delete: bool,
    /// Changes of the columns above are told.
    pub modify: bool,
}

/// Why a monitor is not opened.
#[derive(Clone, Copy, Debug, PartialEq, Eq)]
pub enum MonitorFault {
    /// No memory is left.
    OutOfMemory,
    /// The requests are refused with this word.
    Word(Word),
}

impl From<OutOfMemory> for MonitorFault {
    ghost use Rattle.std.specs.Prelude.{◌≡◌};
    ghost use Rattle.monitor_updates.specs.declared.requests.MonitorFault.TheVariants as fault;

    ghost from_gives = { λ _ e. e ≡ fault.OutOfMemory };

    fn from(_error: OutOfMemory) -> MonitorFault {
        MonitorFault::OutOfMemory
    }
}

impl From<Word> for MonitorFault {
    ghost use Rattle.std.specs.Prelude.{◌≡◌};
    ghost use Rattle.monitor_updates.specs.declared.requests.MonitorFault.TheVariants as fault;

    ghost from_gives = { λ word e. e ≡ fault.Word word };

    fn from(word: Word) -> MonitorFault {
        MonitorFault::Word(word)
    }
}

/// An object of a table's request.
#[derive(Clone, Copy)]
struct Form<'a> {
    /// The names of its columns, where they are given.
    names: Option<&'a [Value]>,
    initial: bool,
    insert: bool,
    delete: bool,
    modify: bool,
}

fn all_texts(values: &[Value]) -> bool
    ensures { result ≡ all_texts (items_view values.now) }
{
    'values: for value in values {
        if !value.is_string() {
            return false;
        }
    }
    true
}

fn names_of(columns: Option<&Value>) -> Option<Option<&[Value]>>
    ensures { option_map (option_map (λ s. items_view s.now)) result
        ≡ names_of (option_map (λ v. view v.now) columns.entry) }
{
    let Some(columns) = columns else {
        return Some(None);
    };
    let names = columns.as_array()?.as_slice();
    if all_texts(names) {
        Some(Some(names))
    } else {
        None
    }
}

/// A flag that is left out is true.
fn flag(select: Option<&Value>, name: &str) -> Option<bool>
    ensures { result ≡ flag name.now (option_map (λ v. view v.now) select.entry) }
{
    let Some(select) = select else {
        return Some(true);
    };
    match select.get(name) {
        Some(value) => value.as_bool(),
        None => Some(true),
    }
}

/// An object, where it is given.
fn select_of(select: Option<&Value>) -> Option<Option<&Value>>
    ensures { option_map (option_map (λ v. view v.now)) result
        ≡ select_of (option_map (λ v. view v.now) select.entry) }
{
    let Some(select) = select else {
        return Some(None);
    };
    if select.is_object() {
        Some(Some(select))
    } else {
        None
    }
}

fn form_of(value: &Value) -> Option<Form<'_>>
    ensures { option_map seen result ≡ form_of (view value.now) }
{
    if !value.is_object() {
        return None;
    }
    let names = names_of(value.get("columns"))?;
    let select = select_of(value.get("select"))?;
    let initial = flag(select, "initial")?;
    let insert = flag(select, "insert")?;
    let delete = flag(select, "delete")?;
    let modify = flag(select, "modify")?;
    Some(Form {
        names,
        initial,
        insert,
        delete,
        modify,
    })
}

fn all_forms(values: &[Value]) -> bool
    ensures { result ≡ all_forms (items_view values.now) }
{
    'values: for value in values {
        if form_of(value).is_none() {
            return false;
        }
    }
    true
}

fn form_or_fault(value: &Value) -> Result<Form<'_>, Word>
    ensures { MatchResult result (λ f. form_of (view value.now) ≡ Some (seen f))
        (λ w. (w ≡ SyntaxError) × (form_of (view value.now) ≡ None)) }
{
    match form_of(value) {
        Some(form) => Ok(form),
        None => Err(Word::SyntaxError),
    }
}

/// An array holds one object; each of several is read before they are refused.
fn form_among(values: &[Value]) -> Result<Form<'_>, Word>
    ensures { MatchResult result (λ f. form_among (items_view values.now) ≡ Ok (seen f))
        (λ w. form_among (items_view values.now) ≡ Err w) }
{
    match values {
        [] => Err(Word::SyntaxError),
        [value] => form_or_fault(value),
        _ => {
            if all_forms(values) {
                Err(Word::NotSupported)
            } else {
                Err(Word::SyntaxError)
            }
        }
    }
}

fn the_form(value: &Value) -> Result<Form<'_>, Word>
    ensures { MatchResult result (λ f. the_form (view value.now) ≡ Ok (seen f))
        (λ w. the_form (view value.now) ≡ Err w) }
{
    match value.as_array() {
        Some(values) => form_among(values.as_slice()),
        None => form_or_fault(value),
    }
}

fn is_column(table: Table, name: &Value) -> bool
    ensures { result ≡ is_column table (as_str (view name.now)) }
{
    match name.as_str() {
        Some(name) => name == "_uuid" || named::column(table, name).is_some(),
        None => false,
    }
}

fn all_columns(table: Table, names: &[Value]) -> bool
    ensures { result ≡ all_columns table (items_view names.now) }
{
    'names: for name in names {
        if !is_column(table, name) {
            return false;
        }
    }
    true
}

fn is_among(names: &[Value], column: Column) -> bool
    ensures { result ≡ is_among (items_view names.now) column }
{
    'names: for name in names {
        if name.as_str() == Some(column_name(column)) {
            return true;
        }
    }
    false
}

/// Those of these columns that are named.
fn columns_among(
    alloc: Global,
    columns: &[Column],
    names: &[Value],
) -> Result<List<Column>, OutOfMemory>
    ensures { IfOk result (λ found. found ≡ filter (is_among (items_view names.now)) columns.now) }
{
    let mut found = List::new(alloc);
    'columns: for column in columns {
        if is_among(names, *column) {
            found.push(*column)?;
        }
    }
    Ok(found)
}

fn all_of(alloc: Global, columns: &[Column]) -> Result<List<Column>, OutOfMemory>
    ensures { IfOk result (λ found. found ≡ columns.now) }
{
    Ok(List::from_vec(columns.to_vec(alloc)?))
}

/// The named columns, in the order of the table's. `_uuid` is accepted and adds nothing.
fn columns_asked(
    alloc: Global,
    table: Table,
    names: Option<&[Value]>,
) -> Result<List<Column>, MonitorFault>
    ensures ok { IfOk result (λ found. columns_asked table
        (option_map (λ s. items_view s.now) names.entry) ≡ Ok found) }
    ensures err { IfErr result (λ f. IsRefusal f
        (columns_asked table (option_map (λ s. items_view s.now) names.entry))) }
{
    let Some(names) = names else {
        return Ok(all_of(alloc, columns(table))?);
    };
    if !all_columns(table, names) {
        return Err(MonitorFault::Word(Word::UnknownColumn));
    }
    Ok(columns_among(alloc, columns(table), names)?)
}

fn asked_of_table(alloc: Global, name: &str, value: &Value) -> Result<MonitorRequest, MonitorFault>
    ensures ok { IfOk result (λ a. asked name.now (view value.now) ≡ Ok a) }
    ensures err { IfErr result (λ f. IsRefusal f (asked name.now (view value.now))) }
{
    let Some(table) = named::table(name) else {
        return Err(MonitorFault::Word(Word::UnknownTable));
    };
    let form = the_form(value)?;
    let columns = columns_asked(alloc, table, form.names)?;
    Ok(MonitorRequest {
        table,
        columns,
        initial: form.initial,
        insert: form.insert,
        delete: form.delete,
        modify: form.modify,
    })
}

fn asked_of_each(
    alloc: Global,
    members: &Map<String, Value>,
) -> Result<List<MonitorRequest>, MonitorFault>
    ensures ok { IfOk result (λ r. asked_from [] (members_view members.now.entries) ≡ Ok r) }
    ensures err { IfErr result (λ f. IsRefusal f
        (asked_from [] (members_view members.now.entries))) }
{
    let mut request = List::new(alloc);
    'members: for (name, value) in members.iter() {
        request.push(asked_of_table(alloc, name.as_str(), value)?)?;
    }
    Ok(request)
}

/// What is asked of each table, in the order of the tables' names.
pub(crate) fn request_of(
    alloc: Global,
    requests: &Value,
) -> Result<List<MonitorRequest>, MonitorFault>
    ensures ok { IfOk result (λ r. request_of (view requests.now) ≡ Ok r) }
    ensures err { IfErr result (λ f. IsRefusal f (request_of (view requests.now))) }
{
    match requests.as_object() {
        Some(members) => asked_of_each(alloc, members),
        None => Err(MonitorFault::Word(Word::SyntaxError)),
    }
}
