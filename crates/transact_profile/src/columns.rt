//! Columns, functions and mutators by name.

ghost use Rattle.std.specs.Prelude.{◌≡◌, map, option_map};
ghost use Rattle.std.specs.List.{list_all, list_any};
ghost use Rattle.serde_json.specs.View.{view, members_view};
ghost use Rattle.json_notation.specs.Json.{members_of};
ghost use Rattle.vtep_schema.specs.Tables.{columns_of, column_rule};
ghost use Rattle.transact_profile.specs.Values.{is_id, field_named, has_field, field_name, function_named, compares_order, has_order, takes_function, mutator_named, is_whole, holds_number, holds_members, takes_mutator};
ghost use Rattle.transact_profile.specs.Members.{triple_of};
ghost use Rattle.transact_profile.specs.Operations.{row_known, names_field, triples_known, is_field, columns_known, may_write, row_permitted, triple_permitted, triples_permitted, is_optional, is_fixed, gives, is_whole_row, none_fixed, none_mutated, object_known, objects_known};

use crate::members::triple;
use crate::operations::{Field, Function, Mutation, Mutator};
use ovsdb_values::Datum;
use serde_json::{Map, Value};
use vtep_schema::named::column;
use vtep_schema::{
    Column, ColumnRule, Domain, Given, Table, column_name, column_rule, columns,
    written_by_sessions,
};

pub(crate) fn field_named(table: Table, name: &str) -> Option<Field>
    ensures { result ≡ field_named table name.now }
{
    if name == "_uuid" {
        return Some(Field::Id);
    }
    column(table, name).map(Field::Of)
}

pub(crate) fn field_name(field: Field) -> &'static str
    ensures { result.now ≡ field_name field }
{
    match field {
        Field::Id => "_uuid",
        Field::Of(column) => column_name(column),
    }
}

fn has_field(table: Table, name: &str) -> bool
    ensures { result ≡ has_field table name.now }
{
    field_named(table, name).is_some()
}

/// Each member is a column, or `_uuid`.
pub(crate) fn row_known(table: Table, row: &Map<String, Value>) -> bool
    ensures { result ≡ row_known table (members_of (members_view row.now.entries)) }
{
    'row: for (name, _) in row.iter() {
        if !has_field(table, name.as_str()) {
            return false;
        }
    }
    true
}

fn names_field(table: Table, value: &Value) -> bool
    ensures { result ≡ names_field table (triple_of (view value.now)) }
{
    match triple(value) {
        Some((name, _, _)) => has_field(table, name),
        None => false,
    }
}

/// The column of each condition or mutation is one of the table, or `_uuid`.
pub(crate) fn triples_known(table: Table, values: &[Value]) -> bool
    ensures { result ≡ triples_known table (map view values.now) }
{
    'values: for value in values {
        if !names_field(table, value) {
            return false;
        }
    }
    true
}

fn is_field(table: Table, value: &Value) -> bool
    ensures { result ≡ is_field table (view value.now) }
{
    match value.as_str() {
        Some(name) => has_field(table, name),
        None => false,
    }
}

fn all_fields(table: Table, values: &[Value]) -> bool
    ensures { result ≡ list_all (is_field table) (map view values.now) }
{
    'values: for value in values {
        if !is_field(table, value) {
            return false;
        }
    }
    true
}

pub(crate) fn columns_known(table: Table, columns: Option<&[Value]>) -> bool
    ensures { result ≡ columns_known table (option_map (λ s. map view s.now) columns.entry) }
{
    match columns {
        Some(values) => all_fields(table, values),
        None => true,
    }
}

fn object_known(table: Table, value: &Value) -> bool
    ensures { result ≡ object_known table (view value.now) }
{
    match value.as_object() {
        Some(row) => row_known(table, row),
        None => false,
    }
}

pub(crate) fn objects_known(table: Table, values: &[Value]) -> bool
    ensures { result ≡ objects_known table (map view values.now) }
{
    'values: for value in values {
        if !object_known(table, value) {
            return false;
        }
    }
    true
}

/// Sessions write a column of this name.
fn may_write(table: Table, name: &str) -> bool
    ensures { result ≡ may_write table name.now }
{
    match column(table, name) {
        Some(column) => written_by_sessions(column),
        None => false,
    }
}

pub(crate) fn row_permitted(table: Table, row: &Map<String, Value>) -> bool
    ensures { result ≡ row_permitted table (members_of (members_view row.now.entries)) }
{
    'row: for (name, _) in row.iter() {
        if !may_write(table, name.as_str()) {
            return false;
        }
    }
    true
}

fn triple_permitted(table: Table, value: &Value) -> bool
    ensures { result ≡ triple_permitted table (triple_of (view value.now)) }
{
    match triple(value) {
        Some((name, _, _)) => may_write(table, name),
        None => false,
    }
}

pub(crate) fn triples_permitted(table: Table, values: &[Value]) -> bool
    ensures { result ≡ triples_permitted table (map view values.now) }
{
    'values: for value in values {
        if !triple_permitted(table, value) {
            return false;
        }
    }
    true
}

pub(crate) fn function_named(name: &str) -> Option<Function>
    ensures { result ≡ function_named name.now }
{
    match name {
        "==" => Some(Function::Equal),
        "!=" => Some(Function::Unequal),
        "<" => Some(Function::Less),
        "<=" => Some(Function::AtMost),
        ">=" => Some(Function::AtLeast),
        ">" => Some(Function::More),
        "includes" => Some(Function::Includes),
        "excludes" => Some(Function::Excludes),
        _ => None,
    }
}

fn compares_order(function: Function) -> bool
    ensures { result ≡ compares_order function }
{
    matches!(
        function,
        Function::Less | Function::AtMost | Function::AtLeast | Function::More
    )
}

fn has_order(field: Field) -> bool
    ensures { result ≡ has_order field }
{
    match field {
        Field::Id => false,
        Field::Of(column) => column == Column::EntrySequence,
    }
}

pub(crate) fn takes_function(field: Field, function: Function) -> bool
    ensures { result ≡ takes_function field function }
{
    !compares_order(function) || has_order(field)
}

pub(crate) fn mutator_named(name: &str) -> Option<Mutator>
    ensures { result ≡ mutator_named name.now }
{
    match name {
        "+=" => Some(Mutator::Add),
        "-=" => Some(Mutator::Subtract),
        "*=" => Some(Mutator::Multiply),
        "/=" => Some(Mutator::Divide),
        "%=" => Some(Mutator::Remainder),
        "insert" => Some(Mutator::Insert),
        "delete" => Some(Mutator::Delete),
        _ => None,
    }
}

fn is_whole(domain: Domain) -> bool
    ensures { result ≡ is_whole domain }
{
    matches!(domain, Domain::Whole { .. })
}

fn holds_number(rule: &ColumnRule) -> bool
    ensures { result ≡ holds_number rule.now }
{
    is_whole(rule.key) && rule.value.is_none() && rule.most <= 1
}

fn holds_members(rule: &ColumnRule) -> bool
    ensures { result ≡ holds_members rule.now }
{
    rule.least == 0 || rule.most >= 2
}

pub(crate) fn takes_mutator(rule: &ColumnRule, mutator: Mutator) -> bool
    ensures { result ≡ takes_mutator rule.now mutator }
{
    match mutator {
        Mutator::Insert | Mutator::Delete => holds_members(rule),
        _ => holds_number(rule),
    }
}

fn is_optional(given: Given) -> bool
    ensures { result ≡ is_optional given }
{
    matches!(given, Given::Optional)
}

fn is_fixed(given: Given) -> bool
    ensures { result ≡ is_fixed given }
{
    matches!(given, Given::Fixed)
}

fn gives(row: &[(Column, Datum)], column: Column) -> bool
    ensures { result ≡ gives row.now column }
{
    row.iter().any(|cell| cell.0 == column)
}

/// Each column of the table that an insertion has to give is given.
pub(crate) fn is_whole_row(table: Table, row: &[(Column, Datum)]) -> bool
    ensures { result ≡ is_whole_row table row.now }
{
    columns(table).iter().all(|column| is_optional(column_rule(*column).given)
        || gives(row, *column))
}

pub(crate) fn none_fixed(row: &[(Column, Datum)]) -> bool
    ensures { result ≡ none_fixed row.now }
{
    row.iter().all(|cell| !is_fixed(column_rule(cell.0).given))
}

pub(crate) fn none_mutated(mutations: &[Mutation]) -> bool
    ensures { result ≡ none_mutated mutations.now }
{
    mutations
        .iter()
        .all(|mutation| !is_fixed(column_rule(mutation.column).given))
}
