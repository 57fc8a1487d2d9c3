//! The schema as sessions get it (RFC 7047, section 3.2).

ghost use Rattle.std.specs.Prelude.{◌≡◌, [], ◌∷◌, map, IfOk};
ghost use Rattle.serde_json.specs.View.{view, members_view};
ghost use Rattle.json_notation.specs.Json.{list, to_members};
ghost use Rattle.vtep_schema.specs.Tables.{column_name, column_rule, table_name};
ghost use Rattle.vtep_schema.specs.declared.rules.Domain.TheVariants.{Whole, Row, Word, Text};
ghost use Rattle.vtep_schema.specs.Published.{words, key_json, set_json, type_json, column_json, published_keys, table_json, schema_json};

use crate::derived::words;
use crate::lines::{
    column_name, column_rule, columns, table_name, table_rule, tables, unique_keys,
};
use crate::rules::{ColumnRule, Domain, Given, Words};
use crate::{Column, Table};
use serde_json::{Map, Value, json, put};
use std::alloc::Global;
use vtep_base::OutOfMemory;

fn words_json(alloc: Global, texts: &[&str]) -> Result<Value, OutOfMemory>
    ensures { IfOk result (λ v. view v ≡ words (map (λ w. w.now) texts.now)) }
{
    let mut items = Vec::new(alloc);
    'texts: for text in texts {
        items.push(Value::String(String::from_str(alloc, text)?))?;
    }
    Ok(Value::Array(items))
}

fn whole_json(alloc: Global, least: u32, most: u32) -> Result<Value, OutOfMemory>
    ensures { IfOk result (λ v. view v ≡ key_json (Whole least most)) }
{
    Ok(json!(in alloc; {"type": "integer", "minInteger": least, "maxInteger": most})?)
}

fn row_json(alloc: Global, table: Table) -> Result<Value, OutOfMemory>
    ensures { IfOk result (λ v. view v ≡ key_json (Row table)) }
{
    Ok(json!(in alloc; {"type": "uuid", "refTable": table_name(table)})?)
}

fn word_json(alloc: Global, texts: Words) -> Result<Value, OutOfMemory>
    ensures { IfOk result (λ v. view v ≡ key_json (Word texts)) }
{
    let texts = words_json(alloc, words(texts))?;
    Ok(json!(in alloc; {"type": "string", "enum": ["set", texts]})?)
}

fn text_json(alloc: Global) -> Result<Value, OutOfMemory>
    ensures { IfOk result (λ v. view v ≡ key_json Text) }
{
    Ok(json!(in alloc; {"type": "string", "maxLength": 255})?)
}

/// The type of an atom.
fn key_json(alloc: Global, domain: Domain) -> Result<Value, OutOfMemory>
    ensures { IfOk result (λ v. view v ≡ key_json domain) }
{
    match domain {
        Domain::Whole { least, most } => whole_json(alloc, least, most),
        Domain::Row(table) => row_json(alloc, table),
        Domain::Word(texts) => word_json(alloc, texts),
        _ => text_json(alloc),
    }
}

fn set_json(alloc: Global, rule: ColumnRule) -> Result<Map<String, Value>, OutOfMemory>
    ensures { IfOk result (λ m. members_view m.entries ≡ to_members (set_json rule)) }
{
    let mut members = Map::new(alloc);
    put(&mut members, alloc, "max", Value::from(rule.most))?;
    put(&mut members, alloc, "min", Value::from(rule.least))?;
    put(&mut members, alloc, "key", key_json(alloc, rule.key)?)?;
    Ok(members)
}

/// What a column holds.
fn type_json(alloc: Global, rule: ColumnRule) -> Result<Value, OutOfMemory>
    ensures { IfOk result (λ v. view v ≡ type_json rule) }
{
    let mut members = set_json(alloc, rule)?;
    if let Some(value) = rule.value {
        put(&mut members, alloc, "value", key_json(alloc, value)?)?;
    }
    Ok(Value::Object(members))
}

fn column_json(alloc: Global, rule: ColumnRule) -> Result<Value, OutOfMemory>
    ensures { IfOk result (λ v. view v ≡ column_json rule) }
{
    let mut members = Map::new(alloc);
    put(&mut members, alloc, "type", type_json(alloc, rule)?)?;
    if matches!(rule.given, Given::Fixed) {
        put(&mut members, alloc, "mutable", Value::Bool(false))?;
    }
    Ok(Value::Object(members))
}

fn columns_json(alloc: Global, columns: &[Column]) -> Result<Map<String, Value>, OutOfMemory>
    ensures { IfOk result (λ m. members_view m.entries
        ≡ to_members (map (λ c. (column_name c, column_json (column_rule c))) columns.now)) }
{
    let mut members = Map::new(alloc);
    'columns: for column in columns.iter().rev() {
        let member = column_json(alloc, column_rule(*column))?;
        put(&mut members, alloc, column_name(*column), member)?;
    }
    Ok(members)
}

fn keys_json(alloc: Global, keys: &[&[Column]]) -> Result<Value, OutOfMemory>
    ensures { IfOk result (λ v. view v
        ≡ list (map (λ cs. words (map column_name cs)) (map (λ k. k.now) keys.now))) }
{
    let mut items = Vec::new(alloc);
    'keys: for key in keys {
        items.push(names_json(alloc, key)?)?;
    }
    Ok(Value::Array(items))
}

fn names_json(alloc: Global, columns: &[Column]) -> Result<Value, OutOfMemory>
    ensures { IfOk result (λ v. view v ≡ words (map column_name columns.now)) }
{
    let mut items = Vec::new(alloc);
    'columns: for column in columns {
        items.push(Value::String(String::from_str(alloc, column_name(*column))?))?;
    }
    Ok(Value::Array(items))
}

/// The unique keys. The one on `tunnel_key` is left out, since it speaks of present keys alone.
fn published_keys(table: Table) -> &'static [&'static [Column]]
    ensures { map (λ k. k.now) result.now ≡ published_keys table }
{
    match table {
        Table::LogicalSwitch => &[&[Column::LogicalName]],
        _ => unique_keys(table),
    }
}

fn table_json(alloc: Global, table: Table) -> Result<Value, OutOfMemory>
    ensures { IfOk result (λ v. view v ≡ table_json table) }
{
    let rule = table_rule(table);
    let mut members = Map::new(alloc);
    put(&mut members, alloc, "maxRows", Value::from(rule.most))?;
    put(&mut members, alloc, "isRoot", Value::Bool(rule.root))?;
    let keys = keys_json(alloc, published_keys(table))?;
    put(&mut members, alloc, "indexes", keys)?;
    let columns = columns_json(alloc, columns(table))?;
    put(&mut members, alloc, "columns", Value::Object(columns))?;
    Ok(Value::Object(members))
}

fn tables_json(alloc: Global, tables: &[Table]) -> Result<Map<String, Value>, OutOfMemory>
    ensures { IfOk result (λ m. members_view m.entries
        ≡ to_members (map (λ t. (table_name t, table_json t)) tables.now)) }
{
    let mut members = Map::new(alloc);
    'tables: for table in tables.iter().rev() {
        let member = table_json(alloc, *table)?;
        put(&mut members, alloc, table_name(*table), member)?;
    }
    Ok(members)
}

/// The schema of the database (RFC 7047, section 3.2).
pub fn get_schema(alloc: Global) -> Result<Value, OutOfMemory>
    ensures { IfOk result (λ v. view v ≡ schema_json) }
{
    let tables = Value::Object(tables_json(alloc, tables())?);
    Ok(json!(in alloc; {"name": "hardware_vtep", "tables": tables, "version": "1.0.0"})?)
}
