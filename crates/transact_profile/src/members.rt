//! The members of an operation, each of its JSON type.

ghost use Rattle.std.specs.Prelude.{◌≡◌, map, option_map, option_and_then};
ghost use Rattle.std.specs.List.{list_all};
ghost use Rattle.serde_json.specs.Find.{as_str, as_bool};
ghost use Rattle.serde_json.specs.View.{view, members_view};
ghost use Rattle.json_notation.specs.Json.{members_of};
ghost use Rattle.transact_profile.specs.Refusing.{Reads, ReadsAs};
ghost use Rattle.transact_profile.specs.Members.{items_in, member, optional, items_that, is_text, is_object, triple_in, triple_of, is_triple, members_in, until_of, until_named, number_of};

use crate::faults::Fault;
use crate::operations::Until;
use serde_json::{Map, Value};
use vtep_base::Word;

const SYNTAX: Fault = Fault::Refused(Word::SyntaxError);

pub(crate) fn items(value: &Value) -> Option<&[Value]>
    ensures { option_map (λ s. map view s.now) result ≡ items_in (view value.now) }
{
    match value.as_array() {
        Some(items) => Some(items.as_slice()),
        None => None,
    }
}

pub(crate) fn text_member<'v>(name: &str, operation: &'v Value) -> Result<&'v str, Fault>
    ensures { ReadsAs (λ s. s.now) result (member as_str name.now (view operation.now)) }
{
    let Some(member) = operation.get(name) else {
        return Err(SYNTAX);
    };
    let Some(text) = member.as_str() else {
        return Err(SYNTAX);
    };
    Ok(text)
}

pub(crate) fn optional_text<'v>(name: &str, operation: &'v Value) -> Result<Option<&'v str>, Fault>
    ensures { ReadsAs (option_map (λ s. s.now)) result
        (optional as_str name.now (view operation.now)) }
{
    let Some(member) = operation.get(name) else {
        return Ok(None);
    };
    let Some(text) = member.as_str() else {
        return Err(SYNTAX);
    };
    Ok(Some(text))
}

pub(crate) fn boolean_member(name: &str, operation: &Value) -> Result<bool, Fault>
    ensures { Reads result (member as_bool name.now (view operation.now)) }
{
    let Some(member) = operation.get(name) else {
        return Err(SYNTAX);
    };
    let Some(boolean) = member.as_bool() else {
        return Err(SYNTAX);
    };
    Ok(boolean)
}

pub(crate) fn object_member<'v>(
    name: &str,
    operation: &'v Value,
) -> Result<&'v Map<String, Value>, Fault>
    ensures { ReadsAs (λ m. members_of (members_view m.now.entries)) result
        (member members_in name.now (view operation.now)) }
{
    let Some(member) = operation.get(name) else {
        return Err(SYNTAX);
    };
    let Some(members) = member.as_object() else {
        return Err(SYNTAX);
    };
    Ok(members)
}

/// A number, of which nothing is kept.
pub(crate) fn optional_number(name: &str, operation: &Value) -> Result<Option<()>, Fault>
    ensures { Reads result (optional number_of name.now (view operation.now)) }
{
    let Some(member) = operation.get(name) else {
        return Ok(None);
    };
    let Some(_) = member.as_number() else {
        return Err(SYNTAX);
    };
    Ok(Some(()))
}

fn until_named(name: &str) -> Option<Until>
    ensures { result ≡ until_named name.now }
{
    match name {
        "==" => Some(Until::Same),
        "!=" => Some(Until::Different),
        _ => None,
    }
}

pub(crate) fn until_member(name: &str, operation: &Value) -> Result<Until, Fault>
    ensures { Reads result (member until_of name.now (view operation.now)) }
{
    let text = text_member(name, operation)?;
    let Some(until) = until_named(text) else {
        return Err(SYNTAX);
    };
    Ok(until)
}

fn texts(values: &[Value]) -> bool
    ensures { result ≡ list_all is_text (map view values.now) }
{
    'values: for value in values {
        if !value.is_string() {
            return false;
        }
    }
    true
}

fn objects(values: &[Value]) -> bool
    ensures { result ≡ list_all is_object (map view values.now) }
{
    'values: for value in values {
        if !value.is_object() {
            return false;
        }
    }
    true
}

fn triples(values: &[Value]) -> bool
    ensures { result ≡ list_all is_triple (map view values.now) }
{
    'values: for value in values {
        if triple(value).is_none() {
            return false;
        }
    }
    true
}

fn triple_in(items: &[Value]) -> Option<(&str, &str, &Value)>
    ensures { option_map (λ t. (t.0.now, t.1.now, view t.2.now)) result
        ≡ triple_in (map view items.now) }
{
    let [column, function, value] = items else {
        return None;
    };
    Some((column.as_str()?, function.as_str()?, value))
}

/// A column, a function or a mutator, and a value.
pub(crate) fn triple(value: &Value) -> Option<(&str, &str, &Value)>
    ensures { option_map (λ t. (t.0.now, t.1.now, view t.2.now)) result
        ≡ triple_of (view value.now) }
{
    triple_in(items(value)?)
}

/// The items of a list of texts.
pub(crate) fn optional_texts<'v>(
    name: &str,
    operation: &'v Value,
) -> Result<Option<&'v [Value]>, Fault>
    ensures { ReadsAs (option_map (λ s. map view s.now)) result
        (optional (items_that is_text) name.now (view operation.now)) }
{
    let Some(member) = operation.get(name) else {
        return Ok(None);
    };
    let Some(values) = items(member) else {
        return Err(SYNTAX);
    };
    if !texts(values) {
        return Err(SYNTAX);
    }
    Ok(Some(values))
}

pub(crate) fn objects_member<'v>(name: &str, operation: &'v Value) -> Result<&'v [Value], Fault>
    ensures { ReadsAs (λ s. map view s.now) result
        (member (items_that is_object) name.now (view operation.now)) }
{
    let Some(member) = operation.get(name) else {
        return Err(SYNTAX);
    };
    let Some(values) = items(member) else {
        return Err(SYNTAX);
    };
    if !objects(values) {
        return Err(SYNTAX);
    }
    Ok(values)
}

/// The elements of `where` or `mutations`.
pub(crate) fn triples_member<'v>(name: &str, operation: &'v Value) -> Result<&'v [Value], Fault>
    ensures { ReadsAs (λ s. map view s.now) result
        (member (items_that is_triple) name.now (view operation.now)) }
{
    let Some(member) = operation.get(name) else {
        return Err(SYNTAX);
    };
    let Some(values) = items(member) else {
        return Err(SYNTAX);
    };
    if !triples(values) {
        return Err(SYNTAX);
    }
    Ok(values)
}
