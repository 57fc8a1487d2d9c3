//! From texts to messages.

ghost use Rattle.std.specs.Prelude.{◌≡◌, ◌≤◌, ℕ, List, IfOk, option_map, codes, length};
ghost use Rattle.serde_json.specs.Data.{object};
ghost use Rattle.serde_json.specs.Find.{get_member, as_str, as_object};
ghost use Rattle.serde_json.specs.View.{view, items_view, members_view};
ghost use Rattle.rpc_framing.specs.Said.{is_whole, items_whole, members_whole, call_of, response_of, by_method, message_of, said, called, reading};
ghost use Rattle.rpc_framing.specs.Streams.{read_front, text_front, front, seen_front, IfWaiting, IfText};
ghost use Rattle.rpc_framing.specs.Scan.{end_of, IsScanned, IsHeld};

use crate::scan::{Cursor, End, scan};
use crate::{FramingKind, Message};
use serde_json::{Map, Value};
use std::alloc::Global;
use vtep_base::{OutOfMemory, Txt};

/// Every number of a value is a whole number of 64 bits.
#[cycle(is_whole)]
pub(crate) fn is_whole(value: &Value) -> bool
    ensures { result ≡ is_whole (view value.now) }
{
    match value {
        Value::Null | Value::Bool(_) | Value::String(_) => true,
        Value::Number(number) => number.is_i64(),
        Value::Array(items) => items_whole(items),
        Value::Object(members) => members_whole(members),
    }
}

#[cycle(is_whole)]
fn items_whole(items: &Vec<Value>) -> bool
    ensures { result ≡ items_whole (items_view items.now.items) }
{
    'items: for item in items {
        if !is_whole(item) {
            return false;
        }
    }
    true
}

#[cycle(is_whole)]
fn members_whole(members: &Map<String, Value>) -> bool
    ensures { result ≡ members_whole (members_view members.now.entries) }
{
    'members: for (_, member) in members.iter() {
        if !is_whole(member) {
            return false;
        }
    }
    true
}

/// Takes a member out of an object, where it has one of this name.
fn take_member(members: &mut Map<String, Value>, name: &str) -> Option<Value>
    ensures member { option_map view result
        ≡ get_member name.now (members_view members.old.entries) }
    ensures others { (other : List ℕ) → (other ≡ name.now → ⊥)
        → get_member other (members_view members.new.entries)
        ≡ get_member other (members_view members.old.entries) }
{
    members.remove(name)
}

/// A call, of which the method and the parameters are given.
fn called(method: Txt, params: Value, id: Value) -> Message
    ensures { said result ≡ called method (view params) (view id) }
{
    if id.is_null() {
        Message::Notification { method, params }
    } else {
        Message::Request { method, params, id }
    }
}

fn text_in(value: Value) -> Option<Txt>
    ensures { result ≡ as_str (view value) }
{
    match value {
        Value::String(text) => Some(Txt::from_string(text)),
        _other => None,
    }
}

fn members_in(value: Value) -> Option<Map<String, Value>>
    ensures { option_map (λ m. members_view m.entries) result ≡ as_object (view value) }
{
    match value {
        Value::Object(members) => Some(members),
        _other => None,
    }
}

/// A request or a notification, of which the method was taken out.
fn call_of(members: Map<String, Value>, method: Value) -> Option<Message>
    ensures { option_map said result
        ≡ call_of (object (members_view members.entries)) (view method) }
{
    let method = text_in(method)?;
    let mut members = members;
    let params = take_member(&mut members, "params")?;
    if !params.is_array() {
        return None;
    }
    let id = take_member(&mut members, "id")?;
    Some(called(method, params, id))
}

fn response_of(members: Map<String, Value>) -> Option<Message>
    ensures { option_map said result ≡ response_of (object (members_view members.entries)) }
{
    let mut members = members;
    let result = take_member(&mut members, "result")?;
    let error = take_member(&mut members, "error")?;
    let id = take_member(&mut members, "id")?;
    Some(Message::Response { result, error, id })
}

fn message_among(members: Map<String, Value>) -> Option<Message>
    ensures { option_map said result ≡ by_method (object (members_view members.entries))
        (get_member (codes "method") (members_view members.entries)) }
{
    let mut members = members;
    match take_member(&mut members, "method") {
        Some(method) => call_of(members, method),
        None => response_of(members),
    }
}

/// The message that a value is, which keeps what the value holds.
fn message_of(value: Value) -> Option<Message>
    ensures { option_map said result ≡ message_of (view value) }
{
    if !is_whole(&value) {
        return None;
    }
    message_among(members_in(value)?)
}

/// The value of a text, where it has one.
fn value_of(alloc: Global, text: &[u8]) -> Result<Option<Value>, OutOfMemory>
    ensures { IfOk result (λ o. option_map view o ≡ reading text.now) }
{
    match Value::from_slice(alloc, text) {
        Ok(value) => Ok(Some(value)),
        Err(error) => {
            if error.is_memory() {
                Err(OutOfMemory)
            } else {
                Ok(None)
            }
        }
    }
}

/// What stands at the front of a stream.
#[derive(Drop)]
pub(crate) enum Front {
    /// No whole text. All bytes were looked at.
    Waiting(Cursor),
    /// The byte at this place is refused.
    Bad(usize, FramingKind),
    /// A text of this length says the message.
    Text(usize, Message),
}

/// What a whole text says.
fn read_front(alloc: Global, text: &[u8]) -> Result<Front, OutOfMemory>
    ensures front { IfOk result (λ f. seen_front f
        ≡ read_front (length text.now) (reading text.now)) }
    ensures open { IfOk result (λ f. IfWaiting f (λ _. ⊥)) }
    ensures within { IfOk result (λ f. IfText f (λ n. n ≤ length text.now)) }
{
    let Some(value) = value_of(alloc, text)? else {
        return Ok(Front::Bad(0, FramingKind::BadJson));
    };
    let Some(message) = message_of(value) else {
        return Ok(Front::Bad(0, FramingKind::BadMessage));
    };
    Ok(Front::Text(text.len(), message))
}

/// What stands at the front, where a message begins, of which so many bytes were looked at.
fn text_front(
    alloc: Global,
    limit: u64,
    text: &[u8],
    count: usize,
    cursor: Cursor,
) -> Result<Front, OutOfMemory>
    requires scanned { IsScanned limit text.now count cursor }
    ensures front { IfOk result (λ f. seen_front f ≡ text_front text.now (end_of limit text.now)) }
    ensures open { IfOk result (λ f. IfWaiting f
        (λ c. IsScanned limit text.now (length text.now) c)) }
    ensures within { IfOk result (λ f. IfText f (λ n. n ≤ length text.now)) }
{
    match scan(limit, text, count, cursor) {
        End::Open(cursor) => Ok(Front::Waiting(cursor)),
        End::Refused(place, kind) => Ok(Front::Bad(place, kind)),
        End::At(length) => {
            let (whole, _) = text.split_at(length);
            read_front(alloc, whole)
        }
    }
}

/// What stands at the front of what is no white space.
pub(crate) fn find_front(
    alloc: Global,
    limit: u64,
    rest: &[u8],
    count: usize,
    cursor: Cursor,
) -> Result<Front, OutOfMemory>
    requires held { IsHeld limit rest.now count cursor }
    ensures front { IfOk result (λ f. seen_front f ≡ front limit rest.now) }
    ensures open { IfOk result (λ f. IfWaiting f (λ c. IsHeld limit rest.now (length rest.now) c)) }
    ensures within { IfOk result (λ f. IfText f (λ n. n ≤ length rest.now)) }
{
    if rest.is_empty() {
        return Ok(Front::Waiting(Cursor::start()));
    }
    if rest[0] != b'{' {
        return Ok(Front::Bad(0, FramingKind::NotObject));
    }
    text_front(alloc, limit, rest, count, cursor)
}
