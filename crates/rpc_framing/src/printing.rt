//! From messages to texts.

ghost use Rattle.std.specs.Prelude.{◌≡◌, ◌++◌, ◌∷◌, [], ◌<◌, ◌≤◌, false, IfOk, OnOk, OnErr, string_bytes};
ghost use Rattle.json.specs.Print.{escape_letter, escape_byte, escape, quoted};
ghost use Rattle.std.specs.Char.{digit_char};
ghost use Rattle.serde_json.specs.Data.{depth};
ghost use Rattle.serde_json.specs.Read.{max_depth};
ghost use Rattle.serde_json.specs.View.{view};
ghost use Rattle.serde_json.specs.Written.{compact_text, has_float};
ghost use Rattle.rpc_framing.specs.Said.{said};
ghost use Rattle.rpc_framing.specs.Told.{IsTold, AppendsWhole, AppendsTelling, IsPrinted};
ghost use Rattle.rpc_framing.specs.Written.{called_json, answer_json, message_json, message_text};

use crate::Message;
use serde_json::Value;
use std::alloc::Global;
use vtep_base::{Bytes, OutOfMemory, Txt};

/// The letter behind a backslash, or 0 where there is none.
fn escape_letter(byte: u8) -> u8
    ensures { result ≡ escape_letter byte }
{
    match byte {
        b'"' | b'\\' => byte,
        8 => b'b',
        12 => b'f',
        b'\n' => b'n',
        b'\r' => b'r',
        b'\t' => b't',
        _ => 0,
    }
}

/// A hexadecimal digit.
fn digit_char(digit: u8) -> u8
    requires { digit < 16 }
    ensures { result ≡ digit_char digit }
{
    if digit < 10 {
        b'0' + digit
    } else {
        b'a' + (digit - 10)
    }
}

/// Appends what stands in a string for a byte.
#[tactic(auto, unfolding(json::specs::Print::escape_byte))]
fn push_escaped(byte: u8, out: &mut Bytes) -> Result<(), OutOfMemory>
    ensures { OnOk result (out.new ≡ out.old ++ escape_byte byte) }
{
    let letter = escape_letter(byte);
    if letter > 0 {
        return out.append(&[b'\\', letter]);
    }
    if byte < 32 {
        return out.append(&[
            b'\\',
            b'u',
            b'0',
            b'0',
            digit_char(byte / 16),
            digit_char(byte % 16),
        ]);
    }
    out.push(byte)
}

/// The text of a string (RFC 8259, section 7).
fn quoted(alloc: Global, text: &[u8]) -> Result<Bytes, OutOfMemory>
    ensures { IfOk result (λ q. q ≡ quoted text.now) }
{
    let mut out = Bytes::new(alloc);
    out.push(b'"')?;
    'bytes: for byte in text {
        push_escaped(*byte, &mut out)?;
    }
    out.push(b'"')?;
    Ok(out)
}

/// The text of a value.
fn text_of(alloc: Global, value: &Value) -> Result<String, OutOfMemory>
    ensures text { IfOk result (λ s. has_float (view value.now) ≡ false → string_bytes s
        ≡ compact_text (view value.now)) }
    ensures printed { IfOk result (λ s. depth (view value.now) ≤ max_depth
        → IsPrinted (string_bytes s) (view value.now)) }
{
    Ok(value.to_string(alloc)?)
}

/// Appends a request, or a notification where the id is null.
fn print_call(
    alloc: Global,
    method: &Txt,
    params: &Value,
    id: &Value,
    out: &mut Bytes,
) -> Result<(), OutOfMemory>
    ensures ok { OnOk result (has_float (called_json method.now (view params.now) (view id.now))
        ≡ false
        → out.new ≡ out.old ++ compact_text (called_json method.now (view params.now) (view id.now))) }
    ensures err { OnErr result (out.new ≡ out.old) }
    ensures whole { OnOk result (depth (called_json method.now (view params.now) (view id.now)) ≤ 64
        → AppendsWhole out.old out.new (called_json method.now (view params.now) (view id.now))) }
{
    let id = text_of(alloc, id)?;
    let method = quoted(alloc, method.as_str().as_bytes())?;
    let params = text_of(alloc, params)?;
    out.append_all(&[
        b"{\"id\":",
        id.as_bytes(),
        b",\"method\":",
        method.as_slice(),
        b",\"params\":",
        params.as_bytes(),
        b"}",
    ])
}

/// Appends a response.
fn print_response(
    alloc: Global,
    outcome: &Value,
    error: &Value,
    id: &Value,
    out: &mut Bytes,
) -> Result<(), OutOfMemory>
    ensures ok { OnOk result (has_float
        (answer_json (view outcome.now) (view error.now) (view id.now)) ≡ false
        → out.new ≡ out.old ++ compact_text (answer_json (view outcome.now) (view error.now) (view id.now))) }
    ensures err { OnErr result (out.new ≡ out.old) }
    ensures whole { OnOk result (depth
        (answer_json (view outcome.now) (view error.now) (view id.now)) ≤ 64
        → AppendsWhole out.old out.new (answer_json (view outcome.now) (view error.now) (view id.now))) }
{
    let error = text_of(alloc, error)?;
    let id = text_of(alloc, id)?;
    let outcome = text_of(alloc, outcome)?;
    out.append_all(&[
        b"{\"error\":",
        error.as_bytes(),
        b",\"id\":",
        id.as_bytes(),
        b",\"result\":",
        outcome.as_bytes(),
        b"}",
    ])
}

/// Appends a message without spaces, its keys in the order of their bytes. What is appended is a whole text that says the
/// message, where there is one. Where memory is wanting, nothing is appended.
pub fn print(alloc: Global, message: &Message, out: &mut Bytes) -> Result<(), OutOfMemory>
    ensures ok { OnOk result (has_float (message_json (said message.now)) ≡ false → out.new
        ≡ out.old ++ message_text (said message.now)) }
    ensures err { OnErr result (out.new ≡ out.old) }

    // A message that some whole text says is said by what is appended. It has no fraction.
    ensures told { OnOk result (IsTold (said message.now)
        → AppendsTelling out.old out.new (said message.now)) }

    // Of each message, with fractions too, what is appended is read as its value.
    ensures whole { OnOk result (depth (message_json (said message.now)) ≤ 64
        → AppendsWhole out.old out.new (message_json (said message.now))) }
{
    match message {
        Message::Request { method, params, id } => print_call(alloc, method, params, id, out),
        Message::Notification { method, params } => {
            print_call(alloc, method, params, &Value::Null, out)
        }
        Message::Response { result, error, id } => print_response(alloc, result, error, id, out),
    }
}
