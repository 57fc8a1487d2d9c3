//! Values of columns in JSON.

use crate::faults::CaseFault;
use crate::lines::{parts, say, text};
use ovsdb_values::{Datum, NotationFault, from_json, to_json};
use serde_json::Value;
use std::alloc::Global;
use vtep_base::{Bytes, Kind, Shape};

fn kind(word: &str) -> Result<Kind, CaseFault> {
    Ok(match word {
        "integer" => Kind::Integer,
        "text" => Kind::Text,
        "id" => Kind::Id,
        _ => return Err(CaseFault::Form),
    })
}

fn shape(word: &str) -> Result<Shape, CaseFault> {
    Ok(match word.split_once(':') {
        Some((key, value)) => Shape {
            key: kind(key)?,
            value: Some(kind(value)?),
        },
        None => Shape {
            key: kind(word)?,
            value: None,
        },
    })
}

/// Adds what is written of a datum.
pub fn say_datum(
    alloc: Global,
    datum: &Datum,
    shape: Shape,
    answer: &mut Bytes,
) -> Result<(), CaseFault> {
    let written = to_json(alloc, datum, shape)?.to_string(alloc)?;
    Ok(say(answer, written.as_str())?)
}

/// A shape, and what the JSON text behind it means in it.
pub fn read(alloc: Global, line: &str) -> Result<(Shape, Result<Datum, NotationFault>), CaseFault> {
    let (word, json) = parts(line);
    let shape = shape(word)?;
    let value = Value::from_str(alloc, json)?;
    Ok((shape, from_json(alloc, &value, shape)))
}

fn say_read(alloc: Global, line: &Bytes, answer: &mut Bytes) -> Result<(), CaseFault> {
    match read(alloc, text(line)?)? {
        (shape, Ok(datum)) => say_datum(alloc, &datum.copy(alloc)?, shape, answer),
        (_, Err(NotationFault::OutOfMemory)) => Err(CaseFault::OutOfMemory),
        (_, Err(NotationFault::Notation)) => Ok(say(answer, "Notation")?),
        (_, Err(NotationFault::Repeated)) => Ok(say(answer, "Repeated")?),
    }
}

/// Adds all of both data, and what the first has without the second.
fn say_joined(
    alloc: Global,
    one: &Bytes,
    other: &Bytes,
    answer: &mut Bytes,
) -> Result<(), CaseFault> {
    let (shape, one) = read(alloc, text(one)?)?;
    let one = one?;
    let (_, other) = read(alloc, text(other)?)?;
    let other = other?;
    say_datum(alloc, &one.with_all(alloc, &other)?, shape, answer)?;
    say_datum(alloc, &one.without_all(alloc, &other)?, shape, answer)
}

/// Adds what is written of what the JSON text behind a shape means, or why it means nothing. Of two lines it adds all of both,
/// and what the first has without the second.
pub fn answer(alloc: Global, asked: &[Bytes], answer: &mut Bytes) -> Result<(), CaseFault> {
    match asked {
        [line] => say_read(alloc, line, answer),
        [one, other] => say_joined(alloc, one, other, answer),
        _ => Err(CaseFault::Form),
    }
}
