//! The lines of cases, and their escapes.

use crate::faults::CaseFault;
use std::alloc::Global;
use std::str;
use vtep_base::{Bytes, OutOfMemory};

/// Adds a line.
pub fn say(answer: &mut Bytes, line: &str) -> Result<(), OutOfMemory> {
    answer.append_all(&[line.as_bytes(), b"\n"])
}

/// The text of a line.
pub fn text(line: &Bytes) -> Result<&str, CaseFault> {
    Ok(str::from_utf8(line.as_slice())?)
}

/// A line in two at its first space. What has none is a first part alone.
pub fn parts(line: &str) -> (&str, &str) {
    match line.split_once(' ') {
        Some(parts) => parts,
        None => (line, ""),
    }
}

/// A decimal number.
pub fn number(word: &str) -> Result<u64, CaseFault> {
    match word.parse::<u64>() {
        Ok(number) => Ok(number),
        Err(_) => Err(CaseFault::Form),
    }
}

/// The bytes of a hexadecimal word.
pub fn bytes(alloc: Global, word: &str) -> Result<Bytes, CaseFault> {
    Ok(Bytes::from_vec(hex::decode(alloc, word)?))
}

/// Adds a line of hexadecimal digits.
pub fn say_hex(alloc: Global, bytes: &[u8], answer: &mut Bytes) -> Result<(), CaseFault> {
    let digits = hex::encode(alloc, bytes)?;
    Ok(say(answer, digits.as_str())?)
}

/// Adds what an escape and the text behind it stand for.
fn add_escaped(alloc: Global, line: &mut Bytes, text: &str, number: u64) -> Result<(), CaseFault> {
    if let Some(rest) = text.strip_prefix('#') {
        let digits = format!(in alloc; "{number}")?;
        line.append_all(&[digits.as_bytes(), rest.as_bytes()])?;
        return Ok(());
    }
    if let Some(rest) = text.strip_prefix('x') {
        let digits = format!(in alloc; "{number:03x}")?;
        line.append_all(&[digits.as_bytes(), rest.as_bytes()])?;
        return Ok(());
    }
    let Some((digits, rest)) = text.split_at_checked(2) else {
        return Err(CaseFault::Form);
    };
    let byte = bytes(alloc, digits)?;
    line.append_all(&[byte.as_slice(), rest.as_bytes()])?;
    Ok(())
}

/// Adds a text to a line. In it `~` and two hexadecimal digits stand for a byte, `~#` for the number in decimal and `~x` for the
/// number in three hexadecimal digits.
pub fn add_text(alloc: Global, line: &mut Bytes, text: &str, number: u64) -> Result<(), CaseFault> {
    'parts: for (place, part) in text.split('~').enumerate() {
        if place == 0 {
            line.append(part.as_bytes())?;
        } else {
            add_escaped(alloc, line, part, number)?;
        }
    }
    Ok(())
}

/// Adds a text so many times, with the numbers from a first one on: `1025 0 TEXT`.
pub fn add_repeated(alloc: Global, line: &mut Bytes, repeated: &str) -> Result<(), CaseFault> {
    let (count, rest) = parts(repeated);
    let (first, text) = parts(rest);
    let first = number(first)?;
    'times: for time in 0..number(count)? {
        add_text(alloc, line, text, first.saturating_add(time))?;
    }
    Ok(())
}
