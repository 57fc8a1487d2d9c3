//! Locators and sets of them.

use crate::faults::CaseFault;
use crate::lines::{number, parts, say, text};
use locator_sets::Locators;
use std::alloc::Global;
use vtep_base::{Bytes, Ipv4, RowId};

/// The words of a line as row numbers.
fn ids(alloc: Global, line: &str) -> Result<Vec<RowId>, CaseFault> {
    let mut ids = Vec::new(alloc);
    'words: for word in line.split(' ') {
        ids.push(RowId::from(number(word)?))?;
    }
    Ok(ids)
}

fn say_addresses(
    alloc: Global,
    locators: &Locators,
    line: &str,
    answer: &mut Bytes,
) -> Result<(), CaseFault> {
    let (set, own) = parts(line);
    let own = Ipv4::parse(own.as_bytes())?;
    let addresses = locators.addresses(alloc, RowId::from(number(set)?), own)?;
    answer.append(b"addresses")?;
    'addresses: for ip in addresses.as_slice() {
        answer.append(b" ")?;
        ip.print(answer)?;
    }
    Ok(answer.append(b"\n")?)
}

fn run(
    alloc: Global,
    locators: &mut Locators,
    line: &str,
    answer: &mut Bytes,
) -> Result<(), CaseFault> {
    let (word, rest) = parts(line);
    let (first, behind) = parts(rest);
    match word {
        "put" => {
            let ip = Ipv4::parse(behind.as_bytes())?;
            locators.put(RowId::from(number(first)?), ip)?;
        }
        "set" => locators.put_set(RowId::from(number(first)?), &ids(alloc, behind)?)?,
        "remove" => {
            let was_there = locators.remove(RowId::from(number(rest)?));
            say(answer, if was_there { "there" } else { "not there" })?;
        }
        "unset" => {
            let was_there = locators.remove_set(RowId::from(number(rest)?));
            say(answer, if was_there { "there" } else { "not there" })?;
        }
        "addresses" => say_addresses(alloc, locators, rest, answer)?,
        _ => return Err(CaseFault::Form),
    }
    Ok(())
}

/// Adds what each line gives, of no locators and no sets at first: `put ID IP`, `set ID MEMBER ..`, `remove ID`, `unset ID`, and
/// `addresses SET OWN`.
pub fn answer(alloc: Global, asked: &[Bytes], answer: &mut Bytes) -> Result<(), CaseFault> {
    let mut locators = Locators::new(alloc);
    'asked: for line in asked {
        run(alloc, &mut locators, text(line)?, answer)?;
    }
    Ok(())
}
