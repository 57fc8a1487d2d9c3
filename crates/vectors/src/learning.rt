//! Learnt addresses.

use crate::faults::CaseFault;
use crate::lines::{number, parts, say, text};
use mac_learning::{Learned, Learnt};
use std::alloc::Global;
use vtep_base::{Bytes, Mac, Name, RowId, Vlan};

/// Adds an entry: its switch by the row's number, address, port and VLAN, and when it was seen.
fn say_entry(alloc: Global, entry: &Learnt, answer: &mut Bytes) -> Result<(), CaseFault> {
    let switch = format!(in alloc; "{} ", entry.switch % (1 << 62))?;
    answer.append(switch.as_bytes())?;
    entry.mac.print(answer)?;
    answer.push(b' ')?;
    entry.port.print(answer)?;
    answer.push(b' ')?;
    entry.vlan.print(answer)?;
    let seen = format!(in alloc; " {}", entry.seen)?;
    Ok(say(answer, seen.as_str())?)
}

pub fn say_entries(alloc: Global, learned: &Learned, answer: &mut Bytes) -> Result<(), CaseFault> {
    'entries: for entry in learned.entries() {
        say_entry(alloc, entry, answer)?;
    }
    Ok(say(answer, ".")?)
}

/// Learns addresses, with `;` between them, and adds what that did.
fn learn(
    alloc: Global,
    learned: &mut Learned,
    seen: &str,
    answer: &mut Bytes,
) -> Result<(), CaseFault> {
    answer.append(b"did")?;
    'seen: for words in seen.split(';') {
        let (switch, rest) = parts(words);
        let (mac, rest) = parts(rest);
        let (port, rest) = parts(rest);
        let (vlan, now) = parts(rest);
        let did = learned.learn(
            RowId::from(number(switch)?),
            Mac::parse(mac.as_bytes())?,
            &Name::parse(port.as_bytes())?,
            Vlan::parse(vlan.as_bytes())?,
            number(now)?,
        )?;
        let did = format!(in alloc; " {did:?}")?;
        answer.append(did.as_bytes())?;
    }
    Ok(answer.push(b'\n')?)
}

fn age(
    alloc: Global,
    learned: &mut Learned,
    now: &str,
    answer: &mut Bytes,
) -> Result<(), CaseFault> {
    let aged = learned.age(alloc, number(now)?)?;
    'aged: for entry in aged.as_slice() {
        say_entry(alloc, entry, answer)?;
    }
    Ok(say(answer, ".")?)
}

fn evict(learned: &mut Learned, words: &str, answer: &mut Bytes) -> Result<(), CaseFault> {
    let (switch, mac) = parts(words);
    let there = learned.evict(RowId::from(number(switch)?), Mac::parse(mac.as_bytes())?);
    Ok(say(answer, if there { "gone" } else { "none" })?)
}

fn unbind(
    alloc: Global,
    learned: &mut Learned,
    words: &str,
    answer: &mut Bytes,
) -> Result<(), CaseFault> {
    let (port, rest) = parts(words);
    let (vlan, switch) = parts(rest);
    let count = learned.unbind(
        &Name::parse(port.as_bytes())?,
        Vlan::parse(vlan.as_bytes())?,
        RowId::from(number(switch)?),
    );
    let count = format!(in alloc; "{count}")?;
    Ok(say(answer, count.as_str())?)
}

fn find(
    alloc: Global,
    learned: &Learned,
    words: &str,
    answer: &mut Bytes,
) -> Result<(), CaseFault> {
    let (switch, mac) = parts(words);
    match learned.find(RowId::from(number(switch)?), Mac::parse(mac.as_bytes())?) {
        Some(entry) => say_entry(alloc, entry, answer),
        None => Ok(say(answer, "none")?),
    }
}

fn answer_line(
    alloc: Global,
    learned: &mut Learned,
    line: &str,
    answer: &mut Bytes,
) -> Result<(), CaseFault> {
    let (word, rest) = parts(line);
    match word {
        "limit" => *learned = Learned::new(alloc, number(rest)?),
        "copy" => *learned = learned.copy()?,
        "learn" => learn(alloc, learned, rest, answer)?,
        "age" => age(alloc, learned, rest, answer)?,
        "evict" => evict(learned, rest, answer)?,
        "unbind" => unbind(alloc, learned, rest, answer)?,
        "find" => find(alloc, learned, rest, answer)?,
        "entries" => say_entries(alloc, learned, answer)?,
        _ => return Err(CaseFault::Form),
    }
    Ok(())
}

/// Adds what each line gives: `learn` of a switch, an address, a port, a VLAN and a time, with `;` between several, what it did;
/// `age` of a time the entries that go; `evict` of a switch and an address whether there was one; `unbind` of a port, a VLAN and
/// a switch how many go; `find` of a switch and an address the entry; `entries` all. `limit` begins a list, `copy` goes on
/// with a copy.
pub fn answer(alloc: Global, asked: &[Bytes], answer: &mut Bytes) -> Result<(), CaseFault> {
    let mut learned = Learned::new(alloc, 2048);
    'asked: for line in asked {
        answer_line(alloc, &mut learned, text(line)?, answer)?;
    }
    Ok(())
}
