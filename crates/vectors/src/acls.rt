//! Rules of access lists.

use crate::faults::CaseFault;
use crate::header_fields::headers_of;
use crate::lines::{bytes, number, parts, say, text};
use acl_rules::{Entry, Rules, ids_are_distinct};
use std::alloc::Global;
use vtep_base::{Action, Bytes, Direction, Ipv4, Mac, RowId, parse_number};

fn direction(word: &str) -> Result<Direction, CaseFault> {
    match word {
        "in" => Ok(Direction::Ingress),
        "out" => Ok(Direction::Egress),
        _ => Err(CaseFault::Form),
    }
}

fn action(word: &str) -> Result<Action, CaseFault> {
    match word {
        "permit" => Ok(Action::Permit),
        "deny" => Ok(Action::Deny),
        _ => Err(CaseFault::Form),
    }
}

fn small(word: &str) -> Result<u8, CaseFault> {
    match word.parse::<u8>() {
        Ok(number) => Ok(number),
        Err(_) => Err(CaseFault::Form),
    }
}

fn short(word: &str) -> Result<u16, CaseFault> {
    match word.parse::<u16>() {
        Ok(number) => Ok(number),
        Err(_) => Err(CaseFault::Form),
    }
}

/// The number of `0x` and four hexadecimal digits.
fn ethertype(alloc: Global, word: &str) -> Result<u16, CaseFault> {
    let Some(digits) = word.strip_prefix("0x") else {
        return Err(CaseFault::Form);
    };
    match bytes(alloc, digits)?.as_slice() {
        [high, low] => Ok(u16::from_be_bytes([*high, *low])),
        _ => Err(CaseFault::Form),
    }
}

fn set_address(entry: &mut Entry, name: &str, value: &str) -> Result<bool, CaseFault> {
    let value = value.as_bytes();
    match name {
        "source_mac" => entry.source_mac = Some(Mac::parse(value)?),
        "dest_mac" => entry.dest_mac = Some(Mac::parse(value)?),
        "source_ip" => entry.source_ip = Some(Ipv4::parse(value)?),
        "source_mask" => entry.source_mask = Some(Ipv4::parse(value)?),
        "dest_ip" => entry.dest_ip = Some(Ipv4::parse(value)?),
        "dest_mask" => entry.dest_mask = Some(Ipv4::parse(value)?),
        _ => return Ok(false),
    }
    Ok(true)
}

fn set_number(entry: &mut Entry, name: &str, value: &str) -> Result<(), CaseFault> {
    match name {
        "protocol" => entry.protocol = Some(small(value)?),
        "icmp_type" => entry.icmp_type = Some(small(value)?),
        "icmp_code" => entry.icmp_code = Some(small(value)?),
        "source_port_min" => entry.source_port_min = Some(short(value)?),
        "source_port_max" => entry.source_port_max = Some(short(value)?),
        "dest_port_min" => entry.dest_port_min = Some(short(value)?),
        "dest_port_max" => entry.dest_port_max = Some(short(value)?),
        "tcp_flags" => entry.tcp_flags = Some(short(value)?),
        "tcp_flags_mask" => entry.tcp_flags_mask = Some(short(value)?),
        _ => return Err(CaseFault::Form),
    }
    Ok(())
}

fn set_field(alloc: Global, entry: &mut Entry, field: &str) -> Result<(), CaseFault> {
    let Some((name, value)) = field.split_once('=') else {
        return Err(CaseFault::Form);
    };
    if name == "ethertype" {
        entry.ethertype = Some(ethertype(alloc, value)?);
        return Ok(());
    }
    if set_address(entry, name, value)? {
        return Ok(());
    }
    set_number(entry, name, value)
}

/// An entry without fields.
fn bare_entry(id: RowId, sequence: u32, direction: Direction, action: Action) -> Entry {
    Entry {
        id,
        sequence,
        direction,
        action,
        source_mac: None,
        dest_mac: None,
        ethertype: None,
        source_ip: None,
        source_mask: None,
        dest_ip: None,
        dest_mask: None,
        protocol: None,
        icmp_type: None,
        icmp_code: None,
        source_port_min: None,
        source_port_max: None,
        dest_port_min: None,
        dest_port_max: None,
        tcp_flags: None,
        tcp_flags_mask: None,
    }
}

/// An entry from its identifier, sequence, direction, action and fields.
fn entry(alloc: Global, words: &str) -> Result<Entry, CaseFault> {
    let (id, rest) = parts(words);
    let (sequence, rest) = parts(rest);
    let (way, rest) = parts(rest);
    let (does, fields) = parts(rest);
    let sequence = parse_number(sequence.as_bytes(), u32::MAX)?;
    let mut entry = bare_entry(
        RowId::from(number(id)?),
        sequence,
        direction(way)?,
        action(does)?,
    );
    'fields: for field in fields.split_whitespace() {
        set_field(alloc, &mut entry, field)?;
    }
    Ok(entry)
}

/// The rules of entries whose identifiers differ.
fn rules_of(alloc: Global, entries: &[Entry]) -> Result<Rules, CaseFault> {
    if !ids_are_distinct(entries) {
        return Err(CaseFault::Form);
    }
    Ok(Rules::of(alloc, entries)?)
}

/// The rules of entries with `;` between them.
fn rules(alloc: Global, words: &str) -> Result<Rules, CaseFault> {
    let mut entries = Vec::new(alloc);
    'entries: for words in words.split(';') {
        entries.push(entry(alloc, words)?)?;
    }
    rules_of(alloc, entries.as_slice())
}

/// Adds the identifiers of the rules in their order.
fn say_order(alloc: Global, rules: &Rules, answer: &mut Bytes) -> Result<(), CaseFault> {
    answer.append(b"order")?;
    'rules: for entry in rules.entries() {
        let id = format!(in alloc; " {}", entry.id)?;
        answer.append(id.as_bytes())?;
    }
    Ok(answer.push(b'\n')?)
}

fn permits(held: &Rules, frame: &[u8], way: Direction) -> Result<bool, CaseFault> {
    match headers_of(frame) {
        Ok(headers) => Ok(held.permits(&headers, way)),
        Err(fault) => Err(fault),
    }
}

fn say_permitted(
    alloc: Global,
    held: &Rules,
    way: &str,
    frame: &str,
    answer: &mut Bytes,
) -> Result<(), CaseFault> {
    let way = direction(way)?;
    let frame = bytes(alloc, frame)?;
    let permitted = permits(held, frame.as_slice(), way)?;
    Ok(say(answer, if permitted { "permit" } else { "deny" })?)
}

fn answer_line(
    alloc: Global,
    held: &mut Rules,
    line: &str,
    answer: &mut Bytes,
) -> Result<(), CaseFault> {
    let (word, rest) = parts(line);
    if word == "rules" {
        *held = rules(alloc, rest)?;
        return say_order(alloc, held, answer);
    }
    say_permitted(alloc, held, word, rest, answer)
}

/// Adds what each line gives: `rules` and entries, with `;` between them, the identifiers in order; `in` and `out` and a frame
/// whether it is permitted.
pub fn answer(alloc: Global, asked: &[Bytes], answer: &mut Bytes) -> Result<(), CaseFault> {
    let none = Vec::new(alloc);
    let mut held = rules_of(alloc, none.as_slice())?;
    'asked: for line in asked {
        answer_line(alloc, &mut held, text(line)?, answer)?;
    }
    Ok(())
}
