//! The facts of forwarding states.

use crate::faults::CaseFault;
use forward_program::{Fact, Fib, Place, build, own_address};
use mac_learning::{Learned, Learnt};
use std::alloc::Global;
use vtep_base::{Bytes, Ipv4, Mac, Plain, RowId, Steps};
use vtep_rows::{Rows, changes};

/// Adds a row by its number.
fn say_row(alloc: Global, id: RowId, answer: &mut Bytes) -> Result<(), CaseFault> {
    let number = format!(in alloc; " {}", id % (1 << 62))?;
    Ok(answer.append(number.as_bytes())?)
}

fn say_ip(ip: Ipv4, answer: &mut Bytes) -> Result<(), CaseFault> {
    answer.append(b" ")?;
    Ok(ip.print(answer)?)
}

fn say_place(place: &Place, answer: &mut Bytes) -> Result<(), CaseFault> {
    match place {
        Place::Here { port, vlan } => {
            answer.append_all(&[b" here ", port.as_slice(), b" "])?;
            vlan.print(answer)?;
        }
        Place::There(ip) => {
            answer.append(b" there")?;
            say_ip(*ip, answer)?;
        }
    }
    Ok(())
}

/// Adds a group address, or the word for all that have no other place.
fn say_group(group: Option<Mac>, answer: &mut Bytes) -> Result<(), CaseFault> {
    answer.append(b" ")?;
    match group {
        Some(mac) => mac.print(answer)?,
        None => answer.append(b"unknown-dst")?,
    }
    Ok(())
}

fn say_fact(alloc: Global, fact: &Fact, answer: &mut Bytes) -> Result<(), CaseFault> {
    match fact {
        Fact::Vni { vni, switch } => {
            answer.append(b"vni ")?;
            vni.print(answer)?;
            say_row(alloc, *switch, answer)?;
        }
        Fact::Bind {
            port,
            vlan,
            switch,
            lists,
        } => {
            answer.append_all(&[b"bind ", port.as_slice(), b" "])?;
            vlan.print(answer)?;
            say_row(alloc, *switch, answer)?;
            'lists: for list in lists.as_slice() {
                say_row(alloc, *list, answer)?;
            }
        }
        Fact::Acl { acl, entries } => {
            answer.append(b"acl")?;
            say_row(alloc, *acl, answer)?;
            'entries: for entry in entries.as_slice() {
                say_row(alloc, entry.id, answer)?;
            }
        }
        Fact::Mac { switch, mac, place } => {
            answer.append(b"mac")?;
            say_row(alloc, *switch, answer)?;
            say_group(Some(*mac), answer)?;
            say_place(place, answer)?;
        }
        Fact::Flood {
            switch,
            group,
            addresses,
        } => {
            answer.append(b"flood")?;
            say_row(alloc, *switch, answer)?;
            say_group(*group, answer)?;
            'addresses: for ip in addresses.as_slice() {
                say_ip(*ip, answer)?;
            }
        }
    }
    Ok(answer.append(b"\n")?)
}

/// Adds the facts of a forwarding state that is not broken.
pub fn say_facts(alloc: Global, fib: &Fib<Plain>, answer: &mut Bytes) -> Result<(), CaseFault> {
    if fib.broken() {
        return Err(CaseFault::Form);
    }
    let facts = fib.facts(alloc)?;
    'facts: for fact in facts.as_slice() {
        say_fact(alloc, fact, answer)?;
    }
    Ok(())
}

/// The rows and the learnt addresses of a gateway.
#[derive(Drop)]
pub struct Known {
    pub rows: Rows,
    pub learned: Learned,
}

impl Known {
    /// No address is learnt.
    pub fn new(alloc: Global, rows: Rows) -> Known {
        Known {
            rows,
            learned: Learned::new(alloc, 2048),
        }
    }

    pub fn copy(&self, alloc: Global) -> Result<Known, CaseFault> {
        Ok(Known {
            rows: self.rows.copy(alloc)?,
            learned: self.learned.copy()?,
        })
    }
}

/// The forwarding state, where the rows are sound.
pub fn sound_state(alloc: Global, known: &Known) -> Result<Fib<Plain>, CaseFault> {
    let rows = &known.rows;
    let Ok(()) = rows.check() else {
        return Err(CaseFault::Form);
    };
    if own_address(rows).is_none() {
        return Err(CaseFault::Form);
    }
    let mut steps = Steps::new(Plain);
    Ok(build(alloc, rows, &known.learned, &mut steps)?)
}

/// Adds the facts of the state.
pub fn built(alloc: Global, known: &Known, answer: &mut Bytes) -> Result<(), CaseFault> {
    let fib = sound_state(alloc, known)?;
    say_facts(alloc, &fib, answer)
}

/// Adds the facts of the state that follows from the one before, where these addresses came, went or moved.
pub fn applied(
    alloc: Global,
    before: &Known,
    known: &Known,
    moved: &[Learnt],
    answer: &mut Bytes,
) -> Result<(), CaseFault> {
    let mut fib = sound_state(alloc, before)?;
    let rows = &known.rows;
    let Ok(()) = rows.check() else {
        return Err(CaseFault::Form);
    };
    if fib.broken() || own_address(rows).is_none() {
        return Err(CaseFault::Form);
    }
    let mut steps = Steps::new(Plain);
    let change = changes(alloc, &before.rows, rows)?;
    fib.apply(alloc, rows, &known.learned, &change, moved, &mut steps)?;
    say_facts(alloc, &fib, answer)
}
