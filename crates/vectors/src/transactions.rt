//! Transactions and their result arrays.

use crate::facts::Known;
use crate::faults::CaseFault;
use crate::lines::{number, parts, say, text};
use crate::opening::Opening;
use crate::{facts, hops};
use mac_learning::Learnt;
use serde_json::Value;
use std::alloc::Global;
use transact_profile::{finish, read_ops, transact};
use vtep_base::{Bytes, Mac, Name, Vlan};
use vtep_rows::{Breach, Rows, Rule};

/// The rule that the rows break, after what no row names is collected.
fn breach(rows: &mut Rows) -> Result<Option<Rule>, CaseFault> {
    rows.collect_unreferenced()?;
    match rows.check() {
        Ok(()) => Ok(None),
        Err(Breach { rule, .. }) => Ok(Some(rule)),
    }
}

/// The result array of a transaction. Rows that it leaves unsound are put back, and their error is the last one of the array.
fn results(alloc: Global, rows: &mut Rows, operations: &str) -> Result<String, CaseFault> {
    let params = format!(in alloc; "[\"hardware_vtep\",{operations}]")?;
    let params = Value::from_str(alloc, params.as_str())?;
    let ops = read_ops(alloc, &params)?;
    let before = rows.copy(alloc)?;
    let outcome = transact(alloc, rows, &ops)?;
    let breach = breach(rows)?;
    if breach.is_some() {
        *rows = before;
    }
    let results = finish(alloc, &outcome, breach)?;
    Ok(results.to_string(alloc)?)
}

/// Transactions in turn.
#[derive(Drop)]
pub struct Transactions {
    opening: Opening,
    known: Known,
    /// What was known before the last transaction, or before `then` alone.
    before: Known,
    /// The learnt addresses that came, went or moved since.
    moved: Vec<Learnt>,
}

impl Transactions {
    /// At the rows of a new gateway.
    pub fn new(alloc: Global) -> Result<Transactions, CaseFault> {
        Ok(Transactions {
            opening: Opening::Gateway,
            known: Known::new(alloc, Opening::Gateway.rows(alloc)?),
            before: Known::new(alloc, Opening::Gateway.rows(alloc)?),
            moved: Vec::new(alloc),
        })
    }

    /// Adds what each line gives: `gateway` and `ports` say at which rows the transactions behind them begin, `counter` asks for
    /// the greatest row number, `facts` for those of the forwarding state, and `applied` for those of the state
    /// that follows from the one before the last transaction; `hop` and `tunnel` ask where a frame goes by it. `learn` of a
    /// switch's number, an address, a port and a VLAN, and `forget` of the first two, change the learnt list after the last
    /// transaction, or after `then` alone. Every other line is the operations of a transaction. Behind `then` they go on at the
    /// rows and the list that the last ones left.
    pub fn answer(
        &mut self,
        alloc: Global,
        asked: &[Bytes],
        answer: &mut Bytes,
    ) -> Result<(), CaseFault> {
        'asked: for line in asked {
            self.take(alloc, text(line)?, answer)?;
        }
        Ok(())
    }

    fn take(&mut self, alloc: Global, line: &str, answer: &mut Bytes) -> Result<(), CaseFault> {
        let (word, rest) = parts(line);
        match word {
            "hop" => hops::from_port(alloc, &self.known, rest, answer)?,
            "tunnel" => hops::from_tunnel(alloc, &self.known, rest, answer)?,
            "learn" => self.learn(rest)?,
            "forget" => self.forget(rest)?,
            "gateway" => self.opening = Opening::Gateway,
            "ports" => self.opening = Opening::Ports,
            "facts" => facts::built(alloc, &self.known, answer)?,
            "applied" => {
                let moved = self.moved.as_slice();
                facts::applied(alloc, &self.before, &self.known, moved, answer)?;
            }
            "counter" => {
                let counter = format!(in alloc; "{}", self.known.rows.counter())?;
                say(answer, counter.as_str())?;
            }
            "then" => {
                self.begin(alloc)?;
                if !rest.is_empty() {
                    self.run(alloc, rest, answer)?;
                }
            }
            _ => {
                self.known = Known::new(alloc, self.opening.rows(alloc)?);
                self.begin(alloc)?;
                self.run(alloc, line, answer)?;
            }
        }
        Ok(())
    }

    fn begin(&mut self, alloc: Global) -> Result<(), CaseFault> {
        self.before = self.known.copy(alloc)?;
        self.moved.clear();
        Ok(())
    }

    fn run(&mut self, alloc: Global, line: &str, answer: &mut Bytes) -> Result<(), CaseFault> {
        let results = results(alloc, &mut self.known.rows, line)?;
        Ok(say(answer, results.as_str())?)
    }

    fn learn(&mut self, words: &str) -> Result<(), CaseFault> {
        let (switch, rest) = parts(words);
        let (mac, rest) = parts(rest);
        let (port, vlan) = parts(rest);
        let entry = Learnt {
            switch: self.known.rows.id(number(switch)?),
            mac: Mac::parse(mac.as_bytes())?,
            port: Name::parse(port.as_bytes())?,
            vlan: Vlan::parse(vlan.as_bytes())?,
            seen: 0,
        };
        let learned = &mut self.known.learned;
        let _ = learned.learn(entry.switch, entry.mac, &entry.port, entry.vlan, 0)?;
        Ok(self.moved.push(entry)?)
    }

    fn forget(&mut self, words: &str) -> Result<(), CaseFault> {
        let (switch, mac) = parts(words);
        let switch = self.known.rows.id(number(switch)?);
        let mac = Mac::parse(mac.as_bytes())?;
        let Some(entry) = self.known.learned.find(switch, mac) else {
            return Err(CaseFault::Form);
        };
        self.moved.push(*entry)?;
        let _ = self.known.learned.evict(switch, mac);
        Ok(())
    }
}
