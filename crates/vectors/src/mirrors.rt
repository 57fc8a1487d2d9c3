//! Mirrors: what they take, and what they hold.

use crate::faults::CaseFault;
use crate::lines::{parts, say, text};
use crate::rows::{say_id, say_row};
use monitor_updates::{Mirror, MirrorFault};
use serde_json::Value;
use std::alloc::Global;
use vtep_base::Bytes;
use vtep_schema::{table_name, tables};

fn say_taken(
    alloc: Global,
    taken: Result<(), MirrorFault>,
    answer: &mut Bytes,
) -> Result<(), CaseFault> {
    match taken {
        Ok(()) => Ok(say(answer, "taken")?),
        Err(MirrorFault::OutOfMemory) => Err(CaseFault::OutOfMemory),
        Err(MirrorFault::Shape) => Ok(say(answer, "Shape")?),
        Err(MirrorFault::Contradicts { table, row }) => {
            let table = table_name(table);
            answer.append_all(&[b"Contradicts ", table.as_bytes(), b" "])?;
            say_id(alloc, row, answer)
        }
    }
}

/// Adds each row, table by table.
fn say_held(alloc: Global, mirror: &Mirror, answer: &mut Bytes) -> Result<(), CaseFault> {
    'tables: for table in tables() {
        'ids: for id in mirror.ids(*table) {
            let Some(row) = mirror.find(*table, id) else {
                return Err(CaseFault::Form);
            };
            let table = table_name(*table);
            answer.append_all(&[table.as_bytes(), b" "])?;
            say_id(alloc, id, answer)?;
            say_row(alloc, row, answer)?;
        }
    }
    Ok(())
}

/// A mirror.
#[derive(Drop)]
pub struct Mirrors {
    mirror: Mirror,
}

impl Mirrors {
    /// A mirror without rows.
    pub fn new(alloc: Global) -> Mirrors {
        Mirrors {
            mirror: Mirror::new(alloc),
        }
    }

    /// Adds what each line gives: `new` is a mirror without rows, `open` and `take` say whether it takes the JSON text behind them,
    /// and `held` asks for its rows.
    pub fn answer(
        &mut self,
        alloc: Global,
        asked: &[Bytes],
        answer: &mut Bytes,
    ) -> Result<(), CaseFault> {
        'asked: for line in asked {
            let (word, json) = parts(text(line)?);
            match word {
                "new" => self.mirror = Mirror::new(alloc),
                "held" => say_held(alloc, &self.mirror, answer)?,
                "open" => {
                    let taken = self.mirror.open(alloc, &Value::from_str(alloc, json)?);
                    say_taken(alloc, taken, answer)?;
                }
                "take" => {
                    let taken = self.mirror.take(alloc, &Value::from_str(alloc, json)?);
                    say_taken(alloc, taken, answer)?;
                }
                _ => return Err(CaseFault::Form),
            }
        }
        Ok(())
    }
}
