//! Bindings of VLANs of ports.

use crate::faults::CaseFault;
use crate::lines::{number, parts, say, text};
use std::alloc::Global;
use vlan_bindings::Bindings as Switches;
use vtep_base::{Bytes, Name, RowId, Vlan};

fn say_switch(alloc: Global, switch: Option<RowId>, answer: &mut Bytes) -> Result<(), CaseFault> {
    let switch = format!(in alloc; "{switch:?}")?;
    Ok(say(answer, switch.as_str())?)
}

/// Bindings.
#[derive(Drop)]
pub struct Bindings {
    switches: Switches,
}

impl Bindings {
    /// Nothing is bound.
    pub fn new(alloc: Global) -> Bindings {
        Bindings {
            switches: Switches::new(alloc),
        }
    }

    /// Adds what each line gives: `put`, `find` and `remove` of a port and a VLAN the switch, `members` of a switch its ports and
    /// VLANs.
    pub fn answer(
        &mut self,
        alloc: Global,
        asked: &[Bytes],
        answer: &mut Bytes,
    ) -> Result<(), CaseFault> {
        'asked: for line in asked {
            let (word, rest) = parts(text(line)?);
            if word == "members" {
                self.say_members(RowId::from(number(rest)?), answer)?;
            } else {
                let switch = self.switch(word, rest)?;
                say_switch(alloc, switch, answer)?;
            }
        }
        Ok(())
    }

    fn switch(&mut self, word: &str, words: &str) -> Result<Option<RowId>, CaseFault> {
        let (port, rest) = parts(words);
        let (vlan, switch) = parts(rest);
        let port = Name::parse(port.as_bytes())?;
        let vlan = Vlan::parse(vlan.as_bytes())?;
        match word {
            "put" => self.put(&port, vlan, switch),
            "find" => Ok(self.switches.find(&port, vlan)),
            "remove" => Ok(self.switches.remove(&port, vlan)),
            _ => Err(CaseFault::Form),
        }
    }

    fn put(&mut self, port: &Name, vlan: Vlan, switch: &str) -> Result<Option<RowId>, CaseFault> {
        let switch = RowId::from(number(switch)?);
        Ok(self.switches.put(port, vlan, switch)?)
    }

    fn say_members(&self, switch: RowId, answer: &mut Bytes) -> Result<(), CaseFault> {
        'members: for (port, vlan) in self.switches.members(switch) {
            port.print(answer)?;
            answer.push(b' ')?;
            vlan.print(answer)?;
            answer.push(b'\n')?;
        }
        Ok(())
    }
}
