//! Texts of names, addresses and numbers.

use crate::faults::CaseFault;
use crate::lines::{parts, say, text};
use std::alloc::Global;
use vtep_base::{Bytes, Ipv4, Mac, Name, OutOfMemory, TextFault, Vlan, Vni};

/// Why a text is not printed again.
#[derive(Clone, Copy)]
enum Unread {
    OutOfMemory,
    /// The kind of the text is not known.
    Kind,
    At(TextFault),
}

impl From<OutOfMemory> for Unread {
    fn from(_error: OutOfMemory) -> Unread {
        Unread::OutOfMemory
    }
}

impl From<TextFault> for Unread {
    fn from(fault: TextFault) -> Unread {
        Unread::At(fault)
    }
}

fn print_mac(text: &[u8], answer: &mut Bytes) -> Result<(), Unread> {
    let mac = Mac::parse(text)?;
    mac.print(answer)?;
    if mac.is_group() {
        answer.append(b" group")?;
    }
    Ok(())
}

fn print(kind: &str, text: &[u8], answer: &mut Bytes) -> Result<(), Unread> {
    match kind {
        "mac" => print_mac(text, answer)?,
        "ipv4" => Ipv4::parse(text)?.print(answer)?,
        "vni" => Vni::parse(text)?.print(answer)?,
        "vlan" => Vlan::parse(text)?.print(answer)?,
        "name" => Name::parse(text)?.print(answer)?,
        _ => return Err(Unread::Kind),
    }
    answer.push(b'\n')?;
    Ok(())
}

/// Adds the printed form of what the text behind its kind means, or the offset of its fault.
pub fn answer(alloc: Global, asked: &[Bytes], answer: &mut Bytes) -> Result<(), CaseFault> {
    'asked: for line in asked {
        let (kind, rest) = parts(text(line)?);
        match print(kind, rest.as_bytes(), answer) {
            Ok(()) => {}
            Err(Unread::At(fault)) => {
                let offset = format!(in alloc; "fault {}", fault.offset)?;
                say(answer, offset.as_str())?;
            }
            Err(Unread::Kind) => return Err(CaseFault::Form),
            Err(Unread::OutOfMemory) => return Err(CaseFault::OutOfMemory),
        }
    }
    Ok(())
}
