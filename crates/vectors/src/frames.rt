//! Ethernet frames: what each carries, and how that is written.

use crate::faults::CaseFault;
use crate::lines::{bytes, parts, say, say_hex, text};
use ether_frames::{Frame, read, write};
use std::alloc::Global;
use vtep_base::Bytes;

/// Adds the VLAN, the frame without its tag, and the written form of both.
fn say_carried(alloc: Global, frame: &Frame<'_>, answer: &mut Bytes) -> Result<(), CaseFault> {
    let mut inner = Bytes::new(alloc);
    inner.append_all(&[frame.inner.addresses(), frame.inner.rest()])?;
    let mut written = Bytes::new(alloc);
    write(frame.vlan, &frame.inner, &mut written)?;
    frame.vlan.print(answer)?;
    answer.push(b' ')?;
    say_hex(alloc, inner.as_slice(), answer)?;
    say_hex(alloc, written.as_slice(), answer)
}

fn say_frame(alloc: Global, bytes: &[u8], answer: &mut Bytes) -> Result<(), CaseFault> {
    match read(bytes) {
        Ok(frame) => say_carried(alloc, &frame, answer),
        Err(fault) => {
            let fault = format!(in alloc; "{:?} {}", fault.kind, fault.offset)?;
            Ok(say(answer, fault.as_str())?)
        }
    }
}

fn say_fronts(alloc: Global, bytes: &[u8], answer: &mut Bytes) -> Result<(), CaseFault> {
    'fronts: for length in 0..bytes.len() {
        let (front, _) = bytes.split_at(length);
        say_frame(alloc, front, answer)?;
    }
    Ok(())
}

/// Adds what each frame is read as, and how that is written: two lines, or one with the fault and its offset. Behind `fronts`
/// each shorter front of the frame is read.
pub fn answer(alloc: Global, asked: &[Bytes], answer: &mut Bytes) -> Result<(), CaseFault> {
    'asked: for line in asked {
        let (word, rest) = parts(text(line)?);
        if word == "fronts" {
            say_fronts(alloc, bytes(alloc, rest)?.as_slice(), answer)?;
        } else {
            say_frame(alloc, bytes(alloc, word)?.as_slice(), answer)?;
        }
    }
    Ok(())
}
