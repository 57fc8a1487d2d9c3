//! Messages in a stream that comes in any pieces.

use crate::faults::CaseFault;
use crate::lines::{number, parts, say};
use rpc_framing::{Framer, Framing, NextFault, print};
use std::alloc::Global;
use std::str;
use vtep_base::Bytes;

/// Adds the refusal of a stream: why, and at which offset.
pub fn say_framing(alloc: Global, framing: Framing, answer: &mut Bytes) -> Result<(), CaseFault> {
    let refusal = format!(in alloc; "{:?} {}", framing.kind, framing.offset)?;
    Ok(say(answer, refusal.as_str())?)
}

/// The most messages that a stream of a case has, and one more.
const MOST: u64 = 9;

/// Adds the messages that come now, a line each, and gives the refusal behind them.
fn take_all(
    alloc: Global,
    framer: &mut Framer,
    answer: &mut Bytes,
) -> Result<Option<Framing>, CaseFault> {
    'messages: for _ in 0..MOST {
        match framer.next() {
            Ok(Some(message)) => {
                print(alloc, &message, answer)?;
                answer.push(b'\n')?;
            }
            Ok(None) => return Ok(None),
            Err(NextFault::Refused(framing)) => return Ok(Some(framing)),
            Err(NextFault::OutOfMemory) => return Err(CaseFault::OutOfMemory),
        }
    }
    Err(CaseFault::Form)
}

/// What comes where the stream is fed in pieces of so many bytes, behind a first one of another size.
fn come(
    alloc: Global,
    limit: u64,
    stream: &[u8],
    first: usize,
    size: usize,
) -> Result<Bytes, CaseFault> {
    let Some((front, rest)) = stream.split_at_checked(first) else {
        return Err(CaseFault::Form);
    };
    let mut framer = Framer::new(alloc, limit);
    let mut answer = Bytes::new(alloc);
    framer.feed(front)?;
    let mut refused = take_all(alloc, &mut framer, &mut answer)?;
    if size > 0 {
        'pieces: for piece in rest.chunks(size) {
            framer.feed(piece)?;
            refused = take_all(alloc, &mut framer, &mut answer)?;
        }
    }
    if let Some(framing) = refused {
        say_framing(alloc, framing, &mut answer)?;
    }
    Ok(answer)
}

/// Adds what comes of a stream whole, and behind it each other thing that comes where it is cut in two or fed byte by byte.
fn say_come(alloc: Global, limit: u64, stream: &[u8], answer: &mut Bytes) -> Result<(), CaseFault> {
    let whole = come(alloc, limit, stream, stream.len(), 0)?;
    answer.append(whole.as_slice())?;
    let bytewise = come(alloc, limit, stream, 0, 1)?;
    if bytewise.as_slice() != whole.as_slice() {
        answer.append_all(&[b"byte by byte:\n", bytewise.as_slice()])?;
    }
    'cuts: for at in 0..stream.len() {
        let cut = come(alloc, limit, stream, at, stream.len())?;
        if cut.as_slice() != whole.as_slice() {
            answer.append_all(&[b"cut:\n", cut.as_slice()])?;
        }
    }
    Ok(())
}

/// Adds the messages of the stream that the lines make, with line feeds between them, and its refusal. `:limit N` says how many
/// bytes a message has at most, 1,000 where it does not stand.
pub fn answer(alloc: Global, asked: &[Bytes], answer: &mut Bytes) -> Result<(), CaseFault> {
    let mut limit = 1000;
    let mut stream = Bytes::new(alloc);
    let mut begun = false;
    'asked: for line in asked {
        match line.as_slice() {
            [b':', rest @ ..] => limit = number(parts(str::from_utf8(rest)?).1)?,
            line => {
                if begun {
                    stream.push(b'\n')?;
                }
                begun = true;
                stream.append(line)?;
            }
        }
    }
    say_come(alloc, limit, stream.as_slice(), answer)
}
