//! The framer of a stream.
//!
//! It keeps the bytes from the rest on in one buffer, where the rest begins in it, how many bytes of the rest were looked
//! at, and what these leave: how deep brackets nest, and whether a string is open. A further piece is looked at from there
//! on, so a message that comes byte by byte costs time linear in its length. A message that is taken off only moves the
//! place where the rest begins. The rest is moved to the buffer's front where more bytes stand before it than it has, so
//! each byte that was taken off pays for one that is moved.

ghost use Rattle.std.specs.Prelude.{◌≡◌, ◌≤◌, ◌<◌, ℕ, false, drop, length, Some, None, option_map, IfOk, IfSome, IfNone, Err, OnOk, OnErr};
ghost use Rattle.rpc_framing.specs.Said.{said};
ghost use Rattle.rpc_framing.specs.Division.{WhatStandsComes};
ghost use Rattle.rpc_framing.specs.Told.{IsTold, WhatIsToldComes};
ghost use Rattle.serde_json.specs.Written.{has_float};
ghost use Rattle.rpc_framing.specs.Written.{message_json};
ghost use Rattle.rpc_framing.specs.Pieces.{come, comes_after, no_more, OneDivision, CutsDoNotMatter, StaysRefused};
ghost use Rattle.rpc_framing.specs.Streams.{Stream, white, past, opened, fed, next, answered, Refuses};

use crate::reading::{Front, find_front};
use crate::scan::Cursor;
use crate::{Framing, Message, NextFault};
use std::alloc::Global;
use std::marker::Model;
use vtep_base::OutOfMemory;

/// A stream of which messages were taken off. Contracts see the rest, the offset where it begins, and the refusal.
#[derive(Drop)]
pub struct Framer {
    alloc: Global,
    limit: u64,
    bytes: Vec<u8>,
    start: usize,
    at: u64,
    count: usize,
    cursor: Cursor,
    refused: Option<Framing>,
}

impl Model for Framer {
    ghost use Rattle.std.specs.Prelude.{drop};
    ghost use Rattle.rpc_framing.specs.Streams.{Stream, stream_code, IsKept};

    ghost Value = { Stream };

    ghost coded = { stream_code };

    ghost view = { λ f. record { limit = f.limit; rest = drop f.start f.bytes.items; at = f.at; refused = f.refused } };

    ghost invariant = { λ f. IsKept f.limit f.bytes.items f.start f.count f.cursor };
}

/// How many bytes of white space stand in front.
fn white(bytes: &[u8]) -> usize
    ensures value { result ≡ white bytes.now }
    ensures within { result ≤ length bytes.now }
{
    let mut count = 0;
    'white: while count < bytes.len() && matches!(bytes[count], b' ' | b'\t' | b'\r' | b'\n') {
        count += 1;
    }
    count
}

fn past(at: u64, count: usize) -> u64
    ensures { result ≡ past at count }
{
    at.saturating_add(count as u64)
}

/// Takes the front off a buffer.
fn take_front(bytes: &mut Vec<u8>, count: usize)
    requires { count ≤ length bytes.old.items }
    ensures { bytes.new.items ≡ drop count bytes.old.items }
{
    let left = bytes.len() - count;
    bytes.copy_within(count.., 0);
    bytes.truncate(left);
}

/// So much room is kept for the messages to come.
const ROOM_KEPT: usize = 1 << 16;

/// Where the rest begins that begins at this place. Where it is empty, the room of a long message is given back.
fn rest_at(alloc: Global, bytes: &mut Vec<u8>, start: usize) -> usize
    requires { start ≤ length bytes.old.items }
    ensures rest { drop result bytes.new.items ≡ drop start bytes.old.items }
    ensures within { result ≤ length bytes.new.items }
{
    if start < bytes.len() || bytes.capacity() <= ROOM_KEPT {
        return start;
    }
    *bytes = Vec::new(alloc);
    0
}

impl Framer {
    /// A stream of which nothing came. A message has `limit` bytes at most.
    pub fn new(alloc: Global, limit: u64) -> Framer
        ensures { result ≡ opened limit }
    {
        Framer {
            alloc,
            limit,
            bytes: Vec::new(alloc),
            start: 0,
            at: 0,
            count: 0,
            cursor: Cursor::start(),
            refused: None,
        }
    }

    /// Adds a piece to the stream. After a refusal nothing is kept.
    pub fn feed(&mut self, piece: &[u8]) -> Result<(), OutOfMemory>
        ensures ok { OnOk result (self.new ≡ fed self.old piece.now) }
        ensures err { OnErr result (self.new ≡ self.old) }
    {
        if self.refused.is_some() {
            return Ok(());
        }
        if self.start > self.bytes.len() / 2 {
            take_front(&mut self.bytes, self.start);
            self.start = 0;
        }
        self.bytes.extend_from_slice(piece)?;
        Ok(())
    }

    /// Takes the first message off the stream, or says where and why none can come.
    fn take(&mut self) -> Result<Option<Message>, NextFault>
        ensures ok { IfOk result (λ o. next self.old
            ≡ record { answer = answered (option_map said o); left = self.new }) }
        ensures refused { (f : Framing) → result ≡ Err (NextFault.Refused f) → next self.old
            ≡ record { answer = Refuses f; left = self.new } }
        ensures memory { result ≡ Err NextFault.OutOfMemory → self.new ≡ self.old }
    {
        if let Some(framing) = self.refused {
            return Err(NextFault::Refused(framing));
        }
        let (_, rest) = self.bytes.as_slice().split_at(self.start);
        let space = white(rest);
        let (_, rest) = rest.split_at(space);
        let Ok(found) = find_front(self.alloc, self.limit, rest, self.count, self.cursor) else {
            return Err(NextFault::OutOfMemory);
        };
        let count = rest.len();
        let start = self.start + space;
        let at = past(self.at, space);
        match found {
            Front::Waiting(cursor) => {
                self.start = start;
                self.at = at;
                self.count = count;
                self.cursor = cursor;
                Ok(None)
            }
            Front::Bad(place, kind) => {
                let offset = past(at, place);
                let framing = Framing { offset, kind };
                self.bytes.clear();
                self.start = 0;
                self.at = offset;
                self.count = 0;
                self.cursor = Cursor::start();
                self.refused = Some(framing);
                Err(NextFault::Refused(framing))
            }
            Front::Text(length, message) => {
                self.start = rest_at(self.alloc, &mut self.bytes, start + length);
                self.at = past(at, length);
                self.count = 0;
                self.cursor = Cursor::start();
                Ok(Some(message))
            }
        }
    }

    /// Takes the first message off the stream, or says where and why none can come. None where no whole one is there yet.
    /// A message that comes has no fraction, and some whole text says it, so that `print` can write it.
    pub fn next(&mut self) -> Result<Option<Message>, NextFault>
        ensures ok { IfOk result (λ o. next self.old
            ≡ record { answer = answered (option_map said o); left = self.new }) }
        ensures refused { (f : Framing) → result ≡ Err (NextFault.Refused f) → next self.old
            ≡ record { answer = Refuses f; left = self.new } }
        ensures memory { result ≡ Err NextFault.OutOfMemory → self.new ≡ self.old }

        // What comes is this message, and what comes of what is left. That is less.
        ensures comes { IfOk result (λ o. come self.old
            ≡ comes_after (option_map said o) self.new) }
        ensures ends { (f : Framing) → result ≡ Err (NextFault.Refused f)
            → (come self.old ≡ no_more self.new) × (self.new.refused ≡ Some f) }
        ensures waits { IfOk result (λ o. IfNone o (self.new.refused ≡ None)) }
        ensures shorter { IfOk result
            (λ o. IfSome o (λ _. length self.new.rest < length self.old.rest)) }
        ensures plain { IfOk result (λ o. IfSome o
            (λ m. has_float (message_json (said m)) ≡ false)) }
        ensures told { IfOk result (λ o. IfSome o (λ m. IsTold (said m))) }
    {
        self.take()
    }
}

/// A law: for each stream exactly one list of messages comes, and then it waits or is refused.
pub fn one_division()
    ensures { (s : Stream) → OneDivision s }
{}

/// A law: what comes from a stream is what stands in it, white space and whole texts in turn, and then the beginning of
/// a text or a fault.
pub fn what_stands_comes()
    ensures { WhatStandsComes }
{}

/// A law: a stream that begins with a whole text gives what it says, and goes on behind it.
pub fn what_is_told_comes()
    ensures { WhatIsToldComes }
{}

/// A law: cuts do not matter.
pub fn cuts_do_not_matter()
    ensures { CutsDoNotMatter }
{}

/// A law: after a refusal the same one comes again, and pieces change nothing.
pub fn stays_refused()
    ensures { StaysRefused }
{}
