//! The outside in memory, with faults at chosen calls.

ghost use Rattle.std.specs.List.{list_any};
ghost use Rattle.std.specs.Prelude.{◌≡◌, ◌==◌, ◌↔◌, ◌<◌, ◌≤◌, ◌+◌, ◌^◌, ◌⊎◌, IsTrue, Some, None, min, take, [], length, slice_index_or, IfNone, IfSome};
ghost use Rattle.vtep_base.specs.Outside.{SourceState, SinkState, Takes, Puts, counted, IsFailed, IsWhole};
ghost use Rattle.vtep_base.specs.Memory.{joined, left_at, taken_at, TakesOne};

use crate::lists::{Bytes, List};
use crate::outside::{Put, Sink, Source, Took};
use std::alloc::Global;

/// Pieces as a source: it gives them in order, at most one per take.
#[derive(Drop)]
pub struct MemorySource {
    pieces: List<Bytes>,
    place: usize,
    offset: usize,
    fails: List<u64>,
    takes: u64,
    faults: u64,
    ends: u64,
}

impl MemorySource {
    /// `fails` lists the numbers of the takes that fail, from 0.
    pub fn new(pieces: List<Bytes>, fails: List<u64>) -> MemorySource
        ensures left { left_at result.pieces result.place result.offset ≡ joined pieces }
        ensures taken { taken_at result.pieces result.place result.offset ≡ [] }
        ensures faults { result.faults ≡ 0 }
        ensures ends { result.ends ≡ 0 }
        ensures fails { result.fails ≡ fails }
        ensures number { result.takes ≡ 0 }
    {
        MemorySource {
            pieces,
            place: 0,
            offset: 0,
            fails,
            takes: 0,
            faults: 0,
            ends: 0,
        }
    }
}

/// The next place with a byte that is left, at or behind this one, or one behind all pieces.
fn next_place(pieces: &[Bytes], place: usize, offset: usize) -> (usize, usize)
    ensures left { left_at pieces.now result.0 result.1 ≡ left_at pieces.now place offset }
    ensures taken { taken_at pieces.now result.0 result.1 ≡ taken_at pieces.now place offset }
    ensures found { result.0 < length pieces.now → result.1
        < length (slice_index_or pieces.now result.0 []) }
{
    let mut place = place;
    let mut offset = offset;
    'spent: while place < pieces.len() && offset >= pieces[place].len() {
        place += 1;
        offset = 0;
    }
    (place, offset)
}

/// Copies what fits to the buffer's front, and says how much that is.
fn copy_front(from: &[u8], buffer: &mut [u8]) -> usize
    ensures count { result ≡ min (length from.now) (length buffer.old) }
    ensures front { take result buffer.new ≡ take result from.now }
{
    let count = from.len().min(buffer.len());
    let (front, _) = from.split_at(count);
    let (room, _) = buffer.split_at_mut(count);
    room.copy_from_slice(front);
    count
}

/// Takes bytes of one piece: the next place, the offset in it, and how many bytes. None where none is left.
fn take_piece(
    pieces: &[Bytes],
    place: usize,
    offset: usize,
    buffer: &mut [u8],
) -> Option<(usize, usize, usize)>
    requires { 0 < length buffer.old }
    ensures none { IfNone result (left_at pieces.now place offset ≡ []) }
    ensures some { IfSome result (λ r. TakesOne pieces.now place offset r.0 r.1 buffer.new r.2) }
{
    let (place, offset) = next_place(pieces, place, offset);
    if place >= pieces.len() {
        return None;
    }
    let (_, rest) = pieces[place].as_slice().split_at(offset);
    let count = copy_front(rest, buffer);
    Some((place, offset + count, count))
}

impl Source for MemorySource {
    ghost left = { λ s. Some (left_at s.pieces s.place s.offset) };

    ghost taken = { λ s. Some (taken_at s.pieces s.place s.offset) };

    ghost faults = { λ s. s.faults };

    ghost ends = { λ s. s.ends };

    fn take(&mut self, buffer: &mut [u8]) -> Took
        requires { 0 < length buffer.old }
        ensures takes { Takes
            (record { left = Some (left_at self.old.pieces self.old.place self.old.offset); taken = Some (taken_at self.old.pieces self.old.place self.old.offset); faults = self.old.faults; ends = self.old.ends })
            (record { left = Some (left_at self.new.pieces self.new.place self.new.offset); taken = Some (taken_at self.new.pieces self.new.place self.new.offset); faults = self.new.faults; ends = self.new.ends })
            buffer.new result }
        // Exactly the takes whose numbers are listed fail.
        ensures failed { IsFailed result
            ↔ IsTrue (list_any (λ n. n == self.old.takes) self.old.fails) }
        ensures fails { self.new.fails ≡ self.old.fails }
        ensures number { self.new.takes ≡ counted self.old.takes }
    {
        let number = self.takes;
        self.takes = self.takes.saturating_add(1);
        if self.fails.as_slice().contains(&number) {
            self.faults = self.faults.saturating_add(1);
            return Took::Failed;
        }
        let pieces = self.pieces.as_slice();
        let Some((place, offset, count)) = take_piece(pieces, self.place, self.offset, buffer)
        else {
            self.ends = self.ends.saturating_add(1);
            return Took::End;
        };
        self.place = place;
        self.offset = offset;
        Took::Took(count)
    }
}

/// A sink that keeps what is put.
#[derive(Drop)]
pub struct MemorySink {
    pub written: Bytes,
    fails: List<u64>,
    puts: u64,
    faults: u64,
}

impl MemorySink {
    /// `fails` lists the numbers of the puts that fail, from 0.
    pub fn new(alloc: Global, fails: List<u64>) -> MemorySink
        ensures written { result.written ≡ [] }
        ensures faults { result.faults ≡ 0 }
        ensures fails { result.fails ≡ fails }
        ensures number { result.puts ≡ 0 }
    {
        MemorySink {
            written: Bytes::new(alloc),
            fails,
            puts: 0,
            faults: 0,
        }
    }
}

impl Sink for MemorySink {
    ghost written = { λ s. Some s.written };

    ghost faults = { λ s. s.faults };

    fn put(&mut self, piece: &[u8]) -> Put
        requires { 0 < length piece.now }
        ensures puts { Puts
            (record { written = Some self.old.written; faults = self.old.faults })
            (record { written = Some self.new.written; faults = self.new.faults })
            piece.now result }
        // The puts whose numbers are listed fail; others fail for want of memory alone, and what is put is put whole.
        ensures failed { IsTrue (list_any (λ n. n == self.old.puts) self.old.fails) → result
            ≡ Put.Failed }
        ensures whole { IsWhole result (length piece.now) }
        ensures fails { self.new.fails ≡ self.old.fails }
        ensures number { self.new.puts ≡ counted self.old.puts }
    {
        let number = self.puts;
        self.puts = self.puts.saturating_add(1);
        if self.fails.as_slice().contains(&number) {
            self.faults = self.faults.saturating_add(1);
            return Put::Failed;
        }
        match self.written.append(piece) {
            Ok(()) => Put::Put(piece.len()),
            Err(_) => {
                self.faults = self.faults.saturating_add(1);
                Put::Failed
            }
        }
    }
}
