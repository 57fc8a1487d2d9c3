//! The real outside: readers as sources, and writers as sinks. This is the trusted edge, and it tells no content.

ghost use Rattle.std.specs.Prelude.{◌≡◌, ◌<◌, ◌+◌, ◌^◌, None, length};
ghost use Rattle.vtep_base.specs.Outside.{SourceState, SinkState, Takes, TakesOf, Puts, PutsTo};

use crate::outside::{Put, Sink, Source, Took};
use std::io::{Read, Write};

/// A reader as a source.
#[derive(Drop)]
pub struct ReadSource<R: Read + Drop> {
    reader: R,
    faults: u64,
    ends: u64,
}

impl<R: Read + Drop> ReadSource<R> {
    /// Nothing was taken from the reader, and no fault and no End is counted.
    pub fn new(reader: R) -> ReadSource<R>
        ensures reader { result.reader ≡ reader }
        ensures faults { ⟦<ReadSource<R> as Source>⟧.faults result ≡ 0 }
        ensures ends { ⟦<ReadSource<R> as Source>⟧.ends result ≡ 0 }
    {
        ReadSource {
            reader,
            faults: 0,
            ends: 0,
        }
    }
}

impl<R: Read + Drop> Source for ReadSource<R> {
    ghost left = { λ _. None };

    ghost taken = { λ _. None };

    ghost faults = { λ s. s.faults };

    ghost ends = { λ s. s.ends };

    fn take(&mut self, buffer: &mut [u8]) -> Took
        requires { 0 < length buffer.old }
        ensures takes { Takes
            (record { left = None; taken = None; faults = self.old.faults; ends = self.old.ends })
            (record { left = None; taken = None; faults = self.new.faults; ends = self.new.ends })
            buffer.new result }
        // The answer is what the reader gave.
        ensures reader { TakesOf (R.remaining self.old.reader) (R.remaining self.new.reader)
            buffer.new result }
    {
        match self.reader.read(buffer) {
            Ok(0) => {
                self.ends = self.ends.saturating_add(1);
                Took::End
            }
            Ok(count) => Took::Took(count),
            Err(_) => {
                self.faults = self.faults.saturating_add(1);
                Took::Failed
            }
        }
    }
}

/// A writer as a sink.
#[derive(Drop)]
pub struct WriteSink<W: Write + Drop> {
    writer: W,
    faults: u64,
}

impl<W: Write + Drop> WriteSink<W> {
    /// Nothing was put into the writer, and no fault is counted.
    pub fn new(writer: W) -> WriteSink<W>
        ensures writer { result.writer ≡ writer }
        ensures faults { ⟦<WriteSink<W> as Sink>⟧.faults result ≡ 0 }
    {
        WriteSink { writer, faults: 0 }
    }
}

impl<W: Write + Drop> Sink for WriteSink<W> {
    ghost written = { λ _. None };

    ghost faults = { λ s. s.faults };

    fn put(&mut self, piece: &[u8]) -> Put
        ensures puts { Puts (record { written = None; faults = self.old.faults })
            (record { written = None; faults = self.new.faults }) piece.now result }
        // The answer is what the writer took.
        ensures writer { PutsTo (W.contents self.old.writer) (W.contents self.new.writer) piece.now
            result }
    {
        match self.writer.write(piece) {
            Ok(0) | Err(_) => {
                self.faults = self.faults.saturating_add(1);
                Put::Failed
            }
            Ok(count) => Put::Put(count),
        }
    }
}
