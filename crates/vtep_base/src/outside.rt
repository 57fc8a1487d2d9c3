//! What stands outside: sources of bytes and sinks for them.

ghost use Rattle.std.specs.Prelude.{◌≡◌, ◌<◌, ℕ, List, Option, length};
ghost use Rattle.vtep_base.specs.Outside.{SourceState, Takes, Puts};

/// The answer of a source.
#[derive(Clone, Copy, Debug, PartialEq, Eq)]
pub enum Took {
    /// So many bytes stand at the front of the buffer.
    Took(usize),
    /// No byte is left.
    End,
    /// The source failed, and counted it.
    Failed,
}

/// The answer of a sink.
#[derive(Clone, Copy, Debug, PartialEq, Eq)]
pub enum Put {
    /// So many bytes of the piece's front were written.
    Put(usize),
    /// The sink failed, and counted it.
    Failed,
}

/// Where bytes come from.
///
/// Where it tells them, a source has the bytes that are left and the bytes that were taken since it was made. It counts
/// its faults, a count that never falls, and its Ends.
pub trait Source {
    ghost left: { Self → Option (List ℕ) };

    ghost taken: { Self → Option (List ℕ) };

    ghost faults: { Self → ℕ };

    ghost ends: { Self → ℕ };

    /// Takes bytes to the front of the buffer, or says that none is left, or fails.
    fn take(&mut self, buffer: &mut [u8]) -> Took
        requires { 0 < length buffer.old }
        ensures { Takes
            (record { left = left self.old; taken = taken self.old; faults = faults self.old; ends = ends self.old })
            (record { left = left self.new; taken = taken self.new; faults = faults self.new; ends = ends self.new })
            buffer.new result };
}

/// Where bytes go.
///
/// Where it tells them, a sink has the bytes that were written. It counts its faults, a count that never falls.
pub trait Sink {
    ghost written: { Self → Option (List ℕ) };

    ghost faults: { Self → ℕ };

    /// Writes a front of the piece, or fails.
    fn put(&mut self, piece: &[u8]) -> Put
        requires { 0 < length piece.now }
        ensures { Puts
            (record { written = written self.old; faults = faults self.old })
            (record { written = written self.new; faults = faults self.new })
            piece.now result };
}
