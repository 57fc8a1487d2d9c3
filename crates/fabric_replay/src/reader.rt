//! What runs a text that comes in pieces.

ghost use Rattle.std.specs.Prelude.{◌≡◌, ℕ, ◌+◌, ◌<◌, ◌≤◌, ◌^◌, [], length, OnOk};
ghost use Rattle.fabric_world.specs.Script.{Meaning, Short, Ended, Full};
ghost use Rattle.fabric_replay.specs.Stages.{stage_of, FeedsAs, ClosesAs};

use crate::script::Stage;
use std::alloc::Global;
use vtep_base::{Bytes, OutOfMemory};

/// Takes a text in pieces, and runs what each makes whole.
pub(crate) trait Reader {
    // What comes of the text that was not taken yet, by how its reading ends.
    ghost meaning: { Self → Meaning };

    // At most one more than the number of the bytes that were taken.
    ghost number: { Self → ℕ };

    /// Takes a piece: runs what it makes whole, and appends what that writes.
    fn feed(&mut self, alloc: Global, piece: &[u8], out: &mut Bytes) -> Result<(), OutOfMemory>
        requires room { number self.old + length piece.now < 2 ^ 62 }
        ensures feeds { OnOk result (FeedsAs (meaning self.old) piece.now out.old (meaning self.new)
            out.new) }
        ensures counted { OnOk result (number self.new ≤ number self.old + length piece.now) };

    /// The source ended.
    fn end(&mut self, alloc: Global, out: &mut Bytes) -> Result<(), OutOfMemory>
        requires room { number self.old < 2 ^ 62 }
        ensures { OnOk result (ClosesAs (meaning self.old Ended []) out.old
            (meaning self.new Short []).stage out.new) };

    /// No more may be read.
    fn fill(&mut self)
        ensures { ClosesAs (meaning self.old Full []) [] (meaning self.new Short []).stage [] };

    /// Where it stands.
    fn stage(&self) -> &Stage
        ensures { stage_of result.now ≡ (meaning self.now Short []).stage };
}
