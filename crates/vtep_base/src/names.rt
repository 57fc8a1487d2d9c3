//! Names.

ghost use Rattle.std.specs.Prelude.{◌≡◌, ◌+◌, ◌≤◌, ◌<◌, ◌↔◌, ◌++◌, IsTrue, true, MatchResult, IfErr, Ok, Err, OnOk, OnErr, length};
ghost use Rattle.std.specs.Cmp.Lexicographic.{slice_cmp, pointwise};
ghost use Rattle.std.specs.Ordering.{nat_cmp};
ghost use Rattle.vtep_base.specs.Reading.{IsLongestFront};
ghost use Rattle.std.specs.List.{list_all};
ghost use Rattle.vtep_base.specs.NameCells.{BeginsName};
ghost use Rattle.vtep_base.specs.Texts.{read_name, name_of, is_name_byte, is_name};

use crate::answers::OutOfMemory;
use crate::lists::Bytes;
use crate::reading::TextFault;
use std::cmp::Ordering;
use std::fmt;
use std::marker::Model;

/// The most bytes that a name has.
const ROOM: usize = 64;

/// The letters of a name, held in place.
#[derive(Clone, Copy)]
pub struct Letters {
    text: [u8; 64],
    len: u8,
}

impl Model for Letters {
    ghost use Rattle.std.specs.Prelude.{ℕ, List};
    ghost use Rattle.vtep_base.specs.NameCells.{text_of, cells_of, IsHeld, cells_of-text_of};

    ghost Value = { List ℕ };

    ghost view = { text_of };

    ghost invariant = { IsHeld };

    ghost inverse = { cells_of };

    ghost inverse_ok = { cells_of-text_of };
}

/// A name: 1 to 64 letters, digits, `_`, `-` and `.`. It is held in place, and contracts see it as its text.
#[derive(Clone, Copy)]
pub struct Name {
    letters: Letters,
}

impl Model for Name {
    ghost use Rattle.std.specs.Prelude.{ℕ, List, ◌≡◌, true};
    ghost use Rattle.vtep_base.specs.Texts.{is_name};

    ghost Value = { List ℕ };

    ghost view = { λ n. n.letters };

    ghost invariant = { λ n. is_name n.letters ≡ true };

    ghost inverse = { λ text. record { letters = text } };
}

impl Letters {
    /// These letters.
    fn new(text: &[u8]) -> Letters
        requires short { length text.now ≤ 64 }
        requires bytes { list_all is_name_byte text.now ≡ true }
        ensures { result ≡ text.now }
    {
        let mut cells = [0; 64];
        let (front, _) = cells.split_at_mut(text.len());
        front.copy_from_slice(text);
        Letters {
            text: cells,
            len: text.len() as u8,
        }
    }

    fn as_slice(&self) -> &[u8]
        ensures text { result.now ≡ self.now }
        ensures short { length result.now ≤ 64 }
    {
        &self.text[..self.len as usize]
    }
}

impl Name {
    /// The text of the name.
    pub fn as_slice(&self) -> &[u8]
        ensures text { result.now ≡ self.now }
        ensures short { length result.now ≤ 64 }
        ensures form { is_name result.now ≡ true }
    {
        self.letters.as_slice()
    }

    /// Reads a name.
    pub fn parse(text: &[u8]) -> Result<Name, TextFault>
        ensures value { MatchResult result (λ n. read_name text.now ≡ Ok n)
            (λ f. read_name text.now ≡ Err f.offset) }
        ensures longest { IfErr result (λ f. IsLongestFront name_of text.now f.offset) }
    {
        let offset = front_length(text);
        if offset == 0 || offset < text.len() {
            return Err(TextFault { offset });
        }
        Ok(Name {
            letters: Letters::new(text),
        })
    }

    /// Appends the text of the name.
    pub fn print(&self, out: &mut Bytes) -> Result<(), OutOfMemory>
        ensures ok { OnOk result (out.new ≡ out.old ++ self.now) }
        ensures err { OnErr result (out.new ≡ out.old) }
    {
        out.append(self.as_slice())
    }
}

impl PartialEq for Name {
    ghost use Rattle.std.specs.Prelude.{◌==◌};
    ghost use Rattle.std.specs.Cmp.Lexicographic.{pointwise};
    ghost use Rattle.std.proofs.Common.{rules};
    ghost use Rattle.std.specs.Cmp.Rules.{comparing};

    ghost eq = { pointwise ◌==◌ };

    ghost laws = { Prim.search (comparing, rules) };

    fn eq(&self, other: &Name) -> bool {
        self.as_slice() == other.as_slice()
    }
}

impl Eq for Name {
    ghost use Rattle.std.proofs.Common.{rules};
    ghost use Rattle.std.specs.Cmp.Rules.{comparing};

    ghost laws = { Prim.search (comparing, rules) };
}

impl PartialOrd for Name {
    ghost use Rattle.std.proofs.Common.{rules};
    ghost use Rattle.std.specs.Cmp.{partial_order_from_own_ties};
    ghost use Rattle.std.specs.Cmp.Rules.{comparing};
    ghost use Rattle.std.specs.Cmp.Lexicographic.{slice_cmp};
    ghost use Rattle.std.specs.Ordering.{nat_cmp, as_partial_cmp};

    ghost partial_cmp = { as_partial_cmp (slice_cmp nat_cmp) };

    ghost laws = { partial_order_from_own_ties (Prim.search (comparing, rules)) (Prim.search (comparing, rules)) };

    fn partial_cmp(&self, other: &Name) -> Option<Ordering> {
        Some(self.cmp(other))
    }
}

impl Ord for Name {
    ghost use Rattle.std.proofs.Common.{rules};
    ghost use Rattle.std.specs.Cmp.Rules.{comparing};
    ghost use Rattle.std.specs.Cmp.Lexicographic.{slice_cmp};
    ghost use Rattle.std.specs.Ordering.{nat_cmp};

    ghost cmp = { slice_cmp nat_cmp };

    ghost total = { Prim.search (comparing, rules) };

    ghost matches_partial_cmp = { Prim.search (comparing, rules) };

    ghost matches_eq = { Prim.search (comparing, rules) };

    fn cmp(&self, other: &Name) -> Ordering {
        self.as_slice().cmp(other.as_slice())
    }
}

impl fmt::Debug for Name {
    fn fmt<W: fmt::Write>(&self, f: &mut fmt::Formatter<W>) -> fmt::Result {
        for byte in self.as_slice() {
            write!(f, "{}", char::from(*byte))?;
        }
        Ok(())
    }
}

fn is_name_byte(byte: u8) -> bool
    ensures { result ≡ is_name_byte byte }
{
    byte.is_ascii_alphanumeric() || matches!(byte, b'_' | b'-' | b'.')
}

/// How many bytes at the front of the text begin a name.
fn front_length(text: &[u8]) -> usize
    ensures { BeginsName text.now result }
{
    'bytes: for (offset, byte) in text.iter().enumerate() {
        if !is_name_byte(*byte) || offset == ROOM {
            return offset;
        }
    }
    text.len()
}
