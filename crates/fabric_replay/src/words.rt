//! The words of a line.

ghost use Rattle.std.specs.Prelude.{◌≡◌, ◌≤◌, IfOk, map, length};
ghost use Rattle.fabric_world.specs.Text.{words, words_from, is_skipped, bad_byte};
ghost use Rattle.fabric_replay.specs.Seen.{seen, word_length, AllFit};

use fabric_world::Refusal;
use std::alloc::Global;
use vtep_base::{LineReason, OutOfMemory};

/// A word of a line, and the column of its first byte.
#[derive(Clone, Copy, Debug)]
pub(crate) struct Word<'a> {
    pub column: usize,
    pub bytes: &'a [u8],
}

/// How many bytes stand before the first space.
fn word_length(text: &[u8]) -> usize
    ensures value { result ≡ word_length text.now }
    ensures within { result ≤ length text.now }
{
    'bytes: for (at, byte) in text.iter().enumerate() {
        if *byte == b' ' {
            return at;
        }
    }
    text.len()
}

/// The words of a line: what stands between spaces.
pub(crate) fn words(alloc: Global, line: &[u8]) -> Result<Vec<Word<'_>>, OutOfMemory>
    ensures words { IfOk result (λ found. map seen found.items ≡ words line.now) }
    ensures fit { IfOk result (λ found. AllFit found.items) }
{
    let mut found = Vec::new(alloc);
    let mut rest = line;
    let mut column = 1;
    'rest: while !rest.is_empty() {
        let length = word_length(rest);
        if length == 0 {
            rest = &rest[1..];
            column += 1;
        } else {
            let (word, behind) = rest.split_at(length);
            found.push(Word {
                column,
                bytes: word,
            })?;
            rest = behind;
            column += length;
        }
    }
    Ok(found)
}

/// The column of the first byte that is not printable.
pub(crate) fn bad_byte(line: &[u8]) -> Option<usize>
    ensures { result ≡ bad_byte line.now }
{
    'bytes: for (at, byte) in line.iter().enumerate() {
        if *byte < 0x20 || 0x7e < *byte {
            return Some(at + 1);
        }
    }
    None
}

/// The line has no words, or is a comment.
pub(crate) fn is_skipped(words: &[Word<'_>]) -> bool
    ensures { result ≡ is_skipped (map seen words.now) }
{
    match words.first() {
        None => true,
        Some(word) => word.bytes.first() == Some(&b'#'),
    }
}
