//! Texts that are read a byte at a time.

ghost use Rattle.std.specs.Prelude.{◌≡◌, ℕ, Option, MatchResult, Ok, Err};
ghost use Rattle.vtep_base.specs.Reading.{read_on};

/// Bytes are no text of the wanted form.
#[derive(Clone, Copy, Debug, PartialEq, Eq)]
pub struct TextFault {
    /// The length of the longest front that begins some text of the form.
    pub offset: usize,
}

/// What has been read of a text so far.
pub(crate) trait Front: Copy {
    type Value: Drop;

    ghost step: { Self → ℕ → Option Self };

    ghost done: { Self → Option Self.Value };

    /// The front with one more byte, where some text begins so.
    fn step(self, byte: u8) -> Option<Self>
        ensures { result ≡ step self byte };

    /// What the front means, where it is a whole text.
    fn done(self) -> Option<Self::Value>
        ensures { result ≡ done self };
}

/// Reads a text behind a front.
pub(crate) fn read<F: Front>(front: F, text: &[u8]) -> Result<F::Value, TextFault>
    ensures { MatchResult result (λ v. read_on F.step F.done 0 front text.now ≡ Ok v)
        (λ f. read_on F.step F.done 0 front text.now ≡ Err f.offset) }
{
    let mut front = front;
    'bytes: for (offset, byte) in text.iter().enumerate() {
        let Some(next) = front.step(*byte) else {
            return Err(TextFault { offset });
        };
        front = next;
    }
    match front.done() {
        Some(value) => Ok(value),
        None => Err(TextFault { offset: text.len() }),
    }
}
