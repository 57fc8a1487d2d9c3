//! Strings of bytes with room for more.

ghost use Rattle.std.specs.Prelude.{◌≡◌, ◌≤◌, ◌+◌, ◌++◌, length, vec_len, vec_capacity, IfOk};

use crate::answers::OutOfMemory;
use crate::lists::Bytes;
use std::marker::Model;

/// A string of bytes, and room for more bytes behind them. Contracts see the bytes and the number of bytes for which there
/// is room.
#[derive(Debug, Drop)]
pub struct RoomyBytes {
    bytes: Vec<u8>,
}

impl Model for RoomyBytes {
    ghost use Rattle.std.specs.Prelude.{List as Items, ℕ, ◌-◌, vec_len, vec_capacity};

    ghost Value = { Items ℕ × ℕ };

    ghost view = { λ b. (b.bytes.items, vec_capacity b.bytes - vec_len b.bytes) };
}

impl RoomyBytes {
    /// These bytes, with room for at least so many more.
    pub fn new(bytes: Bytes, room: usize) -> Result<RoomyBytes, OutOfMemory>
        ensures bytes { IfOk result (λ made. made.0 ≡ bytes) }
        ensures room { IfOk result (λ made. room ≤ made.1) }
    {
        let mut bytes = bytes.into_vec();
        bytes.reserve(room)?;
        Ok(RoomyBytes { bytes })
    }

    /// Adds bytes at the end, for which there is room. Takes no memory.
    pub fn append(&mut self, bytes: &[u8])
        requires { length bytes.now ≤ self.old.1 }
        ensures bytes { self.new.0 ≡ self.old.0 ++ bytes.now }
        ensures room { self.old.1 ≤ (self.new.1 + length bytes.now) }
    {
        append_within(&mut self.bytes, bytes);
    }

    /// The bytes. Takes no memory.
    pub fn into_bytes(self) -> Bytes
        ensures { result ≡ self.0 }
    {
        Bytes::from_vec(self.bytes)
    }
}

/// Adds bytes at the end, for which there is room.
fn append_within(to: &mut Vec<u8>, bytes: &[u8])
    requires { (vec_len to.old + length bytes.now) ≤ vec_capacity to.old }
    ensures items { to.new.items ≡ to.old.items ++ bytes.now }
    ensures len { vec_len to.new ≡ vec_len to.old + length bytes.now }
    ensures capacity { vec_capacity to.old ≤ vec_capacity to.new }
{
    let appended = to.extend_from_slice(bytes);
    let Ok(()) = appended else {
        return;
    };
}
