//! Lists, byte strings and texts that contracts see as lists.

ghost use Rattle.std.specs.List.{flat_map};
ghost use Rattle.std.specs.Prelude.{◌≡◌, ◌==◌, [], ◌∷◌, ◌++◌, length, take, string_bytes, IfOk, OnOk, OnErr};

use crate::answers::OutOfMemory;
use std::alloc::{AllocError, Global};
use std::marker::Model;

/// A list that contracts see as one.
#[derive(Debug, Drop)]
pub struct List<T: Drop> {
    items: Vec<T>,
}

impl<T: Drop> Model for List<T> {
    ghost use Rattle.std.specs.Prelude.{List as Items};

    ghost Value = { Items T };

    ghost view = { λ l. l.items.items };
}

impl<T: Drop> List<T> {
    /// The empty list.
    pub fn new(alloc: Global) -> List<T>
        ensures { result ≡ [] }
    {
        List {
            items: Vec::new(alloc),
        }
    }

    /// The items of a vector. Takes no memory.
    pub fn from_vec(items: Vec<T>) -> List<T>
        ensures { result ≡ items.items }
    {
        List { items }
    }

    /// The items as a vector. Takes no memory.
    pub fn into_vec(self) -> Vec<T>
        ensures { result.items ≡ self }
    {
        self.items
    }

    /// The items in their order. Takes no memory, as the calls of reading below.
    pub fn as_slice(&self) -> &[T]
        ensures { result.now ≡ self.now }
    {
        self.items.as_slice()
    }

    /// How many items there are.
    pub fn len(&self) -> usize
        ensures { result ≡ length self.now }
    {
        self.items.len()
    }

    /// Whether there is no item.
    pub fn is_empty(&self) -> bool
        ensures { result ≡ (length self.now == 0) }
    {
        self.items.is_empty()
    }

    /// Adds an item at the end.
    pub fn push(&mut self, item: T) -> Result<(), OutOfMemory>
        ensures ok { OnOk result (self.new ≡ self.old ++ item ∷ []) }
        ensures err { OnErr result (self.new ≡ self.old) }
    {
        self.items.push(item)?;
        Ok(())
    }
}

/// A string of bytes.
#[derive(Debug, Drop)]
pub struct Bytes {
    bytes: Vec<u8>,
}

impl Model for Bytes {
    ghost use Rattle.std.specs.Prelude.{List as Items, ℕ};

    ghost Value = { Items ℕ };

    ghost view = { λ b. b.bytes.items };
}

impl Bytes {
    /// No bytes.
    pub fn new(alloc: Global) -> Bytes
        ensures { result ≡ [] }
    {
        Bytes {
            bytes: Vec::new(alloc),
        }
    }

    /// The bytes of a vector. Takes no memory.
    pub fn from_vec(bytes: Vec<u8>) -> Bytes
        ensures { result ≡ bytes.items }
    {
        Bytes { bytes }
    }

    /// A copy of these bytes.
    pub fn from_slice(alloc: Global, bytes: &[u8]) -> Result<Bytes, OutOfMemory>
        ensures { IfOk result (λ copy. copy ≡ bytes.now) }
    {
        Ok(Bytes {
            bytes: Vec::from_slice(alloc, bytes)?,
        })
    }

    /// The bytes as a vector. Takes no memory.
    pub fn into_vec(self) -> Vec<u8>
        ensures { result.items ≡ self }
    {
        self.bytes
    }

    /// The bytes in their order. Takes no memory, as the calls of reading below.
    pub fn as_slice(&self) -> &[u8]
        ensures { result.now ≡ self.now }
    {
        self.bytes.as_slice()
    }

    /// How many bytes there are.
    pub fn len(&self) -> usize
        ensures { result ≡ length self.now }
    {
        self.bytes.len()
    }

    /// Whether there is no byte.
    pub fn is_empty(&self) -> bool
        ensures { result ≡ (length self.now == 0) }
    {
        self.bytes.is_empty()
    }

    /// Adds a byte at the end.
    pub fn push(&mut self, byte: u8) -> Result<(), OutOfMemory>
        ensures ok { OnOk result (self.new ≡ self.old ++ byte ∷ []) }
        ensures err { OnErr result (self.new ≡ self.old) }
    {
        self.bytes.push(byte)?;
        Ok(())
    }

    /// Adds bytes at the end, all of them or none.
    pub fn append(&mut self, bytes: &[u8]) -> Result<(), OutOfMemory>
        ensures ok { OnOk result (self.new ≡ self.old ++ bytes.now) }
        ensures err { OnErr result (self.new ≡ self.old) }
    {
        self.bytes.extend_from_slice(bytes)?;
        Ok(())
    }

    /// Adds pieces at the end, all of them or none.
    pub fn append_all(&mut self, pieces: &[&[u8]]) -> Result<(), OutOfMemory>
        ensures ok { OnOk result (self.new ≡ self.old ++ flat_map (λ p. p.now) pieces.now) }
        ensures err { OnErr result (self.new ≡ self.old) }
    {
        let start = self.bytes.len();
        let appended = append_each(&mut self.bytes, pieces);
        let Ok(()) = appended else {
            self.bytes.truncate(start);
            return Err(OutOfMemory);
        };
        Ok(())
    }

    /// Takes all bytes out. The room stays.
    pub fn clear(&mut self)
        ensures { self.new ≡ [] }
    {
        self.bytes.clear();
    }
}

/// Adds pieces at the end. An `Err` may leave some of them there.
fn append_each(bytes: &mut Vec<u8>, pieces: &[&[u8]]) -> Result<(), AllocError>
    ensures ok { OnOk result (bytes.new.items ≡ bytes.old.items
        ++ flat_map (λ p. p.now) pieces.now) }
    ensures err { OnErr result (take (length bytes.old.items) bytes.new.items ≡ bytes.old.items) }
{
    'pieces: for piece in pieces {
        bytes.extend_from_slice(piece)?;
    }
    Ok(())
}

/// A text in UTF-8, seen as its bytes.
#[derive(Debug, Drop)]
pub struct Txt {
    text: String,
}

impl Model for Txt {
    ghost use Rattle.std.specs.Prelude.{List as Items, ℕ, string_bytes};

    ghost Value = { Items ℕ };

    ghost view = { λ t. string_bytes t.text };
}

impl Txt {
    /// A copy of this text.
    pub fn from_str(alloc: Global, text: &str) -> Result<Txt, OutOfMemory>
        ensures { IfOk result (λ copy. copy ≡ text.now) }
    {
        Ok(Txt {
            text: String::from_str(alloc, text)?,
        })
    }

    /// This text. Takes no memory.
    pub fn from_string(text: String) -> Txt
        ensures { result ≡ string_bytes text }
    {
        Txt { text }
    }

    /// The text as a string. Takes no memory.
    pub fn into_string(self) -> String
        ensures { string_bytes result ≡ self }
    {
        self.text
    }

    /// The text. Takes no memory.
    pub fn as_str(&self) -> &str
        ensures { result.now ≡ self.now }
    {
        self.text.as_str()
    }

    /// The text's bytes. Takes no memory.
    pub fn as_slice(&self) -> &[u8]
        ensures { result.now ≡ self.now }
    {
        self.text.as_bytes()
    }
}
