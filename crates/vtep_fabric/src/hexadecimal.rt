//! Bytes as hexadecimal text.

ghost use Rattle.std.specs.Prelude.{◌≡◌, ◌++◌, OnOk};
ghost use Rattle.hex.specs.Hex.{encode_lower};
ghost use Rattle.fabric_world.specs.Outputs.{hex_word};

use hex::encode_to_slice;
use std::alloc::Global;
use std::mem;
use vtep_base::{Bytes, OutOfMemory};

/// Appends bytes as digits, two for each, which are written where they stay.
pub(crate) fn append_hex(alloc: Global, bytes: &[u8], out: &mut Bytes) -> Result<(), OutOfMemory>
    ensures { OnOk result (out.new ≡ out.old ++ encode_lower bytes.now) }
{
    let mut text = mem::replace(out, Bytes::new(alloc)).into_vec();
    let start = text.len();
    // The bytes twice are the room of their digits: two copies cost less than as many zeros, one by one.
    text.extend_from_slice(bytes)?;
    text.extend_from_slice(bytes)?;
    let (_, digits) = text.as_mut_slice().split_at_mut(start);
    match encode_to_slice(bytes, digits) {
        Ok(()) => {}
        Err(_) => unreachable!(),
    }
    *out = Bytes::from_vec(text);
    Ok(())
}

/// Appends bytes as a hexadecimal word; no bytes are `-`.
#[tactic(auto, using(crate::proofs::HexText::some_digits, crate::proofs::HexText::no_digits))]
pub fn append_word(alloc: Global, bytes: &[u8], out: &mut Bytes) -> Result<(), OutOfMemory>
    ensures { OnOk result (out.new ≡ out.old ++ hex_word bytes.now) }
{
    if bytes.is_empty() {
        out.append(b"-")?;
    } else {
        append_hex(alloc, bytes, out)?;
    }
    Ok(())
}
