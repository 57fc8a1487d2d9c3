//! Lists of which the length is known before.

ghost use Rattle.std.specs.Prelude.{◌≡◌, [], IfOk};

use std::alloc::Global;
use vtep_base::{List, OutOfMemory};

/// An empty list with room for so many items.
pub(crate) fn list_of<T: Drop>(alloc: Global, count: usize) -> Result<List<T>, OutOfMemory>
    ensures { IfOk result (λ list. list ≡ []) }
{
    Ok(List::from_vec(Vec::with_capacity(alloc, count)?))
}
