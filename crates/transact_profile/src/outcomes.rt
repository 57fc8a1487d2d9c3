//! What a transaction gives.

use serde_json::Value;
use vtep_base::{List, RowId, Word};

/// The result of an operation.
#[derive(Drop)]
pub enum OpResult {
    /// The row of an insertion.
    Inserted(RowId),
    /// The rows of a select, as they are written.
    Rows(Value),
    /// How many rows met the conditions of an update, a mutation or a deletion.
    Count(u64),
    /// A wait, a commit or a comment went by.
    Empty,
    /// The operation failed, or can't be read.
    Fault(Word),
    /// An operation before it failed, so it was not looked at.
    Null,
}

/// The results of the operations of a transaction, in their order.
#[derive(Drop)]
pub struct Outcome {
    /// One for each operation.
    pub results: List<OpResult>,
    /// An operation failed or can't be read.
    pub failed: bool,
}
