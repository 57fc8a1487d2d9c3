//! The published schema.

use crate::faults::CaseFault;
use crate::lines::say;
use std::alloc::Global;
use vtep_base::Bytes;
use vtep_schema::get_schema;

/// Adds the text of the schema, whatever the lines are.
pub fn answer(alloc: Global, _asked: &[Bytes], answer: &mut Bytes) -> Result<(), CaseFault> {
    let schema = get_schema(alloc)?.to_string(alloc)?;
    Ok(say(answer, schema.as_str())?)
}
