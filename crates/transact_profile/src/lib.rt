//! Operations on rows: how they are read, what they do, and how their results are written (RFC 7047, section 5.2, in this
//! project's profile).
#![tactic(auto)]

mod columns;
mod effects;
mod faults;
mod found;
mod known;
mod members;
mod mutating;
mod names;
mod operations;
mod outcomes;
mod parts;
mod reader;
mod resolving;
mod results;
mod room;
mod running;
mod selecting;
mod transaction;
mod values;
mod waiting;

pub use operations::{Condition, Field, Function, Mutation, Mutator, Op, OpFault, Ops, Until};
pub use outcomes::{OpResult, Outcome};
pub use results::finish;
pub use running::{transact, transact_on};
pub use transaction::read_ops;
