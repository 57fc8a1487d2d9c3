//! Scripts: their lines, what the fabric does with them, and the top call.
#![tactic(auto)]

mod fields;
mod lines;
mod packets;
mod reader;
mod replay;
mod script;
mod words;

pub use crate::replay::run;
