//! Rules of access lists: the least matching entry decides.
#![tactic(auto)]

mod entry;
mod matching;
mod rules;

pub use entry::Entry;
pub use rules::{FewRules, Rules, ids_are_distinct, least_entry_decides};
