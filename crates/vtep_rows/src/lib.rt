//! The rows of a gateway: their values, references, unique keys and changes (RFC 7047, sections 3 and 4).
#![tactic(auto)]

mod collection;
mod database;
mod differences;
mod fields;
mod images;
mod indexed;
mod indexes;
mod keyed;
mod laws;
mod marks;
mod names;
mod naming;
mod row;
mod rows;
mod sizes;
mod soundness;
mod stamps;
mod store;
mod twins;
mod values;

pub use database::Database;
pub use differences::{Change, RowChange, changes};
pub use laws::{collected_is_largest, collected_is_only, unbroken_is_sound};
pub use naming::references;
pub use row::{Row, RowFault, default_value};
pub use rows::{Ids, Rows, RowsFault};
pub use soundness::{Breach, Rule};
pub use store::Store;
pub use values::{allowed, atom_allowed};
