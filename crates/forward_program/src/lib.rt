//! The forwarding state of a gateway, made of its rows and learnt addresses, and where it sends
//! frames.
#![tactic(auto)]

mod acls;
mod facts;
mod fib;
mod follow;
mod held;
mod hop;
mod hops;
mod laws;
mod learnt;
mod looks;
mod readings;
mod sent;
mod spots;

pub use facts::{Fact, Place};
pub use fib::{Fib, build};
pub use held::{Few, Held, Lists};
pub use hop::source;
pub use hops::{Admission, Hops, Origin, Outcome};
pub use laws::facts_are_built;
pub use readings::{Remote, id_at_key, own_address, read_remote};
pub use sent::{Out, Sent};
pub use spots::{Part, Spot};
