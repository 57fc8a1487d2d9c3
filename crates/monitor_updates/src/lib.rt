//! Monitors, which tell sessions how rows change, and mirrors, which follow what they tell (RFC 7047, sections 4.1.5 and 4.1.6).
#![tactic(auto)]

mod laws;
mod mirror;
mod monitor;
mod opening;
mod requests;
mod row_updates;
mod updates;

pub use laws::{mirrors_follow, updates_lead_on};
pub use mirror::{Mirror, MirrorFault};
pub use monitor::Monitor;
pub use requests::{MonitorFault, MonitorRequest};
