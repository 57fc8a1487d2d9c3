//! The Local tables of a gateway (vtep(5), Ucast_Macs_Local and Mcast_Macs_Local), which follow
//! what it has learnt and the switches that are bound at its ports.
#![tactic(auto)]

mod adding;
mod bindings;
mod changing;
mod floods;
mod keys;
mod laws;
mod learning;
mod leaving;
mod removing;
mod rows;

pub use changing::follow;
pub use laws::{
    ageing_commits, ageing_keeps_local, binding_no_more_commits, commits_keep_local,
    fewer_rows_stay_sound, followed_follows, learning_commits, learning_keeps_local,
    moving_changes_no_row, no_row_names_local_rows,
};
pub use learning::{add_address, forget};
