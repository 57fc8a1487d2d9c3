//! One gateway, as the events that come to it: its tunnel end point, and the sessions that speak with it.
#![tactic(auto)]

mod answer;
mod commit;
mod frames;
mod gateway;
mod laws;
mod learning;
mod lines;
mod methods;
mod monitoring;
mod monitors;
mod open_monitors;
mod ports;
mod replies;
mod running;
mod show;
mod streams;
mod vtep;

pub use answer::Answer;
use ether_frames::FrameFault;
pub use gateway::Gateway;
pub use laws::{
    events_keep_good, failed_changes_nothing, names_are_values, new_is_good,
    other_commits_are_kept, refused_changes_nothing, sessions_leave_the_rest,
    unfinished_changes_nothing, updates_are_notifications,
};
pub use show::each_fact_has_a_line;
use vtep_base::{Bytes, Name};
use vxlan_frames::PacketFault;

/// What comes to a gateway. Sessions have numbers; 0 is the controller's.
#[derive(Debug, Drop)]
pub enum Event {
    /// A piece of the bytes of a session, which may end anywhere in a message. The first one opens the session.
    Bytes { session: u32, piece: Bytes },
    /// A session ends, and its monitors with it.
    Hangup { session: u32 },
    /// A port of this name is added: a row of Physical_Port, which the row of Physical_Switch names.
    Port { name: Name },
    /// The port of this name is taken away.
    Unport { name: Name },
    /// A frame enters at the port of this name.
    Frame { port: Name, bytes: Bytes },
    /// A packet comes from the underlay.
    Underlay { bytes: Bytes },
    /// The clock goes on by so many seconds.
    Age { seconds: u32 },
}

/// A message that goes to a session.
#[derive(Debug, Drop)]
pub struct Outgoing {
    /// The number of the session that it goes to; 0 is the controller's.
    pub session: u32,
    /// The message as one compact JSON text, in UTF-8 (RFC 7047, section 4; RFC 8259).
    pub bytes: Bytes,
}

/// Why a frame or a packet goes nowhere.
#[derive(Clone, Copy, Debug, PartialEq, Eq)]
pub enum Reason {
    /// The bytes are no frame.
    Frame(FrameFault),
    /// The bytes are no packet.
    Packet(PacketFault),
    /// The frame's VLAN is bound to no switch at its port.
    Unbound,
    /// An ACL of the binding denies the frame.
    Denied,
    /// The packet's destination is not the gateway's tunnel address.
    Address,
    /// No bound switch has the packet's network.
    Vni,
}

/// Why an event changes nothing.
#[derive(Clone, Copy, Debug, PartialEq, Eq, Drop)]
pub enum EventRefused {
    /// The port is there.
    Repeated,
    /// As many ports as there may be are there, or no row number is left.
    Ports,
    /// The port is not there.
    NoPort,
    /// The session to hang up is not open.
    NoSession,
}
