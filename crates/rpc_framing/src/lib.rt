//! Messages in a stream that comes in any pieces (RFC 7047, section 4).
#![tactic(auto)]

mod framer;
mod printing;
mod reading;
mod scan;

pub use framer::{
    Framer, cuts_do_not_matter, one_division, stays_refused, what_is_told_comes, what_stands_comes,
};
pub use printing::print;
use serde_json::Value;
use vtep_base::Txt;

/// Why a stream is refused.
#[derive(Clone, Copy, Debug, PartialEq, Eq, Drop)]
pub enum FramingKind {
    /// Another byte than white space stands between messages. The offset is that byte's.
    NotObject,
    /// A bracket makes the depth 65. The offset is that bracket's.
    TooDeep,
    /// A message goes past the limit. The offset is that of its `{` plus the limit.
    TooLong,
    /// The text of a message is no JSON (RFC 8259). The offset is that of its `{`.
    BadJson,
    /// A text is neither request, notification nor response, or has a number that is no whole one of 64 bits.
    /// The offset is that of its `{`.
    BadMessage,
}

/// Where a stream is refused, and why.
#[derive(Clone, Copy, Debug, PartialEq, Eq, Drop)]
pub struct Framing {
    /// The byte at fault, counted from the stream's first byte.
    pub offset: u64,
    /// The fault.
    pub kind: FramingKind,
}

/// Why there is no next message.
#[derive(Clone, Copy, Debug, PartialEq, Eq, Drop)]
pub enum NextFault {
    /// The message is still there, so the call may be made again.
    OutOfMemory,
    /// The stream is refused. Each later call says the same.
    Refused(Framing),
}

/// A message (JSON-RPC 1.0, as RFC 7047, section 4, uses it).
#[derive(Drop)]
pub enum Message {
    /// It has a text `method`, an array `params`, and an `id` that is not null.
    Request {
        method: Txt,
        params: Value,
        id: Value,
    },
    /// It has a text `method`, an array `params`, and a null `id`.
    Notification {
        method: Txt,
        params: Value,
    },
    /// It has `result`, `error` and `id`, and no `method`.
    Response {
        result: Value,
        error: Value,
        id: Value,
    },
}
