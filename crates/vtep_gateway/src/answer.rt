//! What a gateway does with an event.

ghost use Rattle.std.specs.Prelude.{◌≡◌, Some};
ghost use Rattle.vtep_gateway.specs.Gateway.{nothing};
ghost use Rattle.vtep_gateway.specs.Frames.{dropped};

use crate::{EventRefused, Outgoing, Reason};
use forward_program::Sent;
use rpc_framing::Framing;
use std::alloc::Global;
use std::marker::Model;
use vtep_base::{Ledger, List};

/// What a gateway does with an event.
#[derive(Drop)]
pub struct Answer<L: Ledger> {
    /// The messages that go out, in order. The updates that a request makes stand before its reply.
    pub sends: List<Outgoing>,
    /// The refusal of the stream that the piece came to: its place, counted in bytes from the session's first one, and why. Each
    /// later piece of the session has the same one.
    pub failed: Option<Framing>,
    /// Whether the source of a frame is a new address that could not be learnt: 2,048 are, or no row number is left.
    pub full: bool,
    /// The frames that leave ports, by port name and VLAN, and the packets that go to the underlay, by ascending address.
    pub sent: Sent<L>,
    /// Why the frame or the packet goes nowhere.
    pub dropped: Option<Reason>,
    /// Why the event changes nothing, where it is refused. Pieces and packets never are.
    pub refused: Option<EventRefused>,
}

impl<L: Ledger> Model for Answer<L> {
    ghost use Rattle.vtep_gateway.specs.Gateway as gateway;
    ghost use Rattle.vtep_gateway.specs.Gateway.{answer_code};

    ghost Value = { gateway.Answer };

    ghost coded = { answer_code };

    ghost view = { λ a. record {
      sends = a.sends;
      failed = a.failed;
      full = a.full;
      sent = a.sent;
      dropped = a.dropped;
      refused = a.refused;
    } };
}

impl<L: Ledger> Answer<L> {
    /// Nothing goes out.
    pub(crate) fn nothing(alloc: Global) -> Answer<L>
        ensures { result ≡ nothing }
    {
        Answer {
            sends: List::new(alloc),
            failed: None,
            full: false,
            sent: Sent::new(alloc),
            dropped: None,
            refused: None,
        }
    }

    /// A piece is answered, or the monitors are told.
    pub(crate) fn said(alloc: Global, sends: List<Outgoing>, failed: Option<Framing>) -> Answer<L>
        ensures { result ≡ record nothing { sends = sends; failed = failed } }
    {
        let mut answer = Answer::nothing(alloc);
        answer.sends = sends;
        answer.failed = failed;
        answer
    }

    /// A frame goes its way.
    pub(crate) fn sent(alloc: Global, sent: Sent<L>) -> Answer<L>
        ensures { result ≡ record nothing { sent = sent } }
    {
        let mut answer = Answer::nothing(alloc);
        answer.sent = sent;
        answer
    }

    /// A frame or a packet goes nowhere.
    pub(crate) fn dropped(alloc: Global, why: Reason) -> Answer<L>
        ensures { result ≡ dropped why }
    {
        let mut answer = Answer::nothing(alloc);
        answer.dropped = Some(why);
        answer
    }

    /// The event is refused.
    pub(crate) fn refused(alloc: Global, why: EventRefused) -> Answer<L>
        ensures { result ≡ record nothing { refused = Some why } }
    {
        let mut answer = Answer::nothing(alloc);
        answer.refused = Some(why);
        answer
    }
}
