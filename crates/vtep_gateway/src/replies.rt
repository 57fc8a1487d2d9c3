//! What a gateway answers to messages.

ghost use Rattle.std.specs.Prelude.{◌≡◌, ◌∷◌, ◌++◌, [], false, IfOk, OnOk, string_bytes};
ghost use Rattle.vtep_base.specs.Refusals.{word_text};
ghost use Rattle.serde_json.specs.View.{view};
ghost use Rattle.serde_json.specs.Written.{has_float};
ghost use Rattle.rpc_framing.specs.Said.{said};
ghost use Rattle.rpc_framing.specs.Written.{message_json};
ghost use Rattle.rpc_framing.specs.Pieces.{come};
ghost use Rattle.vtep_gateway.specs.Methods.{seen};
ghost use Rattle.vtep_gateway.specs.Good.{IsGood};
ghost use Rattle.vtep_gateway.specs.Ready.{fib_of};
ghost use Rattle.vtep_gateway.specs.Sessions.{response, outgoing, take, take_all};

use crate::Outgoing;
use crate::methods::{Called, method_of};
use crate::vtep::Vtep;
use forward_program::Fib;
use rpc_framing::{Framer, Framing, Message, NextFault, print};
use serde_json::Value;
use std::alloc::Global;
use vtep_base::{Bytes, Ledger, List, OutOfMemory, Steps, Word};

/// The text of a word of refusal.
fn text_of(alloc: Global, word: Word) -> Result<String, OutOfMemory>
    ensures { IfOk result (λ t. string_bytes t ≡ word_text word) }
{
    Ok(String::from_str(alloc, word.text())?)
}

/// The response to a request: its result, or the word of refusal.
fn response(alloc: Global, outcome: Called, id: Value) -> Result<Message, OutOfMemory>
    requires plain { IfOk outcome (λ v. has_float (view v) ≡ false) }
    requires plain_id { has_float (view id) ≡ false }
    ensures value { IfOk result (λ m. said m ≡ response (seen outcome) (view id)) }
    ensures plain { IfOk result (λ m. has_float (message_json (said m)) ≡ false) }
{
    match outcome {
        Ok(result) => Ok(Message::Response {
            result,
            error: Value::Null,
            id,
        }),
        Err(word) => Ok(Message::Response {
            result: Value::Null,
            error: Value::String(text_of(alloc, word)?),
            id,
        }),
    }
}

/// A message for a session.
pub(crate) fn sent(alloc: Global, session: u32, message: &Message) -> Result<Outgoing, OutOfMemory>
    requires plain { has_float (message_json (said message.now)) ≡ false }
    ensures { IfOk result (λ o. o ≡ outgoing session (said message.now)) }
{
    let mut bytes = Bytes::new(alloc);
    print(alloc, message, &mut bytes)?;
    Ok(Outgoing { session, bytes })
}

/// The reply to a session's request.
fn reply(alloc: Global, session: u32, outcome: Called, id: Value) -> Result<Outgoing, OutOfMemory>
    requires plain { IfOk outcome (λ v. has_float (view v) ≡ false) }
    requires plain_id { has_float (view id) ≡ false }
    ensures { IfOk result (λ o. o ≡ outgoing session (response (seen outcome) (view id))) }
{
    let message = response(alloc, outcome, id)?;
    sent(alloc, session, &message)
}

impl Vtep {
    /// Answers a message of a session. The forwarding state follows.
    fn take<L: Ledger>(
        &mut self,
        session: u32,
        message: Message,
        fib: &mut Fib<L>,
        steps: &mut Steps<L>,
        sends: &mut List<Outgoing>,
    ) -> Result<(), OutOfMemory>
        requires good { IsGood self.old.rows self.old.learned }
        requires fib { fib.old ≡ fib_of self.old.rows self.old.learned }
        requires plain { has_float (message_json (said message)) ≡ false }
        ensures good { OnOk result (IsGood self.new.rows self.new.learned) }
        ensures fib { OnOk result (fib.new ≡ fib_of self.new.rows self.new.learned) }
        ensures left { OnOk result (self.new ≡ (take self.old session (said message)).vtep) }
        ensures sends { OnOk result (sends.new ≡ sends.old
            ++ (take self.old session (said message)).sends) }
    {
        let Message::Request { method, params, id } = message else {
            return Ok(());
        };
        let method = method_of(method.as_str());
        let outcome = self.called(session, method, params, fib, steps, sends)?;
        sends.push(reply(self.alloc, session, outcome, id)?)
    }

    /// Answers the messages that come of a session's stream, in order, and gives the stream's refusal. The forwarding state
    /// follows each of them before the next is answered.
    pub(crate) fn take_all<L: Ledger>(
        &mut self,
        session: u32,
        framer: &mut Framer,
        fib: &mut Fib<L>,
        steps: &mut Steps<L>,
        sends: &mut List<Outgoing>,
    ) -> Result<Option<Framing>, OutOfMemory>
        requires good { IsGood self.old.rows self.old.learned }
        requires fib { fib.old ≡ fib_of self.old.rows self.old.learned }
        ensures good { OnOk result (IsGood self.new.rows self.new.learned) }
        ensures fib { OnOk result (fib.new ≡ fib_of self.new.rows self.new.learned) }
        ensures left { IfOk result (λ _. self.new
            ≡ (take_all self.old session (come framer.old).messages).vtep) }
        ensures sends { IfOk result (λ _. sends.new ≡ sends.old
            ++ (take_all self.old session (come framer.old).messages).sends) }
        ensures end { IfOk result (λ _. framer.new ≡ (come framer.old).end) }
        ensures failed { IfOk result (λ failed. failed ≡ framer.new.refused) }
    {
        'messages: loop {
            match framer.next() {
                Ok(Some(message)) => self.take(session, message, fib, steps, sends)?,
                Ok(None) => return Ok(None),
                Err(NextFault::Refused(framing)) => return Ok(Some(framing)),
                Err(NextFault::OutOfMemory) => return Err(OutOfMemory),
            }
        }
    }
}
