//! A gateway and its step.

ghost use Rattle.std.specs.Prelude.{◌≡◌, ◌++◌, true, false, is_some, IfOk, OnOk, OnErr};
ghost use Rattle.forward_program.specs.Joins.{facts_of};
ghost use Rattle.forward_program.specs.Shown.{shown};
ghost use Rattle.forward_program.specs.Readings.{own_ip};
ghost use Rattle.vtep_gateway.specs.Gateway.{new_gateway};
ghost use Rattle.vtep_gateway.specs.Ports.{port_named};
ghost use Rattle.vtep_gateway.specs.Learning.{most_learnt};
ghost use Rattle.vtep_gateway.specs.Good.{IsGood};
ghost use Rattle.vtep_gateway.specs.Ready.{fib_of};
ghost use Rattle.vtep_gateway.specs.Show.{show_text};
ghost use Rattle.vtep_gateway.specs.Moves.{step};

use crate::frames::own_address;
use crate::ports::has_port;
use crate::running::Running;
use crate::{Answer, Event};
use forward_program::Fib;
use mac_learning::Learned;
use std::alloc::Global;
use std::marker::Model;
use vtep_base::{Bytes, Ipv4, Ledger, Name, OutOfMemory, Steps};
use vtep_rows::Rows;

/// A gateway, whose forwarding state counts its writes under a ledger. Contracts see its state, and whether it is stopped.
#[derive(Drop)]
pub struct Gateway<L: Ledger> {
    running: Running<L>,
    stopped: bool,
}

impl<L: Ledger> Model for Gateway<L> {
    ghost use Rattle.std.specs.Prelude.{◌≡◌, false};
    ghost use Rattle.vtep_gateway.specs.Gateway.{Held, held_code};
    ghost use Rattle.vtep_gateway.specs.Ready.{IsReady};

    ghost Value = { Held };

    ghost coded = { held_code };

    ghost view = { λ g. record { state = g.running.state; stopped = g.stopped } };

    ghost invariant = { λ g. g.stopped ≡ false → IsReady g.running };
}

impl<L: Ledger> Gateway<L> {
    /// A gateway of this name, with this tunnel address. No session is open.
    pub fn new(alloc: Global, name: Name, ip: Ipv4) -> Result<Gateway<L>, OutOfMemory>
        ensures { IfOk result (λ g. g ≡ record { state = new_gateway name ip; stopped = false }) }
    {
        Ok(Gateway {
            running: Running::new(alloc, name, ip)?,
            stopped: false,
        })
    }

    /// Its name.
    pub fn name(&self) -> &Name
        ensures { result.now ≡ self.now.state.vtep.name }
    {
        self.running.name()
    }

    /// The tunnel address, which the row of Physical_Switch has.
    pub fn ip(&self) -> Ipv4
        ensures { result ≡ own_ip self.now.state.vtep.rows }
    {
        own_address(self.rows())
    }

    /// The rows of its database, as the last commit left them. Where it is not stopped they are sound and collected, there is
    /// one row of Physical_Switch, with one tunnel address, of which the rows of Physical_Port are the ports, and the Local tables are
    /// those of what is learnt and of the switches that are bound.
    pub fn rows(&self) -> &Rows
        ensures value { result.now ≡ self.now.state.vtep.rows }
        ensures good { self.now.stopped ≡ false → IsGood result.now self.now.state.vtep.learned }
    {
        self.running.rows()
    }

    /// The addresses that it has learnt, in the order of learning, of which 2,048 may be.
    pub fn learned(&self) -> &Learned
        ensures entries { result.now.entries ≡ self.now.state.vtep.learned }
        ensures limit { result.now.limit ≡ most_learnt }
    {
        self.running.learned()
    }

    /// The forwarding state. Where the gateway is not stopped, it is what its rows and learnt addresses have in it, so that its facts
    /// are those that are built from them.
    pub fn fib(&self) -> &Fib<L>
        ensures { self.now.stopped ≡ false
            → result.now ≡ fib_of self.now.state.vtep.rows self.now.state.vtep.learned }
    {
        self.running.fib()
    }

    /// Whether there is a port of this name. Takes no memory.
    pub fn has_port(&self, port: &Name) -> bool
        ensures { result ≡ is_some (port_named self.now.state.vtep.rows port.now) }
    {
        has_port(self.rows(), port)
    }

    /// A step found no memory. Nothing more is claimed of the gateway.
    pub fn stopped(&self) -> bool
        ensures { result ≡ self.now.stopped }
    {
        self.stopped
    }

    /// Appends what `show` tells: a line with the name and the tunnel address, and one for each fact of the forwarding state but
    /// those of ACLs. Networks come first, by number; then bindings by port and VLAN; addresses by the switch's name and the
    /// address; where other frames go, by the switch's name, those for no group first.
    pub fn show(&self, out: &mut Bytes) -> Result<(), OutOfMemory>
        requires going { self.now.stopped ≡ false }
        ensures ok { OnOk result (out.new ≡ out.old ++ show_text self.now.state.vtep.name
            self.now.state.vtep.rows (facts_of (shown self.now.state.vtep.rows self.now.state.vtep.learned))) }
        ensures err { OnErr result (out.new ≡ out.old) }
    {
        self.running.show(out)
    }

    /// Does what an event asks for, and gives what goes out.
    ///
    /// A piece of a session's bytes is never refused; where its stream is, `failed` says so, and the messages before keep their
    /// effect. `Hangup` is refused with `NoSession` where the session is not open, `Port` with `Repeated` where the port is there and
    /// with `Ports` where 64 are or no row number is left, `Unport` and `Frame` with `NoPort` where it is not there. What is refused
    /// changes nothing. A frame of a bound VLAN teaches its source, unless that is the address of a group; `full` says where a new one
    /// could not be learnt. `Age` forgets what was not seen for 300 seconds. The one error is want of memory, after which the gateway is stopped.
    pub fn step(&mut self, event: &Event, steps: &mut Steps<L>) -> Result<Answer<L>, OutOfMemory>
        requires going { self.old.stopped ≡ false }
        ensures ok { IfOk result (λ a. step self.old.state event.now
            ≡ record { gateway = self.new.state; answer = a }) }
        ensures going { OnOk result (self.new.stopped ≡ false) }
        ensures stopped { OnErr result (self.new.stopped ≡ true) }
    {
        let answer = self.running.answer(event, steps);
        self.stopped = answer.is_err();
        answer
    }
}
