//! What a gateway does with events, while it is not stopped.

ghost use Rattle.std.specs.Prelude.{◌≡◌, ◌++◌, IfOk, OnOk, OnErr};
ghost use Rattle.forward_program.specs.Joins.{facts_of};
ghost use Rattle.forward_program.specs.Shown.{shown};
ghost use Rattle.forward_program.specs.Hop.{admission};
ghost use Rattle.vtep_gateway.specs.Gateway.{new_gateway, nothing};
ghost use Rattle.vtep_gateway.specs.Sessions.{on_bytes};
ghost use Rattle.vtep_gateway.specs.Ready.{IsReady};
ghost use Rattle.vxlan_frames.specs.Packets.{IsInner};
ghost use Rattle.vtep_gateway.specs.Learning.{most_learnt, aged};
ghost use Rattle.vtep_gateway.specs.Frames.{ways, entered, on_frame, on_underlay};
ghost use Rattle.vtep_gateway.specs.Show.{show_text};
ghost use Rattle.vtep_gateway.specs.Moves.{on_hangup, settled, on_port, on_unport, step};

use crate::frames::{forward, take_packet};
use crate::learning::MOST_LEARNT;
use crate::monitors::Monitors;
use crate::ports::{PortFault, port_named};
use crate::show::show;
use crate::streams::Streams;
use crate::vtep::Vtep;
use crate::{Answer, Event, EventRefused, Reason};
use forward_program::{Admission, Fib, Hops, Origin};
use mac_learning::Learned;
use std::alloc::Global;
use std::marker::Model;
use vtep_base::{Bytes, Inner, Ipv4, Ledger, List, Name, OutOfMemory, Steps, Vlan};
use vtep_rows::{Database, Rows};

/// The state of a gateway. After an `Err` nothing is claimed of it.
#[derive(Drop)]
pub(crate) struct Running<L: Ledger> {
    alloc: Global,
    vtep: Vtep,
    streams: Streams,
    fib: Fib<L>,
    /// Where the last frame went; it keeps its room for the next.
    hops: Hops<L>,
}

impl<L: Ledger> Model for Running<L> {
    ghost use Rattle.vtep_gateway.specs.Gateway as gateway;
    ghost use Rattle.vtep_gateway.specs.Gateway.{running_code};

    ghost Value = { gateway.Running };

    ghost coded = { running_code };

    ghost view = { λ g. record {
      state = record { vtep = g.vtep; streams = g.streams };
      fib = g.fib;
    } };
}

impl<L: Ledger> Running<L> {
    pub(crate) fn new(alloc: Global, name: Name, ip: Ipv4) -> Result<Running<L>, OutOfMemory>
        ensures value { IfOk result (λ g. g.state ≡ new_gateway name ip) }
        ensures ready { IfOk result IsReady }
    {
        // They say that the name is one and that the address has 32 bits.
        let _ = name.as_slice().len();
        let _ = ip.bits();
        let database = Database::new(alloc, Rows::new(alloc, &name, ip)?);
        Ok(Running {
            alloc,
            vtep: Vtep {
                alloc,
                name,
                database,
                learned: Learned::new(alloc, MOST_LEARNT),
                clock: 0,
                monitors: Monitors::new(alloc),
            },
            streams: Streams::new(alloc),
            fib: Fib::new(alloc),
            hops: Hops::new(alloc),
        })
    }

    pub(crate) fn name(&self) -> &Name
        ensures { result.now ≡ self.now.state.vtep.name }
    {
        &self.vtep.name
    }

    pub(crate) fn rows(&self) -> &Rows
        ensures { result.now ≡ self.now.state.vtep.rows }
    {
        self.vtep.rows()
    }

    pub(crate) fn learned(&self) -> &Learned
        ensures entries { result.now.entries ≡ self.now.state.vtep.learned }
        ensures limit { result.now.limit ≡ most_learnt }
    {
        &self.vtep.learned
    }

    pub(crate) fn fib(&self) -> &Fib<L>
        ensures { result.now ≡ self.now.fib }
    {
        &self.fib
    }

    /// Appends what `show` tells.
    pub(crate) fn show(&self, out: &mut Bytes) -> Result<(), OutOfMemory>
        requires { IsReady self.now }
        ensures ok { OnOk result (out.new ≡ out.old ++ show_text self.now.state.vtep.name
            self.now.state.vtep.rows (facts_of (shown self.now.state.vtep.rows self.now.state.vtep.learned))) }
        ensures err { OnErr result (out.new ≡ out.old) }
    {
        let mut text = Bytes::new(self.alloc);
        self.write_facts(&mut text)?;
        out.append(text.as_slice())
    }

    fn write_facts(&self, out: &mut Bytes) -> Result<(), OutOfMemory>
        requires { IsReady self.now }
        ensures { OnOk result (out.new ≡ out.old ++ show_text self.now.state.vtep.name
            self.now.state.vtep.rows (facts_of (shown self.now.state.vtep.rows self.now.state.vtep.learned))) }
    {
        show(self.alloc, self.name(), self.rows(), self.fib(), out)
    }

    fn on_bytes(
        &mut self,
        session: u32,
        piece: &Bytes,
        steps: &mut Steps<L>,
    ) -> Result<Answer<L>, OutOfMemory>
        requires { IsReady self.old }
        ensures ok { IfOk result (λ a. on_bytes self.old.state session piece.now
            ≡ record { gateway = self.new.state; answer = a }) }
        ensures ready { OnOk result (IsReady self.new) }
    {
        let mut framer = self.streams.take(session);
        framer.feed(piece.as_slice())?;
        let mut sends = List::new(self.alloc);
        let failed = self
            .vtep
            .take_all(session, &mut framer, &mut self.fib, steps, &mut sends)?;
        self.streams.put(session, framer)?;
        Ok(Answer::said(self.alloc, sends, failed))
    }

    fn on_hangup(&mut self, session: u32) -> Answer<L>
        requires { IsReady self.old }
        ensures ok { on_hangup self.old.state session
            ≡ record { gateway = self.new.state; answer = result } }
        ensures ready { IsReady self.new }
    {
        if !self.streams.close(session) {
            return Answer::refused(self.alloc, EventRefused::NoSession);
        }
        self.vtep.close_monitors(session);
        Answer::nothing(self.alloc)
    }

    fn on_port(&mut self, name: &Name, steps: &mut Steps<L>) -> Result<Answer<L>, OutOfMemory>
        requires { IsReady self.old }
        ensures ok { IfOk result (λ a. on_port self.old.state name.now
            ≡ record { gateway = self.new.state; answer = a }) }
        ensures ready { OnOk result (IsReady self.new) }
    {
        match self.vtep.add_port(name, &mut self.fib, steps) {
            Ok(sends) => Ok(Answer::said(self.alloc, sends, None)),
            Err(PortFault::Refused(why)) => Ok(Answer::refused(self.alloc, why)),
            Err(PortFault::OutOfMemory) => Err(OutOfMemory),
        }
    }

    fn on_unport(&mut self, name: &Name, steps: &mut Steps<L>) -> Result<Answer<L>, OutOfMemory>
        requires { IsReady self.old }
        ensures ok { IfOk result (λ a. on_unport self.old.state name.now
            ≡ record { gateway = self.new.state; answer = a }) }
        ensures ready { OnOk result (IsReady self.new) }
    {
        match self.vtep.remove_port(name, &mut self.fib, steps) {
            Ok(sends) => Ok(Answer::said(self.alloc, sends, None)),
            Err(PortFault::Refused(why)) => Ok(Answer::refused(self.alloc, why)),
            Err(PortFault::OutOfMemory) => Err(OutOfMemory),
        }
    }

    /// A frame of a VLAN enters at a port that is there.
    fn enter(
        &mut self,
        port: &Name,
        vlan: Vlan,
        inner: &Inner<'_>,
        steps: &mut Steps<L>,
    ) -> Result<Answer<L>, OutOfMemory>
        requires ready { IsReady self.old }
        requires frame { IsInner inner.now }
        ensures ok { IfOk result (λ a. entered self.old.state port.now vlan inner.now
            (admission (ways self.old.state.vtep) (port.now, vlan) inner.now)
            ≡ record { gateway = self.new.state; answer = a }) }
        ensures ready { OnOk result (IsReady self.new) }
    {
        let switch = match self.fib.admit(*port, vlan, inner) {
            Admission::To(switch) => switch,
            Admission::Unbound => return Ok(Answer::dropped(self.alloc, Reason::Unbound)),
            Admission::Denied => return Ok(Answer::dropped(self.alloc, Reason::Denied)),
        };
        let mut sends = List::new(self.alloc);
        let full = self.vtep.learn(switch, port, vlan, inner, &mut self.fib, steps, &mut sends)?;
        let origin = Origin::Port { port: *port, vlan };
        let mut answer = forward(&self.vtep, &self.fib, &mut self.hops, origin, inner)?;
        answer.sends = sends;
        answer.full = full;
        Ok(answer)
    }

    fn on_frame(
        &mut self,
        port: &Name,
        bytes: &Bytes,
        steps: &mut Steps<L>,
    ) -> Result<Answer<L>, OutOfMemory>
        requires { IsReady self.old }
        ensures ok { IfOk result (λ a. on_frame self.old.state port.now bytes.now
            ≡ record { gateway = self.new.state; answer = a }) }
        ensures ready { OnOk result (IsReady self.new) }
    {
        if port_named(self.alloc, self.vtep.rows(), port)?.is_none() {
            return Ok(Answer::refused(self.alloc, EventRefused::NoPort));
        }
        match ether_frames::read(bytes.as_slice()) {
            Ok(frame) => self.enter(port, frame.vlan, &frame.inner, steps),
            Err(fault) => Ok(Answer::dropped(self.alloc, Reason::Frame(fault))),
        }
    }

    fn on_underlay(&mut self, bytes: &Bytes) -> Result<Answer<L>, OutOfMemory>
        requires { IsReady self.old }
        ensures ok { IfOk result (λ a. on_underlay self.old.state bytes.now
            ≡ record { gateway = self.new.state; answer = a }) }
        ensures ready { OnOk result (IsReady self.new) }
    {
        take_packet(&self.vtep, &self.fib, &mut self.hops, bytes)
    }

    fn on_age(&mut self, seconds: u32, steps: &mut Steps<L>) -> Result<Answer<L>, OutOfMemory>
        requires { IsReady self.old }
        ensures ok { IfOk result (λ a. settled self.old.state (aged self.old.state.vtep seconds)
            ≡ record { gateway = self.new.state; answer = a }) }
        ensures ready { OnOk result (IsReady self.new) }
    {
        let sends = self.vtep.age(seconds, &mut self.fib, steps)?;
        Ok(Answer::said(self.alloc, sends, None))
    }

    /// Does what an event asks for, and gives what goes out.
    pub(crate) fn answer(
        &mut self,
        event: &Event,
        steps: &mut Steps<L>,
    ) -> Result<Answer<L>, OutOfMemory>
        requires { IsReady self.old }
        ensures ok { IfOk result (λ a. step self.old.state event.now
            ≡ record { gateway = self.new.state; answer = a }) }
        ensures ready { OnOk result (IsReady self.new) }
    {
        match event {
            Event::Bytes { session, piece } => self.on_bytes(*session, piece, steps),
            Event::Hangup { session } => Ok(self.on_hangup(*session)),
            Event::Port { name } => self.on_port(name, steps),
            Event::Unport { name } => self.on_unport(name, steps),
            Event::Frame { port, bytes } => self.on_frame(port, bytes, steps),
            Event::Underlay { bytes } => self.on_underlay(bytes),
            Event::Age { seconds } => self.on_age(*seconds, steps),
        }
    }
}
