//! A gateway of a fabric, with its tunnel address beside it.

ghost use Rattle.std.specs.Prelude.{◌≡◌, ◌++◌, false, IfOk, OnOk};
ghost use Rattle.forward_program.specs.Readings.{own_ip};
ghost use Rattle.vtep_gateway.specs.Gateway as states;
ghost use Rattle.vtep_gateway.specs.Gateway.{new_gateway};
ghost use Rattle.vtep_gateway.specs.Moves.{step};
ghost use Rattle.fabric_world.specs.World.{shown_at};

use std::alloc::Global;
use std::marker::Model;
use vtep_base::{Bytes, Ipv4, Name, OutOfMemory, Plain, Steps};
use vtep_gateway::{Answer, Event, Gateway};

/// A gateway. Its address stands beside it, so that a packet's gateway is found without reading rows.
#[derive(Drop)]
pub(crate) struct Site {
    gateway: Gateway<Plain>,
    ip: Ipv4,
}

impl Model for Site {
    ghost use Rattle.std.specs.Prelude.{◌≡◌};
    ghost use Rattle.forward_program.specs.Readings.{own_ip};
    ghost use Rattle.vtep_gateway.specs.Gateway.{Held, held_code};

    ghost Value = { Held };

    ghost coded = { held_code };

    ghost view = { λ s. s.gateway };

    ghost invariant = { λ s. s.ip ≡ own_ip s.gateway.state.vtep.rows };
}

/// Whether an event may change a gateway's rows.
fn may_change_rows(event: &Event) -> bool
    ensures { result ≡ false
        → (g : states.Gateway) → (step g event.now).gateway ≡ g }
{
    match event {
        Event::Underlay { .. } => false,
        _ => true,
    }
}

impl Site {
    /// A gateway of this name, with this tunnel address.
    pub(crate) fn new(alloc: Global, name: Name, ip: Ipv4) -> Result<Site, OutOfMemory>
        ensures { IfOk result (λ s. s ≡ record { state = new_gateway name ip; stopped = false }) }
    {
        let gateway = Gateway::new(alloc, name, ip)?;
        let ip = gateway.ip();
        Ok(Site { gateway, ip })
    }

    pub(crate) fn gateway(&self) -> &Gateway<Plain>
        ensures { result.now ≡ self.now }
    {
        &self.gateway
    }

    /// The tunnel address.
    pub(crate) fn ip(&self) -> Ipv4
        ensures { result ≡ own_ip self.now.state.vtep.rows }
    {
        self.ip
    }

    /// A step found no memory.
    pub(crate) fn stopped(&self) -> bool
        ensures { result ≡ self.now.stopped }
    {
        self.gateway.stopped()
    }

    /// Gives the gateway an event.
    pub(crate) fn step(
        &mut self,
        event: &Event,
        steps: &mut Steps<Plain>,
    ) -> Result<Answer<Plain>, OutOfMemory>
        requires going { self.old.stopped ≡ false }
        ensures { IfOk result (λ a. step self.old.state event.now
            ≡ record { gateway = self.new.state; answer = a }) }
    {
        let answer = self.gateway.step(event, steps);
        if answer.is_err() || may_change_rows(event) {
            self.ip = self.gateway.ip();
        }
        answer
    }

    /// Appends what the gateway shows.
    pub(crate) fn show(&self, text: &mut Bytes) -> Result<(), OutOfMemory>
        requires going { self.now.stopped ≡ false }
        ensures { OnOk result (text.new ≡ text.old ++ shown_at self.now.state) }
    {
        self.gateway.show(text)
    }
}
