//! A fabric and its line calls.

ghost use Rattle.std.specs.Prelude.{◌≡◌, ◌≤◌, true, false, [], map};
ghost use Rattle.vtep_base.specs.Maps as maps;
ghost use Rattle.fabric_world.specs.World.{start};
ghost use Rattle.fabric_world.specs.declared.Intent.TheVariants as intent;
ghost use Rattle.fabric_world.specs.declared.Line.TheVariants as lines;
ghost use Rattle.vtep_fabric.specs.Fabrics.{Answers, Does, Finishes};

use crate::gateways::Gateways;
use crate::intention::Intention;
use crate::roster::Roster;
use crate::{FabricFault, refused};
use fabric_world::{
    AclMatch, AgeLine, FrameLine, GatewayLine, HangupLine, Intent, Network, PortLine, RpcLine,
    SettleLine, ShowLine, UnderlayLine, UnportLine, WantedEntry,
};
use std::alloc::Global;
use std::marker::Model;
use vtep_base::{
    Action, Binding, Bytes, Direction, LineReason, Mode, Name, OutOfMemory, Vlan, Vni,
};
use vtep_gateway::Event;

/// The most gateways.
const MOST_GATEWAYS: usize = 16;

fn binding(gateway: Name, port: Name, vlan: Vlan) -> Binding
    ensures { result ≡ record { gateway = gateway; port = port; vlan = vlan } }
{
    Binding {
        gateway,
        port,
        vlan,
    }
}

/// A fabric. Contracts see the state of its world, and whether it is stopped.
#[derive(Drop)]
pub struct Fabric {
    alloc: Global,
    roster: Roster,
    intention: Intention,
    untouched: bool,
    stopped: bool,
}

impl Model for Fabric {
    ghost use Rattle.vtep_fabric.specs.Fabrics.{Held, held_code};

    ghost Value = { Held };

    ghost coded = { held_code };

    ghost view = { λ f. record { world = record { gateways = f.roster; intention = f.intention; untouched = f.untouched }; stopped = f.stopped } };
}

impl Fabric {
    /// No gateway, and nothing is wanted.
    pub fn new(alloc: Global) -> Fabric
        ensures { result ≡ record { world = start; stopped = false } }
    {
        Fabric {
            alloc,
            roster: Roster::new(alloc),
            intention: Intention::new(alloc),
            untouched: true,
            stopped: false,
        }
    }

    /// The gateways in the order of their names.
    pub fn gateways(&self) -> Gateways<'_>
        ensures { map (λ h. h.state) result ≡ maps.values self.now.world.gateways }
    {
        self.roster.walk()
    }

    /// A line call found no memory. Nothing more is claimed of the fabric.
    pub fn stopped(&self) -> bool
        ensures { result ≡ self.now.stopped }
    {
        self.stopped
    }

    /// Appends what a line wrote, and notes whether memory was found.
    fn finish(
        &mut self,
        done: Result<(), FabricFault>,
        text: &Bytes,
        out: &mut Bytes,
    ) -> Result<(), FabricFault>
        requires going { self.old.stopped ≡ false }
        ensures { Finishes self.old done text.now self.new out.old out.new result }
    {
        let done = match done {
            Ok(()) => out.append(text.as_slice()).map_err(FabricFault::from),
            Err(fault) => Err(fault),
        };
        if let Err(FabricFault::OutOfMemory) = done {
            self.stopped = true;
        }
        done
    }

    /// A gateway of a new name and address comes. It is refused where there is a gateway of that name (word 1) or address (word
    /// 2), and where 16 are there (word 0).
    pub fn gateway(&mut self, line: &GatewayLine, out: &mut Bytes) -> Result<(), FabricFault>
        requires going { self.old.stopped ≡ false }
        ensures { Answers self.old (lines.Gateway line.now) self.new out.old out.new result }
    {
        let text = Bytes::new(self.alloc);
        let done = self.add_gateway(line);
        self.finish(done, &text, out)
    }

    fn add_gateway(&mut self, line: &GatewayLine) -> Result<(), FabricFault>
        ensures { Does self.old (lines.Gateway line.now) self.new [] result }
    {
        if self.roster.knows(&line.g) {
            return Err(refused(1, LineReason::Repeated));
        }
        if self.roster.has_ip(line.ip) {
            return Err(refused(2, LineReason::Repeated));
        }
        if self.roster.count() >= MOST_GATEWAYS {
            return Err(refused(0, LineReason::Limit));
        }
        self.roster.add(line.g, line.ip)?;
        Ok(())
    }

    /// A port comes to a gateway. It is refused where the gateway is unknown (word 1), where it has the port (word 2), and where
    /// it has 64 ports or no row number is left (word 0).
    pub fn port(&mut self, line: &PortLine, out: &mut Bytes) -> Result<(), FabricFault>
        requires going { self.old.stopped ≡ false }
        ensures { Answers self.old (lines.Port line.now) self.new out.old out.new result }
    {
        let mut text = Bytes::new(self.alloc);
        let done = self.add_port(line, &mut text);
        self.finish(done, &text, out)
    }

    fn add_port(&mut self, line: &PortLine, text: &mut Bytes) -> Result<(), FabricFault>
        requires { text.old ≡ [] }
        ensures { Does self.old (lines.Port line.now) self.new text.new result }
    {
        self.roster
            .event_at(&line.g, &Event::Port { name: line.p }, text)
    }

    /// A port goes from a gateway. It is refused where the gateway (word 1) or the port (word 2) is unknown.
    pub fn unport(&mut self, line: &UnportLine, out: &mut Bytes) -> Result<(), FabricFault>
        requires going { self.old.stopped ≡ false }
        ensures { Answers self.old (lines.Unport line.now) self.new out.old out.new result }
    {
        let mut text = Bytes::new(self.alloc);
        let done = self.remove_port(line, &mut text);
        self.finish(done, &text, out)
    }

    fn remove_port(&mut self, line: &UnportLine, text: &mut Bytes) -> Result<(), FabricFault>
        requires { text.old ≡ [] }
        ensures { Does self.old (lines.Unport line.now) self.new text.new result }
    {
        self.roster
            .event_at(&line.g, &Event::Unport { name: line.p }, text)
    }

    /// The operator wants something else. The refusals are those of the intent's lines: `unknown` and `repeated` at their words,
    /// `limit` and `use` at the first.
    pub fn intend(&mut self, line: &Intent, out: &mut Bytes) -> Result<(), FabricFault>
        requires going { self.old.stopped ≡ false }
        ensures { Answers self.old (lines.Intend line.now) self.new out.old out.new result }
    {
        let text = Bytes::new(self.alloc);
        let done = self.change_intention(line);
        self.finish(done, &text, out)
    }

    fn change_intention(&mut self, line: &Intent) -> Result<(), FabricFault>
        ensures { Does self.old (lines.Intend line.now) self.new [] result }
    {
        match line {
            Intent::Switch { name, vni, mode } => self.switch(*name, *vni, *mode),
            Intent::Bind {
                switch,
                gateway,
                port,
                vlan,
            } => self.bind(*switch, binding(*gateway, *port, *vlan)),
            Intent::Acl {
                name,
                sequence,
                direction,
                action,
                fields,
            } => self.acl(*name, *sequence, *direction, *action, fields),
            Intent::Guard {
                gateway,
                port,
                vlan,
                name,
            } => self.guard(binding(*gateway, *port, *vlan), *name),
            Intent::Unguard {
                gateway,
                port,
                vlan,
            } => self.unguard(binding(*gateway, *port, *vlan)),
        }
    }

    fn switch(&mut self, name: Name, vni: Vni, mode: Mode) -> Result<(), FabricFault>
        ensures { Does self.old (lines.Intend (intent.Switch name vni mode)) self.new [] result }
    {
        self.intention.add_switch(name, Network { vni, mode })
    }

    fn bind(&mut self, switch: Name, binding: Binding) -> Result<(), FabricFault>
        ensures { Does self.old
            (lines.Intend (intent.Bind switch binding.gateway binding.port binding.vlan))
            self.new [] result }
    {
        let is_known = self.roster.knows(&binding.gateway);
        self.intention.bind(switch, binding, is_known)
    }

    fn acl(
        &mut self,
        name: Name,
        sequence: u32,
        direction: Direction,
        action: Action,
        fields: &AclMatch,
    ) -> Result<(), FabricFault>
        ensures { Does self.old
            (lines.Intend (intent.Acl name sequence direction action fields.now))
            self.new [] result }
    {
        let fields = fields.copy(self.alloc)?;
        let entry = WantedEntry {
            sequence,
            direction,
            action,
            fields,
        };
        self.intention.add_entry(self.alloc, name, entry)
    }

    fn guard(&mut self, binding: Binding, name: Name) -> Result<(), FabricFault>
        ensures { Does self.old
            (lines.Intend (intent.Guard binding.gateway binding.port binding.vlan name))
            self.new [] result }
    {
        let is_known = self.roster.knows(&binding.gateway);
        self.intention.guard(binding, name, is_known)
    }

    fn unguard(&mut self, binding: Binding) -> Result<(), FabricFault>
        ensures { Does self.old
            (lines.Intend (intent.Unguard binding.gateway binding.port binding.vlan))
            self.new [] result }
    {
        let is_known = self.roster.knows(&binding.gateway);
        self.intention.unguard(binding, is_known)
    }

    /// Bytes come from a session of a gateway's database. They are refused where the gateway is unknown (word 1).
    pub fn rpc(&mut self, line: &RpcLine, out: &mut Bytes) -> Result<(), FabricFault>
        requires going { self.old.stopped ≡ false }
        requires session { 1 ≤ line.now.session }
        ensures { Answers self.old (lines.Rpc line.now) self.new out.old out.new result }
    {
        let mut text = Bytes::new(self.alloc);
        let done = self.take_piece(line, &mut text);
        self.finish(done, &text, out)
    }

    fn take_piece(&mut self, line: &RpcLine, text: &mut Bytes) -> Result<(), FabricFault>
        requires { text.old ≡ [] }
        ensures { Does self.old (lines.Rpc line.now) self.new text.new result }
    {
        let event = Event::Bytes {
            session: line.session,
            piece: Bytes::from_slice(self.alloc, line.hex.as_slice())?,
        };
        self.roster.event_at(&line.g, &event, text)?;
        self.untouched = false;
        Ok(())
    }

    /// A session of a gateway's database ends. It is refused where the gateway (word 1) or the session (word 2) is unknown.
    pub fn hangup(&mut self, line: &HangupLine, out: &mut Bytes) -> Result<(), FabricFault>
        requires going { self.old.stopped ≡ false }
        requires session { 1 ≤ line.now.session }
        ensures { Answers self.old (lines.Hangup line.now) self.new out.old out.new result }
    {
        let mut text = Bytes::new(self.alloc);
        let done = self.end_session(line, &mut text);
        self.finish(done, &text, out)
    }

    fn end_session(&mut self, line: &HangupLine, text: &mut Bytes) -> Result<(), FabricFault>
        requires { text.old ≡ [] }
        ensures { Does self.old (lines.Hangup line.now) self.new text.new result }
    {
        let event = Event::Hangup {
            session: line.session,
        };
        self.roster.event_at(&line.g, &event, text)
    }

    /// A frame enters at a port of a gateway, and the packets that it makes are carried. It is refused where the gateway (word 1)
    /// or the port (word 2) is unknown.
    pub fn frame(&mut self, line: &FrameLine, out: &mut Bytes) -> Result<(), FabricFault>
        requires going { self.old.stopped ≡ false }
        ensures { Answers self.old (lines.Frame line.now) self.new out.old out.new result }
    {
        let mut text = Bytes::new(self.alloc);
        let done = self.take_frame(line, &mut text);
        self.finish(done, &text, out)
    }

    fn take_frame(&mut self, line: &FrameLine, text: &mut Bytes) -> Result<(), FabricFault>
        requires { text.old ≡ [] }
        ensures { Does self.old (lines.Frame line.now) self.new text.new result }
    {
        let event = Event::Frame {
            port: line.p,
            bytes: Bytes::from_slice(self.alloc, line.hex.as_slice())?,
        };
        self.roster.event_at(&line.g, &event, text)
    }

    /// A packet comes to a gateway from the underlay. It is refused where the gateway is unknown (word 1).
    pub fn underlay(&mut self, line: &UnderlayLine, out: &mut Bytes) -> Result<(), FabricFault>
        requires going { self.old.stopped ≡ false }
        ensures { Answers self.old (lines.Underlay line.now) self.new out.old out.new result }
    {
        let mut text = Bytes::new(self.alloc);
        let done = self.take_packet(line, &mut text);
        self.finish(done, &text, out)
    }

    fn take_packet(&mut self, line: &UnderlayLine, text: &mut Bytes) -> Result<(), FabricFault>
        requires { text.old ≡ [] }
        ensures { Does self.old (lines.Underlay line.now) self.new text.new result }
    {
        let event = Event::Underlay {
            bytes: Bytes::from_slice(self.alloc, line.hex.as_slice())?,
        };
        self.roster.event_at(&line.g, &event, text)
    }

    /// The clock of a gateway goes on, and what it has not seen for 300 seconds is forgotten. It is refused where the gateway is unknown
    /// (word 1).
    pub fn age(&mut self, line: &AgeLine, out: &mut Bytes) -> Result<(), FabricFault>
        requires going { self.old.stopped ≡ false }
        ensures { Answers self.old (lines.Age line.now) self.new out.old out.new result }
    {
        let mut text = Bytes::new(self.alloc);
        let done = self.pass_time(line, &mut text);
        self.finish(done, &text, out)
    }

    fn pass_time(&mut self, line: &AgeLine, text: &mut Bytes) -> Result<(), FabricFault>
        requires { text.old ≡ [] }
        ensures { Does self.old (lines.Age line.now) self.new text.new result }
    {
        let event = Event::Age {
            seconds: line.seconds,
        };
        self.roster.event_at(&line.g, &event, text)
    }

    /// The intent is written into the tables of the gateways, which have their ports and nothing else. It is refused with `use` (word
    /// 0) where a `settle` or an `rpc` line was run before it.
    pub fn settle(&mut self, line: &SettleLine, out: &mut Bytes) -> Result<(), FabricFault>
        requires going { self.old.stopped ≡ false }
        ensures { Answers self.old (lines.Settle line.now) self.new out.old out.new result }
    {
        let mut text = Bytes::new(self.alloc);
        let done = self.install(line, &mut text);
        self.finish(done, &text, out)
    }

    fn install(&mut self, _line: &SettleLine, text: &mut Bytes) -> Result<(), FabricFault>
        requires { text.old ≡ [] }
        ensures { Does self.old (lines.Settle _line.now) self.new text.new result }
    {
        if !self.untouched {
            return Err(refused(0, LineReason::Use));
        }
        self.untouched = false;
        self.roster.install(&self.intention, text)?;
        text.append(b"settled\n")?;
        Ok(())
    }

    /// The forwarding state of a gateway is shown. It is refused where the gateway is unknown (word 1).
    pub fn show(&mut self, line: &ShowLine, out: &mut Bytes) -> Result<(), FabricFault>
        requires going { self.old.stopped ≡ false }
        ensures { Answers self.old (lines.Show line.now) self.new out.old out.new result }
    {
        let mut text = Bytes::new(self.alloc);
        let done = self.show_gateway(line, &mut text);
        self.finish(done, &text, out)
    }

    fn show_gateway(&mut self, line: &ShowLine, text: &mut Bytes) -> Result<(), FabricFault>
        requires { text.old ≡ [] }
        ensures { Does self.old (lines.Show line.now) self.new text.new result }
    {
        self.roster.show(&line.g, text)
    }
}
