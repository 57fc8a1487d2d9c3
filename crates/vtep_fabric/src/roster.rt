//! The gateways of a fabric.

ghost use Rattle.std.specs.Prelude.{◌≡◌, ℕ, List, Some, None, Err, find, map, option_map, slice_index, OnOk, OnErr, IfOk, IfErr};
ghost use Rattle.std.specs.List.{list_any};
ghost use Rattle.std.specs.BTreeMap.{IsOrdered};
ghost use Rattle.vtep_base.specs.Answers.{OrMemory};
ghost use Rattle.vtep_base.specs.Maps as maps;
ghost use Rattle.vtep_gateway.specs.Gateway.{new_gateway};
ghost use Rattle.fabric_world.specs.Intentions.{bytes_cmp};
ghost use Rattle.fabric_world.specs.Happenings.{known, has_ip, destination, carried, carried_each, event_at};
ghost use Rattle.vtep_fabric.specs.Fabrics.{refusal_of, Given, Happens, DoesHappen, Shows};

use crate::gateways::Gateways;
use crate::outputs::{fault_of, write_answer, write_lost};
use crate::site::Site;
use crate::{FabricFault, refused};
use std::alloc::Global;
use std::collections::BTreeMap;
use std::marker::Model;
use vtep_base::{Bytes, Ipv4, LineReason, Name, OutOfMemory, Plain, Steps};
use vtep_gateway::{Answer, Event};

/// The gateways of a fabric by their names.
#[derive(Drop)]
pub(crate) struct Roster {
    pub(crate) alloc: Global,
    pub(crate) gateways: BTreeMap<Name, Site>,
    steps: Steps<Plain>,
}

impl Model for Roster {
    ghost use Rattle.fabric_world.specs.Happenings as happenings;
    ghost use Rattle.vtep_fabric.specs.Fabrics.{gateways_of, roster_code};

    ghost Value = { happenings.Gateways };

    ghost coded = { roster_code };

    ghost view = { λ r. gateways_of r.gateways.entries };
}

fn one_has_ip(gateways: &BTreeMap<Name, Site>, ip: Ipv4) -> bool
    ensures any { result ≡ list_any (λ e. has_ip ip (e.0, e.1.state)) gateways.now.entries }
    ensures ordered { IsOrdered bytes_cmp gateways.now }
{
    gateways.iter().any(|(_name, site)| site.ip() == ip)
}

fn first_with_ip(gateways: &BTreeMap<Name, Site>, ip: Ipv4) -> Option<Name>
    ensures first { result ≡ option_map (λ e. e.0)
        (find (λ e. has_ip ip (e.0, e.1.state)) gateways.now.entries) }
    ensures ordered { IsOrdered bytes_cmp gateways.now }
{
    'gateways: for (name, site) in gateways.iter() {
        if site.ip() == ip {
            return Some(*name);
        }
    }
    None
}

fn byte_at(bytes: &[u8], at: usize) -> u8
    ensures { result ≡ slice_index bytes.now at }
{
    match bytes.get(at) {
        Some(byte) => *byte,
        None => 0,
    }
}

/// The destination of an IPv4 packet (RFC 791, section 3.1).
fn destination(packet: &Bytes) -> Ipv4
    ensures { result ≡ destination packet.now }
{
    let bytes = packet.as_slice();
    let high = u32::from(byte_at(bytes, 16)) * 256 + u32::from(byte_at(bytes, 17));
    let low = u32::from(byte_at(bytes, 18)) * 256 + u32::from(byte_at(bytes, 19));
    Ipv4::from_bits(high * 65536 + low)
}

impl Roster {
    pub(crate) fn new(alloc: Global) -> Roster
        ensures { result ≡ maps.empty }
    {
        Roster {
            alloc,
            gateways: BTreeMap::new(alloc),
            steps: Steps::new(Plain),
        }
    }

    pub(crate) fn knows(&self, name: &Name) -> bool
        ensures { result ≡ maps.has self.now name.now }
    {
        self.gateways.contains_key(name)
    }

    pub(crate) fn count(&self) -> usize
        ensures { result ≡ maps.size self.now }
    {
        self.gateways.len()
    }

    /// The gateways in the order of their names.
    pub(crate) fn walk(&self) -> Gateways<'_>
        ensures { map (λ h. h.state) result ≡ maps.values self.now }
    {
        Gateways::of(self.gateways.iter())
    }

    /// Whether a gateway has this address.
    pub(crate) fn has_ip(&self, ip: Ipv4) -> bool
        ensures { result ≡ list_any (has_ip ip) self.now.list }
    {
        one_has_ip(&self.gateways, ip)
    }

    /// The name of the gateway of this address.
    fn at_ip(&self, ip: Ipv4) -> Option<Name>
        ensures { result ≡ option_map (λ e. e.0) (find (has_ip ip) self.now.list) }
    {
        first_with_ip(&self.gateways, ip)
    }

    /// Adds a new gateway of a name that is not there.
    pub(crate) fn add(&mut self, name: Name, ip: Ipv4) -> Result<(), OutOfMemory>
        ensures { OnOk result (self.new ≡ maps.insert self.old name (new_gateway name ip)) }
    {
        let site = Site::new(self.alloc, name, ip)?;
        self.gateways.insert(name, site)?;
        Ok(())
    }

    /// Gives an event to the gateway of this name, where there is one.
    pub(crate) fn give(
        &mut self,
        name: &Name,
        event: &Event,
    ) -> Result<Option<Answer<Plain>>, OutOfMemory>
        ensures { IfOk result (Given self.old name.now event.now self.new) }
    {
        let Some(site) = self.gateways.get_mut(name) else {
            return Ok(None);
        };
        if site.stopped() {
            return Err(OutOfMemory);
        }
        Ok(Some(site.step(event, &mut self.steps)?))
    }

    /// A packet comes to the gateway of its address, or it is lost. What comes of it is written.
    fn carry(&mut self, packet: &Bytes, text: &mut Bytes) -> Result<(), OutOfMemory>
        ensures { OnOk result (Happens (carried self.old packet.now) self.new text.old text.new) }
    {
        let ip = destination(packet);
        let Some(name) = self.at_ip(ip) else {
            return write_lost(ip, text);
        };
        let event = Event::Underlay {
            bytes: Bytes::from_slice(self.alloc, packet.as_slice())?,
        };
        match self.give(&name, &event)? {
            Some(answer) => write_answer(self.alloc, &name, &event, &answer, text),
            None => Ok(()),
        }
    }

    /// Packets come to the gateways of their addresses, one after the other.
    fn carry_each(&mut self, packets: &[Bytes], text: &mut Bytes) -> Result<(), OutOfMemory>
        ensures { OnOk result
            (Happens (carried_each self.old packets.now) self.new text.old text.new) }
    {
        'packets: for packet in packets {
            self.carry(packet, text)?;
        }
        Ok(())
    }

    /// Gives an event to the gateway of this name, carries the packets that it makes, and writes what comes of it. It is refused
    /// where the gateway is unknown or refuses the event.
    pub(crate) fn event_at(
        &mut self,
        name: &Name,
        event: &Event,
        text: &mut Bytes,
    ) -> Result<(), FabricFault>
        ensures ok { OnOk result
            (DoesHappen (event_at self.old name.now event.now) self.new text.old text.new) }
        ensures refused { IfErr result (λ f. OrMemory (refusal_of f)
            (λ why. (event_at self.old name.now event.now ≡ Err why) × (self.new ≡ self.old))) }
    {
        let Some(answer) = self.give(name, event)? else {
            return Err(refused(1, LineReason::Unknown));
        };
        if let Some(why) = answer.refused {
            return Err(fault_of(why));
        }
        write_answer(self.alloc, name, event, &answer, text)?;
        self.carry_each(answer.sent.packets().as_slice(), text)?;
        Ok(())
    }

    /// Appends what a gateway shows. It is refused where the gateway is unknown.
    pub(crate) fn show(&self, name: &Name, text: &mut Bytes) -> Result<(), FabricFault>
        ensures ok { OnOk result (Shows self.now name.now text.old text.new) }
        ensures refused { IfErr result (λ f. OrMemory (refusal_of f)
            (λ why. known self.now name.now ≡ Err why)) }
    {
        let Some(site) = self.gateways.get(name) else {
            return Err(refused(1, LineReason::Unknown));
        };
        if site.stopped() {
            return Err(FabricFault::OutOfMemory);
        }
        Ok(site.show(text)?)
    }
}
