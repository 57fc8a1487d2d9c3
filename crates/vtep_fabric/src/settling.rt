//! The intent as it is written into the gateways' tables.

ghost use Rattle.std.specs.Prelude.{◌≡◌, map, Some, IfOk, OnOk};
ghost use Rattle.std.specs.BTreeMap.{IsOrdered};
ghost use Rattle.vtep_base.specs.Maps as maps;
ghost use Rattle.vtep_rows.specs.Row.{put_all};
ghost use Rattle.fabric_world.specs.Intentions.{bytes_cmp};
ghost use Rattle.fabric_world.specs.Installer.{hosts_of, peer_in};
ghost use Rattle.fabric_world.specs.Happenings.{peers_of, asked, install_at, install_each, settled};
ghost use Rattle.vtep_fabric.specs.Fabrics.{Happens};

use crate::intention::Intention;
use crate::operations::request_for;
use crate::outputs::write_answer;
use crate::peers::{Peer, Peers};
use crate::roster::Roster;
use crate::site::Site;
use crate::wanted::Hosts;
use std::alloc::Global;
use std::collections::BTreeMap;
use vtep_base::{Bytes, Name, OutOfMemory};
use vtep_gateway::Event;

fn peers_in(alloc: Global, gateways: &BTreeMap<Name, Site>) -> Result<Peers, OutOfMemory>
    ensures made { IfOk result (λ peers. peers ≡ put_all maps.empty
        (map (λ e. (e.0, peer_in e.1.state.vtep.rows)) gateways.now.entries)) }
    ensures ordered { IsOrdered bytes_cmp gateways.now }
{
    let _count = gateways.len();
    let mut peers = Peers::new(alloc);
    'gateways: for (name, site) in gateways {
        peers.put(*name, Peer::of(alloc, site.gateway().rows())?)?;
    }
    Ok(peers)
}

impl Roster {
    /// The gateways as they are found.
    fn peers(&self) -> Result<Peers, OutOfMemory>
        ensures { IfOk result (λ peers. peers ≡ peers_of self.now) }
    {
        peers_in(self.alloc, &self.gateways)
    }

    /// Gives the gateway of this name a request, where there is one, and writes what comes of it.
    fn ask(&mut self, name: &Name, request: Bytes, text: &mut Bytes) -> Result<(), OutOfMemory>
        ensures { OnOk result
            (Happens (asked self.old name.now (maps.get self.old name.now) (Some request))
            self.new text.old text.new) }
    {
        let event = Event::Bytes {
            session: 0,
            piece: request,
        };
        match self.give(name, &event)? {
            Some(answer) => write_answer(self.alloc, name, &event, &answer, text),
            None => Ok(()),
        }
    }

    /// Gives the gateway of this name the request of what is wanted of it, where there is one.
    fn install_at(
        &mut self,
        intention: &Intention,
        peers: &Peers,
        hosts: &Hosts,
        name: Name,
        text: &mut Bytes,
    ) -> Result<(), OutOfMemory>
        requires { hosts.now ≡ hosts_of intention.now peers.now }
        ensures { OnOk result (Happens (install_at intention.now peers.now self.old name)
            self.new text.old text.new) }
    {
        let Some(request) = request_for(self.alloc, intention, peers, hosts, name)? else {
            return Ok(());
        };
        self.ask(&name, request, text)
    }

    fn install_each(
        &mut self,
        intention: &Intention,
        peers: &Peers,
        text: &mut Bytes,
    ) -> Result<(), OutOfMemory>
        ensures { OnOk result (Happens
            (install_each intention.now peers.now self.old (maps.keys peers.now))
            self.new text.old text.new) }
    {
        let hosts = Hosts::of(self.alloc, intention, peers)?;
        'peers: for (name, _) in peers.walk() {
            self.install_at(intention, peers, &hosts, *name, text)?;
        }
        Ok(())
    }

    /// Gives each gateway, by name, the request of what is wanted of it, where there is one, and writes what comes of it.
    pub(crate) fn install(
        &mut self,
        intention: &Intention,
        text: &mut Bytes,
    ) -> Result<(), OutOfMemory>
        ensures { OnOk result (Happens (settled intention.now self.old)
            self.new text.old text.new) }
    {
        let peers = self.peers()?;
        self.install_each(intention, &peers, text)
    }
}
