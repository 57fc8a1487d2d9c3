//! What a hop sends, as bytes.

ghost use Rattle.std.specs.Prelude.{◌≡◌, ◌≤◌, [], false, map, length, IfOk, OnOk, OnErr};
ghost use Rattle.ether_frames.specs.Frames.{tagged};
ghost use Rattle.vxlan_frames.specs.Packets.{canon, tag_at};
ghost use Rattle.forward_program.specs.Sent.{nothing, out_of, packets_of, sent_of};

use crate::hops::Hops;
use ether_frames::write;
use std::alloc::Global;
use std::marker::{Model, PhantomData};
use vtep_base::{Bytes, Inner, Ipv4, Ledger, List, Name, OutOfMemory, Vlan, Vni};
use vxlan_frames::encode;

/// A frame as it leaves a port.
#[derive(Debug, Drop)]
pub struct Out {
    /// The name of the port.
    pub port: Name,
    /// The frame.
    pub bytes: Bytes,
}

/// What a hop sends: frames out of ports, and packets. Contracts see both lists.
#[derive(Drop)]
pub struct Sent<L: Ledger> {
    of: PhantomData<L>,
    alloc: Global,
    outs: List<Out>,
    packets: List<Bytes>,
}

impl<L: Ledger> Model for Sent<L> {
    ghost use Rattle.forward_program.specs.Sent.{Sent as Both, sent_code};

    ghost Value = { Both };

    ghost coded = { sent_code };

    ghost view = { λ s. record { outs = s.outs; packets = s.packets } };
}

fn frame(alloc: Global, vlan: Vlan, inner: &Inner<'_>) -> Result<Bytes, OutOfMemory>
    ensures { IfOk result (λ bytes. bytes ≡ tagged vlan inner.now) }
{
    let mut bytes = Bytes::new(alloc);
    write(vlan, inner, &mut bytes)?;
    Ok(bytes)
}

fn frames(
    alloc: Global,
    ports: &[(Name, Vlan)],
    inner: &Inner<'_>,
) -> Result<List<Out>, OutOfMemory>
    ensures { IfOk result (λ outs. outs ≡ map (out_of inner.now) ports.now) }
{
    let mut outs = List::new(alloc);
    'ports: for (port, vlan) in ports {
        let bytes = frame(alloc, *vlan, inner)?;
        outs.push(Out { port: *port, bytes })?;
    }
    Ok(outs)
}

fn packet(
    alloc: Global,
    own: Ipv4,
    ip: Ipv4,
    vni: Vni,
    inner: &Inner<'_>,
) -> Result<Bytes, OutOfMemory>
    requires least { 14 ≤ length inner.now }
    requires most { length inner.now ≤ 9216 }
    requires untagged { tag_at inner.now 12 ≡ false }
    ensures { IfOk result (λ bytes. bytes ≡ canon own ip vni inner.now) }
{
    let mut bytes = Bytes::new(alloc);
    encode(own, ip, vni, inner, &mut bytes)?;
    Ok(bytes)
}

fn packets_to(
    alloc: Global,
    own: Ipv4,
    vni: Vni,
    addresses: &[Ipv4],
    inner: &Inner<'_>,
) -> Result<List<Bytes>, OutOfMemory>
    requires least { 14 ≤ length inner.now }
    requires most { length inner.now ≤ 9216 }
    requires untagged { tag_at inner.now 12 ≡ false }
    ensures { IfOk result (λ packets. packets
        ≡ map (λ ip. canon own ip vni inner.now) addresses.now) }
{
    let mut packets = List::new(alloc);
    'addresses: for ip in addresses {
        packets.push(packet(alloc, own, *ip, vni, inner)?)?;
    }
    Ok(packets)
}

fn packets(
    alloc: Global,
    own: Ipv4,
    vni: Option<Vni>,
    addresses: &[Ipv4],
    inner: &Inner<'_>,
) -> Result<List<Bytes>, OutOfMemory>
    requires least { 14 ≤ length inner.now }
    requires most { length inner.now ≤ 9216 }
    requires untagged { tag_at inner.now 12 ≡ false }
    ensures { IfOk result (λ packets. packets ≡ packets_of own vni addresses.now inner.now) }
{
    match vni {
        Some(vni) => packets_to(alloc, own, vni, addresses, inner),
        None => Ok(List::new(alloc)),
    }
}

fn copy_outs(alloc: Global, outs: &[Out]) -> Result<List<Out>, OutOfMemory>
    ensures { IfOk result (λ copy. copy ≡ outs.now) }
{
    let mut copy = List::new(alloc);
    'outs: for out in outs {
        let bytes = Bytes::from_slice(alloc, out.bytes.as_slice())?;
        copy.push(Out {
            port: out.port,
            bytes,
        })?;
    }
    Ok(copy)
}

fn copy_packets(alloc: Global, packets: &[Bytes]) -> Result<List<Bytes>, OutOfMemory>
    ensures { IfOk result (λ copy. copy ≡ packets.now) }
{
    let mut copy = List::new(alloc);
    'packets: for packet in packets {
        copy.push(Bytes::from_slice(alloc, packet.as_slice())?)?;
    }
    Ok(copy)
}

impl<L: Ledger> Sent<L> {
    /// Nothing. Takes no memory, as the calls of reading below.
    pub fn new(alloc: Global) -> Sent<L>
        ensures { result ≡ nothing }
    {
        Sent {
            of: PhantomData,
            alloc,
            outs: List::new(alloc),
            packets: List::new(alloc),
        }
    }

    /// The frames that leave ports.
    pub fn outs(&self) -> &List<Out>
        ensures { result.now ≡ self.now.outs }
    {
        &self.outs
    }

    /// The packets.
    pub fn packets(&self) -> &List<Bytes>
        ensures { result.now ≡ self.now.packets }
    {
        &self.packets
    }

    /// An equal one.
    pub fn copy(&self) -> Result<Sent<L>, OutOfMemory>
        ensures { IfOk result (λ copy. copy ≡ self.now) }
    {
        Ok(Sent {
            of: PhantomData,
            alloc: self.alloc,
            outs: copy_outs(self.alloc, self.outs.as_slice())?,
            packets: copy_packets(self.alloc, self.packets.as_slice())?,
        })
    }

    fn put(&mut self, outs: List<Out>, packets: List<Bytes>)
        ensures { self.new ≡ record { outs = outs; packets = packets } }
    {
        self.outs = outs;
        self.packets = packets;
    }

    /// The frame as it leaves each port, and a packet with it to each address, in place of what was
    /// there. After an `Err` there is nothing.
    pub fn fill(&mut self, hops: &Hops<L>, own: Ipv4, inner: &Inner<'_>) -> Result<(), OutOfMemory>
        requires least { 14 ≤ length inner.now }
        requires most { length inner.now ≤ 9216 }
        requires untagged { tag_at inner.now 12 ≡ false }
        ensures ok { OnOk result (self.new ≡ sent_of hops.now own inner.now) }
        ensures err { OnErr result (self.new ≡ nothing) }
    {
        let alloc = self.alloc;
        self.put(List::new(alloc), List::new(alloc));
        let outs = frames(alloc, hops.ports(), inner)?;
        let packets = packets(alloc, own, hops.vni(), hops.addresses(), inner)?;
        self.put(outs, packets);
        Ok(())
    }
}
