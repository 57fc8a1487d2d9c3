//! Frames that enter at ports, and packets from the underlay.

ghost use Rattle.std.specs.Prelude.{◌≡◌, false, IfOk};
ghost use Rattle.vxlan_frames.specs.Packets.{IsInner};
ghost use Rattle.forward_program.specs.Readings.{own_ip};
ghost use Rattle.vtep_gateway.specs.Vtep.{Vtep as EndPoint};
ghost use Rattle.vtep_gateway.specs.Good.{IsGood};
ghost use Rattle.vtep_gateway.specs.Ready.{fib_of};
ghost use Rattle.forward_program.specs.HopIs.{HopIs};
ghost use Rattle.vtep_gateway.specs.Frames.{way, why_nowhere, forwarded, packet_answer};
ghost use Rattle.vxlan_frames.specs.Packets.{packet_of};

use crate::vtep::Vtep;
use crate::{Answer, Reason};
use forward_program::{Fib, Hops, Origin, Outcome, Sent};
use std::alloc::Global;
use vtep_base::{Bytes, Inner, Ipv4, Ledger, OutOfMemory};
use vtep_rows::Rows;

/// The tunnel address of the gateway, which its row of Physical_Switch has, or 0.0.0.0. Takes no memory.
pub(crate) fn own_address(rows: &Rows) -> Ipv4
    ensures { result ≡ own_ip rows.now }
{
    match forward_program::own_address(rows) {
        Some(ip) => ip,
        None => Ipv4::from_bits(0),
    }
}

fn why_nowhere(outcome: Outcome) -> Option<Reason>
    ensures { result ≡ why_nowhere outcome }
{
    match outcome {
        Outcome::Done => None,
        Outcome::Unbound => Some(Reason::Unbound),
        Outcome::Denied => Some(Reason::Denied),
        Outcome::NoVni => Some(Reason::Vni),
    }
}

/// Where a frame goes.
fn hop<L: Ledger>(
    fib: &Fib<L>,
    hops: &mut Hops<L>,
    origin: Origin,
    inner: &Inner<'_>,
) -> Result<Outcome, OutOfMemory>
    requires going { fib.now.broken ≡ false }
    ensures { (v : EndPoint) → IsGood v.rows v.learned → fib.now ≡ fib_of v.rows v.learned
        → IfOk result (λ outcome. HopIs outcome hops.new (way v origin inner.now)) }
{
    fib.hop(origin, inner, hops)
}

/// A frame goes where the forwarding state says, or nowhere.
pub(crate) fn forward<L: Ledger>(
    vtep: &Vtep,
    fib: &Fib<L>,
    hops: &mut Hops<L>,
    origin: Origin,
    inner: &Inner<'_>,
) -> Result<Answer<L>, OutOfMemory>
    requires good { IsGood vtep.now.rows vtep.now.learned }
    requires fib { fib.now ≡ fib_of vtep.now.rows vtep.now.learned }
    requires frame { IsInner inner.now }
    ensures { IfOk result (λ answer. answer ≡ forwarded vtep.now origin inner.now) }
{
    let outcome = hop(fib, hops, origin, inner)?;
    if let Some(why) = why_nowhere(outcome) {
        return Ok(Answer::dropped(vtep.alloc, why));
    }
    let mut sent = Sent::new(vtep.alloc);
    sent.fill(hops, own_address(vtep.rows()), inner)?;
    Ok(Answer::sent(vtep.alloc, sent))
}

/// Takes a packet from the underlay.
pub(crate) fn take_packet<L: Ledger>(
    vtep: &Vtep,
    fib: &Fib<L>,
    hops: &mut Hops<L>,
    bytes: &Bytes,
) -> Result<Answer<L>, OutOfMemory>
    requires good { IsGood vtep.now.rows vtep.now.learned }
    requires fib { fib.now ≡ fib_of vtep.now.rows vtep.now.learned }
    ensures { IfOk result (λ answer. answer ≡ packet_answer vtep.now (packet_of bytes.now)) }
{
    match vxlan_frames::decode(bytes.as_slice()) {
        Ok(packet) => {
            if packet.dst != own_address(vtep.rows()) {
                return Ok(Answer::dropped(vtep.alloc, Reason::Address));
            }
            let origin = Origin::Tunnel { vni: packet.vni };
            forward(vtep, fib, hops, origin, &packet.inner)
        }
        Err(fault) => Ok(Answer::dropped(vtep.alloc, Reason::Packet(fault))),
    }
}
