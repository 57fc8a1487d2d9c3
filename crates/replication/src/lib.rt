//! Replication of frames that go to several gateways (vtep(5), `replication_mode`).
#![tactic(auto)]

ghost use Rattle.std.specs.Prelude.{◌≡◌};
ghost use Rattle.replication.specs.Targets.{targets};

use vtep_base::{Ipv4, Mode};

/// Of the addresses of a switch those that a gateway sends to: all of them where it replicates itself, and the first alone where
/// a service node does. Takes no memory.
pub fn targets(mode: Mode, addresses: &[Ipv4]) -> &[Ipv4]
    ensures { result.now ≡ targets mode addresses.now }
{
    match mode {
        Mode::Source => addresses,
        Mode::Service => match addresses {
            [] => addresses,
            [_, ..] => &addresses[..1],
        },
    }
}
