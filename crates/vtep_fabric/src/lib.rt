//! A fabric: its gateways, what the operator wants of them, and one call for each kind of script line.
#![tactic(auto)]

ghost use Rattle.std.specs.Prelude.{◌≡◌};

mod acls;
mod fabric;
mod gateways;
mod hexadecimal;
mod intention;
mod operations;
mod outputs;
mod peers;
mod roster;
mod settling;
mod site;
mod wanted;

pub use fabric::Fabric;
pub use fabric_world::{
    AclField, AclFields, AclMatch, AgeLine, FrameLine, GatewayLine, HangupLine, Intent, PortLine,
    RpcLine, SettleLine, ShowLine, UnderlayLine, UnportLine,
};
pub use gateways::Gateways;
pub use hexadecimal::append_word;
pub use outputs::packet_kind_text;
use vtep_base::{LineReason, OutOfMemory};

/// Why a line is not run.
#[derive(Clone, Copy, Debug, PartialEq, Eq)]
pub enum FabricFault {
    /// No memory is left. The fabric is stopped.
    OutOfMemory,
    /// The fabric refuses the line, and is as it was: the place of the word in the line, from 0, and the reason.
    Refused { word: usize, reason: LineReason },
}

impl From<OutOfMemory> for FabricFault {
    ghost use Rattle.std.specs.Prelude.{◌≡◌};
    ghost use Rattle.vtep_fabric.specs.declared.FabricFault.TheVariants as fault;

    ghost from_gives = { λ _ e. e ≡ fault.OutOfMemory };

    fn from(_error: OutOfMemory) -> FabricFault {
        FabricFault::OutOfMemory
    }
}

/// The line is refused at its word of this place, from 0.
pub(crate) fn refused(word: usize, reason: LineReason) -> FabricFault
    ensures { result ≡ FabricFault.Refused word reason }
{
    FabricFault::Refused { word, reason }
}
