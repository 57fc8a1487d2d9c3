//! The definitions of a fabric and of the scripts that run in it, and their laws. There is no code
//! here but the functions with empty bodies whose contracts are the laws, and the types of data
//! that the code shares with the definitions, with the calls of the one that keeps a rule.
#![tactic(auto)]

ghost use Rattle.fabric_world.specs.Delivery.{SettledDelivers, SwitchesAreRows};
ghost use Rattle.fabric_world.specs.Pieces.{CutsDoNotMatter};
ghost use Rattle.fabric_world.specs.ReadLines.{ReadLinesAreLines};

mod acls;
mod fields;

pub use acls::AclMatch;
pub use fields::{AclField, AclFields, FieldName};
use vtep_base::{Action, Bytes, Direction, Ipv4, LineReason, Mode, Name, Vlan, Vni};

/// Where a line is refused, and why. Columns count bytes from 1.
#[derive(Clone, Copy, Debug, PartialEq, Eq)]
pub struct Refusal {
    pub column: usize,
    pub reason: LineReason,
}

/// The kinds of lines, by their first words.
#[derive(Clone, Copy, Debug, PartialEq, Eq)]
pub enum Kind {
    Gateway,
    Port,
    Unport,
    Switch,
    Bind,
    Acl,
    Guard,
    Unguard,
    Settle,
    Frame,
    Underlay,
    Age,
    Rpc,
    Hangup,
    Show,
    End,
}

/// `gateway g ip`: a gateway of this name and tunnel address comes.
#[derive(Clone, Copy, Debug)]
pub struct GatewayLine {
    pub g: Name,
    pub ip: Ipv4,
}

/// `port g p`: a port comes to a gateway.
#[derive(Clone, Copy, Debug)]
pub struct PortLine {
    pub g: Name,
    pub p: Name,
}

/// `unport g p`: a port goes from a gateway.
#[derive(Clone, Copy, Debug)]
pub struct UnportLine {
    pub g: Name,
    pub p: Name,
}

/// `frame g p hex`: a frame enters at a port, and the packets that it makes are carried at once.
#[derive(Debug, Drop)]
pub struct FrameLine {
    pub g: Name,
    pub p: Name,
    pub hex: Bytes,
}

/// `underlay g hex`: a packet comes to a gateway from the underlay.
#[derive(Debug, Drop)]
pub struct UnderlayLine {
    pub g: Name,
    pub hex: Bytes,
}

/// `age g seconds`: the clock of a gateway goes on.
#[derive(Clone, Copy, Debug)]
pub struct AgeLine {
    pub g: Name,
    pub seconds: u32,
}

/// `rpc g session hex`: bytes come from a session of the gateway's database. The session is at
/// least 1.
#[derive(Debug, Drop)]
pub struct RpcLine {
    pub g: Name,
    pub session: u32,
    pub hex: Bytes,
}

/// `hangup g session`: a session ends. It is at least 1.
#[derive(Clone, Copy, Debug)]
pub struct HangupLine {
    pub g: Name,
    pub session: u32,
}

/// `settle`: the intent is written into the gateways' tables.
#[derive(Clone, Copy, Debug)]
pub struct SettleLine;

/// `show g`: the forwarding state of a gateway is written.
#[derive(Clone, Copy, Debug)]
pub struct ShowLine {
    pub g: Name,
}

/// What an operator wants.
#[derive(Debug, Drop)]
pub enum Intent {
    /// `switch s vni mode`: a logical switch.
    Switch {
        name: Name,
        vni: Vni,
        mode: Mode,
    },
    /// `bind s g p vlan`: a VLAN of a port belongs to a switch. The port may be still to come.
    Bind {
        switch: Name,
        gateway: Name,
        port: Name,
        vlan: Vlan,
    },
    /// `acl name seq in permit field=value ..`: an access list gets an entry, and is made where it
    /// is not there.
    Acl {
        name: Name,
        sequence: u32,
        direction: Direction,
        action: Action,
        fields: AclMatch,
    },
    /// `guard g p vlan name`: what passes a VLAN of a port goes by an access list. The port may be
    /// still to come.
    Guard {
        gateway: Name,
        port: Name,
        vlan: Vlan,
        name: Name,
    },
    /// `unguard g p vlan`: it goes by none any more.
    Unguard {
        gateway: Name,
        port: Name,
        vlan: Vlan,
    },
}

/// What a line says.
#[derive(Debug, Drop)]
pub enum Line {
    Gateway(GatewayLine),
    Port(PortLine),
    Unport(UnportLine),
    Intend(Intent),
    Frame(FrameLine),
    Underlay(UnderlayLine),
    Age(AgeLine),
    Rpc(RpcLine),
    Hangup(HangupLine),
    Settle(SettleLine),
    Show(ShowLine),
}

/// A line that is run, or the end of the script.
#[derive(Debug, Drop)]
pub enum Instruction {
    Do(Line),
    End,
}

/// What the program is asked to do, by its words.
#[derive(Clone, Copy, Debug, PartialEq, Eq)]
pub enum Form {
    /// `replay`: runs the script that it reads.
    Replay,
    /// `inspect`: shows the packets that it reads.
    Inspect,
}

/// A switch of the intent.
#[derive(Clone, Copy, Debug, PartialEq, Eq)]
pub struct Network {
    pub vni: Vni,
    pub mode: Mode,
}

/// An entry of an access list of the intent.
#[derive(Debug, Drop)]
pub struct WantedEntry {
    /// The place among the entries: lower numbers come first.
    pub sequence: u32,
    /// Which way a frame passes the port.
    pub direction: Direction,
    /// What becomes of a frame.
    pub action: Action,
    /// What is looked at.
    pub fields: AclMatch,
}

/// Why the fabric refuses a line: the reason, and the place of its word in the line, from 0.
#[derive(Clone, Copy, Debug, PartialEq, Eq)]
pub struct Fault {
    pub word: usize,
    pub reason: LineReason,
}

/// A law: a script that is taken piece by piece runs as its whole text does, wherever it is cut.
pub fn cuts_do_not_matter()
    ensures { CutsDoNotMatter }
{}

/// A law: in every state that lines lead to, where there is one gateway and the tables are settled,
/// a frame that enters at a binding of the rows leaves exactly where its switch delivers it, each
/// once and in order: at the binding where its destination is known, else at every other one. Its
/// source is then known where it entered and nowhere else, unless it is the address of a group or
/// could not be learnt. Bindings are of one switch exactly where they name one row of
/// Logical_Switch.
pub fn settled_delivers()
    ensures delivers { SettledDelivers }
    ensures rows { SwitchesAreRows }
{}

/// A law: each line that is read of a text has values in the ranges of their types, and
/// `settled_delivers` speaks of such lines.
pub fn read_lines_are_lines()
    ensures { ReadLinesAreLines }
{}
