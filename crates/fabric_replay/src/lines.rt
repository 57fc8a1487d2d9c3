//! What the words of a line say.

ghost use Rattle.std.specs.Prelude.{◌≡◌, ◌≤◌, ◌<◌, map, drop, Ok, Err, None, Some, MatchResult, IfOk, length, slice_get};
ghost use Rattle.vtep_base.specs.Texts.{name_of, ipv4_of, vni_of, vlan_of};
ghost use Rattle.fabric_world.specs.Lines.{kind_of, kind_among, kind_text, arity, takes_fields, mode_of, session_of, seconds_of, sequence_of, direction_of, action_of, hex_of, value_at, word_at, column_at, last_end, counted, instruction, read_words, read_line, first_word, known_kind, only_word, read_packet};
ghost use Rattle.fabric_world.specs.Text as text;
ghost use Rattle.fabric_replay.specs.Seen.{seen, Reads, AllFit};

use crate::fields::fields_of;
use crate::words::{Word, bad_byte};
use fabric_world::{
    AgeLine, FrameLine, GatewayLine, HangupLine, Instruction, Intent, Kind, Line, PortLine,
    Refusal, RpcLine, SettleLine, ShowLine, UnderlayLine, UnportLine,
};
use hex::FromHexError;
use std::alloc::Global;
use vtep_base::{
    Action, Bytes, Direction, Ipv4, LineReason, Mode, Name, OutOfMemory, Vlan, Vni, parse_number,
};

/// Why a line is not read.
#[derive(Clone, Copy, Debug)]
pub(crate) enum LineFault {
    OutOfMemory,
    Refused(Refusal),
}

impl From<OutOfMemory> for LineFault {
    ghost use Rattle.std.specs.Prelude.{◌≡◌};
    ghost use Rattle.fabric_replay.specs.declared.lines.LineFault.TheVariants as line_fault;

    ghost from_gives = { λ _ e. e ≡ line_fault.OutOfMemory };

    fn from(_error: OutOfMemory) -> LineFault {
        LineFault::OutOfMemory
    }
}

impl From<Refusal> for LineFault {
    ghost use Rattle.std.specs.Prelude.{◌≡◌};
    ghost use Rattle.fabric_replay.specs.declared.lines.LineFault.TheVariants as line_fault;

    ghost from_gives = { λ refusal e. e ≡ line_fault.Refused refusal };

    fn from(refusal: Refusal) -> LineFault {
        LineFault::Refused(refusal)
    }
}

pub(crate) fn refusal(column: usize, reason: LineReason) -> Refusal
    ensures { result ≡ record { column = column; reason = reason } }
{
    Refusal { column, reason }
}

/// All kinds of lines.
const KINDS: [Kind; 16] = [
    Kind::Gateway,
    Kind::Port,
    Kind::Unport,
    Kind::Switch,
    Kind::Bind,
    Kind::Acl,
    Kind::Guard,
    Kind::Unguard,
    Kind::Settle,
    Kind::Frame,
    Kind::Underlay,
    Kind::Age,
    Kind::Rpc,
    Kind::Hangup,
    Kind::Show,
    Kind::End,
];

/// The first word of a kind.
fn kind_text(kind: Kind) -> &'static [u8]
    ensures { result.now ≡ kind_text kind }
{
    match kind {
        Kind::Gateway => b"gateway",
        Kind::Port => b"port",
        Kind::Unport => b"unport",
        Kind::Switch => b"switch",
        Kind::Bind => b"bind",
        Kind::Acl => b"acl",
        Kind::Guard => b"guard",
        Kind::Unguard => b"unguard",
        Kind::Settle => b"settle",
        Kind::Frame => b"frame",
        Kind::Underlay => b"underlay",
        Kind::Age => b"age",
        Kind::Rpc => b"rpc",
        Kind::Hangup => b"hangup",
        Kind::Show => b"show",
        Kind::End => b"end",
    }
}

/// The first of the kinds that has this word.
fn kind_among(word: &[u8], kinds: &[Kind]) -> Option<Kind>
    ensures { result ≡ kind_among word.now kinds.now }
{
    'kinds: for kind in kinds {
        if word == kind_text(*kind) {
            return Some(*kind);
        }
    }
    None
}

/// The kind of a line, by its first word.
fn kind_of(word: &[u8]) -> Option<Kind>
    ensures { result ≡ kind_of word.now }
{
    kind_among(word, &KINDS)
}

/// How many words follow the first, at least.
fn arity(kind: Kind) -> usize
    ensures value { result ≡ arity kind }
    ensures few { result ≤ 8 }
{
    match kind {
        Kind::Gateway | Kind::Port | Kind::Unport => 2,
        Kind::Underlay | Kind::Age | Kind::Hangup => 2,
        Kind::Switch | Kind::Frame | Kind::Rpc | Kind::Unguard => 3,
        Kind::Bind | Kind::Acl | Kind::Guard => 4,
        Kind::Show => 1,
        Kind::Settle | Kind::End => 0,
    }
}

/// Whether the fields of an entry may follow.
fn takes_fields(kind: Kind) -> bool
    ensures { result ≡ takes_fields kind }
{
    matches!(kind, Kind::Acl)
}

fn word<'a>(words: &[Word<'a>], place: usize) -> Result<Word<'a>, Refusal>
    ensures { MatchResult result (λ w. slice_get (map seen words.now) place ≡ Some (seen w))
        (λ e. (slice_get (map seen words.now) place ≡ None)
        × (e ≡ record { column = 1; reason = LineReason.Words })) }
{
    match words.get(place) {
        Some(word) => Ok(*word),
        None => Err(refusal(1, LineReason::Words)),
    }
}

fn name_at(words: &[Word<'_>], place: usize) -> Result<Name, Refusal>
    ensures { result ≡ word_at name_of (map seen words.now) place }
{
    let word = word(words, place)?;
    match Name::parse(word.bytes) {
        Ok(name) => Ok(name),
        Err(_) => Err(refusal(word.column, LineReason::Value)),
    }
}

fn ipv4_at(words: &[Word<'_>], place: usize) -> Result<Ipv4, Refusal>
    ensures { result ≡ word_at ipv4_of (map seen words.now) place }
{
    let word = word(words, place)?;
    match Ipv4::parse(word.bytes) {
        Ok(ip) => Ok(ip),
        Err(_) => Err(refusal(word.column, LineReason::Value)),
    }
}

fn vni_at(words: &[Word<'_>], place: usize) -> Result<Vni, Refusal>
    ensures { result ≡ word_at vni_of (map seen words.now) place }
{
    let word = word(words, place)?;
    match Vni::parse(word.bytes) {
        Ok(vni) => Ok(vni),
        Err(_) => Err(refusal(word.column, LineReason::Value)),
    }
}

fn vlan_at(words: &[Word<'_>], place: usize) -> Result<Vlan, Refusal>
    ensures { result ≡ word_at vlan_of (map seen words.now) place }
{
    let word = word(words, place)?;
    match Vlan::parse(word.bytes) {
        Ok(vlan) => Ok(vlan),
        Err(_) => Err(refusal(word.column, LineReason::Value)),
    }
}

fn mode_at(words: &[Word<'_>], place: usize) -> Result<Mode, Refusal>
    ensures { result ≡ word_at mode_of (map seen words.now) place }
{
    let word = word(words, place)?;
    match word.bytes {
        b"source" => Ok(Mode::Source),
        b"service" => Ok(Mode::Service),
        _ => Err(refusal(word.column, LineReason::Value)),
    }
}

/// The number of a session: 0 is the controller's.
fn session_at(words: &[Word<'_>], place: usize) -> Result<u32, Refusal>
    ensures { result ≡ word_at session_of (map seen words.now) place }
{
    let word = word(words, place)?;
    match parse_number(word.bytes, u32::MAX) {
        Ok(0) | Err(_) => Err(refusal(word.column, LineReason::Value)),
        Ok(session) => Ok(session),
    }
}

fn seconds_at(words: &[Word<'_>], place: usize) -> Result<u32, Refusal>
    ensures { result ≡ word_at seconds_of (map seen words.now) place }
{
    let word = word(words, place)?;
    match parse_number(word.bytes, u32::MAX) {
        Ok(seconds) => Ok(seconds),
        Err(_) => Err(refusal(word.column, LineReason::Value)),
    }
}

fn sequence_at(words: &[Word<'_>], place: usize) -> Result<u32, Refusal>
    ensures { result ≡ word_at sequence_of (map seen words.now) place }
{
    seconds_at(words, place)
}

fn direction_at(words: &[Word<'_>], place: usize) -> Result<Direction, Refusal>
    ensures { result ≡ word_at direction_of (map seen words.now) place }
{
    let word = word(words, place)?;
    match word.bytes {
        b"in" => Ok(Direction::Ingress),
        b"out" => Ok(Direction::Egress),
        _ => Err(refusal(word.column, LineReason::Value)),
    }
}

fn action_at(words: &[Word<'_>], place: usize) -> Result<Action, Refusal>
    ensures { result ≡ word_at action_of (map seen words.now) place }
{
    let word = word(words, place)?;
    match word.bytes {
        b"permit" => Ok(Action::Permit),
        b"deny" => Ok(Action::Deny),
        _ => Err(refusal(word.column, LineReason::Value)),
    }
}

/// The bytes that a hexadecimal word at a column stands for; `-` is no bytes.
fn hex_value(alloc: Global, column: usize, word: &[u8]) -> Result<Bytes, LineFault>
    ensures { Reads result (value_at column (hex_of word.now)) }
{
    if word == b"-".as_slice() {
        return Ok(Bytes::new(alloc));
    }
    if word.is_empty() {
        return Err(refusal(column, LineReason::Value).into());
    }
    match hex::decode(alloc, word) {
        Ok(bytes) => Ok(Bytes::from_vec(bytes)),
        Err(FromHexError::OutOfMemory) => Err(LineFault::OutOfMemory),
        Err(_) => Err(refusal(column, LineReason::Value).into()),
    }
}

fn hex_at(alloc: Global, words: &[Word<'_>], place: usize) -> Result<Bytes, LineFault>
    ensures { Reads result (word_at hex_of (map seen words.now) place) }
{
    let word = word(words, place)?;
    hex_value(alloc, word.column, word.bytes)
}

/// One past the last byte of the last word.
fn last_end(words: &[Word<'_>]) -> usize
    requires { AllFit words.now }
    ensures { result ≡ last_end (map seen words.now) }
{
    let mut end = 1;
    'words: for word in words {
        end = word.column + word.bytes.len();
    }
    end
}

/// No word is surplus, and none is missing.
fn counted(kind: Kind, words: &[Word<'_>]) -> Result<(), Refusal>
    requires { AllFit words.now }
    ensures { MatchResult result (λ _. counted kind (map seen words.now) ≡ Ok kind)
        (λ e. counted kind (map seen words.now) ≡ Err e) }
{
    let wanted = arity(kind) + 1;
    if words.len() > wanted && !takes_fields(kind) {
        return Err(refusal(words[wanted].column, LineReason::Words));
    }
    if words.len() < wanted {
        return Err(refusal(last_end(words), LineReason::Words));
    }
    Ok(())
}

/// What the words of a line of this kind say.
fn instruction(alloc: Global, kind: Kind, words: &[Word<'_>]) -> Result<Instruction, LineFault>
    ensures { Reads result (instruction kind (map seen words.now)) }
{
    match kind {
        Kind::Gateway => gateway(words),
        Kind::Port => port(words),
        Kind::Unport => unport(words),
        Kind::Switch => switch(words),
        Kind::Bind => bind(words),
        Kind::Acl => acl(alloc, words),
        Kind::Guard => guard(words),
        Kind::Unguard => unguard(words),
        Kind::Settle => Ok(Instruction::Do(Line::Settle(SettleLine))),
        Kind::Frame => frame(alloc, words),
        Kind::Underlay => underlay(alloc, words),
        Kind::Age => age(words),
        Kind::Rpc => rpc(alloc, words),
        Kind::Hangup => hangup(words),
        Kind::Show => show(words),
        Kind::End => Ok(Instruction::End),
    }
}

fn gateway(words: &[Word<'_>]) -> Result<Instruction, LineFault>
    ensures { Reads result (instruction Kind.Gateway (map seen words.now)) }
{
    let g = name_at(words, 1)?;
    let ip = ipv4_at(words, 2)?;
    Ok(Instruction::Do(Line::Gateway(GatewayLine { g, ip })))
}

fn port(words: &[Word<'_>]) -> Result<Instruction, LineFault>
    ensures { Reads result (instruction Kind.Port (map seen words.now)) }
{
    let g = name_at(words, 1)?;
    let p = name_at(words, 2)?;
    Ok(Instruction::Do(Line::Port(PortLine { g, p })))
}

fn unport(words: &[Word<'_>]) -> Result<Instruction, LineFault>
    ensures { Reads result (instruction Kind.Unport (map seen words.now)) }
{
    let g = name_at(words, 1)?;
    let p = name_at(words, 2)?;
    Ok(Instruction::Do(Line::Unport(UnportLine { g, p })))
}

fn switch(words: &[Word<'_>]) -> Result<Instruction, LineFault>
    ensures { Reads result (instruction Kind.Switch (map seen words.now)) }
{
    let name = name_at(words, 1)?;
    let vni = vni_at(words, 2)?;
    let mode = mode_at(words, 3)?;
    Ok(Instruction::Do(Line::Intend(Intent::Switch { name, vni, mode })))
}

fn bind(words: &[Word<'_>]) -> Result<Instruction, LineFault>
    ensures { Reads result (instruction Kind.Bind (map seen words.now)) }
{
    let switch = name_at(words, 1)?;
    let gateway = name_at(words, 2)?;
    let port = name_at(words, 3)?;
    let vlan = vlan_at(words, 4)?;
    Ok(Instruction::Do(Line::Intend(Intent::Bind {
        switch,
        gateway,
        port,
        vlan,
    })))
}

/// The words behind the first five.
fn behind_five<'a, 'b>(words: &'b [Word<'a>]) -> &'b [Word<'a>]
    ensures { map seen result.now ≡ drop 5 (map seen words.entry.now) }
{
    if words.len() <= 5 {
        return &[];
    }
    &words[5..]
}

fn acl(alloc: Global, words: &[Word<'_>]) -> Result<Instruction, LineFault>
    ensures { Reads result (instruction Kind.Acl (map seen words.now)) }
{
    let name = name_at(words, 1)?;
    let sequence = sequence_at(words, 2)?;
    let direction = direction_at(words, 3)?;
    let action = action_at(words, 4)?;
    let fields = fields_of(alloc, behind_five(words))?;
    Ok(Instruction::Do(Line::Intend(Intent::Acl {
        name,
        sequence,
        direction,
        action,
        fields,
    })))
}

fn guard(words: &[Word<'_>]) -> Result<Instruction, LineFault>
    ensures { Reads result (instruction Kind.Guard (map seen words.now)) }
{
    let gateway = name_at(words, 1)?;
    let port = name_at(words, 2)?;
    let vlan = vlan_at(words, 3)?;
    let name = name_at(words, 4)?;
    Ok(Instruction::Do(Line::Intend(Intent::Guard {
        gateway,
        port,
        vlan,
        name,
    })))
}

fn unguard(words: &[Word<'_>]) -> Result<Instruction, LineFault>
    ensures { Reads result (instruction Kind.Unguard (map seen words.now)) }
{
    let gateway = name_at(words, 1)?;
    let port = name_at(words, 2)?;
    let vlan = vlan_at(words, 3)?;
    Ok(Instruction::Do(Line::Intend(Intent::Unguard {
        gateway,
        port,
        vlan,
    })))
}

fn frame(alloc: Global, words: &[Word<'_>]) -> Result<Instruction, LineFault>
    ensures { Reads result (instruction Kind.Frame (map seen words.now)) }
{
    let g = name_at(words, 1)?;
    let p = name_at(words, 2)?;
    let hex = hex_at(alloc, words, 3)?;
    Ok(Instruction::Do(Line::Frame(FrameLine { g, p, hex })))
}

fn underlay(alloc: Global, words: &[Word<'_>]) -> Result<Instruction, LineFault>
    ensures { Reads result (instruction Kind.Underlay (map seen words.now)) }
{
    let g = name_at(words, 1)?;
    let hex = hex_at(alloc, words, 2)?;
    Ok(Instruction::Do(Line::Underlay(UnderlayLine { g, hex })))
}

fn age(words: &[Word<'_>]) -> Result<Instruction, LineFault>
    ensures { Reads result (instruction Kind.Age (map seen words.now)) }
{
    let g = name_at(words, 1)?;
    let seconds = seconds_at(words, 2)?;
    Ok(Instruction::Do(Line::Age(AgeLine { g, seconds })))
}

fn rpc(alloc: Global, words: &[Word<'_>]) -> Result<Instruction, LineFault>
    ensures { Reads result (instruction Kind.Rpc (map seen words.now)) }
{
    let g = name_at(words, 1)?;
    let session = session_at(words, 2)?;
    let hex = hex_at(alloc, words, 3)?;
    Ok(Instruction::Do(Line::Rpc(RpcLine { g, session, hex })))
}

fn hangup(words: &[Word<'_>]) -> Result<Instruction, LineFault>
    ensures { Reads result (instruction Kind.Hangup (map seen words.now)) }
{
    let g = name_at(words, 1)?;
    let session = session_at(words, 2)?;
    Ok(Instruction::Do(Line::Hangup(HangupLine { g, session })))
}

fn show(words: &[Word<'_>]) -> Result<Instruction, LineFault>
    ensures { Reads result (instruction Kind.Show (map seen words.now)) }
{
    let g = name_at(words, 1)?;
    Ok(Instruction::Do(Line::Show(ShowLine { g })))
}

/// What the words of a line say, or its first fault.
fn read_words(alloc: Global, words: &[Word<'_>]) -> Result<Instruction, LineFault>
    requires { AllFit words.now }
    ensures { Reads result (read_words (map seen words.now)) }
{
    let Some(first) = words.first() else {
        return Err(refusal(1, LineReason::Command).into());
    };
    let Some(kind) = kind_of(first.bytes) else {
        return Err(refusal(first.column, LineReason::Command).into());
    };
    counted(kind, words)?;
    instruction(alloc, kind, words)
}

/// What a line says, or its first fault.
pub(crate) fn read_line(
    alloc: Global,
    line: &[u8],
    words: &[Word<'_>],
) -> Result<Instruction, LineFault>
    requires fit { AllFit words.now }
    requires words { map seen words.now ≡ text.words line.now }
    ensures { Reads result (read_line line.now) }
{
    if let Some(column) = bad_byte(line) {
        return Err(refusal(column, LineReason::Byte).into());
    }
    read_words(alloc, words)
}

/// The one word of a line of packets.
fn only_word<'a>(words: &[Word<'a>]) -> Result<Word<'a>, Refusal>
    ensures { MatchResult result (λ w. only_word (map seen words.now) ≡ Ok (seen w))
        (λ e. only_word (map seen words.now) ≡ Err e) }
{
    match words {
        [] => Err(refusal(1, LineReason::Words)),
        [word] => Ok(*word),
        [_, surplus, ..] => Err(refusal(surplus.column, LineReason::Words)),
    }
}

/// The bytes of a packet, or the first fault of its line.
pub(crate) fn read_packet(
    alloc: Global,
    line: &[u8],
    words: &[Word<'_>],
) -> Result<Bytes, LineFault>
    requires { map seen words.now ≡ text.words line.now }
    ensures { Reads result (read_packet line.now) }
{
    if let Some(column) = bad_byte(line) {
        return Err(refusal(column, LineReason::Byte).into());
    }
    let word = only_word(words)?;
    hex_value(alloc, word.column, word.bytes)
}
