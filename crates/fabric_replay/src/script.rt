//! A script, piece by piece.

ghost use Rattle.std.specs.Prelude.{◌≡◌, ℕ, false, List, ◌+◌, ◌-◌, ◌^◌, ◌≤◌, ◌<◌, ◌++◌, ◌∷◌, [], length, take, drop, map, IfOk, OnOk, MatchOption, IsTrue};
ghost use Rattle.fabric_world.specs.Text.{cut, without_return, NoFeed, is_skipped};
ghost use Rattle.fabric_world.specs.Script as definition;
ghost use Rattle.fabric_world.specs.Script.{Waiting, Going, Inspecting, first_of, silent, refused, ran, play_one, play, is_opening, play_rest, ended, full, closing, read_behind, Ended, Full};
ghost use Rattle.fabric_world.specs.World.{run};
ghost use Rattle.fabric_world.specs.Lines.{column_at};
ghost use Rattle.vtep_fabric.specs.Fabrics.{Answers};
ghost use Rattle.fabric_replay.specs.Seen.{seen, AllFit, HasSession};
ghost use Rattle.fabric_replay.specs.Stages.{stage_of, number_of, after_line, Performs, Plays, EndsLine, Feeds};

use crate::lines::{LineFault, read_line, read_packet};
use crate::packets::write_packet;
use crate::reader::Reader;
use crate::words::{Word, bad_byte, is_skipped, words};
use fabric_world::{Form, Instruction, Line, Refusal};
use memchr::memchr;
use std::alloc::Global;
use vtep_base::{Bytes, LineReason, OutOfMemory};
use vtep_fabric::{Fabric, FabricFault};

/// Where a script stands.
#[derive(Drop)]
pub(crate) enum Stage {
    /// No line had words. The number is that of the next line.
    Waiting(u64),
    /// The number of the next line, and the fabric in which it is run.
    Going(u64, Fabric),
    /// The end line was run.
    Over,
    /// The line of this number was refused.
    Stopped(u64, Refusal),
    /// Each line is a packet. The number is that of the next line.
    Inspecting(u64),
}

/// How a line ends a script.
#[derive(Clone, Copy, Debug)]
enum Halt {
    Over,
    Refused(Refusal),
}

impl Halt {
    /// Where the script stands behind the line of this number.
    fn stage(self, number: u64) -> Stage
        ensures stage { (other : definition.Stage) → after_line (Some self) number other
            ≡ stage_of result }
        ensures number { number_of (stage_of result) ≤ number }
    {
        match self {
            Halt::Over => Stage::Over,
            Halt::Refused(refusal) => Stage::Stopped(number, refusal),
        }
    }
}

/// The first line with words is `fabric 1`.
fn is_opening(words: &[Word<'_>]) -> bool
    ensures { result ≡ is_opening (map seen words.now) }
{
    match words {
        [first, second] => first.bytes == b"fabric".as_slice() && second.bytes == b"1".as_slice(),
        _ => false,
    }
}

fn column_at(words: &[Word<'_>], place: usize) -> usize
    ensures { result ≡ column_at (map seen words.now) place }
{
    match words.get(place) {
        Some(word) => word.column,
        None => 1,
    }
}

/// A line of this number is refused at a column.
fn refused(number: u64, column: usize, reason: LineReason) -> Stage
    ensures stage { refused number column reason ≡ silent (stage_of result) }
    ensures number { number_of (stage_of result) ≡ number }
{
    Stage::Stopped(number, Refusal { column, reason })
}

/// Looks for the opening of a script.
fn open(alloc: Global, number: u64, line: &[u8]) -> Result<Stage, OutOfMemory>
    requires room { number < 2 ^ 62 }
    ensures stage { IfOk result (λ stage. play_one (Waiting number) line.now
        ≡ silent (stage_of stage)) }
    ensures number { IfOk result (λ stage. number_of (stage_of stage) ≤ number + 1) }
{
    let words = words(alloc, line)?;
    if is_skipped(words.as_slice()) {
        return Ok(Stage::Waiting(number + 1));
    }
    if let Some(column) = bad_byte(line) {
        return Ok(refused(number, column, LineReason::Byte));
    }
    if is_opening(words.as_slice()) {
        return Ok(Stage::Going(number + 1, Fabric::new(alloc)));
    }
    Ok(refused(number, 1, LineReason::First))
}

/// What the fabric answers to a line.
fn call(fabric: &mut Fabric, line: &Line, out: &mut Bytes) -> Result<(), FabricFault>
    requires going { fabric.old.stopped ≡ false }
    requires session { HasSession line.now }
    ensures { Answers fabric.old line.now fabric.new out.old out.new result }
{
    match line {
        Line::Gateway(line) => fabric.gateway(line, out),
        Line::Port(line) => fabric.port(line, out),
        Line::Unport(line) => fabric.unport(line, out),
        Line::Intend(line) => fabric.intend(line, out),
        Line::Frame(line) => fabric.frame(line, out),
        Line::Underlay(line) => fabric.underlay(line, out),
        Line::Age(line) => fabric.age(line, out),
        Line::Rpc(line) => fabric.rpc(line, out),
        Line::Hangup(line) => fabric.hangup(line, out),
        Line::Settle(line) => fabric.settle(line, out),
        Line::Show(line) => fabric.show(line, out),
    }
}

/// Runs a line in the fabric, and says how it ends the script, where it does.
fn perform(
    number: &mut u64,
    fabric: &mut Fabric,
    words: &[Word<'_>],
    line: &Line,
    out: &mut Bytes,
) -> Result<Option<Halt>, OutOfMemory>
    requires room { number.old < 2 ^ 62 }
    requires session { HasSession line.now }
    ensures performs { IfOk result (λ halt. Performs
        (ran number.old (map seen words.now) (run fabric.old.world line.now)) out.old
        (after_line halt number.new (Going number.new fabric.new.world)) out.new) }
    ensures number { OnOk result (number.new ≤ number.old + 1) }
{
    if fabric.stopped() {
        return Err(OutOfMemory);
    }
    match call(fabric, line, out) {
        Ok(()) => {
            *number += 1;
            Ok(None)
        }
        Err(FabricFault::OutOfMemory) => Err(OutOfMemory),
        Err(FabricFault::Refused { word, reason }) => {
            let column = column_at(words, word);
            Ok(Some(Halt::Refused(Refusal { column, reason })))
        }
    }
}

/// Runs a line behind the opening, and says how it ends the script, where it does.
fn go(
    alloc: Global,
    number: &mut u64,
    fabric: &mut Fabric,
    line: &[u8],
    out: &mut Bytes,
) -> Result<Option<Halt>, OutOfMemory>
    requires room { number.old < 2 ^ 62 }
    ensures plays { IfOk result (λ halt. Plays (Going number.old fabric.old.world) line.now
        out.old (after_line halt number.new (Going number.new fabric.new.world)) out.new) }
    ensures number { OnOk result (number.new ≤ number.old + 1) }
{
    let words = words(alloc, line)?;
    if is_skipped(words.as_slice()) {
        *number += 1;
        return Ok(None);
    }
    match read_line(alloc, line, words.as_slice()) {
        Ok(Instruction::Do(said)) => perform(number, fabric, words.as_slice(), &said, out),
        Ok(Instruction::End) => Ok(Some(Halt::Over)),
        Err(LineFault::OutOfMemory) => Err(OutOfMemory),
        Err(LineFault::Refused(refusal)) => Ok(Some(Halt::Refused(refusal))),
    }
}

/// Shows the packet of a line, or says why the line is refused.
fn inspect(
    alloc: Global,
    number: &mut u64,
    line: &[u8],
    out: &mut Bytes,
) -> Result<Option<Halt>, OutOfMemory>
    requires room { number.old < 2 ^ 62 }
    ensures plays { IfOk result (λ halt. Plays (Inspecting number.old) line.now out.old
        (after_line halt number.new (Inspecting number.new)) out.new) }
    ensures number { OnOk result (number.new ≤ number.old + 1) }
{
    let words = words(alloc, line)?;
    if is_skipped(words.as_slice()) {
        *number += 1;
        return Ok(None);
    }
    match read_packet(alloc, line, words.as_slice()) {
        Ok(bytes) => {
            write_packet(alloc, bytes.as_slice(), out)?;
            *number += 1;
            Ok(None)
        }
        Err(LineFault::OutOfMemory) => Err(OutOfMemory),
        Err(LineFault::Refused(refusal)) => Ok(Some(Halt::Refused(refusal))),
    }
}

impl Stage {
    /// Where a text of this form begins.
    fn first(form: Form) -> Stage
        ensures stage { stage_of result ≡ first_of form }
    {
        match form {
            Form::Replay => Stage::Waiting(1),
            Form::Inspect => Stage::Inspecting(1),
        }
    }

    /// Takes a line.
    fn play(&mut self, alloc: Global, line: &[u8], out: &mut Bytes) -> Result<(), OutOfMemory>
        requires room { number_of (stage_of self.old) < 2 ^ 62 }
        ensures plays { OnOk result (Plays (stage_of self.old) line.now out.old (stage_of self.new)
            out.new) }
        ensures number { OnOk result
            (number_of (stage_of self.new) ≤ number_of (stage_of self.old) + 1) }
    {
        match self {
            Stage::Waiting(number) => {
                let next = open(alloc, *number, line)?;
                *self = next;
            }
            Stage::Going(number, fabric) => {
                if let Some(halt) = go(alloc, number, fabric, line, out)? {
                    *self = halt.stage(*number);
                }
            }
            Stage::Inspecting(number) => {
                if let Some(halt) = inspect(alloc, number, line, out)? {
                    *self = halt.stage(*number);
                }
            }
            Stage::Over | Stage::Stopped(..) => {}
        }
        Ok(())
    }

    /// The text ends: a script that is neither over nor refused is refused at the next line, and packets are over.
    fn end(&mut self)
        ensures { (text : List ℕ) → ended (record { text = text; stage = stage_of self.old })
            ≡ record { text = text; stage = stage_of self.new } }
    {
        match self {
            Stage::Waiting(number) => *self = refused(*number, 1, LineReason::First),
            Stage::Going(number, _) => *self = refused(*number, 1, LineReason::End),
            Stage::Inspecting(_) => *self = Stage::Over,
            Stage::Over | Stage::Stopped(..) => {}
        }
    }

    /// No more may be read: what is neither over nor refused is refused at the next line.
    fn fill(&mut self)
        ensures { full (stage_of self.old) ≡ record { text = []; stage = stage_of self.new } }
    {
        match self {
            Stage::Waiting(number) => *self = refused(*number, 1, LineReason::Long),
            Stage::Going(number, _) => *self = refused(*number, 1, LineReason::Long),
            Stage::Inspecting(number) => *self = refused(*number, 1, LineReason::Long),
            Stage::Over | Stage::Stopped(..) => {}
        }
    }
}

/// A carriage return at the end goes.
fn without_return(line: &[u8]) -> &[u8]
    ensures { result.now ≡ without_return line.now }
{
    let Some(end) = line.len().checked_sub(1) else {
        return line;
    };
    if line[end] == b'\r' {
        let (front, _) = line.split_at(end);
        front
    } else {
        line
    }
}

/// Where the first line feed stands.
fn line_feed(text: &[u8]) -> Option<usize>
    ensures { MatchOption result (NoFeed text.now) (λ at. EndsLine text.now at) }
{
    memchr(b'\n', text)
}

/// Lines that come in pieces: where the script stands, and what stands behind the last line feed.
#[derive(Drop)]
pub(crate) struct Script {
    stage: Stage,
    front: Vec<u8>,
}

impl Script {
    /// A script of which nothing was taken.
    pub(crate) fn new(alloc: Global, form: Form) -> Script
        ensures stage { stage_of result.stage ≡ first_of form }
        ensures front { result.front.items ≡ [] }
    {
        Script {
            stage: Stage::first(form),
            front: Vec::new(alloc),
        }
    }

    /// Takes the rest of a line, up to its line feed.
    fn finish_line(
        &mut self,
        alloc: Global,
        rest: &[u8],
        out: &mut Bytes,
    ) -> Result<(), OutOfMemory>
        requires room { number_of (stage_of self.old.stage) < 2 ^ 62 }
        ensures plays { OnOk result (Plays (stage_of self.old.stage)
            (without_return (self.old.front.items ++ rest.now)) out.old (stage_of self.new.stage)
            out.new) }
        ensures front { OnOk result (self.new.front.items ≡ []) }
        ensures number { OnOk result
            (number_of (stage_of self.new.stage) ≤ number_of (stage_of self.old.stage) + 1) }
    {
        if self.front.is_empty() {
            return self.stage.play(alloc, without_return(rest), out);
        }
        self.front.extend_from_slice(rest)?;
        self.stage
            .play(alloc, without_return(self.front.as_slice()), out)?;
        self.front.clear();
        Ok(())
    }

    /// Runs each line that the piece makes whole.
    fn take(&mut self, alloc: Global, piece: &[u8], out: &mut Bytes) -> Result<(), OutOfMemory>
        requires room { number_of (stage_of self.old.stage) + length piece.now < 2 ^ 62 }
        ensures feeds { OnOk result (Feeds (stage_of self.old.stage) self.old.front.items piece.now
            out.old (stage_of self.new.stage) self.new.front.items out.new) }
        ensures number { OnOk result
            (number_of (stage_of self.new.stage) ≤ number_of (stage_of self.old.stage)
            + length piece.now) }
    {
        let mut rest = piece;
        'lines: while let Some(at) = line_feed(rest) {
            let (line, _) = rest.split_at(at);
            self.finish_line(alloc, line, out)?;
            let (_, behind) = rest.split_at(at + 1);
            rest = behind;
        }
        self.front.extend_from_slice(rest)?;
        Ok(())
    }

    /// Takes the last line, which lacks its line feed.
    fn play_rest(&mut self, alloc: Global, out: &mut Bytes) -> Result<(), OutOfMemory>
        requires room { number_of (stage_of self.old.stage) < 2 ^ 62 }
        ensures text { OnOk result (out.new ≡ out.old
            ++ (play_rest (stage_of self.old.stage) self.old.front.items).text) }
        ensures stage { OnOk result (stage_of self.new.stage
            ≡ (play_rest (stage_of self.old.stage) self.old.front.items).stage) }
    {
        if self.front.is_empty() {
            return Ok(());
        }
        self.stage.play(alloc, self.front.as_slice(), out)
    }

    /// Ends the script where the source ended.
    fn close(&mut self, alloc: Global, out: &mut Bytes) -> Result<(), OutOfMemory>
        requires room { number_of (stage_of self.old.stage) < 2 ^ 62 }
        ensures text { OnOk result (out.new ≡ out.old
            ++ (closing Ended (stage_of self.old.stage) self.old.front.items).text) }
        ensures stage { OnOk result (stage_of self.new.stage
            ≡ (closing Ended (stage_of self.old.stage) self.old.front.items).stage) }
    {
        self.play_rest(alloc, out)?;
        self.stage.end();
        Ok(())
    }
}

impl Reader for Script {
    ghost meaning = { λ s. read_behind s.front.items (stage_of s.stage) };

    ghost number = { λ s. number_of (stage_of s.stage) };

    fn feed(&mut self, alloc: Global, piece: &[u8], out: &mut Bytes) -> Result<(), OutOfMemory> {
        self.take(alloc, piece, out)?;
        Ok(())
    }

    #[tactic(auto, using(crate::proofs::Ends::ended_ends))]
    fn end(&mut self, alloc: Global, out: &mut Bytes) -> Result<(), OutOfMemory> {
        self.close(alloc, out)
    }

    #[tactic(auto, using(crate::proofs::Ends::full_ends))]
    fn fill(&mut self) {
        self.stage.fill();
    }

    fn stage(&self) -> &Stage {
        &self.stage
    }
}
