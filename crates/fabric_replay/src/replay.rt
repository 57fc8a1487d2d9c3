//! The top call.

ghost use Rattle.std.specs.Prelude.{◌≡◌, ◌<◌, ◌≤◌, ◌+◌, ◌++◌, ◌^◌, [], List, length, map, Option, Some, None, OnOk, IfNone};
ghost use Rattle.std.specs.String.{string_bytes};
ghost use Rattle.vtep_base.specs.Outside.{SourceState, SinkState, Rose};
ghost use Rattle.fabric_world.specs.Delivery.{SettledDelivers};
ghost use Rattle.fabric_world.specs.ReadLines.{ReadLinesAreLines};
ghost use Rattle.fabric_world.specs.Script.{Stopped, Short, Ended, Full, form_of, usage_line, reason_text, refusal_text, Replays, AnswersForm, Ran, Completes};
ghost use Rattle.fabric_replay.specs.Stages.{stage_of, IsUnread};
ghost use Rattle.fabric_replay.specs.Outcomes.{PutsAll, Wrote, Continues, PlaysPiece, status_at, WroteUsage};

use crate::reader::Reader;
use crate::script::{Script, Stage};
use fabric_world::{Form, Refusal};
use itoa::Buffer;
use std::alloc::Global;
use vtep_base::{Bytes, LineReason, OutOfMemory, Put, Sink, Source, Status, Took};

/// The most bytes of a script.
const MOST: usize = 1 << 28;

/// The most bytes that are taken at once.
const PIECE: usize = 1 << 12;

/// How the program is called.
const USAGE: &[u8] =
    b"usage: replay | replay --generate n | inspect | serve name ip address sessions port...\n";

/// Writes all bytes, unless the sink fails.
fn put_all<K: Sink>(sink: &mut K, bytes: &[u8]) -> Result<(), Status>
    ensures { PutsAll
        (record { written = K.written sink.old; faults = K.faults sink.old })
        (record { written = K.written sink.new; faults = K.faults sink.new })
        bytes.now result }
{
    let mut rest = bytes;
    'rest: while !rest.is_empty() {
        match sink.put(rest) {
            Put::Put(count) => {
                let (_, behind) = rest.split_at(count);
                rest = behind;
            }
            Put::Failed => return Err(Status::WriteFault),
        }
    }
    Ok(())
}

/// The text of a reason.
fn reason_text(reason: &LineReason) -> &[u8]
    ensures { result.now ≡ reason_text reason.now }
{
    match reason {
        LineReason::Byte => b"byte",
        LineReason::First => b"first",
        LineReason::Command => b"command",
        LineReason::Words => b"words",
        LineReason::Value => b"value",
        LineReason::Unknown => b"unknown",
        LineReason::Repeated => b"repeated",
        LineReason::Limit => b"limit",
        LineReason::Use => b"use",
        LineReason::End => b"end",
        LineReason::Long => b"long",
    }
}

/// Appends the line of a refusal.
fn write_refusal(number: u64, refusal: &Refusal, out: &mut Bytes) -> Result<(), OutOfMemory>
    ensures { OnOk result (out.new ≡ out.old ++ refusal_text (Stopped number refusal.now)) }
{
    let mut line = Buffer::new();
    let mut column = Buffer::new();
    out.append_all(&[
        b"refused ",
        line.format(number).as_bytes(),
        b" ",
        column.format(refusal.column).as_bytes(),
        b" ",
        reason_text(&refusal.reason),
        b"\n",
    ])
}

/// Appends the line of the refusal where the script was refused.
fn show(stage: &Stage, out: &mut Bytes) -> Result<(), OutOfMemory>
    ensures { OnOk result (out.new ≡ out.old ++ refusal_text (stage_of stage.now)) }
{
    match stage {
        Stage::Stopped(number, refusal) => write_refusal(*number, refusal, out),
        Stage::Waiting(_) | Stage::Going(..) | Stage::Inspecting(_) | Stage::Over => Ok(()),
    }
}

/// How a run ends at a stage, where it does.
fn status_at(stage: &Stage) -> Option<Status>
    ensures { result ≡ status_at (stage_of stage.now) }
{
    match stage {
        Stage::Waiting(_) | Stage::Going(..) | Stage::Inspecting(_) => None,
        Stage::Over => Some(Status::Done),
        Stage::Stopped(..) => Some(Status::Refused),
    }
}

/// Writes what was played and the refusal, where there is one, and says how the run ends, where it does.
fn put_played<K: Sink>(stage: &Stage, out: &mut Bytes, sink: &mut K) -> Option<Status>
    ensures ends { Continues (record { text = out.old; stage = stage_of stage.now })
        (record { written = K.written sink.old; faults = K.faults sink.old })
        (record { written = K.written sink.new; faults = K.faults sink.new }) result }
{
    let Ok(()) = show(stage, out) else {
        return Some(Status::NoMemory);
    };
    match put_all(sink, out.as_slice()) {
        Ok(()) => status_at(stage),
        Err(status) => Some(status),
    }
}

/// Runs what a piece makes whole, and writes its output.
fn play_piece<R: Reader, K: Sink>(
    alloc: Global,
    reader: &mut R,
    piece: &[u8],
    out: &mut Bytes,
    sink: &mut K,
) -> Option<Status>
    requires room { R.number reader.old + length piece.now < 2 ^ 62 }
    ensures plays { PlaysPiece (R.meaning reader.old) piece.now (R.meaning reader.new)
        (record { written = K.written sink.old; faults = K.faults sink.old })
        (record { written = K.written sink.new; faults = K.faults sink.new }) result }
    ensures number { IfNone result (R.number reader.new ≤ R.number reader.old + length piece.now) }
{
    out.clear();
    let Ok(()) = reader.feed(alloc, piece, out) else {
        return Some(Status::NoMemory);
    };
    put_played(reader.stage(), out, sink)
}

/// Ends a run whose source ended.
fn finish<R: Reader, K: Sink>(
    alloc: Global,
    reader: &mut R,
    out: &mut Bytes,
    sink: &mut K,
) -> Status
    requires room { R.number reader.old < 2 ^ 62 }
    ensures { Wrote (R.meaning reader.old Ended []) Ended
        (record { written = K.written sink.old; faults = K.faults sink.old })
        (record { written = K.written sink.new; faults = K.faults sink.new }) result }
{
    out.clear();
    let Ok(()) = reader.end(alloc, out) else {
        return Status::NoMemory;
    };
    match put_played(reader.stage(), out, sink) {
        Some(status) => status,
        None => unreachable!(),
    }
}

/// Ends a run for which no more may be read.
fn fill<R: Reader, K: Sink>(reader: &mut R, out: &mut Bytes, sink: &mut K) -> Status
    ensures { Wrote (R.meaning reader.old Full []) Full
        (record { written = K.written sink.old; faults = K.faults sink.old })
        (record { written = K.written sink.new; faults = K.faults sink.new }) result }
{
    out.clear();
    reader.fill();
    match put_played(reader.stage(), out, sink) {
        Some(status) => status,
        None => unreachable!(),
    }
}

/// Gives the text of the source to the reader, a piece at a time, and writes what comes of it.
fn run_text<R: Reader, S: Source, K: Sink>(
    alloc: Global,
    reader: &mut R,
    source: &mut S,
    sink: &mut K,
) -> Status
    requires unread { IsUnread (R.meaning reader.old) }
    requires number { R.number reader.old ≤ 1 }
    ensures { Ran (Replays (R.meaning reader.old))
        (record { left = S.left source.old; taken = S.taken source.old; faults = S.faults source.old; ends = S.ends source.old })
        (record { left = S.left source.new; taken = S.taken source.new; faults = S.faults source.new; ends = S.ends source.new })
        (record { written = K.written sink.old; faults = K.faults sink.old })
        (record { written = K.written sink.new; faults = K.faults sink.new }) result }
{
    let Ok(mut buffer) = vec![in alloc; 0u8; PIECE] else {
        return Status::NoMemory;
    };
    let mut out = Bytes::new(alloc);
    let mut left = MOST;
    'piece: while left > 0 {
        let (room, _) = buffer.split_at_mut(left.min(PIECE));
        match source.take(room) {
            Took::Took(count) => {
                let (piece, _) = room.split_at(count);
                if let Some(status) = play_piece(alloc, reader, piece, &mut out, sink) {
                    return status;
                }
                left -= count;
            }
            Took::End => return finish(alloc, reader, &mut out, sink),
            Took::Failed => return Status::ReadFault,
        }
    }
    fill(reader, &mut out, sink)
}

/// Runs the lines that are read.
fn run_lines<S: Source, K: Sink>(alloc: Global, form: Form, source: &mut S, sink: &mut K) -> Status
    ensures { Ran (AnswersForm (Some form))
        (record { left = S.left source.old; taken = S.taken source.old; faults = S.faults source.old; ends = S.ends source.old })
        (record { left = S.left source.new; taken = S.taken source.new; faults = S.faults source.new; ends = S.ends source.new })
        (record { written = K.written sink.old; faults = K.faults sink.old })
        (record { written = K.written sink.new; faults = K.faults sink.new }) result }
{
    let mut script = Script::new(alloc, form);
    run_text(alloc, &mut script, source, sink)
}

/// What the words of the program ask for.
fn form_of(words: &[String]) -> Option<Form>
    ensures { result ≡ form_of (map string_bytes words.now) }
{
    match words {
        [word] if word.as_bytes() == b"replay".as_slice() => Some(Form::Replay),
        [word] if word.as_bytes() == b"inspect".as_slice() => Some(Form::Inspect),
        _ => None,
    }
}

/// Says how the program is called.
fn usage<K: Sink>(sink: &mut K) -> Status
    ensures { WroteUsage
        (record { written = K.written sink.old; faults = K.faults sink.old })
        (record { written = K.written sink.new; faults = K.faults sink.new }) result }
{
    match put_all(sink, USAGE) {
        Ok(()) => Status::Usage,
        Err(status) => status,
    }
}

/// Runs what the words ask for. `replay` reads a script from the source, and writes to the sink each frame that leaves a
/// port; `inspect` reads a packet a line, and writes what it says or why it is none. Where a line is refused both write that.
///
/// Words of no form make it write the usage line, read nothing and answer `Usage`. It answers `Done` where the script's
/// end line was run or the packets ended, `Refused` where a line was refused, `ReadFault` and `WriteFault` where source or sink failed in this
/// run, and `NoMemory` where memory ran out. By then it has written the output of what it read, or a front of that.
pub fn run<S: Source, K: Sink>(
    alloc: Global,
    words: &Vec<String>,
    source: &mut S,
    sink: &mut K,
) -> Status
    ensures ran { Ran (AnswersForm (form_of (map string_bytes words.now.items)))
        (record { left = S.left source.old; taken = S.taken source.old; faults = S.faults source.old; ends = S.ends source.old })
        (record { left = S.left source.new; taken = S.taken source.new; faults = S.faults source.new; ends = S.ends source.new })
        (record { written = K.written sink.old; faults = K.faults sink.old })
        (record { written = K.written sink.new; faults = K.faults sink.new }) result }
    ensures complete { (form : Form) → form_of (map string_bytes words.now.items) ≡ Some form
        → Completes form
        (record { left = S.left source.old; taken = S.taken source.old; faults = S.faults source.old; ends = S.ends source.old })
        (record { left = S.left source.new; taken = S.taken source.new; faults = S.faults source.new; ends = S.ends source.new })
        (record { written = K.written sink.old; faults = K.faults sink.old })
        (record { written = K.written sink.new; faults = K.faults sink.new }) result }
    // What the script's definition writes for a frame, where there is one gateway.
    ensures delivers { SettledDelivers }
    // Each line that is read of a script is one of those that `delivers` speaks of.
    ensures lines { ReadLinesAreLines }
{
    match form_of(words.as_slice()) {
        Some(form) => run_lines(alloc, form, source, sink),
        None => usage(sink),
    }
}
