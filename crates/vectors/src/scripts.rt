//! Scripts and other inputs of the program, what it writes, and its status.

use crate::faults::CaseFault;
use crate::lines::{number, parts, say};
use fabric_replay::run;
use std::alloc::Global;
use std::str;
use vtep_base::{
    Bytes, List, MemorySink, MemorySource, OutOfMemory, ReadSource, Status, WriteSink,
};

/// How an input comes to the program.
#[derive(Clone, Copy)]
enum Division {
    Whole,
    /// In pieces of so many bytes.
    Pieces(usize),
    /// In two pieces, cut at each place in turn.
    EachCut,
    /// Through the adapters of readers and writers.
    Outside,
}

/// An input of the program, and what it is called with.
#[derive(Drop)]
struct Input {
    words: Vec<String>,
    lines: Vec<Bytes>,
    /// The last line has its line feed.
    ended: bool,
    division: Division,
    /// The number of the take that fails.
    take: Option<u64>,
    /// The number of the put that fails.
    put: Option<u64>,
    /// The lines are the front of each later input.
    front: bool,
}

fn listed(alloc: Global, number: Option<u64>) -> Result<List<u64>, OutOfMemory> {
    let mut list = List::new(alloc);
    if let Some(number) = number {
        list.push(number)?;
    }
    Ok(list)
}

/// Pieces of so many bytes, one at least.
fn pieces(alloc: Global, text: &[u8], size: usize) -> Result<List<Bytes>, OutOfMemory> {
    let mut pieces = List::new(alloc);
    if size > 0 {
        'pieces: for piece in text.chunks(size) {
            pieces.push(Bytes::from_slice(alloc, piece)?)?;
        }
    }
    Ok(pieces)
}

fn two_pieces(alloc: Global, text: &[u8], at: usize) -> Result<List<Bytes>, CaseFault> {
    let Some((front, back)) = text.split_at_checked(at) else {
        return Err(CaseFault::Form);
    };
    let mut pieces = List::new(alloc);
    pieces.push(Bytes::from_slice(alloc, front)?)?;
    pieces.push(Bytes::from_slice(alloc, back)?)?;
    Ok(pieces)
}

/// What was written, and behind it the status.
fn ended(alloc: Global, written: Bytes, status: Status) -> Result<Bytes, CaseFault> {
    let mut answer = written;
    let status = format!(in alloc; "status {}", status.number())?;
    say(&mut answer, status.as_str())?;
    Ok(answer)
}

impl Input {
    fn new(alloc: Global) -> Result<Input, CaseFault> {
        let mut words = Vec::new(alloc);
        words.push(String::from_str(alloc, "replay")?)?;
        Ok(Input {
            words,
            lines: Vec::new(alloc),
            ended: true,
            division: Division::Whole,
            take: None,
            put: None,
            front: false,
        })
    }

    /// Takes what stands behind a colon.
    fn direct(&mut self, alloc: Global, line: &str) -> Result<(), CaseFault> {
        let (word, rest) = parts(line);
        match word {
            "front" => self.front = true,
            "unended" => self.ended = false,
            "pieces" => self.division = Division::Pieces(number(rest)? as usize),
            "cut" => self.division = Division::EachCut,
            "outside" => self.division = Division::Outside,
            "take" => self.take = Some(number(rest)?),
            "put" => self.put = Some(number(rest)?),
            "words" => self.words = words(alloc, rest)?,
            "wordless" => self.words = Vec::new(alloc),
            _ => return Err(CaseFault::Form),
        }
        Ok(())
    }

    /// The front and the lines.
    fn text(&self, alloc: Global, front: &[u8]) -> Result<Bytes, CaseFault> {
        let mut text = Bytes::from_slice(alloc, front)?;
        'lines: for (place, line) in self.lines.iter().enumerate() {
            if place > 0 {
                text.push(b'\n')?;
            }
            text.append(line.as_slice())?;
        }
        if self.ended && !self.lines.is_empty() {
            text.push(b'\n')?;
        }
        Ok(text)
    }

    fn ran(&self, alloc: Global, pieces: List<Bytes>) -> Result<Bytes, CaseFault> {
        let mut source = MemorySource::new(pieces, listed(alloc, self.take)?);
        let mut sink = MemorySink::new(alloc, listed(alloc, self.put)?);
        let status = run(alloc, &self.words, &mut source, &mut sink);
        ended(alloc, sink.written, status)
    }

    fn ran_outside(&self, alloc: Global, text: &[u8]) -> Result<Bytes, CaseFault> {
        let mut source = ReadSource::new(text);
        let mut written = Vec::new(alloc);
        let mut sink = WriteSink::new(&mut written);
        let status = run(alloc, &self.words, &mut source, &mut sink);
        drop(sink);
        ended(alloc, Bytes::from_vec(written), status)
    }

    /// What comes with no cut, and behind it each other thing that comes with one.
    fn ran_with_cuts(&self, alloc: Global, text: &[u8]) -> Result<Bytes, CaseFault> {
        let mut answer = self.ran(alloc, pieces(alloc, text, text.len())?)?;
        let wanted = Bytes::from_slice(alloc, answer.as_slice())?;
        'cuts: for at in 0..text.len() {
            let other = self.ran(alloc, two_pieces(alloc, text, at)?)?;
            if other.as_slice() != wanted.as_slice() {
                answer.append_all(&[b"cut:\n", other.as_slice()])?;
            }
        }
        Ok(answer)
    }

    fn answer(&self, alloc: Global, text: &[u8]) -> Result<Bytes, CaseFault> {
        match self.division {
            Division::Whole => self.ran(alloc, pieces(alloc, text, text.len())?),
            Division::Pieces(size) => self.ran(alloc, pieces(alloc, text, size)?),
            Division::EachCut => self.ran_with_cuts(alloc, text),
            Division::Outside => self.ran_outside(alloc, text),
        }
    }
}

fn words(alloc: Global, text: &str) -> Result<Vec<String>, CaseFault> {
    let mut words = Vec::new(alloc);
    'words: for word in text.split(' ') {
        words.push(String::from_str(alloc, word)?)?;
    }
    Ok(words)
}

/// Inputs of the program, one after another.
#[derive(Drop)]
pub struct Scripts {
    front: Bytes,
}

impl Scripts {
    /// No input has a front.
    pub fn new(alloc: Global) -> Scripts {
        Scripts {
            front: Bytes::new(alloc),
        }
    }

    /// Adds what the program writes, and the status, where it reads the front and the lines, each with its line feed.
    ///
    /// Lines that begin with a colon are not read: `:front` makes the lines the front of each later input, `:unended` takes the
    /// last line feed away, `:pieces N`, `:cut` and `:outside` say in which pieces the input comes, `:take N` and `:put N` which
    /// take and put fail, `:words W..` and `:wordless` what the program is called with.
    pub fn answer(
        &mut self,
        alloc: Global,
        asked: &[Bytes],
        answer: &mut Bytes,
    ) -> Result<(), CaseFault> {
        let mut input = Input::new(alloc)?;
        'asked: for line in asked {
            match line.as_slice() {
                [b':', rest @ ..] => input.direct(alloc, str::from_utf8(rest)?)?,
                line => input.lines.push(Bytes::from_slice(alloc, line)?)?,
            }
        }
        if input.front {
            self.front = input.text(alloc, b"")?;
            return Ok(());
        }
        let text = input.text(alloc, self.front.as_slice())?;
        answer.append(input.answer(alloc, text.as_slice())?.as_slice())?;
        Ok(())
    }
}
