//! Cases, as the lines of the input give them.

use crate::faults::CaseFault;
use crate::lines::{add_repeated, add_text};
use crate::runner::Runner;
use std::alloc::Global;
use vtep_base::Bytes;

/// A case as far as it is read: the lines that ask, and those that are wanted.
#[derive(Drop)]
struct Case {
    /// The number of its first line.
    line: u64,
    asked: Vec<Bytes>,
    wanted: Vec<Bytes>,
}

impl Case {
    fn new(alloc: Global, line: u64) -> Case {
        Case {
            line,
            asked: Vec::new(alloc),
            wanted: Vec::new(alloc),
        }
    }

    /// The line that was read last.
    fn last(&mut self) -> Result<&mut Bytes, CaseFault> {
        let lines = if self.wanted.is_empty() {
            &mut self.asked
        } else {
            &mut self.wanted
        };
        lines.last_mut().ok_or(CaseFault::Form)
    }
}

fn line_of(alloc: Global, text: &str) -> Result<Bytes, CaseFault> {
    let mut line = Bytes::new(alloc);
    add_text(alloc, &mut line, text, 0)?;
    Ok(line)
}

/// The lines, each with its line feed.
fn joined(alloc: Global, lines: &[Bytes]) -> Result<Bytes, CaseFault> {
    let mut text = Bytes::new(alloc);
    'lines: for line in lines {
        text.append_all(&[line.as_slice(), b"\n"])?;
    }
    Ok(text)
}

fn answer_of(alloc: Global, runner: &mut Runner, case: &Case) -> Result<Bytes, CaseFault> {
    let mut answer = Bytes::new(alloc);
    runner.answer(alloc, case.asked.as_slice(), &mut answer)?;
    Ok(answer)
}

/// The text of an answer that is not the wanted one.
fn shown(alloc: Global, answer: Bytes) -> Result<String, CaseFault> {
    match String::from_utf8(answer.into_vec()) {
        Ok(text) => Ok(text),
        Err(_) => Ok(String::from_str(alloc, "bytes that are no text")?),
    }
}

/// The tables as they are gone through.
#[derive(Drop)]
pub struct Cases {
    runner: Runner,
    /// The name of the table.
    name: String,
    case: Case,
    lines: u64,
    /// How many cases of the table gave what is wanted.
    held: u64,
    /// The same of the tables before it.
    summary: String,
}

impl Cases {
    /// No line was taken.
    pub fn new(alloc: Global) -> Cases {
        Cases {
            runner: Runner::Nothing,
            name: String::new(alloc),
            case: Case::new(alloc, 0),
            lines: 0,
            held: 0,
            summary: String::new(alloc),
        }
    }

    /// Takes the next line. It gives what to say of an answer that is not the wanted one.
    pub fn take(&mut self, alloc: Global, line: &str) -> Result<Option<String>, CaseFault> {
        self.lines = self.lines.saturating_add(1);
        if line.starts_with('#') {
            return Ok(None);
        }
        if line.is_empty() {
            return self.close(alloc);
        }
        if let Some(name) = line.strip_prefix("table ") {
            return self.begin(alloc, name);
        }
        if line == ">" {
            return self.ask(alloc, "");
        }
        match line.strip_prefix("> ") {
            Some(asked) => self.ask(alloc, asked),
            None => self.take_more(alloc, line),
        }
    }

    /// Takes a line that goes on with the line before, or one that is wanted.
    fn take_more(&mut self, alloc: Global, line: &str) -> Result<Option<String>, CaseFault> {
        if let Some(text) = line.strip_prefix("+ ") {
            add_text(alloc, self.case.last()?, text, 0)?;
        } else if let Some(text) = line.strip_prefix("* ") {
            add_repeated(alloc, self.case.last()?, text)?;
        } else {
            self.case.wanted.push(line_of(alloc, line)?)?;
        }
        Ok(None)
    }

    /// Takes a line that asks. Behind wanted lines it begins the next case.
    fn ask(&mut self, alloc: Global, text: &str) -> Result<Option<String>, CaseFault> {
        let difference = if self.case.wanted.is_empty() {
            None
        } else {
            self.close(alloc)?
        };
        if self.case.asked.is_empty() {
            self.case.line = self.lines;
        }
        self.case.asked.push(line_of(alloc, text)?)?;
        Ok(difference)
    }

    /// Closes the case, and begins a table.
    fn begin(&mut self, alloc: Global, name: &str) -> Result<Option<String>, CaseFault> {
        let difference = self.close(alloc)?;
        self.count()?;
        self.runner = Runner::named(alloc, name)?;
        self.name = String::from_str(alloc, name)?;
        Ok(difference)
    }

    /// Adds the count of the table to the summary.
    fn count(&mut self) -> Result<(), CaseFault> {
        if !self.summary.is_empty() {
            self.summary.push_str(", ")?;
        }
        if !self.name.is_empty() {
            write!(self.summary, "{} {}", self.held, self.name)?;
        }
        self.held = 0;
        Ok(())
    }

    /// Compares the answer of the case with the wanted one.
    fn close(&mut self, alloc: Global) -> Result<Option<String>, CaseFault> {
        let case = std::mem::replace(&mut self.case, Case::new(alloc, self.lines));
        if case.asked.is_empty() && case.wanted.is_empty() {
            return Ok(None);
        }
        let wanted = joined(alloc, case.wanted.as_slice())?;
        let line = case.line;
        match answer_of(alloc, &mut self.runner, &case) {
            Ok(answer) if answer.as_slice() == wanted.as_slice() => {
                self.held = self.held.saturating_add(1);
                Ok(None)
            }
            Ok(answer) => {
                let answer = shown(alloc, answer)?;
                Ok(Some(format!(in alloc; "line {line}:\n{answer}")?))
            }
            Err(CaseFault::Form) => Ok(Some(format!(in alloc;
                "line {line}: no case of the table"
            )?)),
            Err(CaseFault::OutOfMemory) => Err(CaseFault::OutOfMemory),
        }
    }

    /// How many cases of each table gave what is wanted.
    pub fn summary(&mut self) -> Result<&str, CaseFault> {
        self.count()?;
        Ok(self.summary.as_str())
    }
}
