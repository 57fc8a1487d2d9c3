//! Events of a gateway, and what goes out.

use crate::facts::say_facts;
use crate::faults::CaseFault;
use crate::learning::say_entries;
use crate::lines::{bytes, number, parts, say, say_hex, text};
use crate::messages::say_framing;
use forward_program::Sent;
use std::alloc::Global;
use vtep_base::{Bytes, Ipv4, Name, Plain, Steps};
use vtep_gateway::{Answer, Event, Gateway};

fn new_gateway(alloc: Global) -> Result<Gateway<Plain>, CaseFault> {
    let name = Name::parse(b"g1")?;
    Ok(Gateway::new(alloc, name, Ipv4::parse(b"10.0.0.1")?)?)
}

fn step(gateway: &mut Gateway<Plain>, event: &Event) -> Result<Answer<Plain>, CaseFault> {
    if gateway.stopped() {
        return Err(CaseFault::OutOfMemory);
    }
    Ok(gateway.step(event, &mut Steps::new(Plain))?)
}

fn say_shown(gateway: &Gateway<Plain>, answer: &mut Bytes) -> Result<(), CaseFault> {
    if gateway.stopped() {
        return Err(CaseFault::OutOfMemory);
    }
    Ok(gateway.show(answer)?)
}

fn piece(alloc: Global, session: u32, bytes: &[u8]) -> Result<Event, CaseFault> {
    Ok(Event::Bytes {
        session,
        piece: Bytes::from_slice(alloc, bytes)?,
    })
}

/// Adds the messages that go out, a line each, the session first.
fn say_sent(alloc: Global, sent: &Answer<Plain>, answer: &mut Bytes) -> Result<(), CaseFault> {
    'sends: for message in sent.sends.as_slice() {
        let session = format!(in alloc; "{} ", message.session)?;
        answer.append_all(&[session.as_bytes(), message.bytes.as_slice(), b"\n"])?;
    }
    Ok(())
}

/// Adds the frames that leave ports and the packets, a line each.
fn say_left(alloc: Global, sent: &Sent<Plain>, answer: &mut Bytes) -> Result<(), CaseFault> {
    'outs: for out in sent.outs().as_slice() {
        answer.append_all(&[b"out ", out.port.as_slice(), b" "])?;
        say_hex(alloc, out.bytes.as_slice(), answer)?;
    }
    'packets: for packet in sent.packets().as_slice() {
        answer.append(b"packet ")?;
        say_hex(alloc, packet.as_slice(), answer)?;
    }
    Ok(())
}

fn say_all(alloc: Global, sent: &Answer<Plain>, answer: &mut Bytes) -> Result<(), CaseFault> {
    say_sent(alloc, sent, answer)?;
    if let Some(framing) = sent.failed {
        say_framing(alloc, framing, answer)?;
    }
    if sent.full {
        say(answer, "full")?;
    }
    if let Some(why) = sent.dropped {
        let why = format!(in alloc; "{why:?}")?;
        say(answer, why.as_str())?;
    }
    // An equal answer says the same.
    say_left(alloc, &sent.sent.copy()?, answer)?;
    if let Some(refused) = sent.refused {
        let refused = format!(in alloc; "{refused:?}")?;
        say(answer, refused.as_str())?;
    }
    Ok(())
}

/// A gateway, and one beside it to which each piece comes byte by byte.
#[derive(Drop)]
pub struct Sessions {
    whole: Gateway<Plain>,
    bytewise: Gateway<Plain>,
}

impl Sessions {
    /// The gateway g1 at 10.0.0.1, to which nothing came.
    pub fn new(alloc: Global) -> Result<Sessions, CaseFault> {
        Ok(Sessions {
            whole: new_gateway(alloc)?,
            bytewise: new_gateway(alloc)?,
        })
    }

    /// Adds what each line gives: `new` begins anew, `counter` asks for the greatest row number, `name` for the gateway's name
    /// and address, `has` for a port, `learned` for the learnt addresses, `facts` and `show` for the facts of its forwarding state; `port`,
    /// `unport`, `hangup`, `frame`, `underlay` and `age` are events, and every other line is a session and a piece.
    pub fn answer(
        &mut self,
        alloc: Global,
        asked: &[Bytes],
        answer: &mut Bytes,
    ) -> Result<(), CaseFault> {
        'asked: for line in asked {
            let (word, rest) = parts(text(line)?);
            match word {
                "new" => *self = Sessions::new(alloc)?,
                "name" => {
                    self.whole.name().print(answer)?;
                    answer.push(b' ')?;
                    self.whole.ip().print(answer)?;
                    answer.push(b'\n')?;
                }
                "learned" => say_entries(alloc, self.whole.learned(), answer)?,
                "facts" => say_facts(alloc, self.whole.fib(), answer)?,
                "show" => say_shown(&self.whole, answer)?,
                _ => self.take(alloc, word, rest, answer)?,
            }
        }
        Ok(())
    }

    fn take(
        &mut self,
        alloc: Global,
        word: &str,
        rest: &str,
        answer: &mut Bytes,
    ) -> Result<(), CaseFault> {
        let event = match word {
            "counter" => {
                let counter = format!(in alloc; "{}", self.whole.rows().counter())?;
                return Ok(say(answer, counter.as_str())?);
            }
            "has" => {
                let name = Name::parse(rest.as_bytes())?;
                let has = format!(in alloc; "{}", self.whole.has_port(&name))?;
                return Ok(say(answer, has.as_str())?);
            }
            "port" => Event::Port {
                name: Name::parse(rest.as_bytes())?,
            },
            "unport" => Event::Unport {
                name: Name::parse(rest.as_bytes())?,
            },
            "hangup" => Event::Hangup {
                session: session(rest)?,
            },
            "frame" => {
                let (port, frame) = parts(rest);
                Event::Frame {
                    port: Name::parse(port.as_bytes())?,
                    bytes: bytes(alloc, frame)?,
                }
            }
            "age" => Event::Age {
                seconds: session(rest)?,
            },
            "underlay" => Event::Underlay {
                bytes: bytes(alloc, rest)?,
            },
            _ => return self.take_piece(alloc, session(word)?, rest.as_bytes(), answer),
        };
        let _same = step(&mut self.bytewise, &event)?;
        say_all(alloc, &step(&mut self.whole, &event)?, answer)
    }

    /// Hands the piece over whole and byte by byte. The same messages go out.
    fn take_piece(
        &mut self,
        alloc: Global,
        session: u32,
        bytes: &[u8],
        answer: &mut Bytes,
    ) -> Result<(), CaseFault> {
        let sent = step(&mut self.whole, &piece(alloc, session, bytes)?)?;
        say_all(alloc, &sent, answer)?;
        let mut whole = Bytes::new(alloc);
        say_sent(alloc, &sent, &mut whole)?;
        let mut bytewise = Bytes::new(alloc);
        'bytes: for byte in bytes {
            let sent = step(&mut self.bytewise, &piece(alloc, session, &[*byte])?)?;
            say_sent(alloc, &sent, &mut bytewise)?;
        }
        if bytewise.as_slice() != whole.as_slice() {
            answer.append_all(&[b"byte by byte:\n", bytewise.as_slice()])?;
        }
        Ok(())
    }
}

fn session(word: &str) -> Result<u32, CaseFault> {
    match u32::try_from(number(word)?) {
        Ok(session) => Ok(session),
        Err(_) => Err(CaseFault::Form),
    }
}
