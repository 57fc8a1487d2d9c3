//! The streams of the sessions that are open.

ghost use Rattle.std.specs.Prelude.{◌≡◌, OnOk, OnErr};
ghost use Rattle.vtep_base.specs.Maps as maps;
ghost use Rattle.vtep_gateway.specs.Sessions.{limit_of, stream_of};

use rpc_framing::Framer;
use std::alloc::Global;
use std::collections::BTreeMap;
use std::marker::Model;
use vtep_base::OutOfMemory;

/// The longest message of a session, in bytes.
const LONGEST: u64 = 1 << 25;

/// A finite map from open sessions to their streams.
#[derive(Drop)]
pub(crate) struct Streams {
    alloc: Global,
    framers: BTreeMap<u32, Framer>,
}

impl Model for Streams {
    ghost use Rattle.vtep_base.specs.Maps as maps;
    ghost use Rattle.vtep_gateway.specs.Gateway as gateway;
    ghost use Rattle.vtep_gateway.specs.Gateway.{streams_code};

    ghost Value = { gateway.Streams };

    ghost coded = { streams_code };

    ghost view = { λ s. maps.of_list s.framers.entries };
}

/// How long a message of a session may be.
fn limit_of(session: u32) -> u64
    ensures { result ≡ limit_of session }
{
    if session == 0 { u64::MAX } else { LONGEST }
}

impl Streams {
    pub(crate) fn new(alloc: Global) -> Streams
        ensures { result ≡ maps.empty }
    {
        Streams {
            alloc,
            framers: BTreeMap::new(alloc),
        }
    }

    /// Takes the stream of a session out, or opens it.
    pub(crate) fn take(&mut self, session: u32) -> Framer
        ensures stream { result ≡ stream_of self.old session }
        ensures left { self.new ≡ maps.remove self.old session }
    {
        match self.framers.remove(&session) {
            Some(framer) => framer,
            None => Framer::new(self.alloc, limit_of(session)),
        }
    }

    /// Puts a session's stream in.
    pub(crate) fn put(&mut self, session: u32, framer: Framer) -> Result<(), OutOfMemory>
        ensures { OnOk result (self.new ≡ maps.insert self.old session framer) }
    {
        self.framers.insert(session, framer)?;
        Ok(())
    }

    /// Closes a session, and says whether it was open.
    pub(crate) fn close(&mut self, session: u32) -> bool
        ensures open { result ≡ maps.has self.old session }
        ensures left { self.new ≡ maps.remove self.old session }
    {
        self.framers.remove(&session).is_some()
    }
}
