//! The monitors of all sessions.

ghost use Rattle.std.specs.Prelude.{◌≡◌, ◌++◌, OnOk};
ghost use Rattle.vtep_base.specs.Maps as maps;
ghost use Rattle.vtep_rows.specs.Rows.{Rows as AllRows};
ghost use Rattle.vtep_rows.specs.Changes.{changes};
ghost use Rattle.vtep_gateway.specs.Monitors.{monitors_of, with_monitor, others, told_all};

use crate::Outgoing;
use crate::open_monitors::{OpenMonitor, others, tell_each};
use std::alloc::Global;
use std::collections::BTreeMap;
use std::collections::btree_map::Iter;
use std::marker::Model;
use vtep_base::{List, OutOfMemory};
use vtep_rows::Change;

/// The monitors of each session, in the order in which they were opened.
#[derive(Drop)]
pub(crate) struct Monitors {
    alloc: Global,
    by_session: BTreeMap<u32, List<OpenMonitor>>,
}

impl Model for Monitors {
    ghost use Rattle.vtep_base.specs.Maps as maps;
    ghost use Rattle.vtep_gateway.specs.Monitors as monitors;
    ghost use Rattle.vtep_gateway.specs.Monitors.{monitors_code};

    ghost Value = { monitors.Monitors };

    ghost coded = { monitors_code };

    ghost view = { λ m. maps.of_list m.by_session.entries };
}

impl Monitors {
    pub(crate) fn new(alloc: Global) -> Monitors
        ensures { result ≡ maps.empty }
    {
        Monitors {
            alloc,
            by_session: BTreeMap::new(alloc),
        }
    }

    /// The monitors of a session.
    pub(crate) fn of(&self, session: u32) -> &[OpenMonitor]
        ensures { result.now ≡ monitors_of self.now session }
    {
        match self.by_session.get(&session) {
            Some(monitors) => monitors.as_slice(),
            None => &[],
        }
    }

    /// Takes the monitors of a session out.
    fn take(&mut self, session: u32) -> List<OpenMonitor>
        ensures monitors { result ≡ monitors_of self.old session }
        ensures left { self.new ≡ maps.remove self.old session }
    {
        match self.by_session.remove(&session) {
            Some(monitors) => monitors,
            None => List::new(self.alloc),
        }
    }

    /// Puts the monitors of a session in.
    fn put(&mut self, session: u32, monitors: List<OpenMonitor>) -> Result<(), OutOfMemory>
        ensures { OnOk result (self.new ≡ maps.insert self.old session monitors) }
    {
        self.by_session.insert(session, monitors)?;
        Ok(())
    }

    /// Adds a monitor to those of a session.
    pub(crate) fn add(&mut self, session: u32, monitor: OpenMonitor) -> Result<(), OutOfMemory>
        ensures { OnOk result (self.new ≡ with_monitor self.old session monitor) }
    {
        let mut monitors = self.take(session);
        monitors.push(monitor)?;
        self.put(session, monitors)
    }

    /// Takes the monitor of this name away from those of a session.
    pub(crate) fn cancel(&mut self, session: u32, name: &str) -> Result<(), OutOfMemory>
        ensures { OnOk result (self.new
            ≡ maps.insert self.old session (others (monitors_of self.old session) name.now)) }
    {
        let monitors = self.take(session);
        self.put(session, others(monitors, name))
    }

    /// Takes all monitors of a session away.
    pub(crate) fn close(&mut self, session: u32)
        ensures { self.new ≡ maps.remove self.old session }
    {
        let _monitors = self.take(session);
    }

    fn iter(&self) -> Iter<'_, u32, List<OpenMonitor>>
        ensures { result ≡ self.now.list }
    {
        self.by_session.iter()
    }

    /// Adds the updates that a change of the rows makes, by session, then in the order of opening. Where nothing changed, no
    /// monitor is looked at.
    pub(crate) fn tell(
        &self,
        alloc: Global,
        change: &Change,
        sends: &mut List<Outgoing>,
    ) -> Result<(), OutOfMemory>
        ensures { (old : AllRows) → (new : AllRows) → change.now ≡ changes old new
            → OnOk result (sends.new ≡ sends.old ++ told_all old new self.now) }
    {
        if change.is_empty() {
            return Ok(());
        }
        'sessions: for (session, monitors) in self.iter() {
            tell_each(alloc, *session, monitors.as_slice(), change, sends)?;
        }
        Ok(())
    }
}
