//! The monitors of a session.

ghost use Rattle.std.specs.Prelude.{◌≡◌, ◌++◌, codes, false, string_bytes, IfOk, OnOk};
ghost use Rattle.std.specs.List.{flat_map};
ghost use Rattle.serde_json.specs.View.{view};
ghost use Rattle.serde_json.specs.Written.{has_float, compact_text};
ghost use Rattle.rpc_framing.specs.Said.{Notification};
ghost use Rattle.vtep_base.specs.Reading.{same_bytes};
ghost use Rattle.vtep_rows.specs.Rows.{Rows as AllRows};
ghost use Rattle.vtep_rows.specs.Changes.{changes};
ghost use Rattle.vtep_gateway.specs.Sessions.{outgoing};
ghost use Rattle.vtep_gateway.specs.Monitors.{told, is_open, is_free, others};

use crate::Outgoing;
use crate::replies::sent;
use monitor_updates::Monitor;
use rpc_framing::Message;
use serde_json::Value;
use std::alloc::Global;
use std::marker::Model;
use vtep_base::{List, OutOfMemory, Txt, Word};
use vtep_rows::Change;

/// The most monitors of a session.
const MOST: usize = 16;

/// A monitor of a session, and its name as it is written. Contracts see this text, and what is asked of each table.
#[derive(Drop)]
pub(crate) struct OpenMonitor {
    pub(crate) name: String,
    pub(crate) monitor: Monitor,
}

impl Model for OpenMonitor {
    ghost use Rattle.std.specs.Prelude.{string_bytes};
    ghost use Rattle.vtep_gateway.specs.Monitors as monitors;
    ghost use Rattle.vtep_gateway.specs.Monitors.{open_monitor_code, IsNamed};

    ghost Value = { monitors.OpenMonitor };

    ghost coded = { open_monitor_code };

    ghost view = { λ w. record { name = string_bytes w.name; request = w.monitor.request } };

    ghost invariant = { λ w. IsNamed (string_bytes w.name) w.monitor.id };
}

/// The text of a monitor's name.
pub(crate) fn name_text(alloc: Global, id: &Value) -> Result<String, OutOfMemory>
    requires plain { has_float (view id.now) ≡ false }
    ensures { IfOk result (λ text. string_bytes text ≡ compact_text (view id.now)) }
{
    Ok(id.to_string(alloc)?)
}

/// An update for a session.
fn update(alloc: Global, session: u32, params: Value) -> Result<Outgoing, OutOfMemory>
    requires plain { has_float (view params) ≡ false }
    ensures { IfOk result (λ o. o ≡ outgoing session
        (Notification (codes "update") (view params))) }
{
    let method = Txt::from_str(alloc, "update")?;
    sent(alloc, session, &Message::Notification { method, params })
}

impl OpenMonitor {
    /// Whether this is its name, as it is written.
    fn is_named(&self, name: &str) -> bool
        ensures { result ≡ same_bytes self.now.name name.now }
    {
        self.name.as_str() == name
    }

    /// Adds the update that a change of the rows makes, where it makes one.
    fn tell(
        &self,
        alloc: Global,
        session: u32,
        change: &Change,
        sends: &mut List<Outgoing>,
    ) -> Result<(), OutOfMemory>
        ensures { (old : AllRows) → (new : AllRows) → change.now ≡ changes old new
            → OnOk result (sends.new ≡ sends.old ++ told old new session self.now) }
    {
        match self.monitor.notice(alloc, change)? {
            Some(params) => sends.push(update(alloc, session, params)?),
            None => Ok(()),
        }
    }
}

/// Adds the updates that a change of the rows makes, in the order of the monitors.
pub(crate) fn tell_each(
    alloc: Global,
    session: u32,
    monitors: &[OpenMonitor],
    change: &Change,
    sends: &mut List<Outgoing>,
) -> Result<(), OutOfMemory>
    ensures { (old : AllRows) → (new : AllRows) → change.now ≡ changes old new
        → OnOk result (sends.new ≡ sends.old ++ flat_map (told old new session) monitors.now) }
{
    'monitors: for monitor in monitors {
        monitor.tell(alloc, session, change, sends)?;
    }
    Ok(())
}

/// Some monitor has this name.
pub(crate) fn is_open(monitors: &[OpenMonitor], name: &str) -> bool
    ensures { result ≡ is_open monitors.now name.now }
{
    'monitors: for monitor in monitors {
        if monitor.is_named(name) {
            return true;
        }
    }
    false
}

/// One more monitor may be opened, of this name.
pub(crate) fn is_free(monitors: &[OpenMonitor], name: &str) -> Result<(), Word>
    ensures { result ≡ is_free monitors.now name.now }
{
    if is_open(monitors, name) {
        return Err(Word::DuplicateMonitor);
    }
    if monitors.len() >= MOST {
        return Err(Word::ResourcesExhausted);
    }
    Ok(())
}

/// The monitors but that of this name.
pub(crate) fn others(monitors: List<OpenMonitor>, name: &str) -> List<OpenMonitor>
    ensures { result ≡ others monitors name.now }
{
    let mut monitors = monitors.into_vec();
    monitors.retain(|monitor| !monitor.is_named(name));
    List::from_vec(monitors)
}
