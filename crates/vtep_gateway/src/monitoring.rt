//! Requests for monitors (RFC 7047, sections 4.1.5 and 4.1.7).

ghost use Rattle.std.specs.Prelude.{◌≡◌, [], false, Ok, IfOk, IfErr, option_map, string_bytes};
ghost use Rattle.serde_json.specs.View.{view};
ghost use Rattle.serde_json.specs.Written.{has_float};
ghost use Rattle.monitor_updates.specs.Requests.{IsRefusal};
ghost use Rattle.monitor_updates.specs.Updates.{opening_json};
ghost use Rattle.vtep_gateway.specs.Methods.{monitor_for, monitor_in, cancel_in, seen};
ghost use Rattle.vtep_gateway.specs.Monitors.{asks, one_of, others, left_by};

use crate::methods::{Called, in_database};
use crate::open_monitors::{OpenMonitor, is_free, is_open, name_text};
use crate::vtep::Vtep;
use monitor_updates::{Monitor, MonitorFault};
use serde_json::{Map, Value};
use std::alloc::Global;
use vtep_base::{OutOfMemory, Word};
use vtep_rows::Rows;

/// The name and the requests: of three parameters, of which the last is an object.
fn asks(params: &Value) -> Option<(&Value, &Value)>
    ensures { option_map (λ a. (view a.0.now, view a.1.now)) result ≡ asks (view params.now) }
{
    let [_database, id, requests] = params.as_array()?.as_slice() else {
        return None;
    };
    if requests.is_object() {
        Some((id, requests))
    } else {
        None
    }
}

/// The one parameter.
fn one_of(params: &Value) -> Option<&Value>
    ensures { option_map (λ v. view v.now) result ≡ one_of (view params.now) }
{
    match params.as_array()?.as_slice() {
        [id] => Some(id),
        _ => None,
    }
}

/// The monitor that the parameters ask for beside these, and the rows that are there, as it is told of them.
fn monitor_for(
    alloc: Global,
    rows: &Rows,
    monitors: &[OpenMonitor],
    params: &Value,
) -> Result<(OpenMonitor, Value), MonitorFault>
    requires plain { has_float (view params.now) ≡ false }
    ensures ok { IfOk result (λ r. monitor_for monitors.now (view params.now) ≡ Ok r.0) }
    ensures reply { IfOk result (λ r. view r.1 ≡ opening_json r.0.request rows.now) }
    ensures plain { IfOk result (λ r. has_float (view r.1) ≡ false) }
    ensures err { IfErr result (λ f. IsRefusal f (monitor_for monitors.now (view params.now))) }
{
    let Some((id, requests)) = asks(params) else {
        return Err(MonitorFault::Word(Word::SyntaxError));
    };
    in_database(params)?;
    let name = name_text(alloc, id)?;
    is_free(monitors, name.as_str())?;
    let (monitor, reply) = Monitor::open(alloc, rows, id, requests)?;
    Ok((OpenMonitor { name, monitor }, reply))
}

/// The name of the monitor that the parameters name.
fn to_cancel(
    alloc: Global,
    monitors: &[OpenMonitor],
    params: &Value,
) -> Result<String, MonitorFault>
    requires plain { has_float (view params.now) ≡ false }
    ensures ok { IfOk result (λ name. left_by monitors.now (view params.now)
        ≡ Ok (others monitors.now (string_bytes name))) }
    ensures err { IfErr result (λ f. IsRefusal f (left_by monitors.now (view params.now))) }
{
    let Some(id) = one_of(params) else {
        return Err(MonitorFault::Word(Word::SyntaxError));
    };
    let name = name_text(alloc, id)?;
    if !is_open(monitors, name.as_str()) {
        return Err(MonitorFault::Word(Word::UnknownMonitor));
    }
    Ok(name)
}

impl Vtep {
    /// Opens a monitor of a session. Gives the rows that are there, or the word of refusal.
    pub(crate) fn monitor(&mut self, session: u32, params: &Value) -> Result<Called, OutOfMemory>
        requires plain { has_float (view params.now) ≡ false }
        ensures left { IfOk result (λ _. self.new
            ≡ (monitor_in self.old session (view params.now)).vtep) }
        ensures quiet { (monitor_in self.old session (view params.now)).before ≡ [] }
        ensures rows { self.new.rows ≡ self.old.rows }
        ensures learned { self.new.learned ≡ self.old.learned }
        ensures result { IfOk result
            (λ r. seen r ≡ (monitor_in self.old session (view params.now)).result) }
        ensures plain { IfOk result (λ r. IfOk r (λ v. has_float (view v) ≡ false)) }
    {
        match monitor_for(
            self.alloc,
            self.database.rows(),
            self.monitors.of(session),
            params,
        ) {
            Ok((monitor, reply)) => {
                self.monitors.add(session, monitor)?;
                Ok(Ok(reply))
            }
            Err(MonitorFault::Word(word)) => Ok(Err(word)),
            Err(MonitorFault::OutOfMemory) => Err(OutOfMemory),
        }
    }

    /// Closes a monitor of a session, or gives the word of refusal.
    pub(crate) fn monitor_cancel(
        &mut self,
        session: u32,
        params: &Value,
    ) -> Result<Called, OutOfMemory>
        requires plain { has_float (view params.now) ≡ false }
        ensures left { IfOk result (λ _. self.new
            ≡ (cancel_in self.old session (view params.now)).vtep) }
        ensures quiet { (cancel_in self.old session (view params.now)).before ≡ [] }
        ensures rows { self.new.rows ≡ self.old.rows }
        ensures learned { self.new.learned ≡ self.old.learned }
        ensures result { IfOk result
            (λ r. seen r ≡ (cancel_in self.old session (view params.now)).result) }
        ensures plain { IfOk result (λ r. IfOk r (λ v. has_float (view v) ≡ false)) }
    {
        match to_cancel(self.alloc, self.monitors.of(session), params) {
            Ok(name) => {
                self.monitors.cancel(session, name.as_str())?;
                Ok(Ok(Value::Object(Map::new(self.alloc))))
            }
            Err(MonitorFault::Word(word)) => Ok(Err(word)),
            Err(MonitorFault::OutOfMemory) => Err(OutOfMemory),
        }
    }
}
