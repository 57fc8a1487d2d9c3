//! Monitors.

ghost use Rattle.std.specs.Prelude.{◌≡◌, false, [], ◌∷◌, IfSome, option_map, Ok, IfOk, IfErr};
ghost use Rattle.serde_json.specs.Data.{object};
ghost use Rattle.serde_json.specs.View.{view, members_view};
ghost use Rattle.serde_json.specs.Written.{has_float};
ghost use Rattle.json_notation.specs.Json.{list};
ghost use Rattle.vtep_rows.specs.Rows.{Rows as AllRows};
ghost use Rattle.vtep_rows.specs.Changes.{changes};
ghost use Rattle.monitor_updates.specs.Updates.{params_json, notice_json, opening_json};
ghost use Rattle.monitor_updates.specs.Requests.{IsRefusal, request_of};
ghost use Rattle.monitor_updates.specs.OneRow.{noted_in};

use crate::opening::opening;
use crate::requests::{MonitorFault, MonitorRequest, request_of};
use crate::updates::tables_told;
use serde_json::{Map, Value};
use std::alloc::Global;
use vtep_base::{List, OutOfMemory};
use vtep_rows::{Change, RowChange, Rows};

/// What a session is told of the rows.
#[derive(Debug, Drop)]
pub struct Monitor {
    /// The name that the session gave it, any JSON value.
    pub id: Value,
    /// What is asked of each table.
    pub request: List<MonitorRequest>,
}

fn copy_of(value: &Value) -> Result<Value, OutOfMemory>
    ensures { IfOk result (λ copy. view copy ≡ view value.now) }
{
    Ok(value.clone()?)
}

impl Monitor {
    /// The monitor of this name and these requests (RFC 7047, section 4.1.5), and the answer to them: the rows that are there.
    ///
    /// The refusal is that of the first table, in the order of the tables' names, that has one: `unknown table`, `syntax error`,
    /// `not supported` of several requests of one table, `unknown column`.
    #[tactic(auto, using(crate::proofs::NoFraction::reply_plain))]
    pub fn open(
        alloc: Global,
        rows: &Rows,
        id: &Value,
        requests: &Value,
    ) -> Result<(Monitor, Value), MonitorFault>
        ensures request { IfOk result (λ r. request_of (view requests.now) ≡ Ok r.0.request) }
        ensures id { IfOk result (λ r. view r.0.id ≡ view id.now) }
        ensures reply { IfOk result (λ r. view r.1 ≡ opening_json r.0.request rows.now) }
        // No number in it has a fraction, so its text is known.
        ensures plain { IfOk result (λ r. has_float (view r.1) ≡ false) }
        ensures err { IfErr result (λ f. IsRefusal f (request_of (view requests.now))) }
    {
        let request = request_of(alloc, requests)?;
        let reply = opening(alloc, request.as_slice(), rows)?;
        let id = copy_of(id)?;
        Ok((Monitor { id, request }, reply))
    }

    /// The params of the update that the change makes, `[id, updates]` (RFC 7047, section 4.1.6), or none where nothing is
    /// monitored of what changed. The one error is want of memory.
    pub fn notice(&self, alloc: Global, change: &Change) -> Result<Option<Value>, OutOfMemory>
        ensures told { (old : AllRows) → (new : AllRows) → change.now ≡ changes old new
            → IfOk result (λ o. option_map view o ≡ notice_json (view self.now.id) self.now.request old new) }
        // Where the name has no fraction, nor has what is told.
        ensures plain { has_float (view self.now.id) ≡ false
            → IfOk result (λ o. IfSome o (λ v. has_float (view v) ≡ false)) }
    {
        params_of(alloc, &self.id, self.request.as_slice(), change.as_slice())
    }
}

fn params_of(
    alloc: Global,
    id: &Value,
    request: &[MonitorRequest],
    change: &[RowChange],
) -> Result<Option<Value>, OutOfMemory>
    ensures { IfOk result (λ o. option_map view o
        ≡ params_json (view id.now) (noted_in request.now change.now)) }
{
    let tables = tables_told(alloc, request, change)?;
    if tables.is_empty() {
        return Ok(None);
    }
    Ok(Some(told_params(alloc, id, tables)?))
}

/// The name and the table updates.
fn told_params(alloc: Global, id: &Value, tables: Map<String, Value>) -> Result<Value, OutOfMemory>
    ensures { IfOk result (λ v. view v
        ≡ list (view id.now ∷ object (members_view tables.entries) ∷ [])) }
{
    let mut params = Vec::new(alloc);
    params.push(id.clone()?)?;
    params.push(Value::Object(tables))?;
    Ok(Value::Array(params))
}
