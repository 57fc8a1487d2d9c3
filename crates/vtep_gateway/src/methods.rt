//! What a request does (RFC 7047, section 4.1).

ghost use Rattle.std.specs.Prelude.{◌≡◌, ◌++◌, [], false, Ok, IfOk, OnOk};
ghost use Rattle.transact_profile.specs.Meaning.{means};
ghost use Rattle.transact_profile.specs.Transaction.{ops_in};
ghost use Rattle.serde_json.specs.View.{view};
ghost use Rattle.serde_json.specs.Written.{has_float};
ghost use Rattle.vtep_gateway.specs.Methods.{method_of, in_database, databases, schema_in, transacted, transact_in, called, seen};
ghost use Rattle.vtep_gateway.specs.Good.{IsGood};
ghost use Rattle.vtep_gateway.specs.Ready.{fib_of};

use crate::Outgoing;
use crate::commit::{CommitFault, commit};
use crate::frames::own_address;
use crate::vtep::Vtep;
use forward_program::Fib;
use serde_json::Value;
use std::alloc::Global;
use transact_profile::{finish, read_ops, transact_on};
use vtep_base::{Ledger, List, OutOfMemory, Steps, Word};

/// What a method gives: its result, or the word of refusal (RFC 7047, section 4.1).
pub(crate) type Called = Result<Value, Word>;

/// The methods that are known.
#[derive(Clone, Copy)]
pub(crate) enum Method {
    Echo,
    ListDbs,
    GetSchema,
    Transact,
    Monitor,
    MonitorCancel,
}

/// The method of this name.
pub(crate) fn method_of(name: &str) -> Option<Method>
    ensures { result ≡ method_of name.now }
{
    match name {
        "echo" => Some(Method::Echo),
        "list_dbs" => Some(Method::ListDbs),
        "get_schema" => Some(Method::GetSchema),
        "transact" => Some(Method::Transact),
        "monitor" => Some(Method::Monitor),
        "monitor_cancel" => Some(Method::MonitorCancel),
        _ => None,
    }
}

/// The first of the parameters is the name of the database.
pub(crate) fn in_database(params: &Value) -> Result<(), Word>
    ensures { result ≡ in_database (view params.now) }
{
    let Some(name) = params.get(0).and_then(Value::as_str) else {
        return Err(Word::SyntaxError);
    };
    if name == "hardware_vtep" {
        Ok(())
    } else {
        Err(Word::UnknownDatabase)
    }
}

/// The names of the databases.
fn databases(alloc: Global) -> Result<Value, OutOfMemory>
    ensures value { IfOk result (λ v. view v ≡ databases) }
{
    let mut names = Vec::new(alloc);
    names.push(Value::String(String::from_str(alloc, "hardware_vtep")?))?;
    Ok(Value::Array(names))
}

/// The schema, for those who name the database.
fn schema_in(alloc: Global, params: &Value) -> Result<Called, OutOfMemory>
    ensures { IfOk result (λ r. seen r ≡ schema_in (view params.now)) }
{
    match in_database(params) {
        Ok(()) => Ok(Ok(vtep_schema::get_schema(alloc)?)),
        Err(word) => Ok(Err(word)),
    }
}

impl Vtep {
    /// Runs a transaction, and gives its results. Where it fails or the rows break a rule, all is as it was. The forwarding state
    /// follows.
    fn transacted<L: Ledger>(
        &mut self,
        params: Value,
        fib: &mut Fib<L>,
        steps: &mut Steps<L>,
        sends: &mut List<Outgoing>,
    ) -> Result<Value, OutOfMemory>
        requires good { IsGood self.old.rows self.old.learned }
        requires fib { fib.old ≡ fib_of self.old.rows self.old.learned }
        ensures left { OnOk result (self.new
            ≡ (transacted self.old (means (ops_in (view params)) self.old.rows)).vtep) }
        ensures before { OnOk result (sends.new ≡ sends.old
            ++ (transacted self.old (means (ops_in (view params)) self.old.rows)).before) }
        ensures result { IfOk result (λ v. Ok (view v)
            ≡ (transacted self.old (means (ops_in (view params)) self.old.rows)).result) }
        ensures good { OnOk result (IsGood self.new.rows self.new.learned) }
        ensures fib { OnOk result (fib.new ≡ fib_of self.new.rows self.new.learned) }
        ensures plain { IfOk result (λ v. has_float (view v) ≡ false) }
    {
        let ops = read_ops(self.alloc, &params)?;
        // They may be the largest part of what is held, so neither stays longer than it has to.
        drop(params);
        let own = own_address(self.rows());
        self.database.begin();
        let outcome = transact_on(self.alloc, &mut self.database, &ops)?;
        drop(ops);
        if outcome.failed {
            return finish(self.alloc, &outcome, None);
        }
        match commit(self.alloc, &mut self.database, own, &self.learned) {
            Ok(kept) => {
                self.conclude(kept, fib, steps, sends)?;
                finish(self.alloc, &outcome, None)
            }
            Err(CommitFault::Broken(rule)) => finish(self.alloc, &outcome, Some(rule)),
            Err(CommitFault::OutOfMemory) => Err(OutOfMemory),
        }
    }

    /// Runs a transaction, for those who name the database.
    fn transact_in<L: Ledger>(
        &mut self,
        params: Value,
        fib: &mut Fib<L>,
        steps: &mut Steps<L>,
        sends: &mut List<Outgoing>,
    ) -> Result<Called, OutOfMemory>
        requires good { IsGood self.old.rows self.old.learned }
        requires fib { fib.old ≡ fib_of self.old.rows self.old.learned }
        ensures left { OnOk result (self.new
            ≡ (transact_in self.old (view params) (in_database (view params))).vtep) }
        ensures before { OnOk result (sends.new ≡ sends.old
            ++ (transact_in self.old (view params) (in_database (view params))).before) }
        ensures result { IfOk result (λ r. seen r
            ≡ (transact_in self.old (view params) (in_database (view params))).result) }
        ensures good { OnOk result (IsGood self.new.rows self.new.learned) }
        ensures fib { OnOk result (fib.new ≡ fib_of self.new.rows self.new.learned) }
        ensures plain { IfOk result (λ r. IfOk r (λ v. has_float (view v) ≡ false)) }
    {
        if let Err(word) = in_database(&params) {
            return Ok(Err(word));
        }
        Ok(Ok(self.transacted(params, fib, steps, sends)?))
    }

    /// Does what a session requests. Adds what is sent before the reply, and gives the result or the word of refusal. The forwarding
    /// state follows.
    pub(crate) fn called<L: Ledger>(
        &mut self,
        session: u32,
        method: Option<Method>,
        params: Value,
        fib: &mut Fib<L>,
        steps: &mut Steps<L>,
        sends: &mut List<Outgoing>,
    ) -> Result<Called, OutOfMemory>
        requires good { IsGood self.old.rows self.old.learned }
        requires fib { fib.old ≡ fib_of self.old.rows self.old.learned }
        requires plain { has_float (view params) ≡ false }
        ensures left { OnOk result (self.new
            ≡ (called self.old session method (view params)).vtep) }
        ensures before { OnOk result (sends.new
            ≡ sends.old ++ (called self.old session method (view params)).before) }
        ensures result { IfOk result
            (λ r. seen r ≡ (called self.old session method (view params)).result) }
        ensures good { OnOk result (IsGood self.new.rows self.new.learned) }
        ensures fib { OnOk result (fib.new ≡ fib_of self.new.rows self.new.learned) }
        ensures plain { IfOk result (λ r. IfOk r (λ v. has_float (view v) ≡ false)) }
    {
        match method {
            Some(Method::Echo) => Ok(Ok(params)),
            Some(Method::ListDbs) => Ok(Ok(databases(self.alloc)?)),
            Some(Method::GetSchema) => schema_in(self.alloc, &params),
            Some(Method::Transact) => self.transact_in(params, fib, steps, sends),
            Some(Method::Monitor) => self.monitor(session, &params),
            Some(Method::MonitorCancel) => self.monitor_cancel(session, &params),
            None => Ok(Err(Word::UnknownMethod)),
        }
    }
}
