//! Laws of the definitions: what is refused changes nothing, how updates are sent, and that names are values.

ghost use Rattle.std.specs.Prelude.{◌≡◌, ℕ, ◌<◌, ◌^◌, List, true, [], ◌∷◌, None, Some, IsOk, codes};
ghost use Rattle.serde_json.specs.Data.{Data};
ghost use Rattle.serde_json.specs.Written.{compact_text};
ghost use Rattle.json_notation.specs.Json.{list};
ghost use Rattle.rpc_framing.specs.Said.{Notification};
ghost use Rattle.rpc_framing.specs.Written.{message_text};
ghost use Rattle.vtep_base.specs.Reading.{Bytes};
ghost use Rattle.rpc_framing.specs.Streams.{fed};
ghost use Rattle.rpc_framing.specs.Pieces.{come};
ghost use Rattle.transact_profile.specs.Meaning.{means};
ghost use Rattle.transact_profile.specs.Transaction.{ops_in};
ghost use Rattle.vtep_gateway.specs.declared.Event.{Event};
ghost use Rattle.vtep_gateway.specs.declared.Event.TheVariants as event;
ghost use Rattle.vtep_gateway.specs.declared.EventRefused.{EventRefused};
ghost use Rattle.vtep_base.specs.Texts.{is_name};
ghost use Rattle.vtep_rows.specs.Rows.{Rows, IsRows, opening};
ghost use Rattle.mac_learning.specs.declared.Learn.TheVariants as learn;
ghost use Rattle.mac_learning.specs.declared.Learnt.{Learnt};
ghost use Rattle.mac_learning.specs.Learning.{put, kept_at};
ghost use Rattle.forward_program.specs.Readings.{own_ip};
ghost use Rattle.local_tables.specs.LocalRows.{is_individual};
ghost use Rattle.local_tables.specs.Followed.{is_bound_there, commit};
ghost use Rattle.vtep_gateway.specs.Commit.{commit_of};
ghost use Rattle.vtep_gateway.specs.Learning.{learns_in};
ghost use Rattle.vtep_gateway.specs.Good.{IsGood};
ghost use Rattle.vtep_gateway.specs.Ports.{port_refusal, with_port, without_port};
ghost use Rattle.vtep_gateway.specs.Settled.{IsEvent, LeavesRest};
ghost use Rattle.vtep_gateway.specs.Names.{IsWhole};
ghost use Rattle.vtep_gateway.specs.Vtep.{Vtep};
ghost use Rattle.vtep_gateway.specs.Gateway.{Gateway};
ghost use Rattle.vtep_gateway.specs.Methods.{in_database, fails, transact_in};
ghost use Rattle.vtep_gateway.specs.Monitors.{update_text};
ghost use Rattle.vtep_gateway.specs.Sessions.{stream_of};
ghost use Rattle.vtep_gateway.specs.Moves.{step};

/// An event that is refused leaves the gateway as it was.
pub fn refused_changes_nothing()
    ensures { (g : Gateway) (e : Event) (why : EventRefused) → (step g e).answer.refused ≡ Some why
        → (step g e).gateway ≡ g }
{}

/// A transaction of which an operation fails, or which leaves rows that break a rule, changes no row, gives no number, and takes no
/// learnt address away.
pub fn failed_changes_nothing()
    ensures { (v : Vtep) (params : Data) → fails v (means (ops_in params) v.rows) ≡ true
        → (transact_in v params (in_database params)).vtep ≡ v }
{}

/// A piece that ends no message, as each piece of a refused session, changes no row. Messages before a refusal keep their effect.
pub fn unfinished_changes_nothing()
    ensures { (g : Gateway) (s : ℕ) (piece : Bytes)
        → (come (fed (stream_of g.streams s) piece)).messages ≡ []
        → (step g (event.Bytes s piece)).gateway.vtep ≡ g.vtep }
{}

/// An update as it is sent is the notification `update` whose params are the monitor's name and the table updates (RFC 7047, section
/// 4.1.6).
pub fn updates_are_notifications()
    ensures { (id : Data) → (updates : Data) → update_text (compact_text id) updates
        ≡ message_text (Notification (codes "update") (list (id ∷ updates ∷ []))) }
{}

/// Monitors' names are compared as compact texts, and these are equal only where the names are equal values: for values whose
/// numbers are whole ones of 64 bits.
pub fn names_are_values()
    ensures { (a b : Data) → IsWhole a → IsWhole b → compact_text a ≡ compact_text b → a ≡ b }
{}

/// A new gateway's rows are sound and collected, have the one row of Physical_Switch with its tunnel address and its ports, and no
/// row of a Local table; and it has learnt nothing.
pub fn new_is_good()
    ensures { (name : Bytes) (ip : ℕ) → is_name name ≡ true → ip < 2 ^ 32 → IsGood (opening name ip) [] }
{}

/// Every event leaves rows that are sound and collected, with the one row of Physical_Switch, its tunnel address and its ports, and
/// Local tables that are those of what is learnt and of the bound switches.
pub fn events_keep_good()
    ensures { (g : Gateway) (e : Event) → IsEvent e → IsGood g.vtep.rows g.vtep.learned
        → IsGood (step g e).gateway.vtep.rows (step g e).gateway.vtep.learned }
{}

/// The commit of a port that comes or goes, of an address that is learnt or moves, and of ageing never breaks a rule.
pub fn other_commits_are_kept()
    ensures port_comes { (r : Rows) (l : List Learnt) (name : Bytes) → IsGood r l
        → is_name name ≡ true → port_refusal r name ≡ None
        → IsOk (commit (own_ip r) r (with_port r name) l) }
    ensures port_goes { (r : Rows) (l : List Learnt) (id : ℕ) → IsGood r l
        → IsOk (commit (own_ip r) r (without_port r id) l) }
    ensures learning { (v : Vtep) (new : Learnt) → IsGood v.rows v.learned
        → is_individual new.mac ≡ true → is_bound_there v.rows new ≡ true
        → (learns_in v new ≡ learn.Full → ⊥) → IsOk (commit_of v v.rows (put new v.learned)) }
    ensures ageing { (r : Rows) (l : List Learnt) (now : ℕ) → IsGood r l
        → IsOk (commit (own_ip r) r r (kept_at now l)) }
{}

/// The operations of a transaction leave the tables that are not open to sessions with the same rows, and change no column of
/// these but those that sessions write: of Physical_Port `vlan_bindings` and `acl_bindings`, of all others none.
pub fn sessions_leave_the_rest()
    ensures { (params : Data) (r : Rows) → IsRows r → LeavesRest r (means (ops_in params) r).rows }
{}
