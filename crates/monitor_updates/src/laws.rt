//! What the definitions promise of one another.

ghost use Rattle.std.specs.Prelude.{◌≡◌, ◌↔◌, List, [], true, false, Ok};
ghost use Rattle.vtep_base.specs.Maps as maps;
ghost use Rattle.vtep_rows.specs.Rows.{Rows, IsRows};
ghost use Rattle.monitor_updates.specs.declared.requests.MonitorRequest.{MonitorRequest};
ghost use Rattle.monitor_updates.specs.Noted.{view, noted, folded, wants_all, everything, IsWritable};
ghost use Rattle.monitor_updates.specs.Updates.{updates_json, opening_json};
ghost use Rattle.monitor_updates.specs.Mirrored.{taken};

use ovsdb_values::written_is_read;

/// A law: folding the updates of a change over the view of the rows before it gives the view of the rows after it, for each
/// request that leaves out no kind of update.
pub fn updates_lead_on()
    ensures { (request : List MonitorRequest) (old new : Rows) → wants_all request ≡ true
        → folded (view request old) (noted request old new) ≡ view request new }
{}

/// Laws of a monitor of all columns of all tables: a mirror that takes the answer to its request holds the rows, and one that
/// holds the rows before a change and takes its update holds the rows after it. There is nothing to tell exactly where the rows
/// stay the same.
pub fn mirrors_follow()
    ensures opened { (r : Rows) → IsRows r → IsWritable r
        → taken true maps.empty (opening_json everything r) ≡ Ok r.rows }
    ensures silent { (old new : Rows) → IsRows old → IsRows new → IsWritable old → IsWritable new
        → (noted everything old new ≡ []) ↔ (old.rows ≡ new.rows) }
    ensures updated { (old new : Rows) → IsRows old → IsRows new → IsWritable old → IsWritable new
        → taken false old.rows (updates_json (noted everything old new)) ≡ Ok new.rows }
{
    written_is_read();
}
