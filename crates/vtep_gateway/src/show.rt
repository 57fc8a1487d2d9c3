//! The text of `show`: what a gateway's forwarding state says, in lines.

ghost use Rattle.std.specs.Prelude.{◌≡◌, ◌++◌, [], List as Listed, false, Some, string_bytes, unwrap_or, filter_map, flat_map, IfOk, OnOk};
ghost use Rattle.vtep_base.specs.Maps as maps;
ghost use Rattle.vtep_rows.specs.Row.{first, text_in, text_at};
ghost use Rattle.vtep_rows.specs.Rows.{Rows as AllRows};
ghost use Rattle.mac_learning.specs.declared.Learnt.{Learnt as Entry};
ghost use Rattle.forward_program.specs.Built.{IsIn};
ghost use Rattle.forward_program.specs.Shown.{shown};
ghost use Rattle.forward_program.specs.Joins.{facts_of};
ghost use Rattle.forward_program.specs.declared.facts.Fact.{Fact as SomeFact};
ghost use Rattle.vtep_gateway.specs.Good.{IsGood};
ghost use Rattle.vtep_gateway.specs.Show.{json_text, row_name, switch_name, acl_name, acl_text, place_text, group_text, ip_text, key_of, line_of, lines_of, heading, show_text, line_cmp};

use crate::frames::own_address;
use crate::lines::{Label, Line};
use crate::open_monitors::name_text;
use forward_program::{Fact, Fib, Place};
use ovsdb_values::{Atom, Datum};
use serde_json::Value;
use std::alloc::Global;
use vtep_base::{Bytes, Ipv4, Ledger, Mac, Name, Ordered, OutOfMemory, RowId, Vlan, Vni};
use vtep_rows::{Row, Rows};
use vtep_schema::{Column, Table};

fn first_text(atoms: &[Atom]) -> &str
    ensures { result.now ≡ unwrap_or (first (filter_map text_in atoms.now)) [] }
{
    'atoms: for atom in atoms {
        if let Atom::Text(text) = atom {
            return text.as_str();
        }
    }
    ""
}

fn text(row: &Row, column: Column) -> &str
    ensures { result.now ≡ text_at row.now column }
{
    match row.find(column) {
        Some(Datum::Set(set)) => first_text(set.as_slice()),
        _ => "",
    }
}

fn row_name(rows: &Rows, table: Table, column: Column, id: RowId) -> &str
    ensures { result.now ≡ row_name rows.now table column id }
{
    match rows.get(table, id) {
        Some(row) => text(row, column),
        None => "",
    }
}

fn switch_name(rows: &Rows, switch: RowId) -> &str
    ensures { result.now ≡ switch_name rows.now switch }
{
    row_name(rows, Table::LogicalSwitch, Column::LogicalName, switch)
}

fn acl_name(rows: &Rows, acl: RowId) -> &str
    ensures { result.now ≡ acl_name rows.now acl }
{
    row_name(rows, Table::Acl, Column::AclName, acl)
}

/// Appends a name as a JSON text.
fn put_json(alloc: Global, name: &str, out: &mut Bytes) -> Result<(), OutOfMemory>
    ensures { OnOk result (out.new ≡ out.old ++ json_text name.now) }
{
    let text = name_text(alloc, &Value::String(String::from_str(alloc, name)?))?;
    out.append(text.as_bytes())
}

fn put_switch(alloc: Global, rows: &Rows, switch: RowId, out: &mut Bytes) -> Result<(), OutOfMemory>
    ensures { OnOk result (out.new ≡ out.old ++ json_text (switch_name rows.now switch)) }
{
    put_json(alloc, switch_name(rows, switch), out)
}

fn put_acl(alloc: Global, rows: &Rows, acl: RowId, out: &mut Bytes) -> Result<(), OutOfMemory>
    ensures { OnOk result (out.new ≡ out.old ++ acl_text rows.now acl) }
{
    out.append(b" acl ")?;
    put_json(alloc, acl_name(rows, acl), out)
}

fn put_acls(alloc: Global, rows: &Rows, acls: &[RowId], out: &mut Bytes) -> Result<(), OutOfMemory>
    ensures { OnOk result (out.new ≡ out.old ++ flat_map (acl_text rows.now) acls.now) }
{
    'acls: for acl in acls {
        put_acl(alloc, rows, *acl, out)?;
    }
    Ok(())
}

fn put_place(place: &Place, out: &mut Bytes) -> Result<(), OutOfMemory>
    ensures { OnOk result (out.new ≡ out.old ++ place_text place.now) }
{
    match place {
        Place::Here { port, vlan } => {
            out.append(b" here ")?;
            port.print(out)?;
            out.append(b" ")?;
            vlan.print(out)
        }
        Place::There(ip) => {
            out.append(b" there ")?;
            ip.print(out)
        }
    }
}

fn put_group(group: &Option<Mac>, out: &mut Bytes) -> Result<(), OutOfMemory>
    ensures { OnOk result (out.new ≡ out.old ++ group_text group.now) }
{
    match group {
        Some(mac) => mac.print(out),
        None => out.append(b"unknown-dst"),
    }
}

fn put_ips(ips: &[Ipv4], out: &mut Bytes) -> Result<(), OutOfMemory>
    ensures { OnOk result (out.new ≡ out.old ++ flat_map ip_text ips.now) }
{
    'ips: for ip in ips {
        out.append(b" ")?;
        ip.print(out)?;
    }
    Ok(())
}

fn vni_line(alloc: Global, rows: &Rows, vni: Vni, switch: RowId) -> Result<Bytes, OutOfMemory>
    ensures { IfOk result (λ line. line ≡ line_of rows.now (SomeFact.Vni vni switch)) }
{
    let mut line = Bytes::new(alloc);
    line.append(b"vni ")?;
    vni.print(&mut line)?;
    line.append(b" ")?;
    put_switch(alloc, rows, switch, &mut line)?;
    line.append(b"\n")?;
    Ok(line)
}

fn bind_line(
    alloc: Global,
    rows: &Rows,
    port: &Name,
    vlan: Vlan,
    switch: RowId,
    acls: &[RowId],
) -> Result<Bytes, OutOfMemory>
    ensures { IfOk result
        (λ line. line ≡ line_of rows.now (SomeFact.Bind port.now vlan switch acls.now)) }
{
    let mut line = Bytes::new(alloc);
    line.append(b"bind ")?;
    port.print(&mut line)?;
    line.append(b" ")?;
    vlan.print(&mut line)?;
    line.append(b" ")?;
    put_switch(alloc, rows, switch, &mut line)?;
    put_acls(alloc, rows, acls, &mut line)?;
    line.append(b"\n")?;
    Ok(line)
}

fn mac_line(
    alloc: Global,
    rows: &Rows,
    switch: RowId,
    mac: Mac,
    place: &Place,
) -> Result<Bytes, OutOfMemory>
    ensures { IfOk result
        (λ line. line ≡ line_of rows.now (SomeFact.Mac switch mac place.now)) }
{
    let mut line = Bytes::new(alloc);
    line.append(b"mac ")?;
    put_switch(alloc, rows, switch, &mut line)?;
    line.append(b" ")?;
    mac.print(&mut line)?;
    put_place(place, &mut line)?;
    line.append(b"\n")?;
    Ok(line)
}

fn flood_line(
    alloc: Global,
    rows: &Rows,
    switch: RowId,
    group: &Option<Mac>,
    addresses: &[Ipv4],
) -> Result<Bytes, OutOfMemory>
    ensures { IfOk result
        (λ line. line ≡ line_of rows.now (SomeFact.Flood switch group.now addresses.now)) }
{
    let mut line = Bytes::new(alloc);
    line.append(b"flood ")?;
    put_switch(alloc, rows, switch, &mut line)?;
    line.append(b" ")?;
    put_group(group, &mut line)?;
    put_ips(addresses, &mut line)?;
    line.append(b"\n")?;
    Ok(line)
}

/// The line of a fact.
fn line_of(alloc: Global, rows: &Rows, fact: &Fact) -> Result<Bytes, OutOfMemory>
    ensures { IfOk result (λ line. line ≡ line_of rows.now fact.now) }
{
    match fact {
        Fact::Vni { vni, switch } => vni_line(alloc, rows, *vni, *switch),
        Fact::Bind {
            port,
            vlan,
            switch,
            lists,
        } => bind_line(alloc, rows, port, *vlan, *switch, lists.as_slice()),
        Fact::Acl { .. } => Ok(Bytes::new(alloc)),
        Fact::Mac { switch, mac, place } => mac_line(alloc, rows, *switch, *mac, place),
        Fact::Flood {
            switch,
            group,
            addresses,
        } => flood_line(alloc, rows, *switch, group, addresses.as_slice()),
    }
}

fn label(alloc: Global, rows: &Rows, switch: RowId) -> Result<Label, OutOfMemory>
    ensures { IfOk result (λ label. label ≡ switch_name rows.now switch) }
{
    Label::new(alloc, switch_name(rows, switch))
}

/// What orders the line of a fact.
fn key_of(alloc: Global, rows: &Rows, fact: &Fact) -> Result<Line, OutOfMemory>
    ensures { IfOk result (λ key. key ≡ key_of rows.now fact.now) }
{
    match fact {
        Fact::Vni { vni, .. } => Ok(Line::Vni(*vni)),
        Fact::Bind { port, vlan, .. } => Ok(Line::Bind(*port, *vlan)),
        Fact::Acl { acl, .. } => Ok(Line::Acl(*acl)),
        Fact::Mac { switch, mac, .. } => Ok(Line::Mac(label(alloc, rows, *switch)?, *mac)),
        Fact::Flood { switch, group, .. } => {
            Ok(Line::Flood(label(alloc, rows, *switch)?, *group))
        }
    }
}

fn put_line(
    alloc: Global,
    rows: &Rows,
    fact: &Fact,
    lines: &mut Ordered<Line, Bytes>,
) -> Result<(), OutOfMemory>
    ensures { OnOk result (maps.map_by line_cmp lines.new ≡ maps.insert
        (maps.map_by line_cmp lines.old) (key_of rows.now fact.now) (line_of rows.now fact.now)) }
{
    let key = key_of(alloc, rows, fact)?;
    let line = line_of(alloc, rows, fact)?;
    lines.put(key, line)?;
    Ok(())
}

/// The lines of facts, in their order.
fn lines_of(alloc: Global, rows: &Rows, facts: &[Fact]) -> Result<Ordered<Line, Bytes>, OutOfMemory>
    ensures { IfOk result (λ lines. maps.map_by line_cmp lines ≡ lines_of rows.now facts.now) }
{
    let mut lines = Ordered::new(alloc);
    'facts: for fact in facts {
        put_line(alloc, rows, fact, &mut lines)?;
    }
    Ok(lines)
}

fn put_lines(lines: &Ordered<Line, Bytes>, out: &mut Bytes) -> Result<(), OutOfMemory>
    ensures { OnOk result (out.new
        ≡ out.old ++ flat_map (λ e. e.1) (maps.map_by line_cmp lines.now).list) }
{
    'lines: for (_, line) in lines.walk(None) {
        out.append(line.as_slice())?;
    }
    Ok(())
}

fn put_heading(name: &Name, rows: &Rows, out: &mut Bytes) -> Result<(), OutOfMemory>
    ensures { OnOk result (out.new ≡ out.old ++ heading name.now rows.now) }
{
    out.append(b"show ")?;
    name.print(out)?;
    out.append(b" ")?;
    own_address(rows).print(out)?;
    out.append(b"\n")
}

/// Appends the text of `show`: the gateway's name and its own address, and a line for each fact of
/// its forwarding state, those of ACLs apart.
pub(crate) fn show<L: Ledger>(
    alloc: Global,
    name: &Name,
    rows: &Rows,
    fib: &Fib<L>,
    out: &mut Bytes,
) -> Result<(), OutOfMemory>
    requires going { fib.now.broken ≡ false }
    ensures { OnOk result (out.new
        ≡ out.old ++ show_text name.now rows.now (facts_of fib.now.entries)) }
{
    let facts = fib.facts(alloc)?;
    let lines = lines_of(alloc, rows, facts.as_slice())?;
    put_heading(name, rows, out)?;
    put_lines(&lines, out)
}

/// A law: of sound rows and learnt addresses that are bound no two facts of the forwarding state have one place in the text, and the
/// line of each fact stands there.
pub fn each_fact_has_a_line()
    ensures own { (r : AllRows) (l : Listed Entry) → IsGood r l → (f g : SomeFact)
        → IsIn f (facts_of (shown r l)) → IsIn g (facts_of (shown r l)) → key_of r f ≡ key_of r g
        → f ≡ g }
    ensures there { (r : AllRows) (l : Listed Entry) → IsGood r l → (f : SomeFact)
        → IsIn f (facts_of (shown r l)) → maps.get (lines_of r (facts_of (shown r l))) (key_of r f)
        ≡ Some (line_of r f) }
{}
