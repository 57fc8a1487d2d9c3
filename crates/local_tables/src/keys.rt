//! What rows are looked for by.

ghost use Rattle.std.specs.Prelude.{◌≡◌, ◌<◌, ◌^◌, [], ◌∷◌, codes, IfOk};
ghost use Rattle.std.specs.Str.{IsUtf8};
ghost use Rattle.ovsdb_values.specs.declared.atoms.Atom.TheVariants.{Text};
ghost use Rattle.vtep_base.specs.Texts.{ipv4_text};
ghost use Rattle.vtep_base.specs.Addresses.{mac_text};
ghost use Rattle.local_tables.specs.LocalRows.{address_key, flood_key, encapsulation, locator_key};

use ovsdb_values::Atom;
use std::alloc::Global;
use vtep_base::{Bytes, Ipv4, Mac, Name, OutOfMemory, RowId, Txt};

/// A text of ASCII.
fn ascii_text(alloc: Global, bytes: &[u8]) -> Result<Atom, OutOfMemory>
    requires { IsUtf8 bytes.now }
    ensures { IfOk result (λ atom. atom ≡ Text bytes.now) }
{
    match str::from_utf8(bytes) {
        Ok(text) => Ok(Atom::Text(Txt::from_str(alloc, text)?)),
        Err(_) => unreachable!(),
    }
}

pub(crate) fn mac_atom(alloc: Global, mac: Mac) -> Result<Atom, OutOfMemory>
    ensures { IfOk result (λ atom. atom ≡ Text (mac_text mac)) }
{
    let mut text = Bytes::new(alloc);
    mac.print(&mut text)?;
    ascii_text(alloc, text.as_slice())
}

pub(crate) fn ip_atom(alloc: Global, ip: Ipv4) -> Result<Atom, OutOfMemory>
    requires { ip < 2 ^ 32 }
    ensures { IfOk result (λ atom. atom ≡ Text (ipv4_text ip)) }
{
    let mut text = Bytes::new(alloc);
    ip.print(&mut text)?;
    ascii_text(alloc, text.as_slice())
}

/// The destinations that are not known.
pub(crate) fn unknown_atom(alloc: Global) -> Result<Atom, OutOfMemory>
    ensures { IfOk result (λ atom. atom ≡ Text (codes "unknown-dst")) }
{
    Ok(Atom::Text(Txt::from_str(alloc, "unknown-dst")?))
}

pub(crate) fn encapsulation_atom(alloc: Global) -> Result<Atom, OutOfMemory>
    ensures { IfOk result (λ atom. atom ≡ Text encapsulation) }
{
    Ok(Atom::Text(Txt::from_str(alloc, "vxlan_over_ipv4")?))
}

pub(crate) fn port_key(alloc: Global, port: &Name) -> Result<[Atom; 1], OutOfMemory>
    ensures { IfOk result (λ key. key ≡ Text port.now ∷ []) }
{
    Ok([ascii_text(alloc, port.as_slice())?])
}

/// An address of a switch, in Ucast_Macs_Local.
pub(crate) fn address_key(alloc: Global, switch: RowId, mac: Mac) -> Result<[Atom; 2], OutOfMemory>
    ensures { IfOk result (λ key. key ≡ address_key (switch, mac)) }
{
    Ok([Atom::Id(switch), mac_atom(alloc, mac)?])
}

/// The unknown destinations of a switch, in Mcast_Macs_Local.
pub(crate) fn flood_key(alloc: Global, switch: RowId) -> Result<[Atom; 2], OutOfMemory>
    ensures { IfOk result (λ key. key ≡ flood_key switch) }
{
    Ok([Atom::Id(switch), unknown_atom(alloc)?])
}

/// A tunnel end point, in Physical_Locator.
pub(crate) fn locator_key(alloc: Global, ip: Ipv4) -> Result<[Atom; 2], OutOfMemory>
    requires { ip < 2 ^ 32 }
    ensures { IfOk result (λ key. key ≡ locator_key ip) }
{
    Ok([encapsulation_atom(alloc)?, ip_atom(alloc, ip)?])
}
