//! Laws of the texts: what is printed is read as it stands, and what is read is printed.

ghost use Rattle.std.specs.Prelude.{◌≡◌, ◌<◌, ◌^◌, ℕ, List, true, Some, decimal};
ghost use Rattle.vtep_base.specs.Texts.{ipv4_of, ipv4_text, vni_of, vlan_of, name_of, is_name};
ghost use Rattle.vtep_base.specs.Addresses.{mac_of, mac_text, lower};

/// The text that is printed of a value is read as that value.
pub fn printed_is_read()
    ensures mac { (m : ℕ) → m < 2 ^ 48 → mac_of (mac_text m) ≡ Some m }
    ensures ipv4 { (ip : ℕ) → ip < 2 ^ 32 → ipv4_of (ipv4_text ip) ≡ Some ip }
    ensures vni { (v : ℕ) → v < 2 ^ 24 → vni_of (decimal v) ≡ Some v }
    ensures vlan { (v : ℕ) → v < 2 ^ 12 → vlan_of (decimal v) ≡ Some v }
    ensures name { (n : List ℕ) → is_name n ≡ true → name_of n ≡ Some n }
{}

/// A text that is read is the one that is printed of its value, but for the case of an address's letters.
pub fn read_is_printed()
    ensures mac { (text : List ℕ) (m : ℕ) → mac_of text ≡ Some m → mac_text m ≡ lower text }
    ensures ipv4 { (text : List ℕ) (ip : ℕ) → ipv4_of text ≡ Some ip → ipv4_text ip ≡ text }
    ensures vni { (text : List ℕ) (v : ℕ) → vni_of text ≡ Some v → decimal v ≡ text }
    ensures vlan { (text : List ℕ) (v : ℕ) → vlan_of text ≡ Some v → decimal v ≡ text }
    ensures name { (text : List ℕ) (n : List ℕ) → name_of text ≡ Some n → n ≡ text }
{}
