//! Whether an entry matches a frame.

ghost use Rattle.std.specs.Prelude.{◌≡◌, option_copied};
ghost use Rattle.acl_rules.specs.Matching.{is_same, is_under_mask, is_in_range, same_direction, frame_matches, ip_matches, ports_match, tcp_matches, icmp_matches, matches};

use crate::entry::Entry;
use ether_frames::{Headers, Icmp, Ip, Ports};
use vtep_base::{Direction, Ipv4};

/// Whether a field is absent, or the value is there.
fn is_same<T: PartialEq + Drop>(wanted: Option<T>, there: Option<T>) -> bool
    ensures { result ≡ is_same T.eq wanted there }
{
    let Some(wanted) = wanted else {
        return true;
    };
    let Some(there) = there else {
        return false;
    };
    wanted == there
}

/// Whether a field is absent, or an address is there that is the same in the bits of the mask.
fn is_under_mask(wanted: Option<Ipv4>, mask: Option<Ipv4>, there: Option<Ipv4>) -> bool
    ensures { result ≡ is_under_mask 0xffff_ffff wanted mask there }
{
    let Some(wanted) = wanted else {
        return true;
    };
    let Some(there) = there else {
        return false;
    };
    let bits = mask.map_or(u32::MAX, Ipv4::bits);
    wanted.bits() & bits == there.bits() & bits
}

/// The same of flags.
fn has_flags(wanted: Option<u16>, mask: Option<u16>, there: Option<u16>) -> bool
    ensures { result ≡ is_under_mask 511 wanted mask there }
{
    let Some(wanted) = wanted else {
        return true;
    };
    let Some(there) = there else {
        return false;
    };
    let bits = mask.unwrap_or(511);
    wanted & bits == there & bits
}

/// Whether both ends are absent, or a port is there that is not beyond them.
fn is_in_range(least: Option<u16>, most: Option<u16>, there: Option<u16>) -> bool
    ensures { result ≡ is_in_range least most there }
{
    if least.is_none() && most.is_none() {
        return true;
    }
    let Some(there) = there else {
        return false;
    };
    least.unwrap_or(0) <= there && there <= most.unwrap_or(u16::MAX)
}

fn same_direction(one: Direction, other: Direction) -> bool
    ensures { result ≡ same_direction one other }
{
    one == other
}

impl Entry {
    fn frame_matches(&self, headers: &Headers) -> bool
        ensures { result ≡ frame_matches self.now headers.now }
    {
        is_same(self.source_mac, Some(headers.source))
            && is_same(self.dest_mac, Some(headers.destination))
            && is_same(self.ethertype, Some(headers.ethertype))
    }

    fn ip_matches(&self, ip: Option<&Ip>) -> bool
        ensures { result ≡ ip_matches self.now (option_copied ip.entry) }
    {
        is_under_mask(self.source_ip, self.source_mask, ip.map(|ip| ip.source))
            && is_under_mask(self.dest_ip, self.dest_mask, ip.map(|ip| ip.destination))
            && is_same(self.protocol, ip.map(|ip| ip.protocol))
    }

    fn ports_match(&self, ports: Option<Ports>) -> bool
        ensures { result ≡ ports_match self.now ports }
    {
        is_in_range(
            self.source_port_min,
            self.source_port_max,
            ports.map(|ports| ports.source),
        ) && is_in_range(
            self.dest_port_min,
            self.dest_port_max,
            ports.map(|ports| ports.destination),
        )
    }

    fn icmp_matches(&self, icmp: Option<Icmp>) -> bool
        ensures { result ≡ icmp_matches self.now icmp }
    {
        is_same(self.icmp_type, icmp.map(|icmp| icmp.kind))
            && is_same(self.icmp_code, icmp.map(|icmp| icmp.code))
    }

    /// Whether the entry is for frames that pass this way, and each field that is given holds.
    pub fn matches(&self, headers: &Headers, direction: Direction) -> bool
        ensures { result ≡ matches self.now direction headers.now }
    {
        if !same_direction(self.direction, direction) || !self.frame_matches(headers) {
            return false;
        }
        let ip = headers.ip.as_ref();
        if !self.ip_matches(ip) || !self.ports_match(ip.and_then(|ip| ip.ports)) {
            return false;
        }
        let flags = ip.and_then(|ip| ip.tcp_flags);
        has_flags(self.tcp_flags, self.tcp_flags_mask, flags)
            && self.icmp_matches(ip.and_then(|ip| ip.icmp))
    }
}
