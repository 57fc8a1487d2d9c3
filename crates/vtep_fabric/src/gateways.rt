//! A walk over the gateways of a fabric.

ghost use Rattle.std.specs.Prelude.{◌≡◌, map};

use crate::site::Site;
use std::collections::btree_map::Iter;
use std::iter::Iterator;
use std::marker::Model;
use vtep_base::{Name, Plain};
use vtep_gateway::Gateway;

/// The gateways of a fabric, in the order of their names. Contracts see those that are left.
#[derive(Drop)]
pub struct Gateways<'a> {
    rest: Iter<'a, Name, Site>,
}

impl<'a> Model for Gateways<'a> {
    ghost use Rattle.std.specs.Prelude.{List, map};
    ghost use Rattle.vtep_gateway.specs.Gateway.{Held};

    ghost Value = { List Held };

    ghost view = { λ g. map (λ e. e.1) g.rest };
}

impl<'a> Iterator for Gateways<'a> {
    ghost use Rattle.std.specs.Iterator.{YieldsFirstRef, item_count};

    type Item = &'a Gateway<Plain>;

    ghost next_gives = { YieldsFirstRef (λ gateways. gateways) };

    ghost remaining = { item_count (λ gateways. gateways) };

    fn next(&mut self) -> Option<&'a Gateway<Plain>> {
        let (_, site) = self.rest.next()?;
        Some(site.gateway())
    }
}

impl<'a> Gateways<'a> {
    pub(crate) fn of(rest: Iter<'a, Name, Site>) -> Gateways<'a>
        ensures { result ≡ map (λ e. e.1) rest.entry }
    {
        Gateways { rest }
    }
}
