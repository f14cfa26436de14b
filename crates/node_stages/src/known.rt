//! What is known of the others with whom a processor exchanges words.
//!
//! Whom a processor exchanges words with goes by the regions in its slots alone, and these seldom
//! change. So what was found for an exchange is kept as a route, together with the region of the
//! slot that the exchange's items have, where they all have one: with the same region there the
//! next visit finds the same.
ghost use Rattle.std.specs.Prelude.{◌≡◌, IfSome, IsTrue, All, None, Some, is_some, slice_get};
ghost use Rattle.std.specs.Option.{option_map};
ghost use Rattle.node_stages.specs.Known.{IsRecalled, IsRouteFor, nothing_known};

use crate::found::Found;
use grid_meaning::node_form::Item;
use reduce_plan::zpl_region::{Dim, Region};
use std::marker::Model;

/// Whether two dimensions are the same, bounds, step and alignment.
fn is_same_dim(one: Dim, other: Dim) -> bool
    ensures { IsTrue result → one ≡ other }
{
    let Dim::Range {
        lo,
        hi,
        step,
        align,
    } = one
    else {
        return match other {
            Dim::Flood => true,
            Dim::Range { .. } => false,
        };
    };
    match other {
        Dim::Range {
            lo: from,
            hi: to,
            step: by,
            align: at,
        } => lo == from && hi == to && step == by && align == at,
        Dim::Flood => false,
    }
}

/// Whether two regions are the same, dimension by dimension.
fn is_same(one: &Region, other: &Region) -> bool
    ensures { IsTrue result → one.now ≡ other.now }
{
    let [planes, rows, columns] = one.dims;
    let [x, y, z] = other.dims;
    one.rank == other.rank
        && is_same_dim(planes, x)
        && is_same_dim(rows, y)
        && is_same_dim(columns, z)
}

/// The slot that all of these items have, if they have one.
fn one_slot(items: &[Item]) -> Option<u32>
    ensures { IfSome result (λ slot. All (λ item. item.slot ≡ slot) items.now) }
{
    let slot = items.first()?.slot;
    for item in items {
        if item.slot != slot {
            return None;
        }
    }
    Some(slot)
}

/// The partners that were found for an exchange, and the region that was in the slot of its items.
#[derive(Drop)]
pub(crate) struct Route {
    exchange: u32,
    slot: u32,
    region: Region,
    found: Found,
}

impl Model for Route {
    ghost use Rattle.node_stages.specs.Known.{Route};

    ghost Value = { Route };

    ghost view = { λ a. record {
      exchange = a.exchange;
      slot = a.slot;
      region = a.region;
      list = a.found;
    } };
}

impl Route {
    /// The route of an exchange with these items, for which these partners were found with these
    /// regions in the slots; none where the items haven't all one slot.
    pub(crate) fn of(
        exchange: u32,
        slots: &[Region],
        items: &[Item],
        found: &Found,
    ) -> Option<Route>
        ensures { IfSome result (IsRouteFor exchange slots.now items.now found.now) }
    {
        let slot = one_slot(items)?;
        let region = slots.get(slot as usize)?;
        Some(Route {
            exchange,
            slot,
            region: *region,
            found: found.copied(),
        })
    }

    /// Whether it is one for the exchange, and the region in its slot is the one that was there.
    fn fits(&self, exchange: u32, slots: &[Region]) -> bool
        ensures exchange { IsTrue result → self.now.exchange ≡ exchange }
        ensures region { IsTrue result
            → slice_get slots.now self.now.slot ≡ Some self.now.region }
    {
        if self.exchange != exchange {
            return false;
        }
        match slots.get(self.slot as usize) {
            Some(region) => is_same(region, &self.region),
            None => false,
        }
    }
}

/// The partners that a route has for the exchange, with these regions in the slots.
fn recalled(route: &Option<Route>, exchange: u32, slots: &[Region]) -> Option<Found>
    ensures { IfSome result (λ found. IsRecalled route.now exchange slots.now found) }
{
    let Some(route) = route else {
        return None;
    };
    if !route.fits(exchange, slots) {
        return None;
    }
    Some(route.found.copied())
}

/// The others with whom a processor exchanges words in the row that it is at, in ascending order,
/// where they are known; and the routes that were found last. Contracts see it as a
/// [`Known`](../specs/Known.antt).
#[derive(Drop)]
pub struct Partners {
    found: Found,
    are_known: bool,
    started: Option<Route>,
    finished: Option<Route>,
}

impl Model for Partners {
    ghost use Rattle.std.specs.Prelude.{Some, None, if◌then◌else◌};
    ghost use Rattle.node_stages.specs.Known.{Known};

    ghost Value = { Known };

    ghost view = { λ a. record {
      here = if a.are_known then Some a.found else None;
      started = a.started;
      finished = a.finished;
    } };
}

impl Partners {
    /// Nothing is known yet.
    pub fn unknown() -> Partners
        ensures { result ≡ nothing_known }
    {
        Partners {
            found: Found::none(),
            are_known: false,
            started: None,
            finished: None,
        }
    }

    /// Whether those in the row are known.
    #[inline(always)]
    pub fn are_known(&self) -> bool
        ensures { result ≡ is_some self.now.here }
    {
        self.are_known
    }

    /// Those in the row aren't known from now on, as it is another one.
    #[inline(always)]
    pub fn forget(&mut self)
        ensures { self.new ≡ record self.old { here = None } }
    {
        self.are_known = false;
    }

    /// Those in the row are these.
    pub(crate) fn learn(&mut self, found: Found)
        ensures { self.new ≡ record self.old { here = Some found } }
    {
        self.found = found;
        self.are_known = true;
    }

    /// The list of those in the row, if they are known.
    pub(crate) fn list(&self) -> Option<&Found>
        ensures { option_map (λ found. found.now) result ≡ self.now.here }
    {
        if self.are_known {
            Some(&self.found)
        } else {
            None
        }
    }

    /// For whom there are words in `start` of the exchange, by the route that was found last.
    pub(crate) fn started(&self, exchange: u32, slots: &[Region]) -> Option<Found>
        ensures { IfSome result (IsRecalled self.now.started exchange slots.now) }
    {
        recalled(&self.started, exchange, slots)
    }

    /// The route that was found last for a `start`.
    pub(crate) fn keep_started(&mut self, route: Option<Route>)
        ensures { self.new ≡ record self.old { started = route } }
    {
        self.started = route;
    }

    /// Who have words in `finish` of the exchange, by the route that was found last.
    pub(crate) fn finished(&self, exchange: u32, slots: &[Region]) -> Option<Found>
        ensures { IfSome result (IsRecalled self.now.finished exchange slots.now) }
    {
        recalled(&self.finished, exchange, slots)
    }

    /// The route that was found last for a `finish`.
    pub(crate) fn keep_finished(&mut self, route: Option<Route>)
        ensures { self.new ≡ record self.old { finished = route } }
    {
        self.finished = route;
    }
}
