ghost use Rattle.std.specs.Prelude.{◌≡◌, ◌++◌, ◌<◌, ◌≤◌, ◌-◌, length, slice_set, IfOk, None, Some, replicate, option_copied, vec_capacity};
ghost use Rattle.mr_nogood.specs.Follows.{in_slots};

use crate::SlotList;
use mr_nogood::Row;
use std::alloc::{AllocError, Global};
use std::marker::Model;

/// The slots of a board, each with a row or none. Their memory is taken at the start.
#[derive(Drop)]
pub(crate) struct Slots {
    items: Vec<Option<Row>>,
    // How many slots without rows come after the items. They are filled in once one after them gets a row, so that a
    // search that opens few nodes doesn't pay for all slots.
    rest: usize,
}

impl Model for Slots {
    ghost use Rattle.std.specs.Prelude.{◌+◌, ◌++◌, ◌≤◌, List, Option, None, length, replicate, vec_capacity};
    ghost use Rattle.mr_nogood.specs.declared.row.Row.{Row};

    ghost Value = { List (Option Row) };

    ghost view = { λ a. a.items.items ++ replicate a.rest None };

    ghost invariant = { λ a. length a.items.items + a.rest ≤ vec_capacity a.items };
}

impl Slots {
    /// As many slots without rows.
    pub(crate) fn of_count(alloc: Global, n: u32) -> Result<Slots, AllocError>
        ensures { IfOk result (λ slots. slots ≡ replicate n None) }
    {
        let items = Vec::with_capacity(alloc, n as usize)?;
        Ok(Slots {
            items,
            rest: n as usize,
        })
    }

    /// The slots of a list.
    pub(crate) fn of_list(list: SlotList) -> Slots
        ensures { result ≡ list }
    {
        Slots {
            items: list.into_items(),
            rest: 0,
        }
    }

    /// The row of a slot, if there is one.
    pub(crate) fn row(&self, slot: u32) -> Option<&Row>
        ensures { option_copied result ≡ in_slots self.now slot }
    {
        match self.items.get(slot as usize) {
            Some(found) => found.as_ref(),
            None => None,
        }
    }

    /// Puts a row in a slot.
    pub(crate) fn set(&mut self, slot: u32, row: &Row)
        requires { slot < length self.old }
        ensures { self.new ≡ slice_set self.old slot (Some row.now) }
    {
        self.rest -= fill(&mut self.items, slot as usize + 1);
        self.items[slot as usize] = Some(*row);
    }
}

// Puts items without rows at the end up to this number, for which there is room, and tells how many.
fn fill(items: &mut Vec<Option<Row>>, places: usize) -> usize
    requires { places ≤ vec_capacity items.old }
    ensures count { result ≡ places - length items.old.items }
    ensures items { items.new.items ≡ items.old.items ++ replicate result None }
    ensures room { vec_capacity items.old ≤ vec_capacity items.new }
{
    let more = places.saturating_sub(items.len());
    if more > 0 && items.resize(places, None).is_err() {
        unreachable!();
    }
    more
}
