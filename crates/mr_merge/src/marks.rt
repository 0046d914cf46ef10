ghost use Rattle.std.specs.Prelude.{◌≡◌, ◌+◌, ◌<◌, ◌^◌, ℕ, Some, IsSome, All, length, IfOk};
ghost use Rattle.mr_nogood.specs.Row.{cite_for};
ghost use Rattle.mr_nogood.specs.Follows.{in_slots};
ghost use Rattle.mr_nogood.specs.declared.row.Row.{Row};
ghost use Rattle.mr_nogood.specs.declared.row.Cite.TheVariants.{Slot};
ghost use Rattle.mr_merge.specs.Table.{all_rows};
ghost use Rattle.mr_merge.specs.Private.Table.{CiteSmaller};
ghost use Rattle.mr_merge.specs.Private.Order.{AreInOrder};
ghost use Rattle.mr_merge.specs.Private.Marks.{with_marked, marked_slots, MarksCited, MarksFrom, AreKept};

use crate::order::slots_in_order;
use crate::table::Table;
use mr_assign::VALUES;
use mr_nogood::{Cite, Row, cite_at};
use std::alloc::{AllocError, Global};

/// The slots that the one of the end leads to, by rank and then slot.
pub(crate) fn kept_slots(alloc: Global, table: &Table<'_>, end: u32) -> Result<Vec<u32>, AllocError>
    requires few { length (all_rows table.now) < 2 ^ 32 }
    requires rows { CiteSmaller (all_rows table.now) }
    requires end { IsSome (in_slots (all_rows table.now) end) }
    ensures { IfOk result (λ kept. AreKept (all_rows table.now) end kept.items) }
{
    let found = slots_in_order(alloc, table)?;
    let slots = found.as_slice();
    let marks = marks_from(alloc, table, slots, end)?;
    marked(alloc, slots, marks.as_slice())
}

// Marks on the slots that the one of the end leads to. Rows cite rows of smaller rank alone, so one way through
// the slots, from the last on, sees each after all that cite it.
fn marks_from(
    alloc: Global,
    table: &Table<'_>,
    slots: &[(u32, u32)],
    end: u32,
) -> Result<Vec<bool>, AllocError>
    requires few { length (all_rows table.now) < 2 ^ 32 }
    requires rows { CiteSmaller (all_rows table.now) }
    requires order { AreInOrder (all_rows table.now) slots.now }
    requires end { end < length (all_rows table.now) }
    ensures { IfOk result (λ marks. MarksFrom (all_rows table.now) end slots.now 0 marks.items) }
{
    let mut marks = vec![in alloc; false; table.len() as usize]?;
    marks[end as usize] = true;
    let mut left = slots.len();
    while left > 0 {
        left -= 1;
        see(table, slots, left, end, marks.as_mut_slice());
    }
    Ok(marks)
}

// Marks what the row of the slot at the place cites, where that slot is marked.
fn see(table: &Table<'_>, slots: &[(u32, u32)], at: usize, end: u32, marks: &mut [bool])
    requires rows { CiteSmaller (all_rows table.now) }
    requires order { AreInOrder (all_rows table.now) slots.now }
    requires place { at < length slots.now }
    requires later { MarksFrom (all_rows table.now) end slots.now (at + 1) marks.old }
    ensures { MarksFrom (all_rows table.now) end slots.now at marks.new }
{
    let slot = slots[at].1;
    if !marks[slot as usize] {
        return;
    }
    if let Some(row) = table.row(slot) {
        mark_cited(&row, marks);
    }
}

// Marks the slots that the row cites.
fn mark_cited(row: &Row, marks: &mut [bool])
    requires { (k s : ℕ) → cite_for row.now k ≡ Slot s → s < length marks.old }
    ensures { MarksCited row.now marks.old marks.new }
{
    for k in 0..VALUES {
        mark(cite_at(row, k), marks);
    }
}

// Marks the slot that the cite names, if it names one.
fn mark(cite: &Cite, marks: &mut [bool])
    requires { (s : ℕ) → cite.now ≡ Slot s → s < length marks.old }
    ensures { marks.new ≡ with_marked cite.now marks.old }
{
    match cite {
        Cite::Slot(s) => marks[*s as usize] = true,
        Cite::Nothing | Cite::Test(_) => {}
    }
}

// The marked slots, in the order of the list.
fn marked(alloc: Global, slots: &[(u32, u32)], marks: &[bool]) -> Result<Vec<u32>, AllocError>
    requires { All (λ p. p.1 < length marks.now) slots.now }
    ensures { IfOk result (λ kept. kept.items ≡ marked_slots marks.now slots.now) }
{
    let mut kept = Vec::new(alloc);
    for place in slots {
        let slot = place.1;
        if marks[slot as usize] {
            kept.push(slot)?;
        }
    }
    Ok(kept)
}
