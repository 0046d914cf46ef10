ghost use Rattle.std.specs.Prelude.{◌<◌, ◌≤◌, ◌^◌, length, IfOk};
ghost use Rattle.mr_merge.specs.Table.{all_rows};
ghost use Rattle.mr_merge.specs.Private.Order.{AreInOrder, IsListedTo};

use crate::table::Table;
use std::alloc::{AllocError, Global};

/// The slots that have a row, each after the rank of its row, by rank and then slot.
pub(crate) fn slots_in_order(
    alloc: Global,
    table: &Table<'_>,
) -> Result<Vec<(u32, u32)>, AllocError>
    requires { length (all_rows table.now) < 2 ^ 32 }
    ensures order { IfOk result (λ slots. AreInOrder (all_rows table.now) slots.items) }
    ensures few { IfOk result (λ slots. length slots.items ≤ length (all_rows table.now)) }
{
    let mut slots = slots_with_rows(alloc, table)?;
    slots.sort()?;
    Ok(slots)
}

// The same in the order of the slots.
fn slots_with_rows(alloc: Global, table: &Table<'_>) -> Result<Vec<(u32, u32)>, AllocError>
    requires { length (all_rows table.now) < 2 ^ 32 }
    ensures { IfOk result (λ slots. IsListedTo (all_rows table.now) (length (all_rows table.now)) slots.items) }
{
    let mut slots = Vec::new(alloc);
    for slot in 0..table.len() {
        if let Some(row) = table.row(slot) {
            slots.push((row.rank, slot))?;
        }
    }
    Ok(slots)
}
