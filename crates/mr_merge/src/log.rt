ghost use Rattle.std.specs.Prelude.{◌<◌, ◌≤◌, length, IsSome, IfOk};
ghost use Rattle.mr_assign.specs.Assign.{no_values};
ghost use Rattle.mr_nogood.specs.Follows.{in_slots};
ghost use Rattle.mr_nogood.specs.declared.row.Cite.TheVariants.{Slot};
ghost use Rattle.mr_log.specs.declared.TheConstants.{STEPS};
ghost use Rattle.mr_exchange.specs.declared.answer.CubeAnswer.TheVariants.{Refuted};
ghost use Rattle.mr_exchange.specs.Right.{IsRight};
ghost use Rattle.mr_merge.specs.Table.{all_rows};
ghost use Rattle.mr_merge.specs.Private.Table.{AreSupported, CiteSmaller};
ghost use Rattle.mr_merge.specs.Steps.{AreStepsTo};
ghost use Rattle.mr_merge.specs.Merged.{IsRefutationOf};
ghost use Rattle.mr_merge.specs.Private.Merged.{AreStored};

use crate::marks::kept_slots;
use crate::steps::{numbers_of, steps_of};
use crate::table::Table;
use mr_frame::Frame;
use mr_log::Log;
use mr_nogood::{Cite, RowList};
use std::alloc::{AllocError, Global};

/// The log that ends with the cite: its steps are the rows that the cite leads to.
pub(crate) fn log_to(
    alloc: Global,
    frame: &Frame,
    table: &Table<'_>,
    end: Cite,
) -> Result<Log, AllocError>
    requires few { length (all_rows table.now) ≤ STEPS }
    requires rows { AreSupported frame.now (all_rows table.now) }
    requires end { IsRight frame.now (in_slots (all_rows table.now)) no_values (Refuted end) }
    ensures refutation { IfOk result (IsRefutationOf frame.now) }
    ensures steps { IfOk result (λ l. AreStepsTo (in_slots (all_rows table.now)) end l.steps l.last) }
    ensures count { IfOk result (λ l. length l.steps ≤ length (all_rows table.now)) }
{
    // The clauses of `basis` say that it is a frame.
    let _basis = frame.basis();
    let matroid = frame.matroid().copy(alloc)?;
    let q = frame.field().order();
    match end {
        Cite::Slot(s) => {
            let (steps, last) = steps_to(alloc, table, s)?;
            Ok(Log {
                matroid,
                q,
                steps,
                last: Cite::Slot(last),
            })
        }
        Cite::Test(x) => Ok(Log {
            matroid,
            q,
            steps: RowList::new(alloc),
            last: Cite::Test(x),
        }),
        Cite::Nothing => unreachable!(),
    }
}

// The rows that the row of the slot rests on, by rank and then slot, as steps, and the number of that row.
fn steps_to(alloc: Global, table: &Table<'_>, end: u32) -> Result<(RowList, u32), AllocError>
    requires few { length (all_rows table.now) ≤ STEPS }
    requires rows { CiteSmaller (all_rows table.now) }
    requires end { IsSome (in_slots (all_rows table.now) end) }
    ensures steps { IfOk result (λ found. AreStepsTo (in_slots (all_rows table.now)) (Slot end) found.0 (Slot found.1)) }
    ensures stored { IfOk result (λ found. AreStored (length (all_rows table.now)) found.0) }
{
    let kept = kept_slots(alloc, table, end)?;
    let slots = kept.as_slice();
    let numbers = numbers_of(alloc, slots, table.len())?;
    let steps = steps_of(alloc, table, slots, numbers.as_slice())?;
    Ok((steps, numbers[end as usize]))
}
