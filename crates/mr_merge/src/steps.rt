ghost use Rattle.std.specs.Prelude.{◌≡◌, ◌≢◌, ◌<◌, ◌^◌, ℕ, Some, IsSome, Contains, AllPairs, All, map, length, slice_index, IfOk};
ghost use Rattle.mr_assign.specs.declared.TheConstants.{VALUES};
ghost use Rattle.mr_nogood.specs.Row.{cite_for};
ghost use Rattle.mr_nogood.specs.Follows.{in_slots};
ghost use Rattle.mr_nogood.specs.declared.row.Row.{Row};
ghost use Rattle.mr_nogood.specs.declared.row.Cite.TheVariants.{Slot};
ghost use Rattle.mr_merge.specs.Table.{all_rows};
ghost use Rattle.mr_merge.specs.Steps.{renamed, renumbered};
ghost use Rattle.mr_merge.specs.Private.Marks.{AreNumbers, AreRenumbered};

use crate::table::Table;
use mr_assign::VALUES;
use mr_nogood::{Cite, ROW_CITES, Row, RowList, cite_at};
use std::alloc::{AllocError, Global};

/// For each slot of the list its place there, among `count` slots.
pub(crate) fn numbers_of(alloc: Global, kept: &[u32], count: u32) -> Result<Vec<u32>, AllocError>
    requires apart { AllPairs (λ s t. s ≢ t) kept.now }
    requires within { All (λ s. s < count) kept.now }
    requires few { length kept.now < 2 ^ 32 }
    ensures numbers { IfOk result (λ numbers. AreNumbers kept.now numbers.items) }
    ensures size { IfOk result (λ numbers. length numbers.items ≡ count) }
{
    let mut numbers = vec![in alloc; 0u32; count as usize]?;
    for j in 0..kept.len() as u32 {
        numbers[kept[j as usize] as usize] = j;
    }
    Ok(numbers)
}

/// The rows of the slots as steps, with the new numbers of the slots that they cite.
pub(crate) fn steps_of(
    alloc: Global,
    table: &Table<'_>,
    kept: &[u32],
    numbers: &[u32],
) -> Result<RowList, AllocError>
    requires rows { (s : ℕ) → Contains kept.now s → IsSome (in_slots (all_rows table.now) s) }
    requires cites { (s k t : ℕ) (row : Row) → in_slots (all_rows table.now) s ≡ Some row → cite_for row k ≡ Slot t → t < length numbers.now }
    requires few { length kept.now < 2 ^ 32 }
    ensures { IfOk result (AreRenumbered (all_rows table.now) numbers.now kept.now) }
{
    let mut steps = RowList::new(alloc);
    for j in 0..kept.len() as u32 {
        match table.row(kept[j as usize]) {
            None => unreachable!(),
            Some(row) => steps.push(as_step(&row, j, numbers))?,
        }
    }
    Ok(steps)
}

// The row as the step with the number j.
fn as_step(row: &Row, j: u32, numbers: &[u32]) -> Row
    requires { (k s : ℕ) → cite_for row.now k ≡ Slot s → s < length numbers.now }
    ensures value { result ≡ renumbered (slice_index numbers.now) j row.now }
    ensures count { length result.cites ≡ VALUES }
{
    Row {
        rank: j,
        at: row.at,
        clause: row.clause,
        cites: renamed_cites(row, numbers),
    }
}

// The row's cites with the new numbers of their slots.
fn renamed_cites(row: &Row, numbers: &[u32]) -> [Cite; ROW_CITES]
    requires { (k s : ℕ) → cite_for row.now k ≡ Slot s → s < length numbers.now }
    ensures { result ≡ map (renamed (slice_index numbers.now)) row.now.cites }
{
    let mut cites = [Cite::Nothing; ROW_CITES];
    for k in 0..VALUES {
        cites[k as usize] = renamed(cite_at(row, k), numbers);
    }
    cites
}

// The cite with the new number of its slot.
fn renamed(cite: &Cite, numbers: &[u32]) -> Cite
    requires { (s : ℕ) → cite.now ≡ Slot s → s < length numbers.now }
    ensures { result ≡ renamed (slice_index numbers.now) cite.now }
{
    match cite {
        Cite::Slot(s) => Cite::Slot(numbers[*s as usize]),
        Cite::Nothing => Cite::Nothing,
        Cite::Test(x) => Cite::Test(*x),
    }
}
