ghost use Rattle.std.specs.Prelude.{◌≡◌, ◌↔◌, ◌+◌, ◌<◌, IsTrue, length, option_copied};
ghost use Rattle.mr_assign.specs.declared.TheConstants.{VALUES};
ghost use Rattle.mr_frame.specs.Test.{IsAssignmentOf, SetFails};
ghost use Rattle.mr_nogood.specs.Follows.{in_list, in_slots, Follows};
ghost use Rattle.mr_nogood.specs.Private.Checking.{cited_row, IsOpen, HoldsBy, Accounts};

use crate::row::cite_at;
use crate::{Cite, Row};
use mr_assign::{Assign, VALUES};
use mr_frame::Frame;
use mr_set::{Set, is_set_of};

/// Whether the row follows from those of the list, which its cites name by their places. A cite of a place
/// past the end, or of one without a row, holds of nothing. Any row may be asked of any frame: one whose
/// position or clause isn't the frame's follows from nothing. It takes no memory.
pub fn follows(frame: &Frame, row: &Row, earlier: &[Option<Row>]) -> bool
    ensures { IsTrue result ↔ Follows frame.now (in_slots earlier.now) row.now }
{
    if !is_open(frame, row) {
        return false;
    }
    for k in 0..VALUES {
        let cite = cite_at(row, k);
        if !accounts(frame, row, k, in_slot(earlier, cite)) {
            return false;
        }
    }
    true
}

/// The same where each place has a row, as among the steps of a log.
pub fn follows_steps(frame: &Frame, row: &Row, steps: &[Row]) -> bool
    ensures { IsTrue result ↔ Follows frame.now (in_list steps.now) row.now }
{
    if !is_open(frame, row) {
        return false;
    }
    for k in 0..VALUES {
        let cite = cite_at(row, k);
        if !accounts(frame, row, k, step(steps, cite)) {
            return false;
        }
    }
    true
}

// The row that a cite names, if it is there.
fn in_slot<'a>(earlier: &'a [Option<Row>], cite: &Cite) -> Option<&'a Row>
    ensures { option_copied result ≡ cited_row (in_slots earlier.now) cite.now }
{
    match cite {
        Cite::Slot(s) => match earlier.get(*s as usize) {
            Some(slot) => slot.as_ref(),
            None => None,
        },
        Cite::Nothing | Cite::Test(_) => None,
    }
}

// The step that a cite names, if it is there.
fn step<'a>(steps: &'a [Row], cite: &Cite) -> Option<&'a Row>
    ensures { option_copied result ≡ cited_row (in_list steps.now) cite.now }
{
    match cite {
        Cite::Slot(s) => steps.get(*s as usize),
        Cite::Nothing | Cite::Test(_) => None,
    }
}

// Whether the clause is an assignment that gives no value to the row's position, and that one is free.
fn is_open(frame: &Frame, row: &Row) -> bool
    ensures { IsTrue result ↔ IsOpen frame.now row.now }
{
    // The clauses of `words` say that it is a map.
    let _words = row.clause.words();
    let at = u32::from(row.at);
    if at >= frame.free() {
        return false;
    }
    row.clause.get(at) == 0 && frame.is_assignment(&row.clause)
}

// Whether the cite for the value k + 1 is such as a row that follows has, where it names the row that was
// found.
fn accounts(frame: &Frame, row: &Row, k: u8, found: Option<&Row>) -> bool
    requires open { IsOpen frame.now row.now }
    requires value { k < VALUES }
    ensures { IsTrue result ↔ Accounts frame.now row.now (option_copied found.entry) k }
{
    // The clauses of `free` say that there are no more positions than a map has.
    let _free = frame.free();
    let cite = cite_at(row, k);
    if k + 1 >= frame.field().order() {
        return is_nothing(cite);
    }
    let a = row.clause.with(u32::from(row.at), k + 1);
    holds(frame, cite, row.rank, &a, found)
}

fn is_nothing(cite: &Cite) -> bool
    ensures { IsTrue result ↔ (cite.now ≡ Cite.Nothing) }
{
    match cite {
        Cite::Nothing => true,
        Cite::Test(_) | Cite::Slot(_) => false,
    }
}

// Whether the cite holds of the assignment, where it names the row that was found.
fn holds(frame: &Frame, cite: &Cite, rank: u32, a: &Assign, found: Option<&Row>) -> bool
    requires { IsAssignmentOf frame.now a.now }
    ensures { IsTrue result ↔ HoldsBy frame.now (option_copied found.entry) rank a.now cite.now }
{
    match cite {
        Cite::Nothing => false,
        Cite::Test(x) => fails(frame, *x, a),
        Cite::Slot(_) => match found {
            Some(row) => row.rank < rank && a.contains(&row.clause),
            None => false,
        },
    }
}

/// Whether the set has the rank's size and fails under the assignment. It takes no memory.
pub fn fails(frame: &Frame, x: Set, a: &Assign) -> bool
    requires { IsAssignmentOf frame.now a.now }
    ensures { IsTrue result ↔ SetFails frame.now a.now x }
{
    let m = frame.matroid();
    if !is_set_of(m.elements(), m.rank(), x) {
        return false;
    }
    frame.fails(x, a)
}
