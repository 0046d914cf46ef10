ghost use Rattle.std.specs.Prelude.{◌≡◌, IfSome};
ghost use Rattle.mr_nogood.specs.Follows.{in_slots, Excludes};
ghost use Rattle.mr_exchange.specs.Closed.{closed_is, IsShown, IsClosed};
ghost use Rattle.mr_exchange.specs.Private.Kept.{rows_kept};

use crate::slots::Slots;
use crate::{PackedRows, Problem, SlotList};
use mr_frame::Frame;
use mr_nogood::Row;
use std::marker::Model;
use std::snapshot::Snapshot;

/// What is left of a board that was closed: what a sound state of its frame and problem shows.
#[derive(Drop)]
pub struct Closed {
    frame: Snapshot<Frame>,
    problem: Problem,
    opened: u32,
    claimed: u32,
    rows: ClosedRows,
}

// The rows of a closed board, as it kept them or in words.
#[derive(Drop)]
pub(crate) enum ClosedRows {
    Board(Slots),
    Store(PackedRows),
}

impl Model for Closed {
    ghost use Rattle.mr_exchange.specs.Closed.{ClosedIs, closed_is, IsClosed};
    ghost use Rattle.mr_exchange.specs.Private.Kept.{rows_kept};

    ghost Value = { ClosedIs };

    ghost view = { λ c. closed_is c.frame.value c.problem c.opened c.claimed (rows_kept c.rows) };

    ghost invariant = { λ c. IsClosed (closed_is c.frame.value c.problem c.opened c.claimed (rows_kept c.rows)) };
}

impl Closed {
    /// What a sound state shows: how many nodes were opened and cubes claimed, and the rows by their
    /// slots. It takes no memory.
    pub fn of_parts(
        frame: &Frame,
        problem: Problem,
        opened: u32,
        claimed: u32,
        rows: SlotList,
    ) -> Closed
        requires { IsShown (closed_is frame.now problem opened claimed rows) }
        ensures { result ≡ closed_is frame.now problem opened claimed rows }
    {
        let rows = ClosedRows::Board(Slots::of_list(rows));
        Closed::of_rows(frame, problem, opened, claimed, rows)
    }

    /// The same of rows that are kept as words.
    pub fn of_packed(
        frame: &Frame,
        problem: Problem,
        opened: u32,
        claimed: u32,
        rows: PackedRows,
    ) -> Closed
        requires { IsShown (closed_is frame.now problem opened claimed rows) }
        ensures { result ≡ closed_is frame.now problem opened claimed rows }
    {
        let rows = ClosedRows::Store(rows);
        Closed::of_rows(frame, problem, opened, claimed, rows)
    }

    // The same of rows wherever they are kept.
    pub(crate) fn of_rows(
        frame: &Frame,
        problem: Problem,
        opened: u32,
        claimed: u32,
        rows: ClosedRows,
    ) -> Closed
        requires { IsShown (closed_is frame.now problem opened claimed (rows_kept rows)) }
        ensures { result ≡ closed_is frame.now problem opened claimed (rows_kept rows) }
    {
        // The clauses of `basis` say that it is a frame.
        let _basis = frame.basis();
        Closed {
            frame: Snapshot::of(frame),
            problem,
            opened,
            claimed,
            rows,
        }
    }

    /// How many nodes were opened.
    pub fn opened(&self) -> u32
        ensures opened { result ≡ self.now.opened }
        ensures shown { IsClosed self.now }
    {
        self.opened
    }

    /// How many cubes were claimed.
    pub fn claimed(&self) -> u32
        ensures claimed { result ≡ self.now.claimed }
        ensures shown { IsClosed self.now }
    {
        self.claimed
    }

    /// The row of a slot. There is none past the last slot.
    pub fn row(&self, slot: u32) -> Option<Row>
        ensures row { result ≡ in_slots self.now.rows slot }
        ensures excludes { IfSome result (Excludes self.now.frame) }
        ensures shown { IsClosed self.now }
    {
        row_in(&self.rows, slot)
    }
}

// The row of a slot, if there is one.
fn row_in(rows: &ClosedRows, slot: u32) -> Option<Row>
    ensures { result ≡ in_slots (rows_kept rows.now) slot }
{
    match rows {
        ClosedRows::Board(rows) => rows.row(slot).copied(),
        ClosedRows::Store(rows) => rows.row(slot),
    }
}
