ghost use Rattle.std.specs.Prelude.{◌≡◌, ◌≢◌, ◌↔◌, ◌+◌, ◌*◌, ◌^◌, ◌<◌, ◌≤◌, ◌==◌, if◌then◌else◌, [], length, min, IfOk, IfSome, IsNone, option_copied};
ghost use Rattle.mr_nogood.specs.Row.{IsRow};
ghost use Rattle.mr_exchange.specs.declared.TheConstants.{SHORT, LOOKS, NODES};
ghost use Rattle.mr_exchange.specs.Cubes.{IsProblemOf};
ghost use Rattle.mr_exchange.specs.State.{head_at};
ghost use Rattle.mr_exchange.specs.Events.{seen};
ghost use Rattle.mr_exchange.specs.Board.{Holding, new_holding, BoardFacts, CanOpen, CanPublish, Claimed, Opened, Looked, Published, pairs_shown};
ghost use Rattle.mr_exchange.specs.Closed.{closed_is};
ghost use Rattle.mr_exchange.specs.Plain.{PlainIs, plain_holding, IsPlainPass};

use crate::closed::ClosedRows;
use crate::slots::Slots;
use crate::{Board, Closed, LOOKS, Look, Problem, SHORT, Ticket, next_slot, pairs_shown};
use mr_assign::Assign;
use mr_frame::Frame;
use mr_nogood::{Row, head_of};
use std::alloc::{AllocError, Global};
use std::marker::Model;

/// A board for one pass. Its lists are taken whole at the start.
#[derive(Drop)]
pub struct PlainBoard<'f> {
    frame: &'f Frame,
    problem: Problem,
    cubes: Vec<u32>,
    tickets: Vec<Ticket>,
    rows: Slots,
    looks: u32,
    last_head: u64,
    cursor: u32,
    claim_ends: u32,
    ticket_ends: u32,
}

impl<'f> Model for PlainBoard<'f> {
    ghost use Rattle.std.specs.Prelude.{◌≤◌, vec_capacity};
    ghost use Rattle.mr_exchange.specs.Plain.{PlainIs, plain_is};
    ghost use Rattle.mr_exchange.specs.Private.Plain.{IsPlain};

    ghost Value = { PlainIs };

    ghost view = { λ b. plain_is b.frame.now b.problem b.cubes.items b.tickets.items b.rows b.looks b.last_head b.cursor b.claim_ends b.ticket_ends };

    ghost invariant = { λ b. IsPlain (plain_is b.frame.now b.problem b.cubes.items b.tickets.items b.rows b.looks b.last_head b.cursor b.claim_ends b.ticket_ends) × (b.problem.cubes ≤ vec_capacity b.cubes) × (b.problem.nodes ≤ vec_capacity b.tickets) };
}

impl<'f> PlainBoard<'f> {
    /// A board whose pass has and knows nothing.
    pub fn new(
        alloc: Global,
        frame: &'f Frame,
        problem: Problem,
    ) -> Result<PlainBoard<'f>, AllocError>
        requires { IsProblemOf frame.now problem }
        ensures { IfOk result (λ board. plain_holding board ≡ new_holding frame.entry.now problem) }
    {
        // The clauses of `basis` say that it is a frame.
        let _basis = frame.basis();
        let cubes = Vec::with_capacity(alloc, problem.cubes as usize)?;
        let tickets = Vec::with_capacity(alloc, problem.nodes as usize)?;
        let rows = Slots::of_count(alloc, problem.nodes)?;
        Ok(PlainBoard {
            frame,
            problem,
            cubes,
            tickets,
            rows,
            looks: 0,
            last_head: 0,
            cursor: 0,
            claim_ends: 0,
            ticket_ends: 0,
        })
    }

    /// What the board shows. It takes no memory.
    pub fn close(self) -> Closed
        ensures { result ≡ closed_is self.entry.frame self.entry.problem (length self.entry.tickets) (length self.entry.cubes) self.entry.rows }
    {
        let opened = self.tickets.len() as u32;
        let claimed = self.claimed();
        let rows = ClosedRows::Board(self.rows);
        Closed::of_rows(self.frame, self.problem, opened, claimed, rows)
    }

    // How many cubes were claimed.
    fn claimed(&self) -> u32
        ensures { result ≡ length self.now.cubes }
    {
        // There are no more than this number, which is one of 32 bits.
        let _cubes = self.problem.cubes;
        self.cubes.len() as u32
    }
}

impl<'f> Board for PlainBoard<'f> {
    type Mark = ();

    ghost holding = { plain_holding };

    ghost mark = { λ _. tt };

    fn frame(&self) -> &Frame {
        self.frame
    }

    fn problem(&self) -> Problem
        ensures problem { result ≡ (plain_holding self.now).problem }
        ensures facts { BoardFacts (plain_holding self.now) }
        ensures order { IsPlainPass (plain_holding self.now) }
    {
        self.problem
    }

    fn claim(&mut self) -> Option<u32>
        requires { (plain_holding self.old).claim_ends ≡ 0 }
        ensures moves { Claimed (plain_holding self.old) result (plain_holding self.new) }
        // None is answered just where all cubes were claimed.
        ensures none { IsNone result ↔ (length (plain_holding self.old).cubes ≡ (plain_holding self.old).problem.cubes) }
    {
        let cube = self.cubes.len() as u32;
        if cube < self.problem.cubes {
            self.cubes.push_reserved(cube);
            Some(cube)
        } else {
            self.claim_ends += 1;
            None
        }
    }

    fn open_node(&mut self, node: &Assign) -> Option<u32>
        requires { CanOpen (plain_holding self.old) node.now }
        ensures moves { Opened (plain_holding self.old) node.now result (plain_holding self.new) }
        // None is answered just where all tickets were drawn.
        ensures none { IsNone result ↔ (length (plain_holding self.old).tickets ≡ (plain_holding self.old).problem.nodes) }
    {
        let slot = self.tickets.len() as u32;
        if slot < self.problem.nodes {
            self.tickets.push_reserved(Ticket { slot, node: *node });
            Some(slot)
        } else {
            self.ticket_ends += 1;
            None
        }
    }

    fn look(&mut self) -> Look {
        let slot = self.cursor;
        let latest = self.tickets.len() as u32 - 1;
        self.looks = one_more_look(self.looks, self.problem.nodes);
        self.cursor = next_slot(slot, latest);
        let found = self.rows.row(slot);
        let head = head_at(found);
        self.last_head = head;
        seen(slot, found, head)
    }

    fn publish(&mut self, slot: u32, row: &Row) {
        self.rows.set(slot, row);
    }
}

// The number of looks after one more, which rests where no more can be due.
fn one_more_look(looks: u32, nodes: u32) -> u32
    requires nodes { nodes ≤ NODES }
    requires looks { looks ≤ LOOKS * nodes }
    ensures { result ≡ min (looks + 1) (LOOKS * nodes) }
{
    (looks + 1).min(LOOKS * nodes)
}

// The head of a slot.
fn head_at(found: Option<&Row>) -> u64
    ensures head { result ≡ head_at (option_copied found.entry) }
    ensures row { IfSome (option_copied found.entry) (λ row. (row.rank < 2 ^ 32) × (row.at < 2 ^ 8)) }
{
    match found {
        Some(row) => head_of(row),
        None => 0,
    }
}

// What a look at a slot with this head shows. The head has the number of pairs, so they aren't counted again.
fn seen(slot: u32, found: Option<&Row>, head: u64) -> Look
    requires head { head ≡ head_at (option_copied found) }
    requires row { IfSome (option_copied found) (λ row. (row.rank < 2 ^ 32) × (row.at < 2 ^ 8)) }
    ensures { result ≡ seen slot (option_copied found.entry) }
{
    match found {
        Some(row) => {
            if pairs_shown(head) <= u64::from(SHORT) {
                Look::Short(slot, *row)
            } else {
                Look::Long
            }
        }
        None => Look::Empty,
    }
}
