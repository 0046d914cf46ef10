ghost use Rattle.std.specs.Prelude.{◌≡◌, ◌≢◌, ◌↔◌, ◌+◌, ◌<◌, ◌≤◌, [], ℕ, IsTrue, IfOk, MatchOption, None, Contains, length, option_copied};
ghost use Rattle.mr_nogood.specs.Private.Checking.{cited_row};
ghost use Rattle.mr_nogood.specs.Follows.{in_slots};
ghost use Rattle.mr_exchange.specs.declared.TheConstants.{SPLIT};
ghost use Rattle.mr_exchange.specs.declared.event.Event.TheVariants.{Split};
ghost use Rattle.mr_exchange.specs.Cubes.{cube_count};
ghost use Rattle.mr_exchange.specs.State.{IsLive, pass_at, slots_of};
ghost use Rattle.mr_exchange.specs.Events.{IsNodeOf, MayClaim, MayOpen, MayLook, MayPublish, MayJoin, IsAllowedEvent};
ghost use Rattle.mr_exchange.specs.Rank.{HasLeastRank};
ghost use Rattle.mr_exchange.specs.Held.{state_of};
ghost use Rattle.mr_exchange.specs.Private.Deciding.{IsHit, AvoidsSlots, rank_past, only, MayDraw, MayUse, MayFill};

use super::{no_rows, row_in};
use crate::pass::{PassData, is_short};
use crate::{Event, LOOKS, State, Ticket, cube_at};
use mr_assign::{Assign, VALUES};
use mr_frame::Frame;
use mr_nogood::{Cite, Row, follows};
use std::alloc::{AllocError, Global};

impl State {
    // Whether the state allows the event.
    pub(super) fn allows(&self, frame: &Frame, e: &Event) -> Result<bool, AllocError>
        requires { self.now.frame ≡ frame.now }
        ensures { IfOk result (λ b. IsTrue b ↔ IsAllowedEvent (state_of self.now) e.now) }
    {
        match e {
            Event::Claim { pass } => Ok(self.may_claim(*pass)),
            Event::OpenNode { pass, node } => Ok(self.may_open(frame, *pass, node)),
            Event::LookAt { pass } => Ok(self.may_look(*pass)),
            Event::Publish { pass, slot, row } => self.may_publish(frame, *pass, *slot, row),
            Event::Split => Ok(self.may_split()),
            Event::Join { pass } => Ok(self.may_join(*pass)),
        }
    }

    // The pass of a number, if it is live.
    fn live(&self, k: u32) -> Option<&PassData>
        ensures { MatchOption result (¬ (IsLive (state_of self.now) k)) (λ p. IsLive (state_of self.now) k × (p.now ≡ pass_at (state_of self.now) k)) }
    {
        if k as usize >= self.passes.len() {
            return None;
        }
        let pass = &self.passes[k as usize];
        if pass.live { Some(pass) } else { None }
    }

    fn may_claim(&self, k: u32) -> bool
        ensures { IsTrue result ↔ MayClaim (state_of self.now) k }
    {
        match self.live(k) {
            Some(pass) => pass.claim_ends == 0,
            None => false,
        }
    }

    fn may_open(&self, frame: &Frame, k: u32, node: &Assign) -> bool
        requires { self.now.frame ≡ frame.now }
        ensures { IsTrue result ↔ MayOpen (state_of self.now) k node.now }
    {
        match self.live(k) {
            Some(pass) => may_use(frame, self.problem.depth, &self.slots, pass, node),
            None => false,
        }
    }

    fn may_look(&self, k: u32) -> bool
        ensures { IsTrue result ↔ MayLook (state_of self.now) k }
    {
        match self.live(k) {
            Some(pass) => {
                if !pass.joined.is_empty() {
                    return false;
                }
                !pass.tickets.is_empty()
            }
            None => false,
        }
    }

    fn may_publish(&self, frame: &Frame, k: u32, slot: u32, row: &Row) -> Result<bool, AllocError>
        requires { self.now.frame ≡ frame.now }
        ensures { IfOk result (λ b. IsTrue b ↔ MayPublish (state_of self.now) k slot row.now) }
    {
        match self.live(k) {
            Some(pass) => may_fill(self.alloc, frame, &self.slots, pass, slot, row),
            None => Ok(false),
        }
    }

    fn may_split(&self) -> bool
        ensures { IsTrue result ↔ IsAllowedEvent (state_of self.now) Split }
    {
        match self.live(0) {
            Some(pass) => pass.made < self.limit,
            None => false,
        }
    }

    fn may_join(&self, k: u32) -> bool
        ensures { IsTrue result ↔ MayJoin (state_of self.now) k }
    {
        match self.live(k) {
            Some(_) => k != 0,
            None => false,
        }
    }
}

// Whether the pass may open the node.
fn may_use(frame: &Frame, depth: u32, slots: &[Option<Row>], pass: &PassData, node: &Assign) -> bool
    requires split { depth ≤ SPLIT }
    requires free { depth ≤ length frame.now.places }
    requires cubes { (c : ℕ) → Contains pass.now.cubes c → c < cube_count frame.now depth }
    ensures { IsTrue result ↔ MayUse frame.now depth (in_slots slots.now) pass.now node.now }
{
    if !may_draw(pass) {
        return false;
    }
    if !is_node(frame, depth, &pass.cubes, node) {
        return false;
    }
    avoids(slots, &pass.known, node)
}

// Whether the pass may open another node.
fn may_draw(pass: &PassData) -> bool
    ensures { IsTrue result ↔ MayDraw pass.now }
{
    if !pass.joined.is_empty() {
        return false;
    }
    if pass.ticket_ends != 0 {
        return false;
    }
    pass.tickets.len() <= (pass.looks / LOOKS) as usize
}

// Whether the node is an assignment in one of the cubes.
fn is_node(frame: &Frame, depth: u32, cubes: &[u32], node: &Assign) -> bool
    requires split { depth ≤ SPLIT }
    requires free { depth ≤ length frame.now.places }
    requires cubes { (c : ℕ) → Contains cubes.now c → c < cube_count frame.now depth }
    ensures { IsTrue result ↔ IsNodeOf frame.now depth cubes.now node.now }
{
    if !frame.is_assignment(node) {
        return false;
    }
    for c in cubes {
        if node.contains(&cube_at(frame, depth, *c)) {
            return true;
        }
    }
    false
}

// Whether no short row of the known slots has its clause in the node.
fn avoids(slots: &[Option<Row>], known: &[u32], node: &Assign) -> bool
    ensures { IsTrue result ↔ AvoidsSlots (in_slots slots.now) known.now node.now }
{
    for slot in known {
        if is_hit(row_in(slots, *slot), node) {
            return false;
        }
    }
    true
}

// Whether the row is short and has its clause in the node.
fn is_hit(row: Option<&Row>, node: &Assign) -> bool
    ensures { IsTrue result ↔ IsHit (option_copied row.entry) node.now }
{
    match row {
        Some(row) => is_short(row) && node.contains(&row.clause),
        None => false,
    }
}

// Whether the pass may publish the row in the slot.
fn may_fill(
    alloc: Global,
    frame: &Frame,
    slots: &[Option<Row>],
    pass: &PassData,
    slot: u32,
    row: &Row,
) -> Result<bool, AllocError>
    ensures { IfOk result (λ b. IsTrue b ↔ MayFill frame.now (in_slots slots.now) pass.now slot row.now) }
{
    if !has_slot(&pass.tickets, slot) {
        return Ok(false);
    }
    if !is_free(slots, slot) {
        return Ok(false);
    }
    let known = known_rows(alloc, slots, &pass.known)?;
    if !follows(frame, row, &known) {
        return Ok(false);
    }
    Ok(has_least_rank(&known, row))
}

// Whether the slot is one of the tickets.
fn has_slot(tickets: &[Ticket], slot: u32) -> bool
    ensures { IsTrue result ↔ Contains (slots_of tickets.now) slot }
{
    for ticket in tickets {
        if ticket.slot == slot {
            return true;
        }
    }
    false
}

// Whether the slot has no row.
fn is_free(slots: &[Option<Row>], slot: u32) -> bool
    ensures { IsTrue result ↔ (in_slots slots.now slot ≡ None) }
{
    match row_in(slots, slot) {
        Some(_) => false,
        None => true,
    }
}

// The rows of the known slots alone.
fn known_rows(
    alloc: Global,
    slots: &[Option<Row>],
    known: &[u32],
) -> Result<Vec<Option<Row>>, AllocError>
    ensures { IfOk result (λ rows. in_slots rows.items ≡ only (in_slots slots.now) known.now) }
{
    let mut rows = no_rows(alloc, slots.len())?;
    for slot in known {
        let at = *slot as usize;
        if at < slots.len() {
            rows[at] = slots[at];
        }
    }
    Ok(rows)
}

// Whether the rank is the least above those of the rows that are cited.
fn has_least_rank(given: &[Option<Row>], row: &Row) -> bool
    ensures { IsTrue result ↔ HasLeastRank (in_slots given.now) row.now }
{
    let cites = &row.cites;
    let mut least = 0u64;
    for k in 0..VALUES {
        least = least.max(past(given, &cites[k as usize]));
    }
    u64::from(row.rank) == least
}

// One more than the rank of the row that is cited, or 0.
fn past(given: &[Option<Row>], cite: &Cite) -> u64
    ensures { result ≡ rank_past (cited_row (in_slots given.now) cite.now) }
{
    match cite {
        Cite::Slot(slot) => match row_in(given, *slot) {
            Some(row) => one_more(row.rank),
            None => 0,
        },
        Cite::Nothing | Cite::Test(_) => 0,
    }
}

fn one_more(rank: u32) -> u64
    ensures { result ≡ rank + 1 }
{
    u64::from(rank) + 1
}
