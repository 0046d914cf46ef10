ghost use Rattle.std.specs.Prelude.{◌≡◌, ◌≢◌, ◌<◌, ◌≤◌, ◌+◌, ◌*◌, ◌^◌, ◌==◌, if◌then◌else◌, [], OnOk, OnErr};
ghost use Rattle.mr_exchange.specs.declared.TheConstants.{LOOKS, NODES};
ghost use Rattle.mr_exchange.specs.State.{new_pass, spent, latest_of, is_short, head_at};
ghost use Rattle.mr_exchange.specs.Events.{knowing, known_after, claimed, opened, looked, published, joins};

use crate::{LOOKS, SHORT, Ticket};
use mr_assign::Assign;
use mr_nogood::{Row, head_of};
use std::alloc::{AllocError, Global};
use std::marker::Model;

/// What a pass has and knows.
#[derive(Drop)]
pub(crate) struct PassData {
    pub(crate) live: bool,
    pub(crate) number: u32,
    pub(crate) cubes: Vec<u32>,
    pub(crate) tickets: Vec<Ticket>,
    pub(crate) known: Vec<u32>,
    pub(crate) looks: u32,
    pub(crate) last_head: u64,
    pub(crate) cursor: u32,
    pub(crate) claim_ends: u32,
    pub(crate) ticket_ends: u32,
    pub(crate) made: u32,
    pub(crate) joined: Vec<u32>,
}

impl Model for PassData {
    ghost use Rattle.mr_exchange.specs.State.{Pass};

    ghost Value = { Pass };

    ghost view = { λ p. record { live = p.live; number = p.number; cubes = p.cubes.items; tickets = p.tickets.items; known = p.known.items; looks = p.looks; last_head = p.last_head; cursor = p.cursor; claim_ends = p.claim_ends; ticket_ends = p.ticket_ends; made = p.made; joined = p.joined.items } };
}

impl PassData {
    pub(crate) fn new(alloc: Global, number: u32) -> PassData
        ensures { result ≡ new_pass number }
    {
        PassData {
            live: true,
            number,
            cubes: Vec::new(alloc),
            tickets: Vec::new(alloc),
            known: Vec::new(alloc),
            looks: 0,
            last_head: 0,
            cursor: 0,
            claim_ends: 0,
            ticket_ends: 0,
            made: 1,
            joined: Vec::new(alloc),
        }
    }

    /// What is left of a pass that was joined into another.
    pub(crate) fn spent(alloc: Global) -> PassData
        ensures { result ≡ spent }
    {
        let mut pass = PassData::new(alloc, 0);
        pass.live = false;
        pass
    }

    /// The claim word was this number.
    pub(crate) fn claim(&mut self, cubes: u32, word: u32) -> Result<(), AllocError>
        requires { self.old.claim_ends + 1 < 2 ^ 32 }
        ensures ok { OnOk result (self.new ≡ claimed cubes word self.old) }
        ensures err { OnErr result (self.new ≡ self.old) }
    {
        if word < cubes {
            self.cubes.push(word)?;
        } else {
            self.claim_ends += 1;
        }
        Ok(())
    }

    /// The ticket word was this number.
    pub(crate) fn open(&mut self, nodes: u32, word: u32, node: &Assign) -> Result<(), AllocError>
        requires { self.old.ticket_ends + 1 < 2 ^ 32 }
        ensures ok { OnOk result (self.new ≡ opened nodes word node.now self.old) }
        ensures err { OnErr result (self.new ≡ self.old) }
    {
        if word < nodes {
            let ticket = Ticket {
                slot: word,
                node: *node,
            };
            self.tickets.extend_from_slice(&[ticket])?;
        } else {
            self.ticket_ends += 1;
        }
        Ok(())
    }

    /// This is the row of the slot at the cursor.
    pub(crate) fn look(&mut self, nodes: u32, row: &Option<Row>) -> Result<(), AllocError>
        requires nodes { nodes ≤ NODES }
        requires looks { self.old.looks ≤ LOOKS * nodes }
        requires some { self.old.tickets ≢ [] }
        requires cursor { self.old.cursor + 1 < 2 ^ 32 }
        ensures ok { OnOk result (self.new ≡ looked nodes (λ _. row.now) self.old) }
        ensures err { OnErr result (self.new ≡ self.old) }
    {
        let slot = self.cursor;
        let next = next_cursor(slot, &self.tickets);
        learn(&mut self.known, slot, row)?;
        self.looks = (self.looks + 1).min(LOOKS * nodes);
        self.last_head = head(row);
        self.cursor = next;
        Ok(())
    }

    /// It knows the row of the slot.
    pub(crate) fn publish(&mut self, slot: u32) -> Result<(), AllocError>
        ensures ok { OnOk result (self.new ≡ published slot self.old) }
        ensures err { OnErr result (self.new ≡ self.old) }
    {
        know(&mut self.known, slot)
    }

    /// All that the other has and knows is its own too.
    pub(crate) fn join(&mut self, other: &PassData) -> Result<(), AllocError>
        requires claim_ends { self.old.claim_ends + other.now.claim_ends < 2 ^ 32 }
        requires ticket_ends { self.old.ticket_ends + other.now.ticket_ends < 2 ^ 32 }
        ensures ok { OnOk result (self.new ≡ joins self.old other.now) }
        ensures err { OnErr result (self.new ≡ self.old) }
    {
        self.cubes.reserve(other.cubes.len())?;
        self.tickets.reserve(other.tickets.len())?;
        self.known.reserve(other.known.len())?;
        self.joined.reserve(1)?;
        self.cubes.extend_from_slice(&other.cubes)?;
        self.tickets.extend_from_slice(&other.tickets)?;
        self.known.extend_from_slice(&other.known)?;
        self.joined.push(other.number)?;
        self.claim_ends += other.claim_ends;
        self.ticket_ends += other.ticket_ends;
        Ok(())
    }
}

// The slot to look at after this one.
fn next_cursor(slot: u32, tickets: &[Ticket]) -> u32
    requires some { tickets.now ≢ [] }
    requires slot { slot + 1 < 2 ^ 32 }
    ensures { result ≡ (if slot == latest_of tickets.now then 0 else slot + 1) }
{
    if slot == tickets[tickets.len() - 1].slot {
        0
    } else {
        slot + 1
    }
}

// The slot is known where it has a row that is short.
fn learn(known: &mut Vec<u32>, slot: u32, row: &Option<Row>) -> Result<(), AllocError>
    ensures ok { OnOk result (known.new.items ≡ known_after slot row.now known.old.items) }
    ensures err { OnErr result (known.new.items ≡ known.old.items) }
{
    match row {
        Some(row) if is_short(row) => know(known, slot),
        _ => Ok(()),
    }
}

// The slot is known.
fn know(known: &mut Vec<u32>, slot: u32) -> Result<(), AllocError>
    ensures ok { OnOk result (known.new.items ≡ knowing slot known.old.items) }
    ensures err { OnErr result (known.new.items ≡ known.old.items) }
{
    if !known.as_slice().contains(&slot) {
        known.push(slot)?;
    }
    Ok(())
}

// The first word of the row, or 0.
fn head(row: &Option<Row>) -> u64
    ensures { result ≡ head_at row.now }
{
    match row {
        Some(row) => head_of(row),
        None => 0,
    }
}

/// Whether the clause has few pairs.
pub(crate) fn is_short(row: &Row) -> bool
    ensures { result ≡ is_short row.now }
{
    row.clause.count() <= SHORT
}
