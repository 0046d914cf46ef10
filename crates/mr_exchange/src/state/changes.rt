ghost use Rattle.std.specs.Prelude.{◌≡◌, if◌then◌else◌, nat_lt, None, Some, IfOk, OnOk, OnErr};
ghost use Rattle.mr_exchange.specs.declared.event.Event.TheVariants.{Claim, OpenNode, LookAt, Publish, Split, Join};
ghost use Rattle.mr_exchange.specs.Events.{MayClaim, MayOpen, MayLook, MayPublish, MayJoin, IsAllowedEvent, state_after, reply_of, seen};
ghost use Rattle.mr_exchange.specs.Held.{state_of};

use crate::pass::{PassData, is_short};
use crate::{Event, Look, Reply, State};
use mr_assign::Assign;
use mr_nogood::Row;
use std::alloc::AllocError;
use std::mem;

impl State {
    // What an event that is allowed changes.
    pub(super) fn change(&mut self, e: &Event) -> Result<Reply, AllocError>
        requires { IsAllowedEvent (state_of self.old) e.now }
        ensures reply { IfOk result (λ reply. reply ≡ reply_of (state_of self.old) e.now) }
        ensures after { OnOk result (state_of self.new ≡ state_after (state_of self.old) e.now) }
        ensures err { OnErr result (self.new ≡ self.old) }
    {
        match e {
            Event::Claim { pass } => self.claim(*pass),
            Event::OpenNode { pass, node } => self.open_node(*pass, node),
            Event::LookAt { pass } => self.look(*pass),
            Event::Publish { pass, slot, row } => self.publish(*pass, *slot, row),
            Event::Split => self.split(),
            Event::Join { pass } => self.join(*pass),
        }
    }

    fn claim(&mut self, k: u32) -> Result<Reply, AllocError>
        requires { MayClaim (state_of self.old) k }
        ensures reply { IfOk result (λ reply. reply ≡ reply_of (state_of self.old) (Claim k)) }
        ensures after { OnOk result (state_of self.new ≡ state_after (state_of self.old) (Claim k)) }
        ensures err { OnErr result (self.new ≡ self.old) }
    {
        let word = self.claim;
        let cubes = self.problem.cubes;
        self.passes[k as usize].claim(cubes, word)?;
        self.claim = word + 1;
        Ok(Reply::Cube(below(word, cubes)))
    }

    fn open_node(&mut self, k: u32, node: &Assign) -> Result<Reply, AllocError>
        requires { MayOpen (state_of self.old) k node.now }
        ensures reply { IfOk result (λ reply. reply ≡ reply_of (state_of self.old) (OpenNode k node.now)) }
        ensures after { OnOk result (state_of self.new ≡ state_after (state_of self.old) (OpenNode k node.now)) }
        ensures err { OnErr result (self.new ≡ self.old) }
    {
        let word = self.ticket;
        let nodes = self.problem.nodes;
        self.passes[k as usize].open(nodes, word, node)?;
        self.ticket = word + 1;
        Ok(Reply::Ticket(below(word, nodes)))
    }

    fn look(&mut self, k: u32) -> Result<Reply, AllocError>
        requires { MayLook (state_of self.old) k }
        ensures reply { IfOk result (λ reply. reply ≡ reply_of (state_of self.old) (LookAt k)) }
        ensures after { OnOk result (state_of self.new ≡ state_after (state_of self.old) (LookAt k)) }
        ensures err { OnErr result (self.new ≡ self.old) }
    {
        let nodes = self.problem.nodes;
        let pass = &mut self.passes[k as usize];
        let slot = pass.cursor;
        let row = &self.slots[slot as usize];
        pass.look(nodes, row)?;
        Ok(Reply::Seen(seen(slot, row)))
    }

    fn publish(&mut self, k: u32, slot: u32, row: &Row) -> Result<Reply, AllocError>
        requires { MayPublish (state_of self.old) k slot row.now }
        ensures reply { IfOk result (λ reply. reply ≡ reply_of (state_of self.old) (Publish k slot row.now)) }
        ensures after { OnOk result (state_of self.new ≡ state_after (state_of self.old) (Publish k slot row.now)) }
        ensures err { OnErr result (self.new ≡ self.old) }
    {
        self.passes[k as usize].publish(slot)?;
        self.slots[slot as usize] = Some(*row);
        Ok(Reply::Done)
    }

    fn split(&mut self) -> Result<Reply, AllocError>
        requires { IsAllowedEvent (state_of self.old) Split }
        ensures reply { IfOk result (λ reply. reply ≡ reply_of (state_of self.old) Split) }
        ensures after { OnOk result (state_of self.new ≡ state_after (state_of self.old) Split) }
        ensures err { OnErr result (self.new ≡ self.old) }
    {
        let first = &self.passes[0];
        let made = first.made;
        self.passes.push(PassData::new(self.alloc, made))?;
        let first = &mut self.passes[0];
        first.made = made + 1;
        Ok(Reply::Done)
    }

    // The lists of the first pass get their room first. Where there is none, the other pass is put back.
    fn join(&mut self, k: u32) -> Result<Reply, AllocError>
        requires { MayJoin (state_of self.old) k }
        ensures reply { IfOk result (λ reply. reply ≡ reply_of (state_of self.old) (Join k)) }
        ensures after { OnOk result (state_of self.new ≡ state_after (state_of self.old) (Join k)) }
        ensures err { OnErr result (self.new ≡ self.old) }
    {
        let other = mem::replace(&mut self.passes[k as usize], PassData::spent(self.alloc));
        match self.passes[0].join(&other) {
            Ok(()) => Ok(Reply::Done),
            Err(e) => {
                self.passes[k as usize] = other;
                Err(e)
            }
        }
    }
}

// The number of a word that is below the end.
fn below(word: u32, end: u32) -> Option<u32>
    ensures { result ≡ (if nat_lt word end then Some word else None) }
{
    if word < end { Some(word) } else { None }
}

// What a look at a slot shows.
fn seen(slot: u32, row: &Option<Row>) -> Look
    ensures { result ≡ seen slot row.now }
{
    match row {
        None => Look::Empty,
        Some(row) => shown(slot, row),
    }
}

// What a look at a slot shows that has this row.
fn shown(slot: u32, row: &Row) -> Look
    ensures { result ≡ seen slot (Some row.now) }
{
    if is_short(row) {
        Look::Short(slot, *row)
    } else {
        Look::Long
    }
}
