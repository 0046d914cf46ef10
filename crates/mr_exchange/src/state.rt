ghost use Rattle.std.specs.Prelude.{◌≡◌, ◌≤◌, IfOk, OnOk, OnErr, IsErrOf, None, option_copied, replicate};
ghost use Rattle.mr_nogood.specs.Follows.{in_slots};
ghost use Rattle.mr_exchange.specs.declared.TheConstants.{PASSES};
ghost use Rattle.mr_exchange.specs.Cubes.{IsProblemOf};
ghost use Rattle.mr_exchange.specs.State.{new_state};
ghost use Rattle.mr_exchange.specs.Events.{IsAllowedEvent, state_after, reply_of};
ghost use Rattle.mr_exchange.specs.Sound.{IsSound};
ghost use Rattle.mr_exchange.specs.declared.fault.StepFault.TheVariants.{NotAllowed};
ghost use Rattle.mr_exchange.specs.Held.{state_of};

mod allowed;
mod changes;

use crate::pass::PassData;
use crate::{Event, Problem, Reply, StepFault};
use mr_frame::Frame;
use mr_nogood::Row;
use std::alloc::{AllocError, Global};
use std::marker::Model;
use std::snapshot::Snapshot;

/// What the passes of an exchange have and know, and the rows by slot. Contracts see all of it, and the
/// frame; `state_of` gives the state. Every state is sound.
#[derive(Drop)]
pub struct State {
    alloc: Global,
    frame: Snapshot<Frame>,
    problem: Problem,
    limit: u32,
    claim: u32,
    ticket: u32,
    passes: Vec<PassData>,
    slots: Vec<Option<Row>>,
}

impl Model for State {
    ghost use Rattle.mr_exchange.specs.Held.{Held, held};
    ghost use Rattle.mr_exchange.specs.Private.Held.{IsHeld};

    ghost Value = { Held };

    ghost view = { λ s. held s.frame.value s.problem s.limit s.claim s.ticket s.passes.items s.slots.items };

    ghost invariant = { λ s. IsHeld (held s.frame.value s.problem s.limit s.claim s.ticket s.passes.items s.slots.items) };
}

impl State {
    /// The state in which nothing has happened.
    pub fn new(
        alloc: Global,
        frame: &Frame,
        problem: Problem,
        passes: u32,
    ) -> Result<State, AllocError>
        requires problem { IsProblemOf frame.now problem }
        requires some_passes { 1 ≤ passes }
        requires few_passes { passes ≤ PASSES }
        ensures new { IfOk result (λ s. state_of s ≡ new_state frame.now problem passes) }
        ensures frame { IfOk result (λ s. s.frame ≡ frame.now) }
        ensures sound { IfOk result (λ s. IsSound (state_of s)) }
    {
        let slots = no_rows(alloc, problem.nodes as usize)?;
        let mut list = Vec::new(alloc);
        list.push(PassData::new(alloc, 0))?;
        Ok(State {
            alloc,
            frame: Snapshot::of(frame),
            problem,
            limit: passes,
            claim: 0,
            ticket: 0,
            passes: list,
            slots,
        })
    }

    /// One event of a state of this frame. An event that isn't allowed and want of memory leave the state.
    pub fn step(&mut self, frame: &Frame, e: &Event) -> Result<Reply, StepFault>
        requires { self.old.frame ≡ frame.now }

        // The event is allowed, and has the answer and changes what it is said to.
        ensures allowed { OnOk result (IsAllowedEvent (state_of self.old) e.now) }
        ensures reply { IfOk result (λ reply. reply ≡ reply_of (state_of self.old) e.now) }
        ensures after { OnOk result (state_of self.new ≡ state_after (state_of self.old) e.now) }

        // A refused event is one that isn't allowed.
        ensures not_allowed { IsErrOf result NotAllowed → ¬ (IsAllowedEvent (state_of self.old) e.now) }
        ensures err { OnErr result (self.new ≡ self.old) }

        // Whatever the result, the state is a sound one of the same frame.
        ensures sound { IsSound (state_of self.new) }
        ensures frame { self.new.frame ≡ frame.now }
    {
        // The clauses of `problem` say that the state is sound.
        let _problem = self.problem();
        let allowed = self.allows(frame, e)?;
        if !allowed {
            return Err(StepFault::NotAllowed);
        }
        let reply = self.change(e)?;
        Ok(reply)
    }

    /// The problem. The state is sound.
    pub fn problem(&self) -> Problem
        ensures value { result ≡ self.now.problem }
        ensures problem { IsProblemOf self.now.frame result }
        ensures sound { IsSound (state_of self.now) }
    {
        self.problem
    }

    /// The row of a slot, if it has one.
    pub fn row(&self, slot: u32) -> Option<&Row>
        ensures { option_copied result ≡ (state_of self.now).rows slot }
    {
        row_in(&self.slots, slot)
    }
}

// The row of a slot, if it is there and has one.
fn row_in(slots: &[Option<Row>], slot: u32) -> Option<&Row>
    ensures { option_copied result ≡ in_slots slots.now slot }
{
    match slots.get(slot as usize) {
        Some(found) => found.as_ref(),
        None => None,
    }
}

// As many slots without a row.
fn no_rows(alloc: Global, count: usize) -> Result<Vec<Option<Row>>, AllocError>
    ensures { IfOk result (λ slots. slots.items ≡ replicate count None) }
{
    let mut slots = Vec::new(alloc);
    slots.resize(count, None)?;
    Ok(slots)
}
