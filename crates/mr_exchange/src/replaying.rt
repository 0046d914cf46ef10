ghost use Rattle.std.specs.Prelude.{◌≡◌, ◌<◌, ◌≤◌, ◌^◌, ℕ, IfOk, IsErrOf, length};
ghost use Rattle.mr_exchange.specs.declared.TheConstants.{PASSES};
ghost use Rattle.mr_exchange.specs.declared.fault.ReplayFault.TheVariants.{NotAllowed};
ghost use Rattle.mr_exchange.specs.Cubes.{IsProblemOf};
ghost use Rattle.mr_exchange.specs.State.{new_state};
ghost use Rattle.mr_exchange.specs.Events.{Replays, IsFirstRefused};
ghost use Rattle.mr_exchange.specs.Held.{state_of};

use crate::{Event, Problem, ReplayFault, State, StepFault};
use mr_frame::Frame;
use std::alloc::Global;

/// The state to which the events lead from a new one, or the place of the first that isn't allowed.
pub fn replay(
    alloc: Global,
    frame: &Frame,
    problem: Problem,
    passes: u32,
    events: &[Event],
) -> Result<State, ReplayFault>
    requires problem { IsProblemOf frame.now problem }
    requires some_passes { 1 ≤ passes }
    requires few_passes { passes ≤ PASSES }
    requires few_events { length events.now < 2 ^ 32 }
    ensures ok { IfOk result (λ s. Replays (new_state frame.now problem passes) events.now (state_of s)) }
    ensures frame { IfOk result (λ s. s.frame ≡ frame.now) }

    // A refusal names the first event that isn't allowed.
    ensures not_allowed { (place : ℕ) → IsErrOf result (NotAllowed place) → IsFirstRefused (new_state frame.now problem passes) events.now place }
{
    let mut state = State::new(alloc, frame, problem, passes)?;
    for place in 0..events.len() as u32 {
        match state.step(frame, &events[place as usize]) {
            Ok(_) => {}
            Err(StepFault::NotAllowed) => return Err(ReplayFault::NotAllowed { place }),
            Err(StepFault::Memory) => return Err(ReplayFault::Memory),
        }
    }
    Ok(state)
}
