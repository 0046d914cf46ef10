ghost use Rattle.std.specs.Prelude.{◌≡◌, IfSome};

use crate::plane::{fano, row};
use mr_assign::Assign;
use mr_exchange::{Event, Look, Problem, ReplayFault, Reply, State, StepFault, cube_at, replay};
use mr_frame::Frame;
use std::alloc::Global;

// The map that gives a value to position 0.
fn first_is(value: u8) -> Assign {
    if value == 1 {
        Assign::empty().with(0, 1)
    } else {
        Assign::empty().with(0, 2)
    }
}

// Two passes: the first publishes a row, and the second looks at it. The last event lacks looks.
fn events() -> [Event; 9] {
    let publish = Event::Publish {
        pass: 0,
        slot: 0,
        row: row(),
    };
    [
        Event::Split,
        Event::Claim { pass: 0 },
        Event::Claim { pass: 1 },
        opening(0, first_is(1)),
        opening(1, first_is(2)),
        publish,
        Event::LookAt { pass: 1 },
        Event::LookAt { pass: 1 },
        late(),
    ]
}

// The pass opens the node.
fn opening(pass: u32, node: Assign) -> Event {
    Event::OpenNode { pass, node }
}

// The second pass opens a second node before the looks that are due.
fn late() -> Event {
    opening(1, first_is(2).with(1, 1))
}

// What they answer.
fn answers() -> [Answer; 9] {
    [
        Ok(Reply::Done),
        Ok(Reply::Cube(Some(0))),
        Ok(Reply::Cube(Some(1))),
        Ok(Reply::Ticket(Some(0))),
        Ok(Reply::Ticket(Some(1))),
        Ok(Reply::Done),
        Ok(Reply::Seen(Look::Short(0, row()))),
        Ok(Reply::Seen(Look::Empty)),
        REFUSED,
    ]
}

type Answer = Result<Reply, StepFault>;

const REFUSED: Answer = Err(StepFault::NotAllowed);

// The place of the first event that answers otherwise.
fn wrong_answer(
    state: &mut State,
    frame: &Frame,
    events: &[Event],
    answers: &[Answer],
) -> Option<usize>
    requires { state.old.frame ≡ frame.now }
    ensures { state.new.frame ≡ frame.now }
{
    for k in 0..events.len() {
        if k < answers.len() && state.step(frame, &events[k]) != answers[k] {
            return Some(k);
        }
    }
    None
}

// The state of two passes over one split position.
fn started(alloc: Global, frame: &Frame) -> Option<State>
    ensures { IfSome result (λ state. state.frame ≡ frame.now) }
{
    State::new(alloc, frame, Problem::of(frame, 1, 10), 2).ok()
}

// Whether the row stands in the slot 0 and none in the next one.
fn has_row(state: &State) -> bool {
    state.row(0) == Some(&row()) && state.row(1).is_none()
}

// Whether the events answer so.
fn answers_first(state: &mut State, frame: &Frame) -> bool
    requires { state.old.frame ≡ frame.now }
    ensures { state.new.frame ≡ frame.now }
{
    wrong_answer(state, frame, events().as_slice(), answers().as_slice()).is_none()
}

// Whether the events answer so, then more events, and the row stands in its slot.
fn is_played_on(alloc: Global, frame: &Frame, more: &[Event], wanted: &[Answer]) -> Option<bool> {
    let mut state = started(alloc, frame)?;
    let first = answers_first(&mut state, frame);
    let next = wrong_answer(&mut state, frame, more, wanted);
    Some(first && next.is_none() && has_row(&state))
}

// The same on the plane.
fn is_played(alloc: Global, more: &[Event], wanted: &[Answer]) -> Option<bool> {
    let fano = fano(alloc, 3)?;
    is_played_on(alloc, &fano, more, wanted)
}

// An event that was refused has left the state: the cursor is where the looks left it.
#[test]
fn a_row_goes_from_one_pass_to_another(rt: HostRuntime) {
    let more = [late(), Event::LookAt { pass: 1 }];
    let wanted = [REFUSED, Ok(Reply::Seen(Look::Short(0, row())))];
    assert!(rt; is_played(rt.alloc(), &more, &wanted) == Some(true));
}

// The second pass is joined to the first, which then claims a third cube, twice.
const JOINING: [Event; 5] = [
    Event::Join { pass: 1 },
    Event::Join { pass: 1 },
    Event::Split,
    Event::Claim { pass: 0 },
    Event::Claim { pass: 0 },
];

const JOINED: [Answer; 5] = [
    Ok(Reply::Done),
    REFUSED,
    REFUSED,
    Ok(Reply::Cube(None)),
    REFUSED,
];

#[test]
fn a_joined_pass_leaves_all_to_the_first(rt: HostRuntime) {
    assert!(rt; is_played(rt.alloc(), JOINING.as_slice(), JOINED.as_slice()) == Some(true));
}

// The fault of the event that is refused, or else whether the row stands in its slot.
fn replayed(alloc: Global, frame: &Frame, events: &[Event]) -> Result<bool, ReplayFault> {
    if events.len() > 9 {
        return Ok(false);
    }
    match replay(alloc, frame, Problem::of(frame, 1, 10), 2, events) {
        Ok(state) => Ok(has_row(&state)),
        Err(fault) => Err(fault),
    }
}

// The same of the first events on the Fano plane.
fn replayed_first(alloc: Global, count: usize) -> Option<Result<bool, ReplayFault>> {
    let fano = fano(alloc, 3)?;
    let events = events();
    if count > 9 {
        return None;
    }
    Some(replayed(alloc, &fano, &events[..count]))
}

#[test]
fn the_first_refused_event_is_named_by_its_place(rt: HostRuntime) {
    let refused = Err(ReplayFault::NotAllowed { place: 8 });
    assert!(rt; replayed_first(rt.alloc(), 9) == Some(refused));
    assert!(rt; replayed_first(rt.alloc(), 8) == Some(Ok(true)));
}

// Whether the cubes of one split position are two, and give it their values.
fn are_values(alloc: Global) -> Option<bool> {
    let fano = fano(alloc, 3)?;
    let problem = Problem::of(&fano, 1, 10);
    if problem.cubes != 2 {
        return Some(false);
    }
    for c in 0..problem.cubes {
        if cube_at(&fano, problem.depth, c) != first_is(c as u8 + 1) {
            return Some(false);
        }
    }
    Some(true)
}

#[test]
fn the_cubes_of_one_position_are_its_values(rt: HostRuntime) {
    assert!(rt; are_values(rt.alloc()) == Some(true));
}

fn moved<T: Send + Sync>(value: T) -> T {
    value
}

// Whether a new state, which may cross to another thread, has no row.
fn is_empty_on(alloc: Global, frame: &Frame) -> Option<bool> {
    let state = moved(started(alloc, frame)?);
    Some(state.row(0).is_none())
}

// The same on the plane.
fn is_empty_on_the_plane(alloc: Global) -> Option<bool> {
    let fano = fano(alloc, 3)?;
    is_empty_on(alloc, &fano)
}

#[test]
fn a_state_may_cross_threads(rt: HostRuntime) {
    assert!(rt; is_empty_on_the_plane(rt.alloc()) == Some(true));
}
