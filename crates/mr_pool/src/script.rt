ghost use Rattle.std.specs.Prelude.{◌≡◌, ◌↔◌, drop, slice_get, IfOk, IsTrue, Some, Contains};
ghost use Rattle.mr_pool.specs.declared.script.Place.TheVariants.{First, Nowhere};

use mr_io::{Gate, Point};
use std::alloc::{AllocError, Global};
use std::sync::atomic::{AtomicBool, AtomicU64, AtomicUsize, Ordering};
use std::thread;

/// A worker and a point at which it is let pass in its turn.
#[derive(Clone, Copy, Debug, PartialEq, Eq)]
pub struct Turn {
    pub worker: u32,
    pub point: Point,
}

/// A gate that lets workers pass in the order of a list of turns, which are taken one after another. A call whose worker
/// and point aren't among the turns that remain passes at once. Another tries again until its turn is the first of them,
/// and takes it. A call that has tried again as often as it may passes without its turn, which remains.
#[derive(Drop)]
pub struct Script {
    turns: Vec<Turn>,
    limit: u32,
    taken: AtomicUsize,
    claims: AtomicU64,
    missed: AtomicBool,
}

// Where a turn stands among those that remain.
#[derive(Clone, Copy, Debug, PartialEq, Eq)]
enum Place {
    First,
    Later,
    Nowhere,
}

// Where a turn stands among those that remain once so many were taken.
fn place_of(turns: &[Turn], taken: usize, turn: Turn) -> Place
    ensures first { (result ≡ First) ↔ (slice_get turns.now taken ≡ Some turn) }
    ensures nowhere { (result ≡ Nowhere) ↔ ¬ (Contains (drop taken turns.now) turn) }
{
    match turns.get(taken) {
        None => Place::Nowhere,
        Some(next) => {
            if *next == turn {
                Place::First
            } else if turns[taken..].contains(&turn) {
                Place::Later
            } else {
                Place::Nowhere
            }
        }
    }
}

impl Script {
    /// A gate for these turns, none of which is taken, at which a call tries again at most `limit` times.
    pub fn new(alloc: Global, turns: &[Turn], limit: u32) -> Result<Script, AllocError>
        ensures turns { IfOk result (λ script. script.turns.items ≡ turns.now) }
        ensures limit { IfOk result (λ script. script.limit ≡ limit) }
    {
        Ok(Script {
            turns: Vec::from_slice(alloc, turns)?,
            limit,
            taken: AtomicUsize::new(0),
            claims: AtomicU64::new(0),
            missed: AtomicBool::new(false),
        })
    }

    /// Whether a call has passed without its turn.
    pub fn missed(&self) -> bool {
        self.missed.load(Ordering::SeqCst)
    }

    /// How many calls there were after a claim, by any worker.
    pub fn claims(&self) -> u32 {
        u32::try_from(self.claims.load(Ordering::SeqCst)).unwrap_or(u32::MAX)
    }

    // Tries once whether a call may pass, and takes its turn where that is the first.
    fn passes(&self, turn: Turn) -> bool
        ensures stranger { ¬ (Contains self.now.turns.items turn) → IsTrue result }
    {
        let taken = self.taken.load(Ordering::SeqCst);
        match place_of(&self.turns, taken, turn) {
            Place::First => self
                .taken
                .compare_exchange(taken, taken + 1, Ordering::SeqCst, Ordering::SeqCst)
                .is_ok(),
            Place::Later => false,
            Place::Nowhere => true,
        }
    }
}

impl Gate for Script {
    fn at(&self, worker: u32, point: Point) {
        if point == Point::Claimed {
            self.claims.fetch_add(1, Ordering::SeqCst);
        }
        let turn = Turn { worker, point };
        if self.passes(turn) {
            return;
        }
        for _again in 0..self.limit {
            thread::yield_now();
            if self.passes(turn) {
                return;
            }
        }
        self.missed.store(true, Ordering::SeqCst);
    }
}
