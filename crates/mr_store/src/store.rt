ghost use Rattle.std.specs.Prelude.{◌≡◌, ◌≢◌, ◌<◌, ◌≤◌, ◌+◌, ◌*◌, [], ◌∷◌, ◌++◌, ◌↔◌, ◌⊎◌, ℕ, IfOk, Some, Contains, replicate};
ghost use Rattle.mr_nogood.specs.declared.TheConstants.{ROW_WORDS};
ghost use Rattle.mr_exchange.specs.declared.TheConstants.{PASSES};
ghost use Rattle.mr_exchange.specs.Cubes.{IsProblemOf};
ghost use Rattle.mr_nogood.specs.declared.row.Row.{Row};
ghost use Rattle.mr_exchange.specs.State.{slots_of};
ghost use Rattle.mr_exchange.specs.Board.{new_holding};
ghost use Rattle.mr_store.specs.Cards.{CardFacts, IsThere, store_of, mark_of, held_by};

use crate::card::Card;
use crate::key::Key;
use crate::rule::{Fork, Ruled};
use crate::steps::check;
use crate::view::View;
use atomic_table::Table;
use mr_exchange::{PackedRows, Problem};
use mr_frame::Frame;
use mr_nogood::ROW_WORDS;
use std::alloc::{AllocError, Global};
use std::marker::Model;
use std::snapshot::Snapshot;

/// What the passes of one problem share.
#[derive(Drop)]
pub struct Store<'f> {
    pub(crate) frame: &'f Frame,
    pub(crate) table: Table<(), View, Key, Ruled, Global>,
    // Slots without rows, for the closed board. Their memory is that of the zeros with which the words began.
    pub(crate) rows: PackedRows,
}

impl<'f> Model for Store<'f> {
    ghost use Rattle.mr_store.specs.Cards.{StoreIs};
    ghost use Rattle.mr_store.specs.Private.Cards.{IsStore};
    ghost use Rattle.mr_store.specs.Keys.{setting};

    ghost Value = { StoreIs };

    ghost view = { λ s. record { id = s.table.shared.table_id; setting = setting s.table.shared.key } };

    ghost invariant = { λ s. IsStore s.table.shared.table_id (setting s.table.shared.key) s.frame.now s.rows };
}

impl<'f> Store<'f> {
    /// A store for so many passes at most, and the card of the first, which has and knows nothing. All memory is taken here,
    /// that for the close too; the error is want of it.
    pub fn new(
        alloc: Global,
        frame: &'f Frame,
        problem: Problem,
        passes: u32,
    ) -> Result<(Store<'f>, Card), AllocError>
        requires problem { IsProblemOf frame.now problem }
        requires some_passes { 1 ≤ passes }
        requires few_passes { passes ≤ PASSES }
        ensures store { IfOk result (λ made. made.0.setting ≡ record { frame = frame.entry.now; problem = problem; limit = passes }) }
        ensures first { IfOk result (λ made. mark_of made.1 ≡ record { store = made.0; number = 0; made = 1; joined = [] }) }
        ensures holding { IfOk result (λ made. held_by made.1 ≡ new_holding frame.entry.now problem) }
    {
        // The clauses of `basis` say that it is a frame.
        let _basis = frame.basis();
        let key = Key {
            frame: Snapshot::of(frame),
            problem,
            limit: passes,
        };
        let words = zeros(alloc, 2 + ROW_WORDS * (problem.nodes as usize))?;
        let (table, seat) = Table::of_words(alloc, words.as_slice(), &key)?;
        let card = Card {
            seat,
            problem,
            cursor: 0,
            latest: 0,
        };
        let rows = PackedRows::of_zeros(words, problem.nodes);
        Ok((Store { frame, table, rows }, card))
    }

    /// The frame that the problem is one of.
    pub fn frame(&self) -> &Frame
        ensures { result.now ≡ self.now.setting.frame }
    {
        self.frame
    }

    /// A new pass, which has and knows nothing. It is told of each row of which the first was told, so that it meets them.
    pub fn split(&self, first: &mut Card) -> Card
        requires store { store_of first.old ≡ self.now }
        requires first { (mark_of first.old).number ≡ 0 }
        requires room { (mark_of first.old).made < self.now.setting.limit }
        ensures first { mark_of first.new ≡ record (mark_of first.old) { made = (mark_of first.old).made + 1 } }
        ensures kept { held_by first.new ≡ held_by first.old }
        ensures new { mark_of result ≡ record { store = self.now; number = (mark_of first.old).made; made = 1; joined = [] } }
        ensures nothing { held_by result ≡ new_holding self.now.setting.frame self.now.setting.problem }
        ensures there { (slot : ℕ) (row : Row) → IsThere first.old slot row → IsThere first.new slot row × IsThere result slot row }
    {
        let seat = self.table.shared.split_seat::<Fork>(&mut first.seat);
        Card {
            seat,
            problem: first.problem,
            cursor: 0,
            latest: 0,
        }
    }

    /// All that the other pass has and knows is that of the first too.
    pub fn join(&self, first: &mut Card, other: Card)
        requires store { (store_of first.old ≡ self.now) × (store_of other ≡ self.now) }
        requires first { (mark_of first.old).number ≡ 0 }
        requires other { (mark_of other).number ≢ 0 }
        ensures mark { mark_of first.new ≡ record (mark_of first.old) { joined = (mark_of first.old).joined ++ (mark_of other).number ∷ [] } }
        ensures cubes { (held_by first.new).cubes ≡ (held_by first.old).cubes ++ (held_by other).cubes }
        ensures tickets { (held_by first.new).tickets ≡ (held_by first.old).tickets ++ (held_by other).tickets }
        // The first knows just what one of the two knew.
        ensures known { (slot : ℕ) (row : Row) → ((held_by first.new).known slot ≡ Some row) ↔ (((held_by first.old).known slot ≡ Some row) ⊎ ((held_by other).known slot ≡ Some row)) }
        // It was told of each row of which one of the two was told.
        ensures there { (slot : ℕ) (row : Row) → IsThere first.old slot row ⊎ IsThere other slot row → IsThere first.new slot row }
        // The two had nothing in common.
        ensures other_cubes { (x : ℕ) → Contains (held_by first.old).cubes x → ¬ (Contains (held_by other).cubes x) }
        ensures other_tickets { (t : ℕ) → Contains (slots_of (held_by first.old).tickets) t → ¬ (Contains (slots_of (held_by other).tickets) t) }
        ensures ends { ((held_by first.new).claim_ends ≡ (held_by first.old).claim_ends + (held_by other).claim_ends) × ((held_by first.new).ticket_ends ≡ (held_by first.old).ticket_ends + (held_by other).ticket_ends) }
        ensures rest { ((held_by first.new).looks ≡ (held_by first.old).looks) × ((held_by first.new).last_head ≡ (held_by first.old).last_head) × ((held_by first.new).cursor ≡ (held_by first.old).cursor) }
        ensures facts { CardFacts first.new }
    {
        let Card {
            seat,
            problem: _,
            cursor: _,
            latest: _,
        } = other;
        self.table.shared.join_seat::<Fork>(&mut first.seat, seat);
        check(&self.table.shared, &mut first.seat);
    }
}

// As many zeros.
fn zeros(alloc: Global, count: usize) -> Result<Vec<u64>, AllocError>
    ensures { IfOk result (λ v. v.items ≡ replicate count 0) }
{
    vec![in alloc; 0u64; count]
}
