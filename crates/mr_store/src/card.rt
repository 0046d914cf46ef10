ghost use Rattle.std.specs.Prelude.{◌≡◌, ◌≢◌, ◌↔◌, ◌<◌, ◌≤◌, ◌+◌, ◌++◌, ◌∷◌, [], length, if◌then◌else◌, ◌==◌, IsNone, IfSome};
ghost use Rattle.mr_exchange.specs.declared.TheConstants.{SHORT};
ghost use Rattle.mr_exchange.specs.declared.event.Event.TheVariants.{Claim, OpenNode, LookAt, Publish};
ghost use Rattle.mr_exchange.specs.declared.event.Reply.TheVariants.{Cube, Ticket as Drawn, Seen, Done};
ghost use Rattle.mr_exchange.specs.Board.{CanOpen, CanPublish, pairs_shown, new_holding};
ghost use Rattle.mr_store.specs.Cards.{CardFacts, IsEvent, store_of, mark_of, held_by, word_of};

use crate::rule::Claim as ClaimStep;
use crate::steps::{look_at, open_word, publish_head, shown, store_row};
use crate::store::Store;
use crate::view::View;
use atomic_table::Seat;
use mr_assign::Assign;
use mr_exchange::{Look, Problem, next_slot};
use mr_nogood::{Row, pack};
use std::marker::{Brand, Model};

/// A pass of a store, while it is not at work.
#[derive(Drop)]
pub struct Card {
    pub(crate) seat: Seat<(), View>,
    pub(crate) problem: Problem,
    pub(crate) cursor: u32,
    pub(crate) latest: u32,
}

impl Model for Card {
    ghost use Rattle.mr_store.specs.Cards.{CardIs};
    ghost use Rattle.mr_store.specs.Private.Cards.{IsCard};

    ghost Value = { CardIs };

    ghost view = { λ c. record { id = c.seat.table_id; seen = c.seat.me.0 } };

    ghost invariant = { λ c. IsCard c.seat.table_id c.problem c.cursor c.latest c.seat.me };
}

impl Card {
    /// The problem, and what its pass was told.
    pub fn problem(&self) -> Problem
        ensures problem { result ≡ (held_by self.now).problem }
        ensures facts { CardFacts self.now }
    {
        self.problem
    }

    pub(crate) fn claim(&mut self, store: &Store) -> Option<u32>
        requires store { store_of self.old ≡ store.now }
        requires no_end { (held_by self.old).claim_ends ≡ 0 }
        ensures event { IsEvent self.old (Claim (mark_of self.old).number) (Cube result) self.new }
        ensures none { IsNone result ↔ ((held_by self.old).problem.cubes ≤ word_of self.new) }
        ensures cube { IfSome result (λ cube. cube ≡ word_of self.new) }
        ensures mark { mark_of self.new ≡ mark_of self.old }
    {
        let found = store
            .table
            .shared
            .fetch_add::<ClaimStep>(&mut self.seat, 0, 1);
        if found < u64::from(self.problem.cubes) {
            Some(found as u32)
        } else {
            None
        }
    }

    pub(crate) fn open_node(&mut self, store: &Store, node: &Assign) -> Option<u32>
        requires store { store_of self.old ≡ store.now }
        requires alone { (mark_of self.old).joined ≡ [] }
        requires can { CanOpen (held_by self.old) node.now }
        ensures event { IsEvent self.old (OpenNode (mark_of self.old).number node.now) (Drawn result) self.new }
        ensures none { IsNone result ↔ ((held_by self.old).problem.nodes ≤ word_of self.new) }
        ensures ticket { IfSome result (λ ticket. ticket ≡ word_of self.new) }
        ensures mark { mark_of self.new ≡ mark_of self.old }
    {
        let found = open_word::<Brand>(&store.table.shared, &mut self.seat, node);
        if found < u64::from(self.problem.nodes) {
            self.latest = found as u32;
            Some(self.latest)
        } else {
            None
        }
    }

    pub(crate) fn publish(&mut self, store: &Store, slot: u32, row: &Row)
        requires store { store_of self.old ≡ store.now }
        requires can { CanPublish (held_by self.old) slot row.now }
        ensures event { IsEvent self.old (Publish (mark_of self.old).number slot row.now) Done self.new }
        ensures mark { mark_of self.new ≡ mark_of self.old }
    {
        let words = pack(row);
        store_row(&store.table.shared, &mut self.seat, slot, &words);
        publish_head::<Brand>(&store.table.shared, &mut self.seat, slot, row, words[0]);
    }

    pub(crate) fn look(&mut self, store: &Store) -> Look
        requires store { store_of self.old ≡ store.now }
        requires alone { (mark_of self.old).joined ≡ [] }
        requires some { (held_by self.old).tickets ≢ [] }
        ensures event { IsEvent self.old (LookAt (mark_of self.old).number) (Seen result) self.new }
        ensures empty { (result ≡ Look.Empty) ↔ ((held_by self.new).last_head ≡ 0) }
        ensures long { (result ≡ Look.Long) ↔ (SHORT < pairs_shown (held_by self.new).last_head) }
        ensures mark { mark_of self.new ≡ mark_of self.old }
    {
        let slot = self.cursor;
        let head = look_at(&store.table.shared, &mut self.seat, slot);
        self.cursor = next_slot(slot, self.latest);
        shown(&store.table.shared, &mut self.seat, slot, head)
    }
}
