ghost use Rattle.std.specs.Prelude.{◌≡◌, ◌≢◌, ◌↔◌, ◌<◌, ◌≤◌, [], Some, IsNone, IfSome};
ghost use Rattle.mr_nogood.specs.declared.row.Row.{Row};
ghost use Rattle.mr_exchange.specs.declared.TheConstants.{SHORT};
ghost use Rattle.mr_exchange.specs.declared.event.Event.TheVariants.{Claim, OpenNode, LookAt, Publish};
ghost use Rattle.mr_exchange.specs.declared.event.Reply.TheVariants.{Cube, Ticket as Drawn, Seen, Done};
ghost use Rattle.mr_exchange.specs.Events.{seen};
ghost use Rattle.mr_exchange.specs.Board.{BoardFacts, CanOpen, CanPublish, Claimed, Opened, Looked, Published, pairs_shown};
ghost use Rattle.mr_store.specs.Cards.{CardFacts, IsEvent, IsThere, store_of, mark_of, held_by, word_of};

use crate::card::Card;
use crate::mark::MarkOf;
use crate::store::Store;
use mr_assign::Assign;
use mr_exchange::{Board, Look, Problem};
use mr_frame::Frame;
use mr_nogood::Row;
use std::marker::Model;

/// A pass of a store at work.
#[derive(Drop)]
pub struct Pass<'a, 'f> {
    store: &'a Store<'f>,
    card: Card,
}

impl<'a, 'f> Model for Pass<'a, 'f> {
    ghost use Rattle.std.specs.Prelude.{◌≡◌, []};
    ghost use Rattle.mr_store.specs.Cards.{CardIs, store_of, mark_of};

    ghost Value = { CardIs };

    ghost view = { λ p. p.card };

    ghost invariant = { λ p. (store_of p.card ≡ p.store.now) × ((mark_of p.card).joined ≡ []) };
}

impl<'f> Store<'f> {
    /// The pass of a card that took in no other.
    pub fn pass<'a>(&'a self, card: Card) -> Pass<'a, 'f>
        requires store { store_of card ≡ self.now }
        requires alone { (mark_of card).joined ≡ [] }
        ensures { result ≡ card }
    {
        Pass { store: self, card }
    }
}

impl<'a, 'f> Pass<'a, 'f> {
    /// Gives the card back.
    pub fn card(self) -> Card
        ensures { result ≡ self.entry }
    {
        self.card
    }
}

impl<'a, 'f> Board for Pass<'a, 'f> {
    type Mark = MarkOf;

    ghost holding = { held_by };

    ghost mark = { mark_of };

    fn frame(&self) -> &Frame {
        // The clauses of `problem` say what holds of the pass.
        let _problem = self.card.problem();
        self.store.frame()
    }

    fn problem(&self) -> Problem
        ensures problem { result ≡ (held_by self.now).problem }
        ensures facts { BoardFacts (held_by self.now) }
        ensures card { CardFacts self.now }
    {
        self.card.problem()
    }

    fn claim(&mut self) -> Option<u32>
        requires { (held_by self.old).claim_ends ≡ 0 }
        ensures moves { Claimed (held_by self.old) result (held_by self.new) }
        ensures mark { mark_of self.new ≡ mark_of self.old }
        ensures event { IsEvent self.old (Claim (mark_of self.old).number) (Cube result) self.new }
        // The number that this claim found in the claim word is the cube, or not below the number of cubes.
        ensures none { IsNone result ↔ ((held_by self.old).problem.cubes ≤ word_of self.new) }
        ensures cube { IfSome result (λ cube. cube ≡ word_of self.new) }
    {
        self.card.claim(self.store)
    }

    fn open_node(&mut self, node: &Assign) -> Option<u32>
        requires { CanOpen (held_by self.old) node.now }
        ensures moves { Opened (held_by self.old) node.now result (held_by self.new) }
        ensures mark { mark_of self.new ≡ mark_of self.old }
        ensures event { IsEvent self.old (OpenNode (mark_of self.old).number node.now) (Drawn result) self.new }
        // The number that this opening found in the ticket word is the ticket, or not below the number of nodes.
        ensures none { IsNone result ↔ ((held_by self.old).problem.nodes ≤ word_of self.new) }
        ensures ticket { IfSome result (λ ticket. ticket ≡ word_of self.new) }
    {
        self.card.open_node(self.store, node)
    }

    fn look(&mut self) -> Look
        requires { (held_by self.old).tickets ≢ [] }
        ensures moves { Looked (held_by self.old) result (held_by self.new) }
        ensures empty { (result ≡ Look.Empty) ↔ ((held_by self.new).last_head ≡ 0) }
        ensures long { (result ≡ Look.Long) ↔ (SHORT < pairs_shown (held_by self.new).last_head) }
        ensures mark { mark_of self.new ≡ mark_of self.old }
        ensures event { IsEvent self.old (LookAt (mark_of self.old).number) (Seen result) self.new }
        // Where the pass was told of a row, the look shows that row, or that it is long.
        ensures there { (row : Row) → IsThere self.old (held_by self.old).cursor row → result ≡ seen (held_by self.old).cursor (Some row) }
    {
        self.card.look(self.store)
    }

    fn publish(&mut self, slot: u32, row: &Row)
        requires { CanPublish (held_by self.old) slot row.now }
        ensures moves { Published (held_by self.old) slot row.now (held_by self.new) }
        ensures mark { mark_of self.new ≡ mark_of self.old }
        ensures event { IsEvent self.old (Publish (mark_of self.old).number slot row.now) Done self.new }
        ensures there { IsThere self.new slot row.now }
    {
        self.card.publish(self.store, slot, row)
    }
}
