ghost use Rattle.std.specs.Prelude.{◌≡◌, [], ◌∷◌, ◌++◌, OnOk, OnErr};

use mr_assign::AssignList;
use mr_nogood::{Cite, Row};
use std::alloc::{AllocError, Global};
use std::marker::Model;

/// What is found of a cube: its completions, in order, or why it has none.
#[derive(Drop)]
pub enum CubeAnswer {
    Found(AssignList),
    Refuted(Cite),
}

/// A list of answers.
#[derive(Drop)]
pub struct AnswerList {
    items: Vec<CubeAnswer>,
}

impl Model for AnswerList {
    ghost use Rattle.std.specs.Prelude.{List};
    ghost use Rattle.mr_exchange.specs.declared.answer.CubeAnswer.{CubeAnswer};

    ghost Value = { List CubeAnswer };

    ghost view = { λ a. a.items.items };
}

impl AnswerList {
    /// The empty list. It takes no memory.
    pub fn new(alloc: Global) -> AnswerList
        ensures { result ≡ [] }
    {
        AnswerList {
            items: Vec::new(alloc),
        }
    }

    /// An answer that is refused is given up.
    pub fn push(&mut self, item: CubeAnswer) -> Result<(), AllocError>
        ensures ok { OnOk result (self.new ≡ self.old ++ item ∷ []) }
        ensures err { OnErr result (self.new ≡ self.old) }
    {
        self.items.reserve(1)?;
        self.items.push_reserved(item);
        Ok(())
    }

    /// The answers, in their order.
    pub fn as_slice(&self) -> &[CubeAnswer]
        ensures { result.now ≡ self.now }
    {
        &self.items
    }
}

/// A list that has at each place a row or none.
#[derive(Drop)]
pub struct SlotList {
    items: Vec<Option<Row>>,
}

impl Model for SlotList {
    ghost use Rattle.std.specs.Prelude.{List, Option};
    ghost use Rattle.mr_nogood.specs.declared.row.Row.{Row};

    ghost Value = { List (Option Row) };

    ghost view = { λ a. a.items.items };
}

impl SlotList {
    /// The list of no slot. It takes no memory.
    pub fn new(alloc: Global) -> SlotList
        ensures { result ≡ [] }
    {
        SlotList {
            items: Vec::new(alloc),
        }
    }

    /// What is refused is given up.
    pub fn push(&mut self, item: Option<Row>) -> Result<(), AllocError>
        ensures ok { OnOk result (self.new ≡ self.old ++ item ∷ []) }
        ensures err { OnErr result (self.new ≡ self.old) }
    {
        self.items.extend_from_slice(&[item])
    }

    /// The slots, in their order, each with its row if it has one.
    pub fn as_slice(&self) -> &[Option<Row>]
        ensures { result.now ≡ self.now }
    {
        &self.items
    }

    // The slots themselves.
    pub(crate) fn into_items(self) -> Vec<Option<Row>>
        ensures { result.items ≡ self }
    {
        self.items
    }
}
