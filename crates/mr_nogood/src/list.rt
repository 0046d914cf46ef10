ghost use Rattle.std.specs.Prelude.{◌≡◌, [], ◌∷◌, ◌++◌, OnOk, OnErr};

use crate::Row;
use std::alloc::{AllocError, Global};
use std::marker::Model;

/// A list of rows.
#[derive(Drop)]
pub struct RowList {
    items: Vec<Row>,
}

impl Model for RowList {
    ghost use Rattle.std.specs.Prelude.{List};
    ghost use Rattle.mr_nogood.specs.declared.row.Row.{Row};

    ghost Value = { List Row };

    ghost view = { λ a. a.items.items };
}

impl RowList {
    /// The empty list. It takes no memory.
    pub fn new(alloc: Global) -> RowList
        ensures { result ≡ [] }
    {
        RowList {
            items: Vec::new(alloc),
        }
    }

    /// A row that is refused is given up.
    pub fn push(&mut self, item: Row) -> Result<(), AllocError>
        ensures ok { OnOk result (self.new ≡ self.old ++ item ∷ []) }
        ensures err { OnErr result (self.new ≡ self.old) }
    {
        self.items.extend_from_slice(&[item])
    }

    /// The rows, in their order.
    pub fn as_slice(&self) -> &[Row]
        ensures { result.now ≡ self.now }
    {
        &self.items
    }
}
