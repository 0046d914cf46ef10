ghost use Rattle.std.specs.Prelude.{◌≡◌, ◌↔◌, ◌⊎◌, ◌<◌, ◌≤◌, ◌+◌, ◌^◌, ℕ, IsTrue, IfOk, OnOk, length};
ghost use Rattle.mr_set.specs.declared.TheConstants.{ELEMENTS};
ghost use Rattle.mr_graph.specs.Graph.{IsEdge};
ghost use Rattle.mr_graph.specs.Forest.{HasEdge, IsAcyclic, IsFirstForest, Spans};
ghost use Rattle.mr_graph.specs.Private.Grown.{IsGrown};

use crate::labels::{apart, unite};
use crate::{Edge, EdgeList};
use mr_set::ELEMENTS;
use std::alloc::{AllocError, Global};
use std::marker::Model;

// As many words as there may be rows.
const ROWS: usize = ELEMENTS as usize;

/// A graph whose edges join rows and columns, at most `ELEMENTS` of each.
#[derive(Drop)]
pub struct Bipartite {
    rows: u32,
    cols: u32,
    columns: [u64; ROWS],
}

impl Model for Bipartite {
    ghost use Rattle.std.specs.Prelude.{◌≡◌, ◌≤◌, ◌<◌, ◌^◌, ℕ, length, slice_index};
    ghost use Rattle.mr_set.specs.declared.TheConstants.{ELEMENTS};
    ghost use Rattle.mr_graph.specs.Graph.{Graph};
    ghost use Rattle.mr_graph.specs.Private.Graph.{IsStored};

    ghost Value = { Graph };

    ghost view = { λ g. record { rows = g.rows; cols = g.cols; columns = g.columns } };

    ghost invariant = { λ g. IsStored g.rows g.cols g.columns };
}

impl Bipartite {
    /// The graph without edges.
    pub fn new(rows: u32, cols: u32) -> Bipartite
        requires rows { rows ≤ ELEMENTS }
        requires cols { cols ≤ ELEMENTS }
        ensures size { (result.rows ≡ rows) × (result.cols ≡ cols) }
        ensures edges { (i e : ℕ) → ¬ (IsEdge result i e) }
    {
        Bipartite {
            rows,
            cols,
            columns: [0; ROWS],
        }
    }

    /// Adds the edge, which the graph may have already.
    pub fn add(&mut self, e: Edge)
        requires row { e.row < self.old.rows }
        requires col { e.col < self.old.cols }
        ensures size { (self.new.rows ≡ self.old.rows) × (self.new.cols ≡ self.old.cols) }
        ensures edges { (i c : ℕ) → IsEdge self.new i c ↔ (IsEdge self.old i c ⊎ ((i ≡ e.row) × (c ≡ e.col))) }
    {
        let had = self.columns[e.row as usize];
        self.columns[e.row as usize] = had | 1 << e.col;
    }

    /// Whether the graph has the edge.
    pub fn has(&self, e: Edge) -> bool
        requires row { e.row < self.now.rows }
        requires col { e.col < self.now.cols }
        ensures { IsTrue result ↔ IsEdge self.now e.row e.col }
    {
        self.columns[e.row as usize] >> e.col & 1 == 1
    }

    /// In row-major order, each edge that closes no cycle with the edges taken before.
    pub fn first_forest(&self, alloc: Global) -> Result<EdgeList, AllocError>
        ensures first { IfOk result (IsFirstForest (IsEdge self.now)) }

        // It is a spanning forest.
        ensures acyclic { IfOk result (λ forest. IsAcyclic (HasEdge forest)) }
        ensures spanning { IfOk result (λ forest. Spans (HasEdge forest) (IsEdge self.now)) }
    {
        let grown = self.grown(alloc)?;
        Ok(grown.forest)
    }

    pub(crate) fn row_count(&self) -> usize
        ensures { result ≡ self.now.rows }
    {
        self.rows as usize
    }

    // The first forest, and one label for all vertices that it joins.
    pub(crate) fn grown(&self, alloc: Global) -> Result<Grown, AllocError>
        ensures grown { IfOk result (λ grown. IsGrown self.now grown.labels.items grown.forest self.now.rows 0) }
        ensures small { IfOk result (λ grown. length grown.labels.items < 2 ^ 8) }
    {
        let mut labels = apart(alloc, (self.rows + self.cols) as u8)?;
        let mut forest = EdgeList::new(alloc);
        for row in 0..self.rows {
            for col in 0..self.cols {
                self.take(Edge { row, col }, &mut labels, &mut forest)?;
            }
        }
        Ok(Grown { forest, labels })
    }

    // Takes the edge if it is one and closes no cycle with those of the forest.
    fn take(&self, e: Edge, labels: &mut [u8], forest: &mut EdgeList) -> Result<(), AllocError>
        requires row { e.row < self.now.rows }
        requires col { e.col < self.now.cols }
        requires grown { IsGrown self.now labels.old forest.old e.row e.col }
        ensures { OnOk result (IsGrown self.now labels.new forest.new e.row (e.col + 1)) }
    {
        if !self.has(e) {
            return Ok(());
        }
        let rows = self.rows as usize;
        if !unite(labels, rows + e.col as usize, e.row as usize) {
            return Ok(());
        }
        forest.push(e)
    }
}

// A forest, and a label for each vertex, rows before columns.
#[derive(Drop)]
pub(crate) struct Grown {
    pub(crate) forest: EdgeList,
    pub(crate) labels: Vec<u8>,
}
