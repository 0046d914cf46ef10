ghost use Rattle.std.specs.Prelude.{◌≡◌, ◌↔◌, ◌<◌, ◌≤◌, ◌+◌, ℕ, IsTrue, IfOk, length};
ghost use Rattle.std.specs.List.Sorted.{IsPermutation};
ghost use Rattle.mr_graph.specs.Graph.{IsEdge, row, col};
ghost use Rattle.mr_graph.specs.Forest.{IsFirstForest};
ghost use Rattle.mr_graph.specs.Order.{Touches, IsForestOrder, IsLeafOf};
ghost use Rattle.mr_graph.specs.Private.Order.{IsNextEdge};

use crate::{Bipartite, Edge, EdgeList};
use std::alloc::{AllocError, Global};

impl Bipartite {
    /// The edges of the first forest, so that every edge but the first of its component has exactly
    /// one end that earlier edges touch.
    pub fn forest_order(&self, alloc: Global, forest: &EdgeList) -> Result<EdgeList, AllocError>
        requires { IsFirstForest (IsEdge self.now) forest.now }
        ensures same { IfOk result (IsPermutation forest.now) }
        ensures order { IfOk result (IsForestOrder (IsEdge self.now)) }
    {
        let mut left = forest.as_slice().to_vec(alloc)?;
        let mut order = EdgeList::new(alloc);
        while !left.is_empty() {
            let k = next_place(order.as_slice(), &left);
            let edge = left.remove(k);
            order.push(edge)?;
        }
        Ok(order)
    }
}

// The first edge with exactly one end that taken edges touch. Where there is none, the first edge.
fn next_place(taken: &[Edge], left: &[Edge]) -> usize
    requires { 0 < length left.now }
    ensures within { result < length left.now }
    ensures next { IsNextEdge taken.now left.now result }
{
    for (k, edge) in left.iter().enumerate() {
        if is_leaf(taken, *edge) {
            return k;
        }
    }
    0
}

fn is_leaf(taken: &[Edge], edge: Edge) -> bool
    ensures { IsTrue result ↔ IsLeafOf taken.now edge.row edge.col }
{
    touches_row(taken, edge.row) != touches_col(taken, edge.col)
}

// Whether an edge of the list ends at the row.
fn touches_row(edges: &[Edge], i: u32) -> bool
    ensures { IsTrue result ↔ Touches edges.now (row i) }
{
    edges.iter().any(|x| x.row == i)
}

/// Whether an edge of the list ends at the column.
pub fn touches_col(edges: &[Edge], e: u32) -> bool
    ensures { IsTrue result ↔ Touches edges.now (col e) }
{
    edges.iter().any(|x| x.col == e)
}
