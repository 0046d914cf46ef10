ghost use Rattle.std.specs.Prelude.{◌≡◌, ◌<◌, ℕ, [], ◌∷◌, ◌++◌, IfOk, OnOk, length};
ghost use Rattle.mr_graph.specs.Forest.{HasEdge};
ghost use Rattle.mr_graph.specs.Order.{IsForestOrder};
ghost use Rattle.mr_linear.specs.Matrix.{Grid};
ghost use Rattle.mr_linear.specs.Operations.{IsAllowedOperation, Leads, matrix_after};
ghost use Rattle.mr_linear.specs.Private.Reduction.{Continues};
ghost use Rattle.mr_linear.specs.Representation.{Represents};
ghost use Rattle.mr_frame.specs.Frame.{IsExchange};
ghost use Rattle.mr_frame.specs.Test.{IsFilledBy};
ghost use Rattle.mr_class.specs.Forms.{IsForm};
ghost use Rattle.mr_class.specs.Private.Scaling.{IsNextEdge, IsReadTo, IsScaledOn};

use mr_assign::Assign;
use mr_frame::Frame;
use mr_graph::{Edge, touches_col};
use mr_linear::{Matrix, Ops, RowOp};
use mr_set::elements;
use std::alloc::{AllocError, Global};

/// The form of a representation, and operations that lead to its matrix.
#[derive(Drop)]
pub struct Scaled {
    pub ops: Ops,
    pub form: Assign,
}

/// The form of a representation of the frame's matroid over its field: the values at the free positions of
/// the matrix of its class that is the identity at the first basis and 1 on the forest (Oxley, Theorem 6.4.7).
/// The operations lead to that matrix from `a`, which is not changed. `a` has a row for each of the rank's size
/// and a column for each element. Refused for want of memory alone.
pub fn scale_to_frame(alloc: Global, frame: &Frame, a: &Matrix) -> Result<Scaled, AllocError>
    requires field { a.now.field ≡ frame.now.field }
    requires represents { Represents a.now frame.now.matroid }
    ensures form { IfOk result (λ s. IsForm frame.now s.form) }
    ensures leads { IfOk result (λ s. (g : Grid) × IsFilledBy frame.now s.form g × Leads a.now s.ops g) }
{
    let mut work = a.copy(alloc)?;
    let mut ops = work.reduce_to_identity(alloc, frame.basis())?;
    let order = frame.forest_order(alloc)?;
    scale_forest(frame, order.as_slice(), &mut work, &mut ops)?;
    let form = read_form(frame, &work);
    Ok(Scaled { ops, form })
}

// Brings the entries at the edges to 1, one after another.
fn scale_forest(
    frame: &Frame,
    edges: &[Edge],
    work: &mut Matrix,
    ops: &mut Ops,
) -> Result<(), AllocError>
    requires exchanges { (i e : ℕ) → HasEdge edges.now i e → IsExchange frame.now.matroid frame.now.basis i e }
    requires order { IsForestOrder (IsExchange frame.now.matroid frame.now.basis) edges.now }
    requires scaled { IsScaledOn frame.now.matroid frame.now.basis [] work.old }
    ensures leads { OnOk result (Continues work.old ops.old work.new ops.new) }
    ensures scaled { OnOk result (IsScaledOn frame.now.matroid frame.now.basis edges.now work.new) }
{
    for k in 0..edges.len() {
        scale_edge(frame, &edges[..k], edges[k], work, ops)?;
    }
    Ok(())
}

// Brings the entry at an edge to 1, where those at the taken edges are 1 and stay so.
fn scale_edge(
    frame: &Frame,
    taken: &[Edge],
    edge: Edge,
    work: &mut Matrix,
    ops: &mut Ops,
) -> Result<(), AllocError>
    requires edge { IsNextEdge frame.now.matroid frame.now.basis taken.now edge }
    requires scaled { IsScaledOn frame.now.matroid frame.now.basis taken.now work.old }
    ensures leads { OnOk result (Continues work.old ops.old work.new ops.new) }
    ensures scaled { OnOk result (IsScaledOn frame.now.matroid frame.now.basis (taken.now ++ edge ∷ []) work.new) }
{
    let basis = frame.basis();
    let v = work.get(edge.row, edge.col);
    let by = work.field().inv(v);
    if !touches_col(taken, edge.col) {
        return perform(RowOp::ScaleCol { j: edge.col, by }, work, ops);
    }
    // The row's scaling takes the identity away at the row's element of the basis, and a column's brings it back.
    perform(RowOp::ScaleRow { i: edge.row, by }, work, ops)?;
    let j = elements(basis)[edge.row as usize];
    perform(RowOp::ScaleCol { j, by: v }, work, ops)
}

// Makes an operation and appends it to the list.
fn perform(op: RowOp, work: &mut Matrix, ops: &mut Ops) -> Result<(), AllocError>
    requires { IsAllowedOperation work.old op }
    ensures leads { OnOk result (Continues work.old ops.old work.new ops.new) }
    ensures matrix { OnOk result (work.new ≡ matrix_after work.old op) }
{
    ops.push(op)?;
    work.apply(op);
    Ok(())
}

// The entries at the free positions.
fn read_form(frame: &Frame, a: &Matrix) -> Assign
    requires field { a.now.field ≡ frame.now.field }
    requires scaled { IsScaledOn frame.now.matroid frame.now.basis frame.now.forest a.now }
    ensures { IsReadTo frame.now.places a.now (length frame.now.places) result }
{
    // Its clauses say that it is a frame.
    let _basis = frame.basis();
    let mut form = Assign::empty();
    for p in 0..frame.free() {
        let place = frame.place(p);
        form = form.with(p, a.get(place.row, place.col));
    }
    form
}
