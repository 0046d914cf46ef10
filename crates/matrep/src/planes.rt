ghost use Rattle.std.specs.Prelude.{◌≡◌, ◌≤◌, length, IfOk};
ghost use Rattle.mr_field.specs.Gf.{Gf, order};
ghost use Rattle.mr_field.specs.Order.{IsOrder};
ghost use Rattle.matrep.specs.Texts.{plane_line};
ghost use Rattle.matrep.specs.Answering.{CountsClasses, IsPlaneMatroid};

use crate::PLANE_ORDER;
use crate::field::field_with;
use crate::listing::stopped;
use crate::outcome::{Exit, Outcome};
use crate::searching::{Searched, search_frame};
use mr_exchange::NODES;
use mr_field::Field;
use mr_frame::Frame;
use mr_matrix::{OfFault, matroid_of, plane_matrix};
use mr_matroid::Matroid;
use mr_text::Text;
use std::alloc::{AllocError, Global};

/// The exit and the text for the plane over the field with `q` elements, which is 2, 3, 4 or 5: the numbers of its elements, nonbases
/// and classes over that field, or that it has more than `NODES` nodes. Refused for want of memory alone.
pub fn plane_text(alloc: Global, q: u8) -> Result<Outcome, AllocError>
    requires field { IsOrder q }
    requires small { q ≤ PLANE_ORDER }
    ensures { IfOk result (λ o. (f : Gf) × (order f ≡ q) × CountsClasses f o.exit o.text) }
{
    let field = field_with(q);
    let a = plane_matrix(alloc, field)?;
    // Its clauses say how many columns there are at most.
    let _rows = a.rows();
    match matroid_of(alloc, &a) {
        Ok(m) => count(alloc, field, m),
        Err(fault) => match fault {
            // The rank of a plane is three.
            OfFault::RankShort { .. } => unreachable!(),
            OfFault::Memory => Err(AllocError),
        },
    }
}

// The outcome for the matroid of a plane.
fn count(alloc: Global, field: Field, m: Matroid) -> Result<Outcome, AllocError>
    requires { IsPlaneMatroid field m }
    ensures { IfOk result (λ o. CountsClasses field o.exit o.text) }
{
    let frame = Frame::new(alloc, m, field)?;
    let searched = search_frame(alloc, &frame, NODES, 0)?;
    match searched {
        Searched::Forms(forms) => {
            counted(
                alloc,
                &field,
                frame.matroid(),
                forms.as_slice().len() as u32,
            )
        }
        Searched::Stopped { opened } => stopped(alloc, opened),
        Searched::Refuted(_) => unreachable!(),
    }
}

// The line for a plane with so many classes.
fn counted(alloc: Global, field: &Field, m: &Matroid, classes: u32) -> Result<Outcome, AllocError>
    ensures exit { IfOk result (λ o. o.exit ≡ Exit.Done) }
    ensures text { IfOk result (λ o. o.text ≡ plane_line field.now m.now.elements (length m.now.nonbases) classes) }
{
    let mut text = Text::new(alloc);
    text.put(b"plane ")?;
    text.put_number(u32::from(field.order()))?;
    text.put(b" elements ")?;
    text.put_number(m.elements())?;
    text.put(b" nonbases ")?;
    text.put_number(m.nonbasis_count())?;
    text.put(b" classes ")?;
    text.put_number(classes)?;
    text.put(b"\n")?;
    Ok(Outcome {
        exit: Exit::Done,
        text,
    })
}
