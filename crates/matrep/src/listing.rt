ghost use Rattle.std.specs.Prelude.{◌≡◌, ◌≤◌, ◌++◌, ◌∷◌, [], ℕ, All, length, codes, decimal, IfOk, OnOk};
ghost use Rattle.mr_field.specs.Gf.{order};
ghost use Rattle.mr_class.specs.Forms.{IsForm};
ghost use Rattle.mr_exchange.specs.declared.TheConstants.{NODES};
ghost use Rattle.matrep.specs.Texts.{stopped_text};
ghost use Rattle.matrep.specs.Solving.{ListsClasses, ListsOrbits};
ghost use Rattle.matrep.specs.Private.Searched.{AreForms};
ghost use Rattle.matrep.specs.Private.Listing.{AppendsBlock, AppendsBlocks, AppendsOrbits};

use crate::outcome::{Exit, Outcome};
use mr_assign::{Assign, AssignList};
use mr_auto::{Orbit, orbits};
use mr_frame::Frame;
use mr_matrix::write_matrix;
use mr_text::Text;
use std::alloc::{AllocError, Global};

/// The outcome with the matrices of all forms.
pub fn list_classes(alloc: Global, frame: &Frame, forms: &AssignList) -> Result<Outcome, AllocError>
    requires { AreForms frame.now NODES forms.now }
    ensures exit { IfOk result (λ o. o.exit ≡ Exit.Done) }
    ensures text { (nodes : ℕ) → length forms.now ≤ nodes → IfOk result (λ o. ListsClasses frame.now.field nodes frame.now.matroid o.text) }
{
    // Its clauses say that it is a frame.
    let _basis = frame.basis();
    let forms = forms.as_slice();
    let mut text = Text::new(alloc);
    put_count(b"representations ", forms.len() as u32, frame, &mut text)?;
    put_blocks(alloc, frame, forms, &mut text)?;
    Ok(Outcome {
        exit: Exit::Done,
        text,
    })
}

/// The outcome with the orbits of all forms.
pub fn list_orbits(alloc: Global, frame: &Frame, forms: &AssignList) -> Result<Outcome, AllocError>
    requires { AreForms frame.now NODES forms.now }
    ensures exit { IfOk result (λ o. o.exit ≡ Exit.Done) }
    ensures text { (nodes : ℕ) → length forms.now ≤ nodes → IfOk result (λ o. ListsOrbits frame.now.field nodes frame.now.matroid o.text) }
{
    // Its clauses say that it is a frame.
    let _basis = frame.basis();
    let found = orbits(alloc, frame, forms)?;
    let list = found.as_slice();
    let mut text = Text::new(alloc);
    put_count(b"orbits ", list.len() as u32, frame, &mut text)?;
    put_orbits(alloc, frame, list, &mut text)?;
    Ok(Outcome {
        exit: Exit::Done,
        text,
    })
}

/// The outcome of a search that was stopped.
pub fn stopped(alloc: Global, opened: u32) -> Result<Outcome, AllocError>
    ensures exit { IfOk result (λ o. o.exit ≡ Exit.Stopped opened) }
    ensures text { IfOk result (λ o. o.text ≡ stopped_text opened) }
{
    let mut text = Text::new(alloc);
    text.put(b"stopped opened ")?;
    text.put_number(opened)?;
    text.put(b"\n")?;
    Ok(Outcome {
        exit: Exit::Stopped { opened },
        text,
    })
}

// The first line: a word, how many there are, and the order of the field.
fn put_count(word: &[u8], count: u32, frame: &Frame, text: &mut Text) -> Result<(), AllocError>
    ensures { OnOk result (text.new ≡ text.old ++ ((word.now ++ decimal count ++ codes " field " ++ decimal (order frame.now.field)) ++ 10 ∷ [])) }
{
    text.put(word)?;
    text.put_number(count)?;
    text.put(b" field ")?;
    text.put_number(u32::from(frame.field().order()))?;
    text.put(b"\n")
}

// The blocks of the matrices of forms.
fn put_blocks(
    alloc: Global,
    frame: &Frame,
    forms: &[Assign],
    text: &mut Text,
) -> Result<(), AllocError>
    requires { All (IsForm frame.now) forms.now }
    ensures { OnOk result (AppendsBlocks frame.now forms.now text.old text.new) }
{
    for form in forms {
        put_block(alloc, frame, form, text)?;
    }
    Ok(())
}

// The lines of orbits.
fn put_orbits(
    alloc: Global,
    frame: &Frame,
    orbits: &[Orbit],
    text: &mut Text,
) -> Result<(), AllocError>
    requires { All (λ o. IsForm frame.now o.least) orbits.now }
    ensures { OnOk result (AppendsOrbits frame.now orbits.now text.old text.new) }
{
    for orbit in orbits {
        put_size(orbit.size, text)?;
        put_block(alloc, frame, &orbit.least, text)?;
    }
    Ok(())
}

// The line before the block of an orbit.
fn put_size(size: u32, text: &mut Text) -> Result<(), AllocError>
    ensures { OnOk result (text.new ≡ text.old ++ ((codes "orbit " ++ decimal size) ++ 10 ∷ [])) }
{
    text.put(b"orbit ")?;
    text.put_number(size)?;
    text.put(b"\n")
}

// The block of the matrix of a form.
fn put_block(alloc: Global, frame: &Frame, form: &Assign, text: &mut Text) -> Result<(), AllocError>
    requires { IsForm frame.now form.now }
    ensures { OnOk result (AppendsBlock frame.now form.now text.old text.new) }
{
    let matrix = frame.matrix_of(alloc, form)?;
    write_matrix(&matrix, text)?;
    Ok(())
}
