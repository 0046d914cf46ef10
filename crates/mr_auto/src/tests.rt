ghost use Rattle.std.specs.Prelude.{◌≡◌, ◌↔◌, ◌<◌, ◌≤◌, ◌++◌, ℕ, List, IfOk, OnOk, All, Contains, length};
ghost use Rattle.std.specs.List.Sorted.{IsStrictlySortedBy};
ghost use Rattle.mr_set.specs.Subsets.{list_cmp};
ghost use Rattle.mr_assign.specs.declared.TheConstants.{VALUES};
ghost use Rattle.mr_class.specs.Forms.{IsForm};
ghost use Rattle.mr_auto.specs.Private.Trial.{IsStart, AreAll};

use crate::{Orbit, OrbitList, orbits};
use mr_assign::{Assign, AssignList};
use mr_field::Field;
use mr_frame::Frame;
use mr_matroid::Matroid;
use mr_set::{ELEMENTS, binomial, sets_of};
use std::alloc::{AllocError, Global};

// Appends all of a list.
fn append(all: &mut AssignList, more: &[Assign]) -> Result<(), AllocError>
    ensures { OnOk result (all.new ≡ all.old ++ more.now) }
{
    for a in more {
        all.push(*a)?;
    }
    Ok(())
}

// The assignment where it is a form.
fn form_alone(alloc: Global, frame: &Frame, a: &Assign) -> Result<AssignList, AllocError>
    requires { IsStart frame.now (length frame.now.places) a.now }
    ensures { IfOk result (AreAll frame.now a.now) }
{
    let mut forms = AssignList::new(alloc);
    match frame.first_failing(a) {
        Some(_fails) => Ok(forms),
        None => {
            forms.push(*a)?;
            Ok(forms)
        }
    }
}

// All forms that begin with the values of an assignment at the first positions, tried one after another.
fn forms_from(alloc: Global, frame: &Frame, a: &Assign, p: u32) -> Result<AssignList, AllocError>
    requires start { IsStart frame.now p a.now }
    requires place { p ≤ length frame.now.places }
    ensures { IfOk result (AreAll frame.now a.now) }
{
    // Its clauses say that it is a frame.
    let _basis = frame.basis();
    if p == frame.free() {
        return form_alone(alloc, frame, a);
    }
    let mut forms = AssignList::new(alloc);
    for v in 1..frame.field().order() {
        let more = forms_from(alloc, frame, &a.with(p, v), p + 1)?;
        append(&mut forms, more.as_slice())?;
    }
    Ok(forms)
}

// All forms of a frame.
fn forms_of(alloc: Global, frame: &Frame) -> Result<AssignList, AllocError>
    ensures increasing { IfOk result (IsStrictlySortedBy list_cmp) }
    ensures forms { IfOk result (λ forms. (c : List ℕ) → Contains forms c ↔ IsForm frame.now c) }
{
    forms_from(alloc, frame, &Assign::empty(), 0)
}

// The frame of the matroid with these nonbases over the field of q elements.
fn frame(alloc: Global, n: u32, r: u32, masks: &[u64], q: u32) -> Option<Frame> {
    if n > ELEMENTS || r > n || binomial(n, r).is_none() {
        return None;
    }
    let sets = sets_of(alloc, n, r, masks).ok()??;
    let m = Matroid::from_nonbases(alloc, n, r, sets.as_slice()).ok()?;
    Frame::new(alloc, m, Field::of(q)?).ok()
}

// The orbits of its forms.
fn solved(alloc: Global, frame: &Frame) -> Result<OrbitList, AllocError> {
    let forms = forms_of(alloc, frame)?;
    orbits(alloc, frame, &forms)
}

// Whether these are the orbits.
fn are_orbits(alloc: Global, frame: &Frame, wanted: &[Orbit]) -> Option<bool> {
    let orbits = solved(alloc, frame).ok()?;
    Some(orbits.as_slice() == wanted)
}

// Whether the line of four points has these orbits over the field of q elements.
fn has_line_orbits(alloc: Global, q: u32, wanted: &[Orbit]) -> Option<bool> {
    let line = frame(alloc, 4, 2, &[], q)?;
    are_orbits(alloc, &line, wanted)
}

// The orbit of this size whose least form has this value at position 0 and no other.
fn orbit(value: u8, size: u32) -> Orbit
    requires { (0 < value) × (value ≤ VALUES) }
{
    let least = Assign::empty().with(0, value);
    Orbit { least, size }
}

#[test]
fn the_line_of_four_points_has_one_orbit_of_two_over_four_elements(rt: HostRuntime) {
    let wanted = [orbit(2, 2)];
    assert!(rt; has_line_orbits(rt.alloc(), 4, wanted.as_slice()) == Some(true));
}

#[test]
fn the_line_of_four_points_has_four_orbits_over_nine_elements(rt: HostRuntime) {
    let wanted = [orbit(2, 1), orbit(3, 2), orbit(4, 2), orbit(5, 2)];
    assert!(rt; has_line_orbits(rt.alloc(), 9, wanted.as_slice()) == Some(true));
}

// The nonbases 013, 024, 056, 125, 146, 236 and 345 of the Fano plane, by their masks.
const LINES: [u64; 7] = [
    0b0001011, 0b0010101, 0b1100001, 0b0100110, 0b1010010, 0b1001100, 0b0111000,
];

// Whether the plane has these orbits over eight elements.
fn has_plane_orbits(alloc: Global, wanted: &[Orbit]) -> Option<bool> {
    let plane = frame(alloc, 7, 3, LINES.as_slice(), 8)?;
    are_orbits(alloc, &plane, wanted)
}

#[test]
fn the_fano_plane_has_one_orbit_of_one_over_eight_elements(rt: HostRuntime) {
    let least = Assign::empty().with(0, 1).with(1, 1).with(2, 1);
    let wanted = [Orbit { least, size: 1 }];
    assert!(rt; has_plane_orbits(rt.alloc(), wanted.as_slice()) == Some(true));
}
