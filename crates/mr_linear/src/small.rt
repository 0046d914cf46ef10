ghost use Rattle.std.specs.Prelude.{◌≡◌, ◌≢◌, ◌≤◌, ◌<◌, ◌↔◌, ℕ, length, Contains, IfSome};
ghost use Rattle.mr_field.specs.Gf.{Gf, add, mul, neg, order};
ghost use Rattle.mr_set.specs.Elements.{is_element};
ghost use Rattle.mr_linear.specs.Columns.{Dependent};
ghost use Rattle.mr_linear.specs.Elimination.{with_value};
ghost use Rattle.mr_linear.specs.Private.Small.{IsPair, AreValues, pair_sum};
ghost use Rattle.mr_linear.specs.Private.Elimination.{cleared};
ghost use Rattle.mr_linear.specs.Stored.{cell, InField};

use crate::elimination::{CELLS, STRIDE, dependent_values, zeros_of};
use mr_field::Field;
use mr_set::{ELEMENTS, Set};

/// The values in one row and column for which the columns of `x` are dependent in the rows of a set, in a matrix that
/// stays as it is. What stands there isn't read. A part with two rows and columns is told by its determinant, and one with
/// three mostly so after one pivot; for others the copy is used as by `dependent_values`.
pub fn part_values(
    field: &Field,
    full: &[u8],
    copy: &mut [u8],
    row: u32,
    column: u32,
    spare: u32,
    in_rows: Set,
    x: Set,
    rows: u32,
    cols: u32,
) -> Set
    requires shape { (length full.now ≡ CELLS) × (length copy.old ≡ CELLS) × (rows ≤ ELEMENTS) × (cols ≤ ELEMENTS) }
    requires elements { InField field.now full.now }
    requires scratch { InField field.now copy.old }
    requires place { (row < rows) × (column < cols) × Contains in_rows row × Contains x column }
    requires spare { (spare < cols) × ¬ (Contains x spare) }
    ensures values { (v : ℕ) → Contains result v ↔ ((v < order field.now) × Dependent field.now rows (is_element in_rows) cols (with_value (cell full.now) row column v) (is_element x)) }
    ensures scratch { InField field.now copy.new }
    ensures size { length copy.new ≡ length copy.old }
{
    if let Some(k) = only_other(in_rows, row, rows) {
        if let Some(j) = only_other(x, column, cols) {
            return pair_values(field, full, row, column, k, j);
        }
    }
    if let Some(values) = triple_part(field, full, rows, cols, in_rows, x, row, column) {
        return values;
    }
    copy_rows(full, copy, rows);
    dependent_values(field, copy, rows, cols, in_rows, x, row, column, spare)
}

// The values for which the determinant of two rows and columns is zero.
fn pair_values(field: &Field, w: &[u8], i: u32, e: u32, k: u32, j: u32) -> Set
    requires shape { (length w.now ≡ CELLS) × (i < ELEMENTS) × (e < ELEMENTS) × (k < ELEMENTS) × (j < ELEMENTS) }
    requires elements { InField field.now w.now }
    requires apart { (i ≢ k) × (e ≢ j) }
    ensures { (v : ℕ) → Contains result v ↔ ((v < order field.now) × (pair_sum field.now (with_value (cell w.now) i e v) i k e j ≡ 0)) }
{
    let above = i as usize * STRIDE;
    let below = k as usize * STRIDE;
    let s = field.mul(w[above + j as usize], w[below + e as usize]);
    let c = field.mul(field.neg(1), w[below + j as usize]);
    zeros_of(field, s, c)
}

// The values for a part with three rows and three columns, if there is a pivot in the first ones besides the place's own.
fn triple_part(
    field: &Field,
    w: &[u8],
    rows: u32,
    cols: u32,
    in_rows: Set,
    x: Set,
    row: u32,
    column: u32,
) -> Option<Set>
    requires shape { (length w.now ≡ CELLS) × (rows ≤ ELEMENTS) × (cols ≤ ELEMENTS) }
    requires elements { InField field.now w.now }
    requires place { (row < rows) × (column < cols) × Contains in_rows row × Contains x column }
    ensures { IfSome result (AreValues field.now rows in_rows cols (cell w.now) row column x) }
{
    let Some(p) = in_rows.without(row).first() else {
        return None;
    };
    let Some(h) = x.without(column).first() else {
        return None;
    };
    if p >= rows || h >= cols {
        return None;
    }
    let Some(k) = only_other(in_rows.without(p), row, rows) else {
        return None;
    };
    let Some(j) = only_other(x.without(h), column, cols) else {
        return None;
    };
    if w[p as usize * STRIDE + h as usize] == 0 {
        return None;
    }
    Some(triple_values(field, w, row, column, k, j, p, h))
}

// The values for which the determinant of two rows and columns is zero once row p is cleared by column h.
fn triple_values(field: &Field, w: &[u8], i: u32, e: u32, k: u32, j: u32, p: u32, h: u32) -> Set
    requires shape { (length w.now ≡ CELLS) × (i < ELEMENTS) × (e < ELEMENTS) × (k < ELEMENTS) × (j < ELEMENTS) × (p < ELEMENTS) × (h < ELEMENTS) }
    requires elements { InField field.now w.now }
    requires rows { (i ≢ k) × (i ≢ p) }
    requires columns { (e ≢ j) × (e ≢ h) }
    requires pivot { cell w.now p h ≢ 0 }
    ensures { (v : ℕ) → Contains result v ↔ ((v < order field.now) × (pair_sum field.now (cleared field.now (with_value (cell w.now) i e v) h p) i k e j ≡ 0)) }
{
    let minus = field.neg(1);
    let above = i as usize * STRIDE;
    let below = k as usize * STRIDE;
    let pivot = p as usize * STRIDE;
    let inverse = field.inv(w[pivot + h as usize]);
    let by_e = field.mul(minus, field.mul(w[pivot + e as usize], inverse));
    let by_j = field.mul(minus, field.mul(w[pivot + j as usize], inverse));
    let first = field.mul(by_e, w[above + h as usize]);
    let beside = plus(field, w[above + j as usize], by_j, w[above + h as usize]);
    let under = plus(field, w[below + e as usize], by_e, w[below + h as usize]);
    let last = plus(field, w[below + j as usize], by_j, w[below + h as usize]);
    let c = field.mul(minus, last);
    let s = plus(field, field.mul(beside, under), first, c);
    zeros_of(field, s, c)
}

// A number and the product of two.
fn plus(field: &Field, a: u8, b: u8, c: u8) -> u8
    requires elements { (a < order field.now) × (b < order field.now) × (c < order field.now) }
    ensures value { result ≡ add field.now a (mul field.now b c) }
    ensures element { result < order field.now }
{
    field.add(a, field.mul(b, c))
}

// The other element of a set of two, where it is below the end.
fn only_other(x: Set, first: u32, end: u32) -> Option<u32>
    requires end { end ≤ ELEMENTS }
    requires first { (first < end) × Contains x first }
    ensures { IfSome result (IsPair end (is_element x) first) }
{
    let rest = x.without(first);
    let Some(k) = rest.first() else {
        return None;
    };
    if k >= end {
        return None;
    }
    match rest.without(k).first() {
        Some(_) => None,
        None => Some(k),
    }
}

// Copies the first rows.
fn copy_rows(full: &[u8], copy: &mut [u8], rows: u32)
    requires { (length full.now ≡ CELLS) × (length copy.old ≡ CELLS) × (rows ≤ ELEMENTS) }
    ensures same { (i j : ℕ) → i < rows → j < STRIDE → cell copy.new i j ≡ cell full.now i j }
    ensures elements { (f : Gf) → InField f full.now → InField f copy.old → InField f copy.new }
    ensures size { length copy.new ≡ length copy.old }
{
    for k in 0..rows as usize * STRIDE {
        copy[k] = full[k];
    }
}
