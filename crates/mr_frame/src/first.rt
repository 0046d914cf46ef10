ghost use Rattle.std.specs.Prelude.{◌≡◌, ◌<◌, ℕ, Contains, None, length, slice_index_or};
ghost use Rattle.mr_set.specs.Elements.{is_element};
ghost use Rattle.mr_frame.specs.Private.Parts.{first_of};

use mr_set::Set;

/// A field's elements are numbers below this.
pub const WIDTH: usize = 9;

// Keeps the set for each of the values that has none yet.
pub(crate) fn mark(first: &mut [Option<Set>; WIDTH], values: Set, x: Set)
    requires { (v : ℕ) → Contains values v → v < WIDTH }
    ensures size { length first.new ≡ WIDTH }
    ensures values { (v : ℕ) → v < WIDTH → slice_index_or first.new v None ≡ first_of (slice_index_or first.old v None) (is_element values v) x }
{
    let mut left = values;
    while let Some(v) = left.first() {
        left = left.without(v);
        let at = v as usize;
        if first[at].is_none() {
            first[at] = Some(x);
        }
    }
}
