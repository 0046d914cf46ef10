ghost use Rattle.std.specs.Prelude.{◌≡◌};
ghost use Rattle.mr_field.specs.Gf.{order};
ghost use Rattle.mr_field.specs.Order.{IsOrder};

use mr_field::Field;

/// The field with `q` elements, which is 2, 3, 4, 5, 7, 8 or 9.
pub fn field_with(q: u8) -> Field
    requires { IsOrder q }
    ensures { order result ≡ q }
{
    match Field::of(u32::from(q)) {
        Some(field) => field,
        None => unreachable!(),
    }
}
