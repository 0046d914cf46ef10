ghost use Rattle.std.specs.Prelude.{◌≡◌, ◌<◌, length};
ghost use Rattle.mr_assign.specs.declared.TheConstants.{VALUES};
ghost use Rattle.mr_nogood.specs.Row.{cite_for};

use crate::ROW_CITES;
use mr_assign::Assign;
use mr_set::Set;

/// Why one value of a row's position is excluded: a set that fails, or a row by its number; `Nothing` gives no reason.
#[derive(Clone, Copy, Debug, PartialEq, Eq)]
pub enum Cite {
    Nothing,
    Test(Set),
    Slot(u32),
}

/// A clause that no full assignment contains under which no set fails. The cites say why: number v − 1
/// is for the value v of the position, and those for values that the field doesn't have are `Nothing`.
#[derive(Clone, Copy, Debug, PartialEq, Eq)]
pub struct Row {
    pub rank: u32,
    pub at: u8,
    pub clause: Assign,
    pub cites: [Cite; ROW_CITES],
}

/// The cite for the value k + 1, which is at most `VALUES`.
pub fn cite_at(row: &Row, k: u8) -> &Cite
    requires { k < VALUES }
    ensures cite { result.now ≡ cite_for row.now k }
    ensures count { length row.now.cites ≡ VALUES }
{
    &row.cites[k as usize]
}
