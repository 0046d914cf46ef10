ghost use Rattle.std.specs.Prelude.{◌≡◌, ◌↔◌, ◌<◌, IsTrue, MatchOption};
ghost use Rattle.mr_set.specs.Matroid.{IsFirstBasis};
ghost use Rattle.mr_matroid.specs.Exchange.{HasNoBasis, IsLoop, IsColoop};
ghost use Rattle.mr_matroid.specs.Private.Shared.{IsMostShared};

use crate::table::SetTable;
use mr_set::Set;

/// The first unlisted set.
pub fn first_basis(table: &SetTable) -> Option<Set>
    ensures { MatchOption result (HasNoBasis table.now) (IsFirstBasis table.now) }
{
    table.unlisted().first().copied()
}

/// Whether no unlisted set has the element.
pub fn is_loop(table: &SetTable, e: u32) -> bool
    requires { e < table.now.elements }
    ensures { IsTrue result ↔ IsLoop table.now e }
{
    let bases = table.unlisted();
    let _elements = table.elements();
    for b in bases {
        if b.has(e) {
            return false;
        }
    }
    true
}

/// Whether each unlisted set has the element.
pub fn is_coloop(table: &SetTable, e: u32) -> bool
    requires { e < table.now.elements }
    ensures { IsTrue result ↔ IsColoop table.now e }
{
    let bases = table.unlisted();
    let _elements = table.elements();
    for b in bases {
        if !b.has(e) {
            return false;
        }
    }
    true
}

/// The greatest number of elements that x and an unlisted set share.
pub fn most_shared(table: &SetTable, x: Set) -> u32
    ensures { IsMostShared table.now x result }
{
    let bases = table.unlisted();
    let mut most = 0;
    for b in bases {
        most = x.meet(*b).len().max(most);
    }
    most
}
