ghost use Rattle.std.specs.Prelude.{◌≡◌, ◌<◌, ◌≤◌, length};
ghost use Rattle.mr_exchange.specs.declared.TheConstants.{SPLIT};
ghost use Rattle.mr_exchange.specs.Cubes.{IsCube, cube_count, cube_at};

use crate::problem::nonzero_elements;
use mr_assign::Assign;
use mr_frame::Frame;

/// The c-th of the assignments that give elements to just the first `depth` positions, in lexicographic
/// order.
pub fn cube_at(frame: &Frame, depth: u32, c: u32) -> Assign
    requires split { depth ≤ SPLIT }
    requires free { depth ≤ length frame.now.places }
    requires number { c < cube_count frame.now depth }
    ensures value { result ≡ cube_at frame.now depth c }
    ensures cube { IsCube frame.now depth result }
{
    // The clauses of `basis` and of `words` say that it is a frame, and that there are no more positions.
    let _basis = frame.basis();
    let elements = nonzero_elements(frame);
    let mut cube = Assign::empty();
    let _words = cube.words();
    let mut rest = c;
    for p in 0..depth {
        let power = elements.pow(depth - 1 - p);
        cube = cube.with(p, (rest / power + 1) as u8);
        rest %= power;
    }
    cube
}
