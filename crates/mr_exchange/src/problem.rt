ghost use Rattle.std.specs.Prelude.{◌≡◌, ◌≤◌, ◌-◌};
ghost use Rattle.mr_field.specs.Gf.{order};
ghost use Rattle.mr_exchange.specs.declared.TheConstants.{SPLIT, NODES};

use mr_frame::Frame;

/// How many positions are split, how many cubes there are then, and how many nodes may be opened.
#[derive(Clone, Copy, Debug, PartialEq, Eq)]
pub struct Problem {
    pub depth: u32,
    pub cubes: u32,
    pub nodes: u32,
}

impl Problem {
    ghost use Rattle.mr_exchange.specs.Cubes.{problem_of, IsProblemOf};

    /// The problem of splitting the first `split` positions, of which there may be fewer.
    pub fn of(frame: &Frame, split: u32, nodes: u32) -> Problem
        requires few_split { split ≤ SPLIT }
        requires some_nodes { 1 ≤ nodes }
        requires few_nodes { nodes ≤ NODES }
        ensures value { result ≡ problem_of frame.now split nodes }
        ensures problem { IsProblemOf frame.now result }
    {
        let depth = split.min(frame.free());
        Problem {
            depth,
            cubes: nonzero_elements(frame).pow(depth),
            nodes,
        }
    }
}

/// How many nonzero elements the field has.
pub(crate) fn nonzero_elements(frame: &Frame) -> u32
    ensures { result ≡ order frame.now.field - 1 }
{
    u32::from(frame.field().order()) - 1
}
