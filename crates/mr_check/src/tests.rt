use crate::{Accepted, CheckFault, check};
use mr_field::Field;
use mr_log::Why;
use std::alloc::Global;
use std::test::Fail;

// A refutation of the Fano plane over three elements.
const FANO: &[u8] =
    b"refutation 1\nfield 3\nmatroid 1\nelements 7\nrank 3\nnonbases 7\n0 1 3\n0 2 4\n0 5 6\n1 2 5\n1 4 6\n2 3 6\n3 4 5\nend\nsteps 3\nat 1 if 0:1 2:1 by t 3 4 5 t 0 5 6\nat 2 if 0:1 by s 0 t 1 4 6\nat 0 if - by s 1 t 2 3 6\nend s 2\n";

// The uniform matroid of rank 2 on 4 elements has no representation over two elements: the columns 2 and 3 are equal.
const UNIFORM: &[u8] =
    b"refutation 1\nfield 2\nmatroid 1\nelements 4\nrank 2\nnonbases 0\nend\nsteps 0\nend t 2 3\n";

// The same with a set that doesn't fail.
const HOLDS: &[u8] =
    b"refutation 1\nfield 2\nmatroid 1\nelements 4\nrank 2\nnonbases 0\nend\nsteps 0\nend t 0 1\n";

// Each set of the rank's size is listed.
const NO_BASIS: &[u8] =
    b"refutation 1\nfield 2\nmatroid 1\nelements 2\nrank 1\nnonbases 2\n0\n1\nend\nsteps 0\nend t 0\n";

// The verdict on a short text over the field with so many elements.
fn verdict(alloc: Global, bytes: &[u8], q: u32) -> Result<Result<Accepted, CheckFault>, Fail> {
    if bytes.len() > 1000 {
        return Err("a short text".into());
    }
    let field = Field::of(q).ok_or("a field")?;
    Ok(check(alloc, bytes, field))
}

#[test]
fn a_refutation_is_accepted(rt: HostRuntime) -> Result<(), Fail> {
    assert_eq!(rt; verdict(rt.alloc(), FANO, 3)?, Ok(Accepted { steps: 3 }));
    assert_eq!(rt; verdict(rt.alloc(), UNIFORM, 2)?, Ok(Accepted { steps: 0 }));
    Ok(())
}

#[test]
fn another_text_is_rejected_at_its_first_fault(rt: HostRuntime) -> Result<(), Fail> {
    let cases: [(&[u8], u32, u32, Why); 4] = [
        (FANO, 4, 2, Why::Grammar),
        (HOLDS, 2, 9, Why::End),
        (NO_BASIS, 2, 9, Why::Basis),
        (b"", 2, 1, Why::Grammar),
    ];
    for (bytes, q, line, why) in cases {
        assert_eq!(rt;
            verdict(rt.alloc(), bytes, q)?,
            Err(CheckFault::Rejected { line, why })
        );
    }
    Ok(())
}
