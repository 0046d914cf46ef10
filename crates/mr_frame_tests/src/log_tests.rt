ghost use Rattle.std.specs.Prelude.{◌<◌, length};

use mr_field::Field;
use mr_log::{LogFault, Why, read_log, write_log};
use mr_text::Text;
use std::alloc::Global;
use std::test::Fail;

// A log of the Fano matroid over the field with three elements.
fn fano() -> &'static [u8]
    ensures { length result.now < 1000 }
{
    b"refutation 1\nfield 3\nmatroid 1\nelements 7\nrank 3\nnonbases 7\n0 1 3\n0 2 4\n0 5 6\n1 2 5\n1 4 6\n2 3 6\n3 4 5\nend\nsteps 3\nat 1 if 0:1 2:1 by t 3 4 5 t 0 5 6\nat 2 if 0:1 by s 0 t 1 4 6\nat 0 if - by s 1 t 2 3 6\nend s 2\n"
}

// The line and the cause of a refusal.
fn refusal(alloc: Global, bytes: &[u8], q: u32) -> Option<(u32, Why)> {
    if bytes.len() > 1000 {
        return None;
    }
    match Field::of(q) {
        None => None,
        Some(field) => match read_log(alloc, bytes, field) {
            Err(LogFault::Bad { line, why }) => Some((line, why)),
            _ => None,
        },
    }
}

#[test]
fn a_log_is_read_and_written_again(rt: HostRuntime) -> Result<(), Fail> {
    let alloc = rt.alloc();
    let field = Field::of(3).ok_or("there is such a field")?;
    let log = read_log(alloc, fano(), field)?;
    let steps = log.steps.as_slice();
    assert_eq!(rt; steps.len(), 3);
    for (number, row) in steps.iter().enumerate() {
        assert!(rt; row.rank as usize == number, "step {number}");
    }
    let text = write_log(alloc, &log)?;
    assert_eq!(rt; text.as_bytes(), fano());
    Ok(())
}

#[test]
fn a_log_of_the_field_of_two_elements_may_have_no_steps(rt: HostRuntime) -> Result<(), Fail> {
    let alloc = rt.alloc();
    let field = Field::of(2).ok_or("there is such a field")?;
    for bytes in [
        b"refutation 1\nfield 2\nmatroid 1\nelements 4\nrank 2\nnonbases 0\nend\nsteps 0\nend t 2 3\n".as_slice(),
        b"refutation 1\nfield 2\nmatroid 1\nelements 1\nrank 0\nnonbases 0\nend\nsteps 0\nend t -\n",
    ] {
        if bytes.len() > 1000 {
            return Err("the texts are short".into());
        }
        let log = read_log(alloc, bytes, field)?;
        assert!(rt; log.steps.as_slice().is_empty());
        let text = write_log(alloc, &log)?;
        assert_eq!(rt; text.as_bytes(), bytes);
    }
    Ok(())
}

#[test]
fn a_refusal_names_the_first_line_with_a_fault(rt: HostRuntime) {
    for (text, line, why) in [
        (b"".as_slice(), 1u32, Why::Grammar),
        (b"refutation 2\n", 1, Why::Grammar),
        (b"refutation 1\nfield 03\n", 2, Why::Grammar),
        (b"refutation 1\nfield 5\n", 2, Why::Grammar),
        (
            b"refutation 1\nfield 3\nmatroid 1\nelements 33\n",
            4,
            Why::Size,
        ),
        (
            b"refutation 1\nfield 3\nmatroid 1\nelements 7\nrank 3\nnonbases 7\n0 1 3\n0 2 4\n0 5 6\n1 2 5\n1 4 6\n2 3 6\n3 4 5\nend\nsteps 3\n",
            16,
            Why::Grammar,
        ),
        (
            b"refutation 1\nfield 3\nmatroid 1\nelements 7\nrank 3\nnonbases 7\n0 1 3\n0 2 4\n0 5 6\n1 2 5\n1 4 6\n2 3 6\n3 4 5\nend\nsteps 1000001\n",
            15,
            Why::Size,
        ),
        (
            b"refutation 1\nfield 3\nmatroid 1\nelements 7\nrank 3\nnonbases 7\n0 1 3\n0 2 4\n0 5 6\n1 2 5\n1 4 6\n2 3 6\n3 4 5\nend\nsteps 1000000\n",
            16,
            Why::Grammar,
        ),
        (
            b"refutation 1\nfield 3\nmatroid 1\nelements 2\nrank 1\nnonbases 2\n0\n1\nend\nsteps x\nend t 0\n",
            10,
            Why::Grammar,
        ),
        (
            b"refutation 1\nfield 3\nmatroid 1\nelements 2\nrank 1\nnonbases 2\n0\n1\nend\nsteps 0\nend t 0\n",
            9,
            Why::Basis,
        ),
        (
            b"refutation 1\nfield 3\nmatroid 1\nelements 4\nrank 2\nnonbases 2\n0 1\n1 2\nend\nsteps 0\nend t 0 1\n",
            9,
            Why::Exchange,
        ),
        (
            b"refutation 1\nfield 3\nmatroid 1\nelements 4\nrank 2\nnonbases 0\nend\nsteps 2\nat 0 if - by s 1 s 1\nend s 0\n",
            10,
            Why::Grammar,
        ),
        (
            b"refutation 1\nfield 3\nmatroid 1\nelements 4\nrank 2\nnonbases 0\nend\nsteps 0\nat 0 if - by s 1 s 1\nend s 0\n",
            9,
            Why::Grammar,
        ),
        (
            b"refutation 1\nfield 3\nmatroid 1\nelements 4\nrank 2\nnonbases 0\nend\nsteps 0\nend t 0 1",
            9,
            Why::Grammar,
        ),
        (
            b"refutation 1\nfield 3\nmatroid 1\nelements 4\nrank 2\nnonbases 0\nend\nsteps 0\nend t 0 1\n\n",
            10,
            Why::Grammar,
        ),
        (
            b"refutation 1\nfield 3\nmatroid 1\nelements 4\nrank 2\nnonbases 0\nend\nsteps 0\nend\n",
            9,
            Why::Grammar,
        ),
    ] {
        assert!(rt;
            refusal(rt.alloc(), text, 3) == Some((line, why)),
            "in line {line}"
        );
    }
    assert!(rt; refusal(rt.alloc(), fano(), 5) == Some((2, Why::Grammar)));
}

// The refusal of a log with this line of a step, which is line 9.
fn refusal_of_step(alloc: Global, step: &[u8]) -> Result<Option<(u32, Why)>, Fail> {
    let mut text = Text::new(alloc);
    text.put(b"refutation 1\nfield 3\nmatroid 1\nelements 4\nrank 2\nnonbases 0\nend\nsteps 1\n")?;
    text.put(step)?;
    text.put(b"\nend s 0\n")?;
    Ok(refusal(alloc, text.as_bytes(), 3))
}

#[test]
fn a_step_has_one_spelling(rt: HostRuntime) -> Result<(), Fail> {
    let alloc = rt.alloc();
    for step in [
        b"at 1 if 0:1 2:1 by t 0 1 t 2 3".as_slice(),
        b"at 95 if - by s 0 s 999999999",
        b"at 0 if 95:2 by t 1 3 s 7",
    ] {
        assert!(rt; refusal_of_step(alloc, step)?.is_none(), "{step:?}");
    }
    for step in [
        b"".as_slice(),
        b"at 01 if 0:1 2:1 by t 0 1 t 2 3",
        b"at 96 if 0:1 2:1 by t 0 1 t 2 3",
        b"at 1 if 0:01 2:1 by t 0 1 t 2 3",
        b"at 1 if 2:1 0:1 by t 0 1 t 2 3",
        b"at 1 if 0:1 0:1 by t 0 1 t 2 3",
        b"at 1 if 0:3 2:1 by t 0 1 t 2 3",
        b"at 1 if 0:0 2:1 by t 0 1 t 2 3",
        b"at 1 if 96:1 by t 0 1 t 2 3",
        b"at 1 if by t 0 1 t 2 3",
        b"at 1 if - 0:1 by t 0 1 t 2 3",
        b"at 1  if 0:1 2:1 by t 0 1 t 2 3",
        b"at 1 if 0:1 2:1 by t 0 1 t 2 3 ",
        b"at 1 if 0:1 2:1 by t 0 1 2 t 2 3",
        b"at 1 if 0:1 2:1 by t 0 t 2 3",
        b"at 1 if 0:1 2:1 by t 1 0 t 2 3",
        b"at 1 if 0:1 2:1 by t 0 4 t 2 3",
        b"at 1 if 0:1 2:1 by s 1000000000 t 2 3",
        b"at 1 if 0:1 2:1 by t 0 1",
        b"at 1 if 0:1 2:1 by t 0 1 t 2 3 s 0",
        b"at 1 if 0:1 2:1 by u 0 1 t 2 3",
    ] {
        assert!(rt;
            refusal_of_step(alloc, step)? == Some((9, Why::Grammar)),
            "{step:?}"
        );
    }
    Ok(())
}

#[test]
fn a_log_over_each_larger_field_is_read_and_written_again(rt: HostRuntime) -> Result<(), Fail> {
    let alloc = rt.alloc();
    let cases: [(u32, &[u8]); 5] = [
        (
            4,
            b"refutation 1\nfield 4\nmatroid 1\nelements 4\nrank 2\nnonbases 0\nend\nsteps 1\nat 0 if 7:3 95:1 by t 2 3 s 0 t 0 1\nend s 0\n",
        ),
        (
            5,
            b"refutation 1\nfield 5\nmatroid 1\nelements 4\nrank 2\nnonbases 0\nend\nsteps 1\nat 95 if - by t 2 3 s 0 t 0 1 t 1 2\nend t 0 3\n",
        ),
        (
            7,
            b"refutation 1\nfield 7\nmatroid 1\nelements 1\nrank 0\nnonbases 0\nend\nsteps 1\nat 0 if 0:6 by t - s 0 t - t - s 1 t -\nend t -\n",
        ),
        (
            8,
            b"refutation 1\nfield 8\nmatroid 1\nelements 4\nrank 2\nnonbases 0\nend\nsteps 1\nat 0 if 1:7 by t 2 3 t 2 3 t 2 3 t 2 3 t 2 3 t 2 3 s 999999999\nend s 0\n",
        ),
        (
            9,
            b"refutation 1\nfield 9\nmatroid 1\nelements 4\nrank 2\nnonbases 0\nend\nsteps 1\nat 0 if 7:8 8:1 by s 0 s 1 s 2 s 3 s 4 s 5 s 6 t 2 3\nend s 0\n",
        ),
    ];
    for (q, bytes) in cases {
        if bytes.len() > 1000 {
            return Err("the texts are short".into());
        }
        let field = Field::of(q).ok_or("there is such a field")?;
        let log = read_log(alloc, bytes, field)?;
        assert_eq!(rt; log.steps.as_slice().len(), 1);
        let text = write_log(alloc, &log)?;
        assert_eq!(rt; text.as_bytes(), bytes);
    }
    Ok(())
}
