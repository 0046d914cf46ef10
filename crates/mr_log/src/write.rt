ghost use Rattle.std.specs.Prelude.{◌≡◌, ◌++◌, ◌∷◌, [], ◌+◌, ◌-◌, ◌<◌, ◌≤◌, List, ℕ, map, take, length, slice_get, Some, codes, OnOk, IfOk};
ghost use Rattle.std.specs.List.{join_with_byte};
ghost use Rattle.mr_assign.specs.Assign.{IsAssign};
ghost use Rattle.mr_log.specs.Lines.{pair_text, clause_text, cite_text, step_text};
ghost use Rattle.mr_log.specs.Log.{log_text, IsLog};
ghost use Rattle.mr_log.specs.declared.TheConstants.{STEPS};
ghost use Rattle.mr_log.specs.Private.Written.{gap, log_head, steps_text};
ghost use Rattle.mr_nogood.specs.declared.row.Row.{Row};

use crate::log::Log;
use mr_assign::{Assign, POSITIONS};
use mr_file::write_matroid;
use mr_nogood::{Cite, ROW_CITES, Row};
use mr_text::Text;
use std::alloc::{AllocError, Global};

/// The text of the log.
pub fn write_log(alloc: Global, log: &Log) -> Result<Text, AllocError>
    requires { IsLog log.now }
    ensures { IfOk result (λ text. text ≡ log_text log.now) }
{
    let mut out = Text::new(alloc);
    write_head(log, &mut out)?;
    write_steps(log.steps.as_slice(), log.q, &mut out)?;
    write_end(&log.last, &mut out)?;
    Ok(out)
}

// The lines before the steps.
fn write_head(log: &Log, out: &mut Text) -> Result<(), AllocError>
    requires { length log.now.steps ≤ STEPS }
    ensures { OnOk result (out.new ≡ out.old ++ log_head log.now) }
{
    out.put(b"refutation 1\nfield ")?;
    out.put_number(u32::from(log.q))?;
    out.put(b"\n")?;
    write_matroid(&log.matroid, out)?;
    out.put(b"steps ")?;
    out.put_number(log.steps.as_slice().len() as u32)?;
    out.put(b"\n")
}

// A line for each step.
fn write_steps(rows: &[Row], q: u8, out: &mut Text) -> Result<(), AllocError>
    requires field { (2 ≤ q) × (q ≤ 9) }
    requires clauses { (j : ℕ) (row : Row) → slice_get rows.now j ≡ Some row → IsAssign row.clause }
    ensures { OnOk result (out.new ≡ out.old ++ steps_text q rows.now) }
{
    for row in rows {
        write_step(row, q, out)?;
    }
    Ok(())
}

fn write_step(row: &Row, q: u8, out: &mut Text) -> Result<(), AllocError>
    requires field { (2 ≤ q) × (q ≤ 9) }
    requires clause { IsAssign row.now.clause }
    ensures { OnOk result (out.new ≡ out.old ++ (step_text q row.now ++ 10 ∷ [])) }
{
    out.put(b"at ")?;
    out.put_number(u32::from(row.at))?;
    out.put(b" if ")?;
    write_clause(&row.clause, out)?;
    out.put(b" by ")?;
    write_cites(&row.cites, q, out)?;
    out.put(b"\n")
}

// The pairs with single spaces between them, or `-` where there are none.
fn write_clause(a: &Assign, out: &mut Text) -> Result<(), AllocError>
    requires { IsAssign a.now }
    ensures { OnOk result (out.new ≡ out.old ++ clause_text a.now) }
{
    let mut first = true;
    let words = a.words();
    let mut p = 0;
    while p < POSITIONS {
        // A word of zeros has no pairs.
        if p % 16 == 0 && words[p as usize / 16] == 0 {
            p += 16;
            continue;
        }
        let v = a.get(p);
        if v != 0 {
            write_pair(first, p, v, out)?;
            first = false;
        }
        p += 1;
    }
    if first {
        return out.put(b"-");
    }
    Ok(())
}

// The pair, after a space where it isn't the first.
fn write_pair(first: bool, p: u32, v: u8, out: &mut Text) -> Result<(), AllocError>
    ensures { OnOk result (out.new ≡ out.old ++ (gap first ++ pair_text p v)) }
{
    write_gap(first, out)?;
    out.put_number(p)?;
    out.put_byte(b':')?;
    out.put_number(u32::from(v))
}

fn write_gap(first: bool, out: &mut Text) -> Result<(), AllocError>
    ensures { OnOk result (out.new ≡ out.old ++ gap first) }
{
    if first {
        return Ok(());
    }
    out.put_byte(b' ')
}

// The cites for the values of the field with `q` elements.
fn write_cites(cites: &[Cite; ROW_CITES], q: u8, out: &mut Text) -> Result<(), AllocError>
    requires { (2 ≤ q) × (q ≤ 9) }
    ensures { OnOk result (out.new ≡ out.old ++ join_with_byte 32 (map cite_text (take (q - 1) cites.now))) }
{
    let mut first = true;
    for k in 0..usize::from(q - 1) {
        write_gap(first, out)?;
        write_cite(&cites[k], out)?;
        first = false;
    }
    Ok(())
}

fn write_cite(cite: &Cite, out: &mut Text) -> Result<(), AllocError>
    ensures { OnOk result (out.new ≡ out.old ++ cite_text cite.now) }
{
    match cite {
        Cite::Nothing => Ok(()),
        Cite::Test(x) => {
            out.put(b"t ")?;
            out.put_set(*x)
        }
        Cite::Slot(s) => {
            out.put(b"s ")?;
            out.put_number(*s)
        }
    }
}

// The last line.
fn write_end(last: &Cite, out: &mut Text) -> Result<(), AllocError>
    ensures { OnOk result (out.new ≡ out.old ++ ((codes "end " ++ cite_text last.now) ++ 10 ∷ [])) }
{
    out.put(b"end ")?;
    write_cite(last, out)?;
    out.put(b"\n")
}
