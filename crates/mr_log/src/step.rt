ghost use Rattle.std.specs.Prelude.{◌≡◌, ◌<◌, ◌≤◌, MatchOption, MatchResult};
ghost use Rattle.mr_set.specs.declared.TheConstants.{ELEMENTS};
ghost use Rattle.mr_assign.specs.declared.TheConstants.{POSITIONS};
ghost use Rattle.mr_text.specs.Format.{IsLineOf, IsLineFault};
ghost use Rattle.mr_file.specs.Reading.{listing};
ghost use Rattle.mr_log.specs.Lines.{IsStepLine, IsEndLine, step_table, end_table};
ghost use Rattle.mr_log.specs.Private.Words.{Reads, position_words};
ghost use Rattle.mr_log.specs.Private.Stages.{NamesLine};
ghost use Rattle.mr_nogood.specs.declared.row.Row.{Row};

use crate::cite::{read_cite, read_cites, read_number};
use crate::clause::read_clause;
use crate::fault::{LogFault, Why};
use crate::words::WordsLeft;
use mr_assign::POSITIONS;
use mr_file::Listed;
use mr_nogood::{Cite, Row};
use mr_text::split_once;

// The position of a step, up to the word `if`.
fn read_position(words: &mut WordsLeft) -> Option<u8>
    ensures { Reads (λ p. p < POSITIONS) position_words result words.old words.new }
{
    if words.next_is(b"at") {
        match read_number(words) {
            None => None,
            Some(p) => {
                if p >= POSITIONS {
                    return None;
                }
                if words.next_is(b"if") {
                    Some(p as u8)
                } else {
                    None
                }
            }
        }
    } else {
        None
    }
}

// The step with this number that the line spells.
fn read_step(line: &[u8], listed: &Listed, q: u8, number: u32) -> Option<Row>
    requires elements { listed.now.elements ≤ ELEMENTS }
    requires field { (2 ≤ q) × (q ≤ 9) }
    ensures { MatchOption result ((row : Row) → ¬ (IsStepLine (listing listed.now) q number line.now row)) (IsStepLine (listing listed.now) q number line.now) }
{
    let mut words = WordsLeft::of(line);
    match read_position(&mut words) {
        None => None,
        Some(at) => match read_clause(&mut words, q) {
            None => None,
            Some(clause) => match read_cites(&mut words, listed, q) {
                None => None,
                Some(cites) => {
                    if words.is_done() {
                        Some(Row {
                            rank: number,
                            at,
                            clause,
                            cites,
                        })
                    } else {
                        None
                    }
                }
            },
        },
    }
}

/// The step with this number on the first line, and what follows the line.
pub fn step_line<'a>(
    bytes: &'a [u8],
    line_number: u32,
    listed: &Listed,
    q: u8,
    number: u32,
) -> Result<(Row, &'a [u8]), LogFault>
    requires elements { listed.now.elements ≤ ELEMENTS }
    requires field { (2 ≤ q) × (q ≤ 9) }
    ensures { MatchResult result (λ x. IsLineOf (step_table (listing listed.now) q number) bytes.now x.0 x.1.now) (NamesLine (IsLineFault (step_table (listing listed.now) q number) line_number bytes.now)) }
{
    match split_once(bytes, b'\n') {
        None => Err(LogFault::Bad {
            line: line_number,
            why: Why::Grammar,
        }),
        Some((line, rest)) => match read_step(line, listed, q, number) {
            None => Err(LogFault::Bad {
                line: line_number,
                why: Why::Grammar,
            }),
            Some(row) => Ok((row, rest)),
        },
    }
}

// The cite of the end that the line spells.
fn read_end(line: &[u8], listed: &Listed) -> Option<Cite>
    requires { listed.now.elements ≤ ELEMENTS }
    ensures { MatchOption result ((last : Cite) → ¬ (IsEndLine (listing listed.now) line.now last)) (IsEndLine (listing listed.now) line.now) }
{
    let mut words = WordsLeft::of(line);
    if words.next_is(b"end") {
        match read_cite(&mut words, listed) {
            None => None,
            Some(cite) => { if words.is_done() { Some(cite) } else { None } }
        }
    } else {
        None
    }
}

/// The cite of the end on the first line, and what follows the line.
pub fn end_line<'a>(
    bytes: &'a [u8],
    line_number: u32,
    listed: &Listed,
) -> Result<(Cite, &'a [u8]), LogFault>
    requires { listed.now.elements ≤ ELEMENTS }
    ensures { MatchResult result (λ x. IsLineOf (end_table (listing listed.now)) bytes.now x.0 x.1.now) (NamesLine (IsLineFault (end_table (listing listed.now)) line_number bytes.now)) }
{
    match split_once(bytes, b'\n') {
        None => Err(LogFault::Bad {
            line: line_number,
            why: Why::Grammar,
        }),
        Some((line, rest)) => match read_end(line, listed) {
            None => Err(LogFault::Bad {
                line: line_number,
                why: Why::Grammar,
            }),
            Some(last) => Ok((last, rest)),
        },
    }
}
