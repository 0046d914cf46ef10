ghost use Rattle.std.specs.Prelude.{◌≡◌, ◌++◌, decimal, IfOk, OnOk};
ghost use Rattle.mr_text.specs.Text.{set_text};
ghost use Rattle.matrep.specs.Texts.{refusal_text, refusal_words, measure_word};

use crate::outcome::{Exit, Fault, Outcome};
use mr_file::Measure;
use mr_set::Set;
use mr_text::Text;
use std::alloc::{AllocError, Global};

/// The outcome of a refusal.
pub fn refused(alloc: Global, fault: Fault) -> Result<Outcome, AllocError>
    ensures exit { IfOk result (λ o. o.exit ≡ Exit.Refused fault) }
    ensures text { IfOk result (λ o. o.text ≡ refusal_text fault) }
{
    let text = refusal_line(alloc, &fault)?;
    Ok(Outcome {
        exit: Exit::Refused(fault),
        text,
    })
}

// The line for a refusal.
fn refusal_line(alloc: Global, fault: &Fault) -> Result<Text, AllocError>
    ensures { IfOk result (λ text. text ≡ refusal_text fault.now) }
{
    let mut text = Text::new(alloc);
    text.put(b"refused ")?;
    put_words(fault, &mut text)?;
    text.put(b"\n")?;
    Ok(text)
}

// What is said of a refusal.
fn put_words(fault: &Fault, text: &mut Text) -> Result<(), AllocError>
    ensures { OnOk result (text.new ≡ text.old ++ refusal_words fault.now) }
{
    match *fault {
        Fault::TooLong => text.put(b"too long"),
        Fault::Grammar { line } => put_numbered(b"grammar line ", line, text),
        Fault::Size { line, what } => put_size(line, what, text),
        Fault::NoBasis => text.put(b"no basis"),
        Fault::Exchange { b1, b2, x } => put_exchange(b1, b2, x, text),
        Fault::Stranger { e } => put_numbered(b"stranger ", e, text),
        Fault::RankShort { rank } => put_numbered(b"rank ", rank, text),
    }
}

// Some words and a number.
fn put_numbered(words: &[u8], v: u32, text: &mut Text) -> Result<(), AllocError>
    ensures { OnOk result (text.new ≡ text.old ++ (words.now ++ decimal v)) }
{
    text.put(words)?;
    text.put_number(v)?;
    Ok(())
}

// Some words and a set.
fn put_named(words: &[u8], x: Set, text: &mut Text) -> Result<(), AllocError>
    ensures { OnOk result (text.new ≡ text.old ++ (words.now ++ set_text x)) }
{
    text.put(words)?;
    text.put_set(x)?;
    Ok(())
}

// A line and what is too large in it.
fn put_size(line: u32, what: Measure, text: &mut Text) -> Result<(), AllocError>
    ensures { OnOk result (text.new ≡ text.old ++ refusal_words (Fault.Size line what)) }
{
    put_numbered(b"size line ", line, text)?;
    text.put(b" ")?;
    text.put(word_of(what))?;
    Ok(())
}

// The word for what is too large.
fn word_of(what: Measure) -> &'static [u8]
    ensures { result.now ≡ measure_word what }
{
    match what {
        Measure::Elements => b"elements",
        Measure::Rank => b"rank",
        Measure::Sets => b"sets",
        Measure::Nonbases => b"nonbases",
    }
}

// Two bases and an element whose exchange fails.
fn put_exchange(b1: Set, b2: Set, x: u32, text: &mut Text) -> Result<(), AllocError>
    ensures { OnOk result (text.new ≡ text.old ++ refusal_words (Fault.Exchange b1 b2 x)) }
{
    put_named(b"exchange b1 ", b1, text)?;
    put_named(b" b2 ", b2, text)?;
    put_numbered(b" x ", x, text)?;
    Ok(())
}
