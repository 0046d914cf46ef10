ghost use Rattle.std.specs.Prelude.{◌≡◌, ◌≤◌, length, IfOk, MatchOption};
ghost use Rattle.mr_field.specs.Gf.{Gf, order};
ghost use Rattle.mr_field.specs.Order.{IsOrder};
ghost use Rattle.mr_set.specs.Subsets.{choose};
ghost use Rattle.mr_set.specs.declared.TheConstants.{SETS};
ghost use Rattle.mr_linear.specs.Matrix.{height};
ghost use Rattle.mr_matrix.specs.Block.{IsBlockOf};
ghost use Rattle.mr_matrix.specs.Reading.{IsMatrixRefusal};
ghost use Rattle.mr_matrix.specs.Pairs.{IsPairOf, IsPairRefusal};
ghost use Rattle.matrep.specs.Result.{OfInput, IsFileFault, IsMatrixFault};
ghost use Rattle.matrep.specs.Texts.{confirmed_text, differs_text};
ghost use Rattle.matrep.specs.Answering.{Confirms, FindsMatroid};

use crate::field::field_with;
use crate::input::{file_of, refused_file};
use crate::outcome::{Exit, Fault, Outcome};
use crate::refusal::refused;
use mr_file::FILE_BYTES;
use mr_linear::Matrix;
use mr_matrix::{Confirm, MatrixFault, OfFault, Pair, confirm, matroid_of, read_matrix, read_pair};
use mr_set::Set;
use mr_text::Text;
use std::alloc::{AllocError, Global};

/// The exit and the text for a matroid and a matrix over the field with `q` elements, which is 2, 3, 4, 5, 7, 8 or 9: done where the
/// matrix represents the matroid, negative with the first set at which they differ, or the first fault of the bytes. At most
/// `FILE_BYTES` bytes. Refused for want of memory alone.
pub fn confirm_bytes(alloc: Global, bytes: &[u8], q: u8) -> Result<Outcome, AllocError>
    requires field { IsOrder q }
    requires limit { length bytes.now ≤ FILE_BYTES }
    ensures { IfOk result (λ o. (f : Gf) × (order f ≡ q) × OfInput (IsPairOf f bytes.now) (IsFileFault (IsPairRefusal f bytes.now)) Confirms o.exit o.text) }
{
    let field = field_with(q);
    match read_pair(alloc, bytes, field) {
        Ok(pair) => confirmation_of(alloc, &pair),
        Err(fault) => refused_file(alloc, fault),
    }
}

// The outcome of a matrix that is held against a matroid of its size.
fn confirmation_of(alloc: Global, pair: &Pair) -> Result<Outcome, AllocError>
    requires rows { height pair.now.matrix ≡ pair.now.matroid.rank }
    requires columns { pair.now.matrix.cols ≡ pair.now.matroid.elements }
    ensures { IfOk result (λ o. Confirms pair.now o.exit o.text) }
{
    match confirm(&pair.matroid, &pair.matrix) {
        Confirm::Confirmed => confirmed(alloc),
        Confirm::Differs { set } => differs(alloc, set),
    }
}

// The outcome of a matrix that represents the matroid.
fn confirmed(alloc: Global) -> Result<Outcome, AllocError>
    ensures exit { IfOk result (λ o. o.exit ≡ Exit.Done) }
    ensures text { IfOk result (λ o. o.text ≡ confirmed_text) }
{
    let mut text = Text::new(alloc);
    text.put(b"confirmed\n")?;
    Ok(Outcome {
        exit: Exit::Done,
        text,
    })
}

// The outcome of a matrix that differs from the matroid first at this set.
fn differs(alloc: Global, set: Set) -> Result<Outcome, AllocError>
    ensures exit { IfOk result (λ o. o.exit ≡ Exit.Negative) }
    ensures text { IfOk result (λ o. o.text ≡ differs_text set) }
{
    let mut text = Text::new(alloc);
    text.put(b"differs ")?;
    text.put_set(set)?;
    text.put(b"\n")?;
    Ok(Outcome {
        exit: Exit::Negative,
        text,
    })
}

/// The exit and the text for the matroid of a matrix over the field with `q` elements, which is 2, 3, 4, 5, 7, 8 or 9: its file, or
/// the rank, where that is below the number of rows, or the first fault of the bytes. At most `FILE_BYTES` bytes. Refused for want
/// of memory alone.
pub fn matroid_bytes(alloc: Global, bytes: &[u8], q: u8) -> Result<Outcome, AllocError>
    requires field { IsOrder q }
    requires limit { length bytes.now ≤ FILE_BYTES }
    ensures { IfOk result (λ o. (f : Gf) × (order f ≡ q) × OfInput (IsBlockOf f bytes.now) (IsMatrixFault (IsMatrixRefusal f bytes.now)) FindsMatroid o.exit o.text) }
{
    let field = field_with(q);
    match read_matrix(alloc, bytes, field) {
        Ok(a) => represented(alloc, &a),
        Err(fault) => match fault_of(fault) {
            Some(fault) => refused(alloc, fault),
            None => Err(AllocError),
        },
    }
}

// The outcome with the file of the matroid, or with the matrix's rank.
fn represented(alloc: Global, a: &Matrix) -> Result<Outcome, AllocError>
    requires { choose a.now.cols (height a.now) ≤ SETS }
    ensures { IfOk result (λ o. FindsMatroid a.now o.exit o.text) }
{
    match matroid_of(alloc, a) {
        Ok(m) => file_of(alloc, &m),
        Err(OfFault::RankShort { rank }) => refused(alloc, Fault::RankShort { rank }),
        Err(OfFault::Memory) => Err(AllocError),
    }
}

// The same refusal of the input, but for want of memory.
fn fault_of(fault: MatrixFault) -> Option<Fault>
    ensures { MatchOption result (fault ≡ MatrixFault.Memory) (IsMatrixFault (λ e. e ≡ fault)) }
{
    match fault {
        MatrixFault::Grammar { line } => Some(Fault::Grammar { line }),
        MatrixFault::Size { line, what } => Some(Fault::Size { line, what }),
        MatrixFault::Memory => None,
    }
}
