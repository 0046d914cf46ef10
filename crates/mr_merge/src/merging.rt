ghost use Rattle.std.specs.Prelude.{◌≡◌, ◌≢◌, ◌+◌, ◌≤◌, ℕ, List, [], ◌∷◌, length, IfOk};
ghost use Rattle.mr_assign.specs.Assign.{no_values};
ghost use Rattle.mr_nogood.specs.Follows.{in_slots};
ghost use Rattle.mr_nogood.specs.declared.row.Cite.{Cite};
ghost use Rattle.mr_exchange.specs.declared.answer.CubeAnswer.TheVariants.{Refuted};
ghost use Rattle.mr_exchange.specs.Right.{AreAnswers, AreCompletions};
ghost use Rattle.mr_merge.specs.declared.TheConstants.{PREFIXES};
ghost use Rattle.mr_merge.specs.Answers.{HasFound};
ghost use Rattle.mr_merge.specs.Merged.{MatchMerged, IsRefutationOf, IsMadeOf};

use crate::found::{all_cites, all_found};
use crate::log::log_to;
use crate::prefix::end_of;
use crate::table::Table;
use mr_assign::AssignList;
use mr_exchange::{AnswerList, Closed, CubeAnswer, Problem};
use mr_frame::Frame;
use mr_log::Log;
use std::alloc::{AllocError, Global};

/// What the answers of all cubes are merged to: all forms, in order, or a log that refutes that there is one.
#[derive(Drop)]
pub enum Merged {
    Forms(AssignList),
    Refuted(Log),
}

/// All forms, in order, where some cube has one; else a log that the checker accepts. Its steps are the rows that its
/// end leads to, by rank and then slot, and numbered anew. For an assignment of the first positions whose children
/// are refuted each by a cite of its own a row is added. Refused for want of memory alone.
pub fn merge(
    alloc: Global,
    frame: &Frame,
    problem: Problem,
    answers: &AnswerList,
    closed: &Closed,
) -> Result<Merged, AllocError>
    requires frame { closed.now.frame ≡ frame.now }
    requires problem { closed.now.problem ≡ problem }
    requires answers { AreAnswers frame.now problem (in_slots closed.now.rows) answers.now }

    // Forms come just where some answer has completions, and they are all of the assignment without values.
    ensures found { IfOk result (λ merged. MatchMerged merged (λ forms. HasFound answers.now) (λ log. ¬ (HasFound answers.now))) }
    ensures forms { IfOk result (λ merged. MatchMerged merged (λ forms. (forms ≢ []) × AreCompletions frame.now no_values forms) (λ log. AreCompletions frame.now no_values [])) }

    // The log is one of the frame's matroid over its field, and a refutation.
    ensures refutation { IfOk result (λ merged. MatchMerged merged (λ forms. Unit {0}) (IsRefutationOf frame.now)) }
    ensures made { IfOk result (λ merged. MatchMerged merged (λ forms. Unit {0}) (IsMadeOf frame.now problem closed.now.rows)) }
    ensures steps { IfOk result (λ merged. MatchMerged merged (λ forms. Unit {0}) (λ log. length log.steps ≤ problem.nodes + PREFIXES)) }
    ensures set { (x : List ℕ) → problem.depth ≡ 0 → answers.now ≡ Refuted (Cite.Test x) ∷ [] → IfOk result (λ merged. MatchMerged merged (λ forms. Unit {0}) (λ log. (log.steps ≡ []) × (log.last ≡ Cite.Test x))) }
{
    // The clauses of `opened` say that the rows are those of a sound state.
    let _opened = closed.opened();
    let forms = all_found(alloc, answers.as_slice())?;
    if !forms.as_slice().is_empty() {
        return Ok(Merged::Forms(forms));
    }
    let log = refutation(alloc, frame, problem, answers.as_slice(), closed)?;
    Ok(Merged::Refuted(log))
}

// The log, where nothing was found of any cube.
fn refutation(
    alloc: Global,
    frame: &Frame,
    problem: Problem,
    answers: &[CubeAnswer],
    closed: &Closed,
) -> Result<Log, AllocError>
    requires frame { closed.now.frame ≡ frame.now }
    requires problem { closed.now.problem ≡ problem }
    requires answers { AreAnswers frame.now problem (in_slots closed.now.rows) answers.now }
    requires none { ¬ (HasFound answers.now) }
    ensures refutation { IfOk result (IsRefutationOf frame.now) }
    ensures made { IfOk result (IsMadeOf frame.now problem closed.now.rows) }
    ensures steps { IfOk result (λ log. length log.steps ≤ problem.nodes + PREFIXES) }
    ensures set { (x : List ℕ) → problem.depth ≡ 0 → answers.now ≡ Refuted (Cite.Test x) ∷ [] → IfOk result (λ log. (log.steps ≡ []) × (log.last ≡ Cite.Test x)) }
{
    // The clauses of `opened` say that the rows are those of a sound state.
    let _opened = closed.opened();
    let cites = all_cites(alloc, answers)?;
    let mut table = Table::of(alloc, closed, problem.nodes);
    let end = end_of(alloc, frame, problem, cites, &mut table)?;
    log_to(alloc, frame, &table, end)
}
