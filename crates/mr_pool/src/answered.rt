ghost use Rattle.std.specs.Prelude.{◌≡◌, ◌++◌, ◌∷◌, ◌<◌, [], length, replicate, IfOk, OnOk, None, All};
ghost use Rattle.mr_pool.specs.Private.Lists.{answered, answers_of, with_answers, present};

use mr_exchange::{AnswerList, CubeAnswer};
use std::alloc::{AllocError, Global};

/// A cube and its answer.
#[derive(Drop)]
pub(crate) struct Answered {
    pub(crate) cube: u32,
    pub(crate) answer: CubeAnswer,
}

/// One more answer. One that is refused is given up.
pub(crate) fn keep(
    list: &mut Vec<Answered>,
    cube: u32,
    answer: CubeAnswer,
) -> Result<(), AllocError>
    ensures ok { OnOk result (list.new.items ≡ list.old.items ++ answered cube answer ∷ []) }
{
    list.reserve(1)?;
    list.push_reserved(Answered { cube, answer });
    Ok(())
}

/// The answers, in their order.
pub(crate) fn in_list(alloc: Global, list: Vec<Answered>) -> Result<AnswerList, AllocError>
    ensures { IfOk result (λ answers. answers ≡ answers_of list.items) }
{
    let mut answers = AnswerList::new(alloc);
    for item in list {
        answers.push(item.answer)?;
    }
    Ok(answers)
}

/// A row of so many places, none of which has an answer.
pub(crate) fn empty_row(alloc: Global, places: u32) -> Result<Vec<Option<CubeAnswer>>, AllocError>
    ensures { IfOk result (λ row. row.items ≡ replicate places None) }
{
    let mut row = Vec::with_capacity(alloc, places as usize)?;
    for _place in 0..places {
        row.push_reserved(None);
    }
    Ok(row)
}

/// Puts each answer at the place of its cube.
pub(crate) fn put_all(row: &mut Vec<Option<CubeAnswer>>, list: Vec<Answered>)
    requires { All (λ a. a.cube < length row.old.items) list.items }
    ensures { row.new.items ≡ with_answers row.old.items list.items }
{
    for item in list {
        let Answered { cube, answer } = item;
        row[cube as usize] = Some(answer);
    }
}

/// The answers of a row, in the order of their places.
pub(crate) fn in_order(
    alloc: Global,
    row: Vec<Option<CubeAnswer>>,
) -> Result<AnswerList, AllocError>
    ensures { IfOk result (λ answers. answers ≡ present row.items) }
{
    let mut answers = AnswerList::new(alloc);
    for place in row {
        if let Some(answer) = place {
            answers.push(answer)?;
        }
    }
    Ok(answers)
}
