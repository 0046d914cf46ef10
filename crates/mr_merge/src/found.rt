ghost use Rattle.std.specs.Prelude.{◌≡◌, ◌++◌, flat_map, map, IfOk, OnOk};
ghost use Rattle.mr_merge.specs.Private.Answers.{found_of, cite_of};

use mr_assign::{Assign, AssignList};
use mr_exchange::CubeAnswer;
use mr_nogood::Cite;
use std::alloc::{AllocError, Global};

/// The completions that were found, one cube after another.
pub(crate) fn all_found(alloc: Global, answers: &[CubeAnswer]) -> Result<AssignList, AllocError>
    ensures { IfOk result (λ forms. forms ≡ flat_map found_of answers.now) }
{
    let mut forms = AssignList::new(alloc);
    for answer in answers {
        append_found(answer, &mut forms)?;
    }
    Ok(forms)
}

// Appends what was found of one cube.
fn append_found(answer: &CubeAnswer, forms: &mut AssignList) -> Result<(), AllocError>
    ensures { OnOk result (forms.new ≡ forms.old ++ found_of answer.now) }
{
    match answer {
        CubeAnswer::Found(list) => append(list.as_slice(), forms),
        CubeAnswer::Refuted(_) => Ok(()),
    }
}

fn append(items: &[Assign], forms: &mut AssignList) -> Result<(), AllocError>
    ensures { OnOk result (forms.new ≡ forms.old ++ items.now) }
{
    for item in items {
        forms.push(*item)?;
    }
    Ok(())
}

/// Why each cube has no completion.
pub(crate) fn all_cites(alloc: Global, answers: &[CubeAnswer]) -> Result<Vec<Cite>, AllocError>
    ensures { IfOk result (λ cites. cites.items ≡ map cite_of answers.now) }
{
    let mut cites = Vec::new(alloc);
    for answer in answers {
        cites.extend_from_slice(&[cite_of(answer)])?;
    }
    Ok(cites)
}

fn cite_of(answer: &CubeAnswer) -> Cite
    ensures { result ≡ cite_of answer.now }
{
    match answer {
        CubeAnswer::Found(_) => Cite::Nothing,
        CubeAnswer::Refuted(cite) => *cite,
    }
}
