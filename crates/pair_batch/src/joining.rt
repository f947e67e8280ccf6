ghost use Rattle.std.specs.Prelude.{◌≡◌, ◌++◌, IfOk, OnOk};
ghost use Rattle.pair_batch.specs.Shares.{AreJoined};

use crate::batch::AnswerList;
use plane_exact::NoMemory;
use std::alloc::Global;

/// Puts more answers at the end of a list.
///
/// # Errors
/// `NoMemory`, and then some of them may be at its end.
fn append(answers: &mut AnswerList, more: &AnswerList) -> Result<(), NoMemory>
    ensures appended { OnOk result (answers.new ≡ answers.old ++ more.now) }
{
    for answer in more.as_slice() {
        answers.push(*answer)?;
    }
    Ok(())
}

/// Joins what the workers made, in their order.
///
/// # Errors
/// `NoMemory`, also where a worker had none.
pub(crate) fn joined(
    alloc: Global,
    made: Vec<Result<AnswerList, NoMemory>>,
) -> Result<AnswerList, NoMemory>
    ensures joined { IfOk result (AreJoined made.items) }
{
    let mut all = AnswerList::new(alloc);
    for list in made {
        append(&mut all, &list?)?;
    }
    Ok(all)
}
