//! Why a query has no answer, in the words of this crate.

ghost use Rattle.std.specs.Prelude.{map};
ghost use Rattle.gather_run.specs.Did.{Answers};
ghost use Rattle.worker_run.specs.Verdicts.{AreVerdict};

use crate::GatherAnswer;
use parallel_ctx::Returned;
use partial_agg::BlockAnswer;
use worker_run::{WorkerEnd, verdict_with};

/// A reason as an answer.
pub(crate) fn answer_of(why: BlockAnswer) -> GatherAnswer
    ensures { Answers why result }
{
    match why {
        BlockAnswer::Row { row, cause, item } => GatherAnswer::Row { row, cause, item },
        BlockAnswer::Memory => GatherAnswer::Memory,
    }
}

/// What the ends of all workers mean.
pub(crate) fn verdict(workers: &[Returned<WorkerEnd>]) -> Option<BlockAnswer>
    ensures { AreVerdict (map (λ w. w.end) workers.now) result }
{
    let mut verdict = None;
    for worker in workers {
        verdict = verdict_with(verdict, &worker.end);
    }
    verdict
}
