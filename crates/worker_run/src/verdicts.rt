//! What the workers' ends mean for the answer of a query: a worker that ended early has left rows out. A row that is
//! refused goes before a lack of memory, whichever worker met it.

ghost use Rattle.std.specs.Prelude.{◌++◌, List, Option, [], ◌∷◌};
ghost use Rattle.worker_run.specs.Verdicts.{AreVerdict};
ghost use Rattle.worker_run.specs.declared.WorkerEnd.{WorkerEnd};

use crate::WorkerEnd;
use partial_agg::BlockAnswer;

/// What some ends mean, by what those before the last mean and by the last: why there is no answer, or `None` if none
/// left rows out. Begin with `None` and go through all workers.
pub fn verdict_with(so_far: Option<BlockAnswer>, end: &Option<WorkerEnd>) -> Option<BlockAnswer>
    ensures { (ends : List (Option WorkerEnd)) → AreVerdict ends so_far → AreVerdict (ends ++ end.now ∷ []) result }
{
    match *end {
        None => so_far,
        Some(WorkerEnd::Finished) => so_far,
        Some(WorkerEnd::Refused { row, cause, item }) => Some(BlockAnswer::Row {
            row,
            cause,
            item,
        }),
        Some(WorkerEnd::Stopped) => Some(so_far.unwrap_or(BlockAnswer::Memory)),
        Some(WorkerEnd::NoMemory) => Some(so_far.unwrap_or(BlockAnswer::Memory)),
    }
}
