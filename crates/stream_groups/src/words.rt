//! The words of a command line.

ghost use Rattle.std.specs.Prelude.{◌≡◌, ◌⊎◌, None, Some, Err, IfErr, IfOk};
ghost use Rattle.answer_text.specs.Words.{texts};
ghost use Rattle.plan_spec.specs.Query.{stream_query_of};
ghost use Rattle.stream_groups.specs.declared.stop.Stop.TheVariants as stop;

use crate::stop::Stop;
use plan_spec::Plan;
use std::alloc::Global;

/// The plan of the words.
pub fn read_words(alloc: Global, words: &[String]) -> Result<Plan, Stop>
    ensures plan { IfOk result (λ plan. stream_query_of (texts words.now) ≡ Some plan) }
    ensures usage { result ≡ Err stop.Usage → stream_query_of (texts words.now) ≡ None }
    ensures why { IfErr result (λ why. (why ≡ stop.Usage) ⊎ (why ≡ stop.Memory)) }
{
    Ok(Plan::of_stream_words(alloc, words)?)
}
