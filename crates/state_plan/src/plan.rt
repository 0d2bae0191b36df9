//! The plan of a head's words.

ghost use Rattle.std.specs.Prelude.{IfOk, MatchOption};
ghost use Rattle.state_head.specs.Words.{words_of};
ghost use Rattle.state_plan.specs.FilePlans.{AskFor, HaveNoQuery};

use crate::words::command_words;
use plan_spec::{Plan, PlanAnswer};
use state_head::PlanWords;
use std::alloc::{AllocError, Global};

/// The plan of some words, if they are those of one. It takes memory for the words and the plan.
pub fn plan_of(alloc: Global, words: PlanWords<'_>) -> Result<Option<Plan>, AllocError>
    ensures { IfOk result (λ found. MatchOption found (HaveNoQuery (words_of words.entry)) (AskFor (words_of words.entry))) }
{
    let Some(command) = command_words(alloc, words)? else {
        return Ok(None);
    };
    match Plan::of_stream_words(alloc, command.as_slice()) {
        Ok(plan) => Ok(Some(plan)),
        Err(PlanAnswer::Usage) => Ok(None),
        Err(PlanAnswer::Memory) => Err(AllocError),
    }
}
