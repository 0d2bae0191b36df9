//! The plan of the words `merge COLUMNS N`, which put rows in order.

ghost use Rattle.std.specs.Prelude.{◌≡◌, ◌∷◌, [], None, Some, IfOk, map, string_bytes, true};
ghost use Rattle.par_model.specs.Plain.{is_plain_named};
ghost use Rattle.plan_spec.specs.Merging.{is_merge, merge_of, merge_query, row_count};
ghost use Rattle.plan_spec.specs.declared.plan.PlanAnswer.TheVariants as answer;

use crate::grammar::{names, number, row_count};
use crate::plan::{MOST_WORKERS, Plan, PlanAnswer, PlanItem};
use csv_rows::Reading;
use std::alloc::{AllocError, Global};

/// Whether words begin with `merge`.
pub fn is_merge(words: &[String]) -> bool
    ensures { result ≡ is_merge (map string_bytes words.now) }
{
    match words.first() {
        Some(word) => word.as_str() == "merge",
        None => false,
    }
}

impl Plan {
    /// The plan of the words `merge COLUMNS N` after a program's name, which put rows in the order of these columns by
    /// N workers: it groups by the columns and counts rows. COLUMNS is one to eight names between commas, none empty,
    /// and N is one to five digits, up to [`MOST_WORKERS`].
    pub fn of_merge_words(alloc: Global, words: &[String]) -> Result<Plan, PlanAnswer>
        ensures plan { IfOk result (λ plan. merge_of (map string_bytes words.now) ≡ Some plan) }
        ensures plain { IfOk result (λ plan. is_plain_named plan.plan ≡ true) }
        ensures usage { result ≡ Err answer.Usage → merge_of (map string_bytes words.now) ≡ None }
    {
        if words.len() != 3 || !is_merge(words) {
            return Err(PlanAnswer::Usage);
        }
        merge_plan(alloc, words[1].as_str(), words[2].as_str())
    }
}

/// The plan of COLUMNS and N.
fn merge_plan(alloc: Global, columns: &str, workers: &str) -> Result<Plan, PlanAnswer>
    ensures plan { IfOk result (λ plan. merge_query columns.now workers.now ≡ Some plan) }
    ensures plain { IfOk result (λ plan. is_plain_named plan.plan ≡ true) }
    ensures usage { result ≡ Err answer.Usage → merge_query columns.now workers.now ≡ None }
{
    let groups = names(alloc, columns)?;
    let Some(workers) = number(workers, MOST_WORKERS) else {
        return Err(PlanAnswer::Usage);
    };
    let Ok(items) = row_counts(alloc) else {
        return Err(PlanAnswer::Memory);
    };
    Ok(Plan {
        groups,
        items,
        filters: Vec::new(alloc),
        hash: false,
        workers,
        area_pages: 0,
        reading: Reading::plain(),
    })
}

/// The list of one aggregate, which counts rows.
fn row_counts(alloc: Global) -> Result<Vec<PlanItem>, AllocError>
    ensures { IfOk result (λ items. items.items ≡ row_count ∷ []) }
{
    let mut items = Vec::new(alloc);
    let item = row_count(alloc)?;
    if items.push(item).is_err() {
        return Err(AllocError);
    }
    Ok(items)
}
