//! What a query needs before its rows are read: the plan of the words, the records of the source, and the plan over
//! their columns. The first fault ends it, in the order of the words, the reading, the header, the number of rows and
//! the columns.

ghost use Rattle.std.specs.Prelude.{true, ◌≡◌, ◌≢◌, ◌⊎◌, ◌<◌, ◌≤◌, IfErr, IfOk, IfSome, IsNone, None, OnOk, Some, length};
ghost use Rattle.csv_rows.specs.Records.{record_at};
ghost use Rattle.csv_rows.specs.declared.records.TheConstants.{MOST_RECORDS};
ghost use Rattle.par_io.specs.Faults.{Rose};
ghost use Rattle.par_model.specs.Columns.{HasColumns};
ghost use Rattle.par_model.specs.Named.{bound_plan, missing_name};
ghost use Rattle.par_model.specs.Outcome.{by_records};
ghost use Rattle.par_model.specs.Plain.{is_plain, is_plain_named};
ghost use Rattle.partial_agg.specs.Rows.{header_width};
ghost use Rattle.plan_spec.specs.declared.plan.PlanAnswer.TheVariants as answer;
ghost use Rattle.answer_text.specs.Words.{texts};
ghost use Rattle.table_query.specs.Asked.{asked, plan_in};
ghost use Rattle.table_query.specs.Ready.{AreRecordsOf, IsReady};
ghost use Rattle.table_query.specs.Stops.{Explains, IsEarly, IsExplained};
ghost use Rattle.table_query.specs.declared.stop.Stop.TheVariants as stop;

use crate::reading::Reading;
use crate::stop::Stop;
use crate::wanted::Wanted;
use csv_rows::{RowStore, read_all};
use par_io::Source;
use par_model::BoundPlan;
use plan_spec::{Plan, PlanAnswer};
use std::alloc::Global;

/// A query that is ready to run.
#[derive(Drop)]
pub struct Ready {
    pub plan: Plan,
    pub rows: RowStore,
    /// The plan over the columns of the rows' header.
    pub bound: BoundPlan,
}

/// Reads the words, which are to ask for what is wanted, and the source. If they are no query the source is not read.
pub fn prepare<S: Source, W: Reading>(
    alloc: Global,
    wanted: Wanted,
    words: &[String],
    source: &mut S,
    reading: &W,
) -> Result<Ready, Stop>
    requires { W.asks }
    ensures ready { IfOk result (λ ready. IsReady (asked wanted (texts words.now)) (S.left source.old) ready) }
    ensures why { IfErr result (λ why. IsExplained (plan_in (asked wanted (texts words.now))) (S.left source.old) why) }
    ensures read_fault { IfErr result (λ why. why ≡ stop.ReadFault → Rose (S.faults source.old) (S.faults source.new)) }
    ensures early { IfErr result (λ why. IsEarly why) }
    ensures no_plan { IsNone (plan_in (asked wanted (texts words.now))) → (result ≡ Err stop.Usage) ⊎ (result ≡ Err stop.Memory) }
    ensures unread { IsNone (plan_in (asked wanted (texts words.now))) → source.new ≡ source.old }
{
    let plan = read_words(alloc, wanted, words)?;
    let rows = read_rows(alloc, &plan, source, reading)?;
    let bound = bind(alloc, &plan, &rows)?;
    Ok(Ready { plan, rows, bound })
}

/// Reads the words.
fn read_words(alloc: Global, wanted: Wanted, words: &[String]) -> Result<Plan, PlanAnswer>
    ensures plan { IfOk result (λ plan. asked wanted (texts words.now) ≡ Some plan) }
    ensures plain { IfOk result (λ plan. is_plain_named plan.plan ≡ true) }
    ensures usage { result ≡ Err answer.Usage → asked wanted (texts words.now) ≡ None }
{
    match wanted {
        Wanted::Groups => Plan::of_words(alloc, words),
        Wanted::Order => Plan::of_merge_words(alloc, words),
    }
}

/// Reads the source.
fn read_rows<S: Source, W: Reading>(
    alloc: Global,
    plan: &Plan,
    source: &mut S,
    reading: &W,
) -> Result<RowStore, Stop>
    requires { W.asks }
    ensures records { IfOk result (λ rows. IfSome (S.left source.old) (λ bytes. AreRecordsOf rows bytes)) }
    ensures some { IfOk result (λ rows. (0 < length rows) × (length rows ≤ MOST_RECORDS)) }
    ensures why { IfErr result (λ why. IsExplained (Some plan.now.plan) (S.left source.old) why) }
    ensures read_fault { IfErr result (λ why. why ≡ stop.ReadFault → Rose (S.faults source.old) (S.faults source.new)) }
    ensures early { IfErr result (λ why. IsEarly why) }
{
    let bytes = read_all(alloc, source)?;
    Ok(reading.rows(alloc, bytes.as_slice(), plan.workers())?)
}

/// The plan over the columns of the records.
fn bind(alloc: Global, plan: &Plan, rows: &RowStore) -> Result<BoundPlan, Stop>
    requires some { 0 < length rows.now }
    requires few { length rows.now ≤ MOST_RECORDS }
    ensures bound { IfOk result (λ bound. bound ≡ bound_plan (record_at rows.now 0) plan.now.plan) }
    ensures columns { IfOk result (λ bound. HasColumns bound (header_width rows.now)) }
    ensures plain { IfOk result (λ bound. is_plain bound ≡ is_plain_named plan.now.plan) }
    ensures whole { OnOk result (missing_name (record_at rows.now 0) plan.now.plan ≡ None) }
    ensures why { IfErr result (λ why. Explains (Some plan.now.plan) why (by_records plan.now.plan rows.now)) }
    ensures no_fault { IfErr result (λ why. (why ≢ stop.ReadFault) × IsEarly why) }
{
    match plan.bind(rows) {
        Ok(bound) => Ok(bound),
        Err(missing) => {
            let name = String::from_str(alloc, plan.name(missing.at))?;
            Err(Stop::NoColumn(name))
        }
    }
}
