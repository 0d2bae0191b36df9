//! The plan of a head, and what the tuples of its file are of.

ghost use Rattle.std.specs.Prelude.{◌≡◌, IfErr, IfOk, length, map};
ghost use Rattle.csv_rows.specs.Readings.{exchanged, records_as, records_in};
ghost use Rattle.state_head.specs.Head.{Subject, subject_of};
ghost use Rattle.state_head.specs.Words.{words_of};
ghost use Rattle.state_plan.specs.FilePlans.{AskFor, HasNoPlan, HaveNoPlan, IsNoHeader, IsPlanOf};
ghost use Rattle.state_plan.specs.declared.file_plan.PlanFault.TheVariants as fault;
ghost use Rattle.state_whole.specs.Adding.{IsShape, IsShapeOf};

use crate::plan::plan_of;
use csv_rows::{Reading, RowStore, RowsAnswer, exchange, rows_as};
use par_model::BoundPlan;
use plan_spec::Plan;
use state_head::{PlanWords, Whole};
use state_lanes::{Lane, kinds_of, lanes_of};
use state_whole::Shape;
use std::alloc::{AllocError, Global};

/// Why a head has no plan: memory ran out; its words are no words of one; its header is not one record; the header lacks a column.
#[derive(Clone, Copy, Debug, PartialEq, Eq)]
pub enum PlanFault {
    Memory,
    Words,
    Header,
    Column,
}

impl From<AllocError> for PlanFault {
    ghost from_gives = { λ _ e. e ≡ fault.Memory };

    fn from(_error: AllocError) -> PlanFault {
        PlanFault::Memory
    }
}

/// A plan, the same over the columns of a header, the lanes of its aggregates, and which of these have numbers.
#[derive(Drop)]
pub struct FilePlan {
    pub plan: Plan,
    pub bound: BoundPlan,
    pub lanes: Vec<Lane>,
    pub kinds: Vec<bool>,
}

impl FilePlan {
    /// The plan that a head names. It takes memory for the header's record and the plan's names.
    pub fn of_whole(alloc: Global, whole: Whole<'_>) -> Result<FilePlan, PlanFault>
        ensures plan { IfOk result (IsPlanOf (subject_of whole.entry)) }

        // When each error comes.
        ensures refused { IfErr result (HasNoPlan (subject_of whole.entry)) }
    {
        let plan = plan_in(alloc, whole.words)?;
        let header = header_of(alloc, &plan, whole.header)?;
        let Ok(bound) = plan.bind(&header) else {
            return Err(PlanFault::Column);
        };
        let lanes = lanes_of(alloc, bound.items())?;
        let kinds = kinds_of(alloc, lanes.as_slice())?;
        Ok(FilePlan {
            plan,
            bound,
            lanes,
            kinds,
        })
    }

    /// What the tuples of a file of this plan are of.
    pub fn shape(&self) -> Shape<'_>
        ensures of_plan { (s : Subject) → IsPlanOf s self.now → IsShapeOf self.now.bound result }
        ensures fits { (s : Subject) → IsPlanOf s self.now → IsShape result }
    {
        Shape {
            columns: self.bound.group_columns().len() as u32,
            lanes: self.lanes.as_slice(),
            kinds: self.kinds.as_slice(),
            items: self.bound.items(),
        }
    }
}

/// The plan of some words.
fn plan_in(alloc: Global, words: PlanWords<'_>) -> Result<Plan, PlanFault>
    ensures plan { IfOk result (AskFor (words_of words.entry)) }
    ensures refused { IfErr result (HaveNoPlan (words_of words.entry)) }
{
    match plan_of(alloc, words)? {
        Some(plan) => Ok(plan),
        None => Err(PlanFault::Words),
    }
}

/// The record that some bytes are, as a plan reads them, if they are one. It takes memory for the bytes and the record.
pub fn header_of(alloc: Global, plan: &Plan, bytes: &[u8]) -> Result<RowStore, PlanFault>
    ensures one { IfOk result (λ header. (header ≡ records_in plan.now.reading bytes.now) × (length header ≡ 1)) }
    ensures refused { IfErr result (IsNoHeader (records_in plan.now.reading bytes.now)) }
{
    let reading = plan.reading();
    let text = comma_text(alloc, bytes, reading.separator)?;
    one_record(alloc, reading, text.as_slice())
}

/// Some bytes, of which the comma and the separator are exchanged.
fn comma_text(alloc: Global, bytes: &[u8], separator: u8) -> Result<Vec<u8>, AllocError>
    ensures { IfOk result (λ text. text.items ≡ map (exchanged separator) bytes.now) }
{
    let mut text = Vec::from_slice(alloc, bytes)?;
    exchange(text.as_mut_slice(), separator);
    Ok(text)
}

/// The record that a text with commas is, if it is one.
fn one_record(alloc: Global, reading: &Reading, text: &[u8]) -> Result<RowStore, PlanFault>
    ensures one { IfOk result (λ header. (header ≡ records_as reading.now text.now) × (length header ≡ 1)) }
    ensures refused { IfErr result (IsNoHeader (records_as reading.now text.now)) }
{
    match rows_as(alloc, reading, text) {
        Ok(header) => {
            if header.count() == 0 {
                Ok(header)
            } else {
                Err(PlanFault::Header)
            }
        }
        Err(RowsAnswer::NoHeader | RowsAnswer::TooManyRows) => Err(PlanFault::Header),
        Err(RowsAnswer::Memory) => Err(PlanFault::Memory),
    }
}
