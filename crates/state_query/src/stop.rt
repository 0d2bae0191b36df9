//! Why nothing is written: its status and its line.

ghost use Rattle.std.specs.Prelude.{◌≡◌, ◌++◌, ℕ, List, codes, map};
ghost use Rattle.std.specs.List.{concat};
ghost use Rattle.answer_text.specs.Lines.{IsSaid};
ghost use Rattle.state_combine.specs.Combined.{IsNotCombined, IsTooLong};
ghost use Rattle.state_combine.specs.declared.combining.CombineFault.TheVariants as fault;
ghost use Rattle.state_cover.specs.Faults.{IsNoCover};
ghost use Rattle.state_finalize.specs.Finished.{IsNotFinished};
ghost use Rattle.state_load.specs.Loading.{stretches_of};
ghost use Rattle.state_query.specs.Inputs.{HasRefusedRow, Input, IsInput, groups_in};
ghost use Rattle.state_query.specs.Stops.{line, stop_says};
ghost use Rattle.state_query.specs.Whys.{IsNoInput, IsNoSource, IsReadStop, IsStopOf, NamesNoPlan};
ghost use Rattle.state_query.specs.declared.stop.Stop.TheVariants as stop;
ghost use Rattle.state_source.specs.declared.adding.SourceFault.TheVariants as source_fault;
ghost use Rattle.state_writer.specs.declared.writer.WriteError.TheVariants as variant;

use answer_text::{MISUSED, NO_MEMORY, READ_FAULT, REFUSED, TOO_LARGE, WRITE_FAULT, write_pieces};
use par_io::{Failed, Sink};
use par_model::Refusal;
use plan_spec::Plan;
use state_body::BodyFault;
use state_combine::CombineFault;
use state_cover::{CoverFault, Missing};
use state_finalize::FinishFault;
use state_front::FrontFault;
use state_load::{LoadCause, LoadFault};
use state_plan::PlanFault;
use state_source::SourceFault;
use state_text::{cause_pieces, cover_pieces, gap_pieces};
use state_total::{FirstRefused, TotalFault};
use state_whole::{FileFault, GroupFault};
use state_writer::WriteError;
use std::alloc::{AllocError, Global};
use table_query::refusal_text;

/// All was written.
pub const WRITTEN: u8 = 0;

/// The input is no files of partial states that go together.
pub const BAD_STATES: u8 = 8;

/// Bytes of a source are in none of the files.
pub const MISSING: u8 = 9;

/// Why nothing is written. A refused row has its number in its source, and what the line says of it.
#[derive(Debug, Drop)]
pub enum Stop {
    ReadFault,
    Load(LoadFault),
    NoPlan,
    Cover(CoverFault),
    Missing(Missing),
    Rows,
    Refused(u32, u64, String),
    Long,
    WriteFault,
    Memory,
    NoKey,
}

impl From<Failed> for Stop {
    ghost from_gives = { λ _ why. why ≡ stop.WriteFault };

    fn from(_error: Failed) -> Stop {
        Stop::WriteFault
    }
}

impl Stop {
    /// The reason for a file that is not taken.
    pub(crate) fn of_load(fault: LoadFault) -> Stop
        ensures why { (bytes : List ℕ) → IsNoInput bytes fault → IsStopOf bytes result }
        ensures unread { (result ≡ stop.ReadFault) → ⊥ }
    {
        if is_memory(fault.why) {
            return Stop::Memory;
        }
        Stop::Load(fault)
    }

    /// The reason for a source whose files are not added.
    pub(crate) fn of_source(why: SourceFault) -> Stop
        ensures why { (bytes : List ℕ) → IsNoSource bytes why → IsReadStop bytes result }
        ensures read_fault { result ≡ stop.ReadFault → why ≡ source_fault.ReadFault }
    {
        match why {
            SourceFault::ReadFault => Stop::ReadFault,
            SourceFault::Memory => Stop::Memory,
            SourceFault::Load { fault } => Stop::of_load(fault),
        }
    }

    /// The reason for a head that has no plan.
    pub(crate) fn of_plan(why: PlanFault) -> Stop
        ensures { (bytes : List ℕ) → NamesNoPlan bytes why → IsStopOf bytes result }
    {
        match why {
            PlanFault::Memory => Stop::Memory,
            _ => Stop::NoPlan,
        }
    }

    /// The reason for files that are not written as one.
    pub(crate) fn of_combine(why: CombineFault) -> Stop
        ensures { (bytes : List ℕ) (i : Input) → IsInput bytes i → IsNotCombined (stretches_of i.files) why
            → (why ≡ fault.Write variant.Long → IsTooLong i.shape i.subject i.keys (groups_in i) (stretches_of i.files)) → IsStopOf bytes result }
    {
        match why {
            CombineFault::Cover { why } => of_cover(why),
            CombineFault::Write { why } => match why {
                WriteError::Memory => Stop::Memory,
                WriteError::Long => Stop::Long,
            },
        }
    }

    /// The reason for files that come to nothing.
    pub(crate) fn of_finish(why: FinishFault) -> Stop
        ensures { (bytes : List ℕ) (i : Input) → IsInput bytes i → IsNotFinished i.subject.sources (groups_in i) (stretches_of i.files) why → IsStopOf bytes result }
    {
        match why {
            FinishFault::Memory => Stop::Memory,
            FinishFault::Total { why } => match why {
                TotalFault::Cover { why } => of_cover(why),
                TotalFault::Missing { gap } => Stop::Missing(gap),
            },
            FinishFault::Rows => Stop::Rows,
        }
    }

    /// The reason for a refused row.
    pub(crate) fn of_row(alloc: Global, plan: &Plan, row: FirstRefused) -> Stop
        ensures { (bytes : List ℕ) (i : Input) → IsInput bytes i → i.query ≡ plan.now → HasRefusedRow i row → IsStopOf bytes result }
    {
        let why = Refusal {
            cause: row.why.cause,
            item: row.why.item,
        };
        match refusal_text(alloc, plan, why) {
            Ok(said) => Stop::Refused(row.source, row.why.row, said),
            Err(AllocError) => Stop::Memory,
        }
    }

    /// The exit status.
    fn status(&self) -> u8
        ensures { result ≡ (stop_says self.now).0 }
    {
        match self {
            Stop::ReadFault => READ_FAULT,
            Stop::Load(_) | Stop::NoPlan | Stop::Cover(_) | Stop::Rows => BAD_STATES,
            Stop::Missing(_) => MISSING,
            Stop::Refused(_, _, _) => REFUSED,
            Stop::Long => TOO_LARGE,
            Stop::WriteFault => WRITE_FAULT,
            Stop::Memory => NO_MEMORY,
            Stop::NoKey => MISUSED,
        }
    }

    /// The pieces of its line. Each number has digits of its own.
    fn pieces<'a>(
        &'a self,
        one: &'a mut itoa::Buffer,
        other: &'a mut itoa::Buffer,
        third: &'a mut itoa::Buffer,
    ) -> [&'a str; 9]
        ensures { concat (map (λ piece. piece.now) result) ≡ line (stop_says self.now).1 }
    {
        match self {
            Stop::ReadFault => plain("read fault"),
            Stop::Load(fault) => of_file(one.format(fault.file), cause_pieces(fault.why, other)),
            Stop::NoPlan => of_file(one.format(1u64), ["no right head", "", ""]),
            Stop::Cover(why) => of_five(cover_pieces(*why, one, other)),
            Stop::Missing(gap) => of_seven(gap_pieces(*gap, one, other, third)),
            Stop::Rows => plain("a group has too many rows"),
            Stop::Refused(source, row, said) => {
                let source = one.format(*source);
                of_row(source, other.format(*row), said.as_str())
            }
            Stop::Long => plain("too long for a file of states"),
            Stop::WriteFault => plain("write fault"),
            Stop::Memory => plain("out of memory"),
            Stop::NoKey => {
                plain("--above and --below take a record of the columns that the plan groups by")
            }
        }
    }

    /// Writes the line, and gives the status.
    pub(crate) fn end<E: Sink>(&self, err: &mut E) -> u8
        ensures said { IsSaid (E.taken err.old) (E.taken err.new) (E.faults err.old) (E.faults err.new) (line (stop_says self.now).1) }
        ensures status { result ≡ (stop_says self.now).0 }
    {
        let mut one = itoa::Buffer::new();
        let mut other = itoa::Buffer::new();
        let mut third = itoa::Buffer::new();
        let _ = write_pieces(err, &self.pieces(&mut one, &mut other, &mut third));
        self.status()
    }
}

/// Whether memory ran out for a file.
fn is_memory(why: LoadCause) -> bool {
    match why {
        LoadCause::Front { why } => matches!(why, FrontFault::Memory),
        LoadCause::Other { .. } => false,
        LoadCause::File { why } => is_out(why),
    }
}

/// Whether memory ran out for what comes after a head.
fn is_out(why: FileFault) -> bool {
    match why {
        FileFault::Memory => true,
        FileFault::Body { why } => matches!(why, BodyFault::Memory),
        FileFault::Group { why } => matches!(why, GroupFault::Memory),
        FileFault::Refused | FileFault::Rows => false,
    }
}

/// The reason for stretches that are no cover.
fn of_cover(why: CoverFault) -> Stop
    ensures { (bytes : List ℕ) (i : Input) → IsInput bytes i → IsNoCover (stretches_of i.files) why → IsStopOf bytes result }
{
    match why {
        CoverFault::Memory => Stop::Memory,
        CoverFault::Twice { .. }
        | CoverFault::Size { .. }
        | CoverFault::Rows { .. }
        | CoverFault::Many => Stop::Cover(why),
    }
}

/// The pieces of a line that is a text.
fn plain<'a>(text: &'a str) -> [&'a str; 9]
    ensures { concat (map (λ piece. piece.now) result) ≡ line text.now }
{
    ["parstream: ", text, "", "", "", "", "", "", "\n"]
}

/// The pieces of a line of a file by its number.
fn of_file<'a>(number: &'a str, said: [&'a str; 3]) -> [&'a str; 9]
    ensures { concat (map (λ piece. piece.now) result) ≡ line (codes "file " ++ (number.now ++ (codes ": " ++ concat (map (λ piece. piece.now) said.entry)))) }
{
    [
        "parstream: ",
        "file ",
        number,
        ": ",
        said[0],
        said[1],
        said[2],
        "",
        "\n",
    ]
}

/// The pieces of a line of a row of a source.
fn of_row<'a>(source: &'a str, row: &'a str, said: &'a str) -> [&'a str; 9]
    ensures { concat (map (λ piece. piece.now) result) ≡ line (codes "source " ++ (source.now ++ (codes " row " ++ (row.now ++ (codes ": " ++ said.now))))) }
{
    [
        "parstream: ",
        "source ",
        source,
        " row ",
        row,
        ": ",
        said,
        "",
        "\n",
    ]
}

/// The pieces of a line that is a text of five pieces.
fn of_five<'a>(said: [&'a str; 5]) -> [&'a str; 9]
    ensures { concat (map (λ piece. piece.now) result) ≡ line (concat (map (λ piece. piece.now) said.entry)) }
{
    [
        "parstream: ",
        said[0],
        said[1],
        said[2],
        said[3],
        said[4],
        "",
        "",
        "\n",
    ]
}

/// The pieces of a line that is a text of seven pieces.
fn of_seven<'a>(said: [&'a str; 7]) -> [&'a str; 9]
    ensures { concat (map (λ piece. piece.now) result) ≡ line (concat (map (λ piece. piece.now) said.entry)) }
{
    [
        "parstream: ",
        said[0],
        said[1],
        said[2],
        said[3],
        said[4],
        said[5],
        said[6],
        "\n",
    ]
}
