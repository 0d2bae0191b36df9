//! What the records of a window say of a plan: its columns, and the row that is refused.

ghost use Rattle.std.specs.Prelude.{◌≡◌, ◌<◌, ◌≤◌, ◌+◌, ◌^◌, ◌⊎◌, [], All, IfErr, IfOk, None, OnOk, length, slice_index_or, string_bytes};
ghost use Rattle.csv_rows.specs.Records.{record_at};
ghost use Rattle.par_model.specs.Named.{names_of};
ghost use Rattle.shown_text.specs.Header.{missing_text};
ghost use Rattle.par_model.specs.Columns.{HasColumns};
ghost use Rattle.stream_groups.specs.Begins.{IsLined, feeds_of, piece_at};
ghost use Rattle.stream_groups.specs.Reading.{IsBound};
ghost use Rattle.stream_groups.specs.Stops.{IsHeaderLine, IsRefusedRow, Restates, SaysOfHeader, SaysOfRow};
ghost use Rattle.stream_groups.specs.Twice.{SaysTwice, twice_of};
ghost use Rattle.stream_groups.specs.declared.stop.Stop.TheVariants as stop;

use crate::filling::header_line;
use crate::place::place_in_lines;
use crate::refused::{find_row, row_says};
use crate::stop::{RefusedRow, Stop};
use crate::twice::{find_twice, twice_text};
use csv_rows::{Record, RowStore};
use par_model::{BoundPlan, Refusal};
use partial_agg::BlockAnswer;
use plan_spec::Plan;
use row_windows::Window;
use shown_text::missing_text;
use std::alloc::{AllocError, Global};

/// The plan over the columns of the records.
pub fn bind(alloc: Global, plan: &Plan, store: &RowStore) -> Result<BoundPlan, Stop>
    requires { length store.now ≡ 1 }
    ensures bound { IfOk result (IsBound plan.now (record_at store.now 0)) }
    ensures why { IfErr result (SaysOfHeader plan.now.plan (record_at store.now 0)) }
{
    match plan.bind(store) {
        Ok(bound) => {
            match bind_once(alloc, &bound, &store.find(0)) {
                Ok(()) => Ok(bound),
                Err(why) => Err(why),
            }
        }
        Err(missing) => {
            let said = says_missing(alloc, plan, missing.at, &store.find(0))?;
            Err(Stop::NoColumn(said))
        }
    }
}

/// The reason for an answer on the rows of some windows, before which there are this many rows and line feeds.
pub(crate) fn stop_of_block(
    alloc: Global,
    plan: &Plan,
    bound: &BoundPlan,
    pieces: &[Window],
    before: u64,
    feeds: u64,
    answer: BlockAnswer,
) -> Stop
    requires pieces { length pieces.now ≤ 64 }
    requires lines { All (IsLined plan.now.reading) pieces.now }
    requires few { feeds + feeds_of pieces.now ≤ 2 ^ 60 }
    ensures { Restates plan.now.reading plan.now.plan bound.now pieces.now before feeds answer result }
{
    match answer {
        BlockAnswer::Memory => Stop::Memory,
        BlockAnswer::Row { row, cause, item } => stop_of_row(
            alloc,
            plan,
            bound,
            pieces,
            before.saturating_add(row),
            row,
            feeds,
            Refusal { cause, item },
        ),
    }
}

/// An error if the header has a column of the plan twice.
fn bind_once(alloc: Global, bound: &BoundPlan, header: &Record<'_>) -> Result<(), Stop>
    requires { HasColumns bound.now (length header.now) }
    ensures once { OnOk result (twice_of bound.now header.now ≡ None) }
    ensures twice { IfErr result (λ why. (why ≡ stop.Memory) ⊎ ((said : _) × (why ≡ stop.TwiceColumn said) × SaysTwice bound.now header.now (string_bytes said))) }
{
    match find_twice(bound, header) {
        None => Ok(()),
        Some(twice) => {
            let said = twice_text(alloc, header, twice)?;
            Err(Stop::TwiceColumn(said))
        }
    }
}

/// What the line says of a name of the plan that the header lacks.
fn says_missing(
    alloc: Global,
    plan: &Plan,
    at: u32,
    header: &Record<'_>,
) -> Result<String, AllocError>
    requires { at < length (names_of plan.now.plan) }
    ensures { IfOk result (λ said. string_bytes said ≡ missing_text (slice_index_or (names_of plan.now.plan) at []) header.now) }
{
    missing_text(alloc, plan.name(at).as_bytes(), header)
}

/// The reason that the row of this number is refused, which is this row of some windows, or out of memory.
fn stop_of_row(
    alloc: Global,
    plan: &Plan,
    bound: &BoundPlan,
    pieces: &[Window],
    number: u64,
    row: u64,
    feeds: u64,
    why: Refusal,
) -> Stop
    requires pieces { length pieces.now ≤ 64 }
    requires lines { All (IsLined plan.now.reading) pieces.now }
    requires few { feeds + feeds_of pieces.now ≤ 2 ^ 60 }
    ensures { IsRefusedRow plan.now.reading plan.now.plan bound.now pieces.now number row feeds why result ⊎ (result ≡ stop.Memory) }
{
    match says_of_row(alloc, plan, bound, pieces, row, feeds, why) {
        Ok(said) => Stop::Refused(RefusedRow {
            row: number,
            line: said.line,
            why,
            header: said.header,
            said: said.text,
        }),
        Err(AllocError) => Stop::Memory,
    }
}

/// The line in which a row begins, the header's line, and what is said of the row.
#[derive(Drop)]
struct RowSaid {
    line: u64,
    header: Vec<u8>,
    text: String,
}

/// What the line says of a row of some windows that is refused. This many line feeds come before their lines.
fn says_of_row(
    alloc: Global,
    plan: &Plan,
    bound: &BoundPlan,
    pieces: &[Window],
    row: u64,
    feeds: u64,
    why: Refusal,
) -> Result<RowSaid, AllocError>
    requires pieces { length pieces.now ≤ 64 }
    requires lines { All (IsLined plan.now.reading) pieces.now }
    requires few { feeds + feeds_of pieces.now ≤ 2 ^ 60 }
    ensures says { IfOk result (λ said. SaysOfRow plan.now.plan bound.now pieces.now row feeds why said.line (string_bytes said.text)) }
    ensures header { IfOk result (λ said. IsHeaderLine plan.now.reading pieces.now said.header.items) }
{
    let found = find_row(alloc, pieces, row)?;
    let header = found.store.find(0);
    let fields = found.store.find(found.at);
    let mut text = row_says(alloc, plan, bound, &header, &fields, why)?;
    let lines = lines_at(pieces, found.piece);
    let count = found.store.count();
    let is_last = found.at == count;
    let feeds = feeds + found.feeds;
    let place = place_in_lines(alloc, lines, found.at - 1, is_last, feeds)?;
    text.push_str(place.quote.as_str())?;
    Ok(RowSaid {
        line: place.line,
        header: header_at(alloc, plan, pieces, found.piece)?,
        text,
    })
}

/// The header's line in the window of this number, as it is in the input.
fn header_at(
    alloc: Global,
    plan: &Plan,
    pieces: &[Window],
    at: usize,
) -> Result<Vec<u8>, AllocError>
    requires within { at < length pieces.now }
    requires lines { All (IsLined plan.now.reading) pieces.now }
    ensures { IfOk result (λ bytes. IsHeaderLine plan.now.reading pieces.now bytes.items) }
{
    header_line(alloc, plan, &pieces[at])
}

/// The lines of the window of this number.
fn lines_at(pieces: &[Window], at: usize) -> &[u8]
    requires { at < length pieces.now }
    ensures { result.now ≡ (piece_at pieces.now at).lines }
{
    pieces[at].lines()
}
