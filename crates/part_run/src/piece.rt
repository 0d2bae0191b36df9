//! The rows of one piece, put into the lists of their parts as they are found or from a store.

ghost use Rattle.std.specs.Prelude.{◌≡◌, ◌∷◌, [], All, IfErr, IfOk, OnOk, drop, length, take, true};
ghost use Rattle.csv_rows.specs.Readings.{is_plain};
ghost use Rattle.par_model.specs.Columns.{HasColumns};
ghost use Rattle.partial_agg.specs.Blocks.{ExplainsRow};
ghost use Rattle.partial_agg.specs.Reading.{key_in, values_in};
ghost use Rattle.partial_agg.specs.Rows.{IsAccepted, header_width};
ghost use Rattle.row_lists.specs.Carried.{carried};
ghost use Rattle.row_lists.specs.Parts.{with_row};
ghost use Rattle.split_run.specs.Causes.{IsCause};
ghost use Rattle.split_run.specs.Pieces.{piece_records, piece_rows};
ghost use Rattle.part_run.specs.Carrying.{spread};

use crate::found::spread_found;
use csv_rows::{Record, RowStore, rows_as};
use par_model::BoundPlan;
use partial_agg::{BlockAnswer, RowBuffer, RowFields, RowStatus};
use row_lists::PartLists;
use row_windows::Window;
use std::alloc::{AllocError, Global};

/// Reads the rows of a piece, puts them into lists, and gives their number.
pub(crate) fn spread_piece(
    alloc: Global,
    piece: &Window,
    plan: &BoundPlan,
    lists: &mut PartLists,
) -> Result<u64, BlockAnswer>
    requires columns { HasColumns plan.now (header_width (piece_records piece.now)) }
    ensures spread { OnOk result (lists.new ≡ spread plan.now lists.old (piece_rows piece.now)) }
    ensures accepted { OnOk result (All (IsAccepted plan.now (header_width (piece_records piece.now))) (piece_rows piece.now)) }
    ensures count { IfOk result (λ count. count ≡ length (piece_rows piece.now)) }
    ensures refused { IfErr result (IsCause plan.now (piece_records piece.now)) }
{
    if is_found(piece) {
        match spread_found(alloc, piece.table(), plan, lists) {
            Ok(Some(count)) => return Ok(count),
            Ok(None) => {}
            Err(why) => return Err(why),
        }
    }
    spread_stored(alloc, piece, plan, lists)
}

/// Whether the rows of a piece are put into lists as they are found: if their fields are read as they are written.
fn is_found(piece: &Window) -> bool
    ensures { result ≡ true → is_plain piece.now.reading ≡ true }
{
    piece.reading().is_plain()
}

/// Reads the rows of a piece into a store, puts them into lists, and gives their number.
fn spread_stored(
    alloc: Global,
    piece: &Window,
    plan: &BoundPlan,
    lists: &mut PartLists,
) -> Result<u64, BlockAnswer>
    requires columns { HasColumns plan.now (header_width (piece_records piece.now)) }
    ensures spread { OnOk result (lists.new ≡ spread plan.now lists.old (piece_rows piece.now)) }
    ensures accepted { OnOk result (All (IsAccepted plan.now (header_width (piece_records piece.now))) (piece_rows piece.now)) }
    ensures count { IfOk result (λ count. count ≡ length (piece_rows piece.now)) }
    ensures refused { IfErr result (IsCause plan.now (piece_records piece.now)) }
{
    let Ok(store) = rows_as(alloc, piece.reading(), piece.table()) else {
        return Err(BlockAnswer::Memory);
    };
    match spread_store(&store, plan, lists) {
        Ok(()) => Ok(store.count()),
        Err(why) => Err(why),
    }
}

/// Puts the rows of a store into lists, but for those that the filters leave out.
fn spread_store(rows: &RowStore, plan: &BoundPlan, lists: &mut PartLists) -> Result<(), BlockAnswer>
    requires columns { HasColumns plan.now (header_width rows.now) }
    ensures spread { OnOk result (lists.new ≡ spread plan.now lists.old (drop 1 rows.now)) }
    ensures accepted { OnOk result (All (IsAccepted plan.now (header_width rows.now)) (drop 1 rows.now)) }
    ensures refused { IfErr result (IsCause plan.now rows.now) }
{
    let count = rows.count();
    let near = rows.near(0);
    let width = rows.width(0);
    let mut buffer = RowBuffer::new();
    for before in 0..count {
        let number = before + 1;
        match spread_row(&mut buffer, number, &near.find(number), width, plan, lists) {
            Ok(()) => {}
            Err(why) => return Err(why),
        }
    }
    Ok(())
}

/// Puts a row into a list, if it is kept. A refusal names the row by this number.
#[inline(always)]
pub(crate) fn spread_row<F: RowFields>(
    buffer: &mut RowBuffer,
    number: u64,
    row: &F,
    width: u32,
    plan: &BoundPlan,
    lists: &mut PartLists,
) -> Result<(), BlockAnswer>
    requires columns { HasColumns plan.now width }
    ensures spread { OnOk result (lists.new ≡ spread plan.now lists.old (F.fields row.now ∷ [])) }
    ensures accepted { OnOk result (IsAccepted plan.now width (F.fields row.now)) }
    ensures stopped { IfErr result (ExplainsRow plan.now width (F.fields row.now) number) }
{
    match buffer.read(row, width, plan) {
        RowStatus::Refused(refusal) => Err(BlockAnswer::Row {
            row: number,
            cause: refusal.cause,
            item: refusal.item,
        }),
        RowStatus::LeftOut => Ok(()),
        RowStatus::Kept => match push_read(buffer, plan, lists) {
            Ok(()) => Ok(()),
            Err(AllocError) => Err(BlockAnswer::Memory),
        },
    }
}

/// Puts the row that was read into the list of its part.
#[inline(always)]
fn push_read(buffer: &RowBuffer, plan: &BoundPlan, lists: &mut PartLists) -> Result<(), AllocError>
    ensures { OnOk result (lists.new ≡ with_row lists.old (carried (key_in buffer.now) (take (length plan.now.items) (values_in buffer.now)))) }
{
    lists.push(buffer.key(), buffer.values(plan.items().len()))
}
