//! The rows of one piece, added to a map as they are found or from a store.

ghost use Rattle.std.specs.Prelude.{◌≡◌, All, IfErr, IfOk, OnOk, drop, length, true};
ghost use Rattle.csv_rows.specs.Readings.{is_plain};
ghost use Rattle.par_model.specs.Columns.{HasColumns};
ghost use Rattle.partial_agg.specs.Groups.{with_rows};
ghost use Rattle.partial_agg.specs.Rows.{IsAccepted, header_width};
ghost use Rattle.split_run.specs.Causes.{IsCause};
ghost use Rattle.split_run.specs.Pieces.{piece_records, piece_rows};

use crate::found::add_found;
use csv_rows::{RowStore, rows_as};
use memchr::memchr;
use par_model::BoundPlan;
use partial_agg::{BlockAnswer, GroupMap};
use row_blocks::count_blocks;
use row_windows::Window;
use std::alloc::Global;

/// From this many groups on, a map looks for the rows of a block together, which takes a store.
const MOST_NEAR_GROUPS: usize = 8192;

/// A header with fewer commas than this is of narrow rows.
const MOST_NARROW: u32 = 8;

/// Reads the rows of a piece, adds them to a map, and gives their number.
pub(crate) fn add_piece(
    alloc: Global,
    piece: &Window,
    plan: &BoundPlan,
    groups: &mut GroupMap,
) -> Result<u64, BlockAnswer>
    requires columns { HasColumns plan.now (header_width (piece_records piece.now)) }
    ensures added { OnOk result (groups.new ≡ with_rows plan.now groups.old (piece_rows piece.now)) }
    ensures accepted { OnOk result (All (IsAccepted plan.now (header_width (piece_records piece.now))) (piece_rows piece.now)) }
    ensures count { IfOk result (λ count. count ≡ length (piece_rows piece.now)) }
    ensures refused { IfErr result (IsCause plan.now (piece_records piece.now)) }
{
    if is_found(piece, groups) {
        match add_found(alloc, piece.table(), plan, groups) {
            Ok(Some(count)) => return Ok(count),
            Ok(None) => {}
            Err(why) => return Err(why),
        }
    }
    add_stored(alloc, piece, plan, groups)
}

/// Whether the rows of a piece are added as they are found: if the groups are so few that looking for one does not wait
/// for far memory, and the rows have few fields, or quotes. A store finds the fields of wide rows faster, but is slow to
/// fill if there are quotes.
fn is_found(piece: &Window, groups: &GroupMap) -> bool
    ensures { result ≡ true → is_plain piece.now.reading ≡ true }
{
    piece.reading().is_plain()
        && groups.len() < MOST_NEAR_GROUPS
        && (is_narrow(piece.header()) || memchr(b'"', piece.table()).is_some())
}

/// Whether a header has few columns, as far as its commas tell.
fn is_narrow(header: &[u8]) -> bool {
    let mut commas = 0u32;
    for byte in header.iter() {
        if *byte == b',' {
            commas = commas.saturating_add(1);
        }
    }
    commas < MOST_NARROW
}

/// Reads the rows of a piece into a store, adds them to a map, and gives their number.
fn add_stored(
    alloc: Global,
    piece: &Window,
    plan: &BoundPlan,
    groups: &mut GroupMap,
) -> Result<u64, BlockAnswer>
    requires columns { HasColumns plan.now (header_width (piece_records piece.now)) }
    ensures added { OnOk result (groups.new ≡ with_rows plan.now groups.old (piece_rows piece.now)) }
    ensures accepted { OnOk result (All (IsAccepted plan.now (header_width (piece_records piece.now))) (piece_rows piece.now)) }
    ensures count { IfOk result (λ count. count ≡ length (piece_rows piece.now)) }
    ensures refused { IfErr result (IsCause plan.now (piece_records piece.now)) }
{
    let Ok(store) = rows_as(alloc, piece.reading(), piece.table()) else {
        return Err(BlockAnswer::Memory);
    };
    match add_store(&store, plan, groups) {
        Ok(()) => Ok(store.count()),
        Err(why) => Err(why),
    }
}

/// Adds the rows of a store to a map, block by block.
fn add_store(rows: &RowStore, plan: &BoundPlan, groups: &mut GroupMap) -> Result<(), BlockAnswer>
    requires columns { HasColumns plan.now (header_width rows.now) }
    ensures added { OnOk result (groups.new ≡ with_rows plan.now groups.old (drop 1 rows.now)) }
    ensures accepted { OnOk result (All (IsAccepted plan.now (header_width rows.now)) (drop 1 rows.now)) }
    ensures refused { IfErr result (IsCause plan.now rows.now) }
{
    for block in 0..count_blocks(rows) {
        match groups.add_block(rows, plan, block) {
            Ok(()) => {}
            Err(why) => return Err(why),
        }
    }
    Ok(())
}
