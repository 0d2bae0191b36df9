//! Runs of rows of groups that are there, each added to its group's state by the columns of the state's lanes.
//!
//! What a plan's rows need is asked once for a run: a layout that fits each row of the plan's items fits them until it
//! changes, and no row of a run changes it. So a run works on the parts of a list of states and leaves its layout. It
//! ends at the first row that is refused, has a key that is not there, or has a field that can't be read; that row is
//! left as it is.

ghost use Rattle.std.specs.Prelude.{◌≡◌, ◌<◌, ◌≤◌, ◌+◌, ◌*◌, ◌^◌, ◌∷◌, [], ℕ, Bool, List, All, IfErr, IsTrue, None, Ok, OnOk, drop, false, get_or, length, set, true};
ghost use Rattle.std.specs.Bool.{OnFalse, OnTrue};
ghost use Rattle.std.specs.List.{position_from};
ghost use Rattle.par_model.specs.Columns.{HasColumns, reads_column};
ghost use Rattle.par_model.specs.Refuse.{is_unreadable};
ghost use Rattle.partial_agg.specs.Blocks.{AddedFirst};
ghost use Rattle.partial_agg.specs.Cursor.{AddedSome, SomeRefused};
ghost use Rattle.partial_agg.specs.Fitting.{FitsItems};
ghost use Rattle.partial_agg.specs.Groups.{GroupsByKey, with_rows};
ghost use Rattle.partial_agg.specs.Items.{items_state};
ghost use Rattle.partial_agg.specs.Lanes.{states_in};
ghost use Rattle.partial_agg.specs.Placed.{IsGrouped, groups_at, places_of};
ghost use Rattle.partial_agg.specs.Rows.{IsAccepted, header_width};
ghost use Rattle.partial_agg.specs.State.{combined, empty_state};
ghost use Rattle.row_blocks.specs.Blocks.{block_rows};

use crate::ahead::NO_GUESS;
use crate::fields::{RowCursor, RowFields};
use crate::layout::Layout;
use crate::map::BlockAnswer;
use crate::row::{RowBuffer, RowStatus, read_some};
use crate::states::add_each;
use csv_rows::NearRows;
use key_index::{KeyTable, hash_of};
use par_model::{BoundPlan, Item, SlotState};
use row_blocks::BLOCK_ROWS;

/// Adds the rows of a block from a place on, and gives the place at which the run ends.
pub(crate) fn add_near(
    layout: &Layout,
    counts: &mut [u64],
    lanes: &mut [SlotState],
    keys: &KeyTable,
    buffer: &mut RowBuffer,
    rows: &NearRows<'_>,
    block: u64,
    from: u64,
    count: u64,
    width: u32,
    plan: &BoundPlan,
) -> u64
    requires order { from ≤ count }
    requires few { count ≤ 256 }
    requires rows { 256 * block + 1 + count ≤ length rows.now }
    requires fits { 256 * block + 1 + count < 2 ^ 64 }
    requires width { width ≡ header_width rows.now }
    requires columns { HasColumns plan.now width }
    requires layout { FitsItems layout.now plan.now.items }
    requires whole { length lanes.old ≡ length counts.old * layout.now.width }
    ensures from { from ≤ result }
    ensures within { result ≤ count }
    ensures counts { length counts.new ≡ length counts.old }
    ensures lanes { length lanes.new ≡ length lanes.old }
    ensures added { (left : List ℕ) (sorted : Bool) (start : GroupsByKey) → IsGrouped keys.now (length counts.old) left true sorted
        → AddedFirst plan.now rows.now block from start (groups_at (places_of keys.now left) (states_in layout.now counts.old lanes.old))
        → AddedFirst plan.now rows.now block result start (groups_at (places_of keys.now left) (states_in layout.now counts.new lanes.new)) }
{
    let mut at = from;
    'rows: while at < count {
        let row = rows.find(BLOCK_ROWS * block + 1 + at);
        if !add_known(layout, counts, lanes, keys, buffer, &row, width, plan) {
            return at;
        }
        at += 1;
    }
    at
}

/// Adds the rows that a cursor has left, and counts them. Returns whether the run ended at a row, which is the cursor's.
pub(crate) fn add_next<C: RowCursor>(
    layout: &Layout,
    counts: &mut [u64],
    lanes: &mut [SlotState],
    keys: &KeyTable,
    buffer: &mut RowBuffer,
    cursor: &mut C,
    count: &mut u64,
    width: u32,
    plan: &BoundPlan,
) -> Result<bool, BlockAnswer>
    requires widest { width ≤ C.widest }
    requires few { count.old + length (C.left cursor.old) < 2 ^ 64 }
    requires columns { HasColumns plan.now width }
    requires layout { FitsItems layout.now plan.now.items }
    requires whole { length lanes.old ≡ length counts.old * layout.now.width }
    ensures counts { length counts.new ≡ length counts.old }
    ensures lanes { length lanes.new ≡ length lanes.old }
    ensures rises { count.old ≤ count.new }
    ensures few { result ≡ Ok true → count.new + (1 + length (C.left cursor.new)) ≡ count.old + length (C.left cursor.old) }
    ensures stopped { result ≡ Ok true → (left : List ℕ) (sorted : Bool) (start : GroupsByKey) (all : List (List (List ℕ))) → IsGrouped keys.now (length counts.old) left true sorted
        → AddedSome plan.now width all count.old (C.left cursor.old) start (groups_at (places_of keys.now left) (states_in layout.now counts.old lanes.old))
        → AddedSome plan.now width all count.new (C.fields cursor.new ∷ C.left cursor.new) start (groups_at (places_of keys.now left) (states_in layout.now counts.new lanes.new)) }
    ensures ended { result ≡ Ok false → (left : List ℕ) (sorted : Bool) (start : GroupsByKey) (all : List (List (List ℕ))) → IsGrouped keys.now (length counts.old) left true sorted
        → AddedSome plan.now width all count.old (C.left cursor.old) start (groups_at (places_of keys.now left) (states_in layout.now counts.old lanes.old))
        → AddedSome plan.now width all count.new [] start (groups_at (places_of keys.now left) (states_in layout.now counts.new lanes.new)) }
    ensures refused { IfErr result (λ why. (all : List (List (List ℕ))) → C.left cursor.old ≡ drop count.old all → SomeRefused plan.now width all why) }
{
    'rows: while cursor.next_row(width)? {
        if !add_known(layout, counts, lanes, keys, buffer, cursor, width, plan) {
            return Ok(true);
        }
        *count += 1;
    }
    Ok(false)
}

/// Adds a row to its group's state, unless the run ends at it; then nothing is changed but the buffer.
#[inline(always)]
fn add_known<F: RowFields>(
    layout: &Layout,
    counts: &mut [u64],
    lanes: &mut [SlotState],
    keys: &KeyTable,
    buffer: &mut RowBuffer,
    row: &F,
    width: u32,
    plan: &BoundPlan,
) -> bool
    requires columns { HasColumns plan.now width }
    requires layout { FitsItems layout.now plan.now.items }
    requires whole { length lanes.old ≡ length counts.old * layout.now.width }
    ensures counts { length counts.new ≡ length counts.old }
    ensures lanes { length lanes.new ≡ length lanes.old }
    ensures accepted { OnTrue result (IsAccepted plan.now width (F.fields row.now)) }
    ensures added { OnTrue result ((left : List ℕ) (sorted : Bool) → IsGrouped keys.now (length counts.old) left true sorted
        → groups_at (places_of keys.now left) (states_in layout.now counts.new lanes.new) ≡ with_rows plan.now (groups_at (places_of keys.now left) (states_in layout.now counts.old lanes.old)) (F.fields row.now ∷ [])) }
    ensures unchanged { OnFalse result ((counts.new ≡ counts.old) × (lanes.new ≡ lanes.old)) }
{
    match buffer.read_key(row, width, plan) {
        RowStatus::Refused(_) => false,
        RowStatus::LeftOut => true,
        RowStatus::Kept => {
            let key = buffer.key.bytes();
            match keys.find_hashed(hash_of(key), NO_GUESS, key) {
                Some(place) if place < counts.len() => {
                    let values = &mut buffer.values;
                    add_by_lanes(layout, counts, lanes, place, values, row, plan.items())
                }
                _ => false,
            }
        }
    }
}

/// Adds a row of these items to the state at a place, if each of them can read its field; returns whether it did. Only
/// the columns of the lanes are read.
#[inline(always)]
pub(crate) fn add_by_lanes<F: RowFields>(
    layout: &Layout,
    counts: &mut [u64],
    lanes: &mut [SlotState],
    at: usize,
    values: &mut [Option<i64>; 8],
    row: &F,
    items: &[Item],
) -> bool
    requires place { at < length counts.old }
    requires layout { FitsItems layout.now items.now }
    requires whole { length lanes.old ≡ length counts.old * layout.now.width }
    requires columns { All (λ item. IsTrue (reads_column item.kind) → item.column < length (F.fields row.now)) items.now }
    ensures counts { length counts.new ≡ length counts.old }
    ensures lanes { length lanes.new ≡ length lanes.old }
    ensures added { OnTrue result (states_in layout.now counts.new lanes.new ≡ set (states_in layout.now counts.old lanes.old) at (combined (get_or (states_in layout.now counts.old lanes.old) at empty_state) (items_state (F.fields row.now) items.now))) }
    ensures readable { OnTrue result (position_from (is_unreadable (F.fields row.now)) 0 items.now ≡ None) }
    ensures unchanged { OnFalse result ((counts.new ≡ counts.old) × (lanes.new ≡ lanes.old)) }
{
    if !read_some(values, row, items, layout.kept()) {
        return false;
    }
    let width = layout.width();
    add_each(lanes, at * width, &values[..width]);
    counts[at] = counts[at].wrapping_add(1);
    true
}
