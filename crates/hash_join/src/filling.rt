//! What each participant of the first round does: it draws blocks of the left table and puts their rows into the shared
//! table, each under its key.
//!
//! One that lacks memory sets a flag, by which the others stop at their next block. No contract sees a plain atomic,
//! and none needs to: a participant that is told to stop lacks memory too, as far as its answer says.

ghost use Rattle.std.specs.Prelude.{◌≡◌, ◌<◌, ◌+◌, ◌*◌, ◌++◌, ◌∷◌, ℕ, [], List, OnOk, false, length};
ghost use Rattle.scan_claim.specs.Shown.{Belongs, blocks_of, draws_of};
ghost use Rattle.row_blocks.specs.Blocks.{AreBlocks, block_numbers};
ghost use Rattle.join_pairs.specs.Join.{AllAccepted, IsAccepted, IsRow, width_of};
ghost use Rattle.hash_join.specs.Stores.{DidDraw, DidPut, HasFilled, Holds, IsNew, IsSame, IsStore};
ghost use Rattle.hash_join.specs.Widths.{key_words};

use crate::store::Store;
use crate::widths::{cut_key, pack_words};
use csv_rows::RowStore;
use dsa_area::AreaPass;
use dshash_parts::DsPass;
use join_pairs::{LastRow, Link};
use row_blocks::BLOCK_ROWS;
use scan_claim::{ClaimSeat, Claims};
use std::alloc::{AllocError, Global};
use std::sync::Wait;
use std::sync::atomic::{AtomicBool, Ordering};

/// A chain with this many items takes no new key: whoever chooses the keys can't make a longer one.
const LONGEST_CHAIN: u32 = 64;

/// A participant's tokens, and what came of the rows of its blocks.
#[derive(Drop)]
pub(crate) struct Filler {
    /// Its pass of the area that the items come from.
    pub(crate) area: AreaPass,
    /// Its pass of the table.
    pub(crate) table: DsPass<LastRow>,
    /// Its seat at the counter of blocks.
    pub(crate) claim: ClaimSeat,
    /// The rows that the table took, in order, each with the row before.
    pub(crate) links: Vec<Link>,
    /// The rows for which the table found no room.
    pub(crate) spilled: Vec<u64>,
    /// There was no memory for a row of this participant, or of another that stopped before.
    pub(crate) lacks_memory: bool,
}

/// Puts a row into the table, unless its field is empty.
fn put_row<R: Wait>(
    rt: &R,
    store: &Store,
    rows: &RowStore,
    column: u32,
    filler: &mut Filler,
    row: u64,
) -> Result<(), AllocError>
    requires store { IsStore store.now }
    requires words { store.now.key_words ≡ key_words rows.now column }
    requires own { Holds store.now filler.old }
    requires row { IsRow rows.now row }
    requires accepted { IsAccepted rows.now column row }
    requires column { column < width_of rows.now }
    ensures own { Holds store.now filler.new }
    ensures same { IsSame filler.old filler.new }
    ensures claim { filler.new.claim ≡ filler.old.claim }
    ensures put { OnOk result ((list : List ℕ) → DidPut rows.now column list filler.old → DidPut rows.now column (list ++ row ∷ []) filler.new) }
{
    let field = rows.field(row, column);
    if field.is_empty() {
        return Ok(());
    }
    let packed = pack_words(field, store.key_words);
    let key = cut_key(&packed, store.key_words);
    let put = store.table.call_within(
        rt,
        &store.region,
        &store.area,
        &mut filler.table,
        &mut filler.area,
        key,
        &row,
        LONGEST_CHAIN,
    );
    match put {
        Ok(before) => match filler.links.push(Link { row, before }) {
            Ok(()) => Ok(()),
            Err(_) => Err(AllocError),
        },
        Err(_) => match filler.spilled.push(row) {
            Ok(()) => Ok(()),
            Err(_) => Err(AllocError),
        },
    }
}

/// Puts the rows of a block into the table.
fn put_block<R: Wait>(
    rt: &R,
    store: &Store,
    rows: &RowStore,
    column: u32,
    filler: &mut Filler,
    block: u64,
) -> Result<(), AllocError>
    requires store { IsStore store.now }
    requires words { store.now.key_words ≡ key_words rows.now column }
    requires own { Holds store.now filler.old }
    requires block { BLOCK_ROWS * block + 1 < length rows.now }
    requires accepted { AllAccepted rows.now column }
    requires column { column < width_of rows.now }
    ensures own { Holds store.now filler.new }
    ensures same { IsSame filler.old filler.new }
    ensures claim { filler.new.claim ≡ filler.old.claim }
    ensures put { OnOk result ((list : List ℕ) → DidPut rows.now column list filler.old → DidPut rows.now column (list ++ block_numbers rows.now block) filler.new) }
{
    let last = rows.count();
    let first = BLOCK_ROWS * block + 1;
    let count = (last - first + 1).min(BLOCK_ROWS);
    for at in 0..count {
        match put_row(rt, store, rows, column, filler, first + at) {
            Ok(()) => {}
            Err(lack) => return Err(lack),
        }
    }
    Ok(())
}

/// Draws blocks until there are no more or another participant has stopped, and puts their rows into the table.
fn put_blocks<R: Wait>(
    rt: &R,
    store: &Store,
    rows: &RowStore,
    column: u32,
    claims: &Claims,
    stop: &AtomicBool,
    filler: &mut Filler,
) -> Result<(), AllocError>
    requires store { IsStore store.now }
    requires words { store.now.key_words ≡ key_words rows.now column }
    requires own { Holds store.now filler.old }
    requires seat { Belongs claims.now filler.old.claim }
    requires blocks { AreBlocks rows.now (blocks_of claims.now) }
    requires accepted { AllAccepted rows.now column }
    requires column { column < width_of rows.now }
    requires drawn { DidDraw rows.now column filler.old }
    ensures own { Holds store.now filler.new }
    ensures seat { Belongs claims.now filler.new.claim }
    ensures same { IsSame filler.old filler.new }
    ensures filled { OnOk result (HasFilled rows.now column claims.now filler.new) }
{
    for _ in rt.forever() {
        if stop.load(Ordering::SeqCst) {
            return Err(AllocError);
        }
        let Some(block) = filler.claim.claim(claims) else {
            return Ok(());
        };
        match put_block(rt, store, rows, column, filler, block) {
            Ok(()) => {}
            Err(lack) => return Err(lack),
        }
    }
    unreachable!()
}

/// All that a participant does in the first round: it draws blocks of left rows until there are none, and puts their
/// rows into the table.
pub(crate) fn fill<R: Wait>(
    rt: &R,
    store: &Store,
    rows: &RowStore,
    column: u32,
    claims: &Claims,
    stop: &AtomicBool,
    filler: &mut Filler,
)
    requires store { IsStore store.now }
    requires words { store.now.key_words ≡ key_words rows.now column }
    requires own { Holds store.now filler.old }
    requires seat { Belongs claims.now filler.old.claim }
    requires blocks { AreBlocks rows.now (blocks_of claims.now) }
    requires accepted { AllAccepted rows.now column }
    requires column { column < width_of rows.now }
    requires new { IsNew filler.old }
    ensures own { Holds store.now filler.new }
    ensures seat { Belongs claims.now filler.new.claim }
    ensures same { IsSame filler.old filler.new }
    ensures filled { filler.new.lacks_memory ≡ false → HasFilled rows.now column claims.now filler.new }
{
    filler.lacks_memory = put_blocks(rt, store, rows, column, claims, stop, filler).is_err();
    if filler.lacks_memory {
        stop.store(true, Ordering::SeqCst);
    }
}
