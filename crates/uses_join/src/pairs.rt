//! Pairs without a shared table, refused rows, and the cell of a key. They show what no clause says: that the calls
//! succeed.

ghost use Rattle.std.specs.Prelude.{◌≡◌, ◌<◌, ◌≤◌, IfOk, length};
ghost use Rattle.join_pairs.specs.Gathered.{ChainsAll};
ghost use Rattle.join_pairs.specs.Join.{AllAccepted, keyed, pairs_of, width_of};
ghost use Rattle.row_blocks.specs.Blocks.{numbers_of};

use csv_rows::{RowStore, rows};
use dshash_core::CellObject;
use join_pairs::{
    Chains, LastRow, NoPairs, NoTable, Pairs, cells_are_chains, chain_all, find_pairs,
    first_refused, pairs_are_join,
};
use std::alloc::{AllocError, Global};
use std::sync::Wait;
use std::test::Fail;
use std::thread::Threads;

/// The numbers of the rows whose field of the column is not empty.
fn keyed_rows(alloc: Global, rows: &RowStore, column: u32) -> Result<Vec<u64>, AllocError>
    requires column { column < width_of rows.now }
    requires accepted { AllAccepted rows.now column }
    ensures { IfOk result (λ v. v.items ≡ keyed rows.now column (numbers_of rows.now)) }
{
    let mut keyed = Vec::new(alloc);
    for row in 1..rows.count() + 1 {
        if !rows.field(row, column).is_empty() {
            keyed.push(row)?;
        }
    }
    Ok(keyed)
}

/// The chains of all rows of a table, none of which went into a shared table.
fn chains_alone(alloc: Global, rows: &RowStore, column: u32) -> Result<Chains, AllocError>
    requires column { column < width_of rows.now }
    requires accepted { AllAccepted rows.now column }
    ensures { IfOk result (λ c. ChainsAll rows.now column (λ _. 0) c) }
{
    let mut spilled = Vec::new(alloc);
    spilled.push(keyed_rows(alloc, rows, column)?)?;
    chain_all(alloc, rows, column, &NoTable, &Vec::new(alloc), &spilled)
}

/// The pairs of two tables, without a shared one.
fn pairs_alone<R: Threads + Wait + Sync>(
    rt: &R,
    alloc: Global,
    left: &RowStore,
    right: &RowStore,
    columns: (u32, u32),
    callers: u32,
) -> Result<Pairs, NoPairs>
    requires callers { 1 ≤ callers }
    requires left_column { columns.0 < width_of left.now }
    requires right_column { columns.1 < width_of right.now }
    requires left { AllAccepted left.now columns.0 }
    requires right { AllAccepted right.now columns.1 }
    ensures { IfOk result (λ pairs. pairs ≡ pairs_of left.now right.now columns.0 columns.1) }
{
    match chains_alone(alloc, left, columns.0) {
        Ok(chains) => find_pairs(rt, alloc, &NoTable, &chains, right, columns.1, callers),
        Err(_) => Err(NoPairs::Memory),
    }
}

/// The rows of a text.
fn stored(alloc: Global, text: &[u8]) -> Result<RowStore, Fail> {
    match rows(alloc, text) {
        Ok(store) => Ok(store),
        Err(_) => Err(Fail::new("no rows")),
    }
}

/// Checks the pairs of two texts on their first columns, with several numbers of participants.
fn check<R: Threads + Wait + Sync>(
    rt: &R,
    alloc: Global,
    left: &[u8],
    right: &[u8],
    pairs: &[(u64, u64)],
) -> Result<(), Fail> {
    let left = stored(alloc, left)?;
    let right = stored(alloc, right)?;
    if left.width(0) == 0 || right.width(0) == 0 {
        return Err(Fail::new("no column"));
    }
    if first_refused(&left, 0).is_some() || first_refused(&right, 0).is_some() {
        return Err(Fail::new("a row is refused"));
    }
    for callers in [1, 3] {
        match pairs_alone(rt, alloc, &left, &right, (0, 0), callers) {
            Ok(found) => {
                if !are_pairs(&found, pairs) {
                    return Err(Fail::new("other pairs"));
                }
            }
            Err(_) => return Err(Fail::new("no pairs")),
        }
    }
    Ok(())
}

/// Whether the pairs are these.
fn are_pairs(found: &Pairs, pairs: &[(u64, u64)]) -> bool {
    if found.len() != pairs.len() {
        return false;
    }
    for at in 0..found.len() {
        let pair = found.get(at);
        if (pair.left, pair.right) != pairs[at] {
            return false;
        }
    }
    true
}

#[test]
fn a_few_rows(rt: HostRuntime) -> Result<(), Fail> {
    cells_are_chains();
    pairs_are_join();
    check(
        &rt,
        rt.alloc(),
        b"id,a\n1,x\n2,y\n1,z\n,q\n",
        b"id,b\n1,p\n3,r\n,s\n1,t\n",
        &[(1, 1), (1, 4), (3, 1), (3, 4)],
    )
}

/// What a call is answered by the cell whose state is in the words; the state that it leaves is written there.
fn answer<O: CellObject>(words: &mut [u64], call: &O::Call) -> O::Reply
    requires { length words.old ≡ O.VALUE_WORDS }
{
    let state = O::decode(words);
    let (next, reply) = O::step(Some(&state), call);
    if let Some(next) = next {
        O::encode(&next, words);
    }
    reply
}

#[test]
fn the_cell_tells_the_row_before(rt: HostRuntime) {
    let mut words = [5u64];
    assert_eq!(rt; answer::<LastRow>(&mut words, &7), 5);
    assert_eq!(rt; answer::<LastRow>(&mut words, &9), 7);
    assert_eq!(rt; words[0], 9);
    assert!(rt; LastRow::step(None, &5) == (Some(5), 0));
}
