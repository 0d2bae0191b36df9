//! The second round: the participants draw blocks of the right table, and follow the chain of each row's key.
//!
//! One that stops early sets a flag, by which the others stop at their next block. No contract sees a plain atomic, and
//! none needs to: a participant that is told to stop answers as if there were no memory, which says nothing, and that
//! there are too many pairs, of whichever participant, goes before it.

ghost use Rattle.std.specs.Prelude.{◌≡◌, ◌<◌, ◌≤◌, ◌+◌, ◌*◌, ◌++◌, ℕ, List, [], All, Any, OnOk, IfErr, IfNone, IfOk, IfSome, None, Some, length, map, true};
ghost use Rattle.std.specs.List.{flat_map};
ghost use Rattle.std.specs.List.Sorted.{IsPermutation};
ghost use Rattle.scan_claim.specs.Shown.{Belongs, blocks_of, draws_of, number_of};
ghost use Rattle.row_blocks.specs.Blocks.{AreBlocks, Table, block_numbers};
ghost use Rattle.join_pairs.specs.Join.{AllAccepted, IsRow, most_pairs, pairs_of, width_of};
ghost use Rattle.join_pairs.specs.Chains.{IsChain, before_in};
ghost use Rattle.join_pairs.specs.Found.{HasFound, HasNone, Stops, found_in, found_of};
ghost use Rattle.join_pairs.specs.Gathered.{ChainsAll};
ghost use Rattle.join_pairs.specs.Pairing.{AreSameSeats, FinderFound, IsNewFinder, IsReason, StopsAdding, pairs_with};
ghost use Rattle.join_pairs.specs.declared.pairing.NoPairs.TheVariants as reason;

use crate::chains::Chains;
use crate::lasts::Lasts;
use crate::pairs::{Pair, Pairs};
use csv_rows::RowStore;
use row_blocks::{BLOCK_ROWS, count_blocks};
use scan_claim::{ClaimSeat, Claims};
use std::alloc::{AllocError, Global};
use std::sync::Wait;
use std::sync::atomic::{AtomicBool, Ordering};
use std::thread::{Threads, for_each_mut};

/// The most pairs that a join gives.
pub const MOST_PAIRS: usize = 1_048_576;

/// Why there is no list of pairs.
#[derive(Debug, Clone, Copy, PartialEq, Eq)]
pub enum NoPairs {
    TooMany,
    Memory,
}

/// The pairs of the rows of a participant's blocks, and why it stopped early, if it did.
#[derive(Drop)]
pub(crate) struct Finding {
    pairs: Vec<Pair>,
    stopped: Option<NoPairs>,
}

/// A participant: its seat, and what it found.
#[derive(Drop)]
pub(crate) struct Finder {
    claim: ClaimSeat,
    finding: Finding,
}

/// Adds the pairs of a right row with the rows of a chain.
fn follow(chains: &Chains, last: u64, right: u64, pairs: &mut Vec<Pair>) -> Result<(), NoPairs>
    requires few { length pairs.old.items ≤ most_pairs }
    ensures few { length pairs.new.items ≤ most_pairs }
    ensures added { OnOk result ((chain : List ℕ) → IsChain (before_in chains.now.befores.items) last chain
        → pairs.new.items ≡ pairs.old.items ++ pairs_with right chain) }
    ensures stopped { IfErr result (λ why. (chain : List ℕ) → IsChain (before_in chains.now.befores.items) last chain
        → StopsAdding (length pairs.old.items + length chain) why) }
{
    let mut left = last;
    while left != 0 {
        if pairs.len() >= MOST_PAIRS {
            return Err(NoPairs::TooMany);
        }
        if pairs.push(Pair { left, right }).is_err() {
            return Err(NoPairs::Memory);
        }
        left = chains.before(left);
    }
    Ok(())
}

/// Adds the pairs of a row.
fn find_row<L: Lasts>(
    table: &L,
    chains: &Chains,
    rows: &RowStore,
    column: u32,
    row: u64,
    pairs: &mut Vec<Pair>,
) -> Result<(), NoPairs>
    requires row { IsRow rows.now row }
    requires accepted { AllAccepted rows.now column }
    requires column { column < width_of rows.now }
    requires few { length pairs.old.items ≤ most_pairs }
    ensures few { length pairs.new.items ≤ most_pairs }
    ensures added { OnOk result ((left : Table) (c : ℕ) → ChainsAll left c (L.last_of table.now) chains.now
        → IsPermutation (pairs.old.items ++ found_of left rows.now c column row) pairs.new.items) }
    ensures stopped { IfErr result (λ why. (left : Table) (c : ℕ) → ChainsAll left c (L.last_of table.now) chains.now
        → StopsAdding (length pairs.old.items + length (found_of left rows.now c column row)) why) }
{
    let field = rows.field(row, column);
    if field.is_empty() {
        return Ok(());
    }
    follow(chains, chains.last(table, field), row, pairs)
}

/// Adds the pairs of the rows of a block.
fn find_block<L: Lasts>(
    table: &L,
    chains: &Chains,
    rows: &RowStore,
    column: u32,
    block: u64,
    pairs: &mut Vec<Pair>,
) -> Result<(), NoPairs>
    requires block { BLOCK_ROWS * block + 1 < length rows.now }
    requires accepted { AllAccepted rows.now column }
    requires column { column < width_of rows.now }
    requires few { length pairs.old.items ≤ most_pairs }
    ensures few { length pairs.new.items ≤ most_pairs }
    ensures added { OnOk result ((left : Table) (c : ℕ) → ChainsAll left c (L.last_of table.now) chains.now
        → IsPermutation (pairs.old.items ++ found_in left rows.now c column (block_numbers rows.now block))
        pairs.new.items) }
    ensures stopped { IfErr result (λ why. (left : Table) (c : ℕ) → ChainsAll left c (L.last_of table.now) chains.now
        → StopsAdding (length pairs.old.items
        + length (found_in left rows.now c column (block_numbers rows.now block))) why) }
{
    let last = rows.count();
    let first = BLOCK_ROWS * block + 1;
    let count = (last - first + 1).min(BLOCK_ROWS);
    for at in 0..count {
        match find_row(table, chains, rows, column, first + at, pairs) {
            Ok(()) => {}
            Err(why) => return Err(why),
        }
    }
    Ok(())
}

/// Draws blocks until there are no more or another participant has stopped, and adds the pairs of their rows.
fn find_blocks<R: Wait, L: Lasts>(
    rt: &R,
    table: &L,
    chains: &Chains,
    rows: &RowStore,
    column: u32,
    claims: &Claims,
    stop: &AtomicBool,
    claim: &mut ClaimSeat,
    pairs: &mut Vec<Pair>,
) -> Result<(), NoPairs>
    requires seat { Belongs claims.now claim.old }
    requires blocks { AreBlocks rows.now (blocks_of claims.now) }
    requires accepted { AllAccepted rows.now column }
    requires column { column < width_of rows.now }
    requires new { (draws_of claim.old ≡ []) × (pairs.old.items ≡ []) }
    ensures seat { Belongs claims.now claim.new × (number_of claim.new ≡ number_of claim.old) }
    ensures few { length pairs.new.items ≤ most_pairs }
    ensures found { OnOk result ((left : Table) (c : ℕ) → ChainsAll left c (L.last_of table.now) chains.now
        → HasFound left rows.now c column claims.now (draws_of claim.new) pairs.new.items) }
    ensures stopped { IfErr result (λ why. (left : Table) (c : ℕ) → ChainsAll left c (L.last_of table.now) chains.now
        → Stops left rows.now c column (draws_of claim.new) why) }
{
    for _ in rt.forever() {
        if stop.load(Ordering::SeqCst) {
            return Err(NoPairs::Memory);
        }
        let Some(block) = claim.claim(claims) else {
            return Ok(());
        };
        match find_block(table, chains, rows, column, block, pairs) {
            Ok(()) => {}
            Err(why) => return Err(why),
        }
    }
    unreachable!()
}

/// What a participant does, from its beginning to its end.
fn find<R: Wait, L: Lasts>(
    rt: &R,
    table: &L,
    chains: &Chains,
    rows: &RowStore,
    column: u32,
    claims: &Claims,
    stop: &AtomicBool,
    finder: &mut Finder,
)
    requires blocks { AreBlocks rows.now (blocks_of claims.now) }
    requires accepted { AllAccepted rows.now column }
    requires column { column < width_of rows.now }
    requires new { IsNewFinder claims.now finder.old }
    ensures seat { Belongs claims.now finder.new.claim × (number_of finder.new.claim ≡ number_of finder.old.claim) }
    ensures few { length finder.new.finding.pairs.items ≤ most_pairs }
    ensures found { (left : Table) (c : ℕ) → ChainsAll left c (L.last_of table.now) chains.now
        → FinderFound left rows.now c column claims.now finder.new }
{
    let found = find_blocks(
        rt,
        table,
        chains,
        rows,
        column,
        claims,
        stop,
        &mut finder.claim,
        &mut finder.finding.pairs,
    );
    finder.finding.stopped = match found {
        Ok(()) => None,
        Err(why) => {
            stop.store(true, Ordering::SeqCst);
            Some(why)
        }
    };
}

/// The participants, each with its seat.
fn finders(alloc: Global, seats: Vec<ClaimSeat>) -> Result<Vec<Finder>, AllocError>
    ensures seats { IfOk result (λ v. map (λ (f : Finder). f.claim) v.items ≡ seats.items) }
    ensures new { IfOk result (λ v. All (λ (f : Finder). f.finding.pairs.items ≡ []) v.items) }
{
    let mut finders = Vec::with_capacity(alloc, seats.len())?;
    for claim in seats {
        finders.push(Finder {
            claim,
            finding: Finding {
                pairs: Vec::new(alloc),
                stopped: None,
            },
        })?;
    }
    Ok(finders)
}

/// All participants add the pairs of the blocks that they draw.
fn find_all<R: Threads + Wait + Sync, L: Lasts>(
    rt: &R,
    table: &L,
    chains: &Chains,
    rows: &RowStore,
    column: u32,
    claims: &Claims,
    finders: &mut Vec<Finder>,
)
    requires blocks { AreBlocks rows.now (blocks_of claims.now) }
    requires accepted { AllAccepted rows.now column }
    requires column { column < width_of rows.now }
    requires new { All (IsNewFinder claims.now) finders.old.items }
    ensures seats { AreSameSeats claims.now finders.old.items finders.new.items }
    ensures few { All (λ (f : Finder). length f.finding.pairs.items ≤ most_pairs) finders.new.items }
    ensures found { All (λ (f : Finder). (left : Table) (c : ℕ) → ChainsAll left c (L.last_of table.now) chains.now
        → FinderFound left rows.now c column claims.now f) finders.new.items }
{
    let threads = finders.len().max(1);
    let stop = AtomicBool::new(false);
    for_each_mut(
        rt,
        finders.as_mut_slice(),
        threads,
        &|_place: usize, finder: &mut Finder|
            requires { AreBlocks rows.now (blocks_of claims.now) × AllAccepted rows.now column × (column < width_of rows.now) × IsNewFinder claims.now finder.now }
            ensures { (Belongs claims.entry.now finder.exit.now.claim × (number_of finder.exit.now.claim ≡ number_of finder.entry.now.claim))
                × (length finder.exit.now.finding.pairs.items ≤ most_pairs)
                × ((left : Table) (c : ℕ) → ChainsAll left c (L.last_of table.entry.now) chains.entry.now → FinderFound left rows.entry.now c column claims.entry.now finder.exit.now) }
        { find(rt, table, chains, rows, column, claims, &stop, finder) },
    );
}

/// The participants' seats, and what they found.
fn take_apart(
    alloc: Global,
    finders: Vec<Finder>,
) -> Result<(Vec<ClaimSeat>, Vec<Finding>), AllocError>
    ensures seats { IfOk result (λ p. p.0.items ≡ map (λ (f : Finder). f.claim) finders.items) }
    ensures findings { IfOk result (λ p. p.1.items ≡ map (λ (f : Finder). f.finding) finders.items) }
{
    let mut seats = Vec::new(alloc);
    let mut findings = Vec::new(alloc);
    for finder in finders {
        let Finder { claim, finding } = finder;
        seats.push(claim)?;
        findings.push(finding)?;
    }
    Ok((seats, findings))
}

/// The pairs of all participants, one after the other.
fn collect(alloc: Global, findings: &Vec<Finding>) -> Result<Vec<Pair>, NoPairs>
    requires few { All (λ (f : Finding). length f.pairs.items ≤ most_pairs) findings.now.items }
    ensures all { IfOk result (λ v. v.items ≡ flat_map (λ (f : Finding). f.pairs.items) findings.now.items) }
    ensures whole { OnOk result (All (λ (f : Finding). f.stopped ≡ None) findings.now.items) }
    ensures few { IfOk result (λ v. length v.items ≤ most_pairs) }
    ensures none { IfErr result (λ why. IsReason findings.now.items why) }
{
    if found_too_many(findings) {
        return Err(NoPairs::TooMany);
    }
    if let Some(why) = first_stop(findings) {
        return Err(why);
    }
    let mut all = Vec::new(alloc);
    for finding in findings {
        if finding.pairs.len() > MOST_PAIRS - all.len() {
            return Err(NoPairs::TooMany);
        }
        if all.extend_from_slice(finding.pairs.as_slice()).is_err() {
            return Err(NoPairs::Memory);
        }
    }
    Ok(all)
}

/// Whether a participant found too many pairs.
fn found_too_many(findings: &Vec<Finding>) -> bool
    ensures { result ≡ true → Any (λ (f : Finding). f.stopped ≡ Some reason.TooMany) findings.now.items }
{
    for finding in findings {
        if let Some(why) = finding.stopped {
            match why {
                NoPairs::TooMany => return true,
                NoPairs::Memory => {}
            }
        }
    }
    false
}

/// Why the first participant that stopped early did so.
fn first_stop(findings: &Vec<Finding>) -> Option<NoPairs>
    ensures some { IfSome result (λ why. Any (λ (f : Finding). f.stopped ≡ Some why) findings.now.items) }
    ensures none { IfNone result (All (λ (f : Finding). f.stopped ≡ None) findings.now.items) }
{
    for finding in findings {
        if let Some(why) = finding.stopped {
            return Some(why);
        }
    }
    None
}

/// The second round, with this many participants: the pairs in order. That the seats come home proves that each block
/// was drawn once.
pub fn find_pairs<R: Threads + Wait + Sync, L: Lasts>(
    rt: &R,
    alloc: Global,
    table: &L,
    chains: &Chains,
    rows: &RowStore,
    column: u32,
    callers: u32,
) -> Result<Pairs, NoPairs>
    requires callers { 1 ≤ callers }
    requires accepted { AllAccepted rows.now column }
    requires column { column < width_of rows.now }
    ensures pairs { IfOk result (λ pairs. (left : Table) (c : ℕ) → ChainsAll left c (L.last_of table.now) chains.now
        → pairs ≡ pairs_of left rows.now c column) }
    ensures few { IfOk result (λ pairs. length pairs ≤ most_pairs) }
    ensures none { IfErr result (λ why. (left : Table) (c : ℕ) → ChainsAll left c (L.last_of table.now) chains.now
        → HasNone left rows.now c column why) }
{
    let Ok((claims, seats)) = Claims::new(alloc, count_blocks(rows), callers) else {
        return Err(NoPairs::Memory);
    };
    let Ok(mut finders) = finders(alloc, seats) else {
        return Err(NoPairs::Memory);
    };
    find_all(rt, table, chains, rows, column, &claims, &mut finders);
    let Ok((seats, findings)) = take_apart(alloc, finders) else {
        return Err(NoPairs::Memory);
    };
    let _drawn = claims.close(seats);
    match collect(alloc, &findings) {
        Ok(mut all) => {
            all.sort_unstable();
            Ok(Pairs::of(all))
        }
        Err(why) => Err(why),
    }
}
