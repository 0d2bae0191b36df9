//! The join of two tables on a column of each, in the manner of nodeHashjoin.c with a shared hash table: participants
//! put the left rows into the table, and then look up the right rows.
//!
//! A row is known by its number. The table has, under each key, the last row that came with it; a call puts in a row
//! and is given the row before, which is the row's link. So the links make a chain of all rows of a key, no matter
//! which participant put them in (`specs/Law.antt` of `join_pairs`). Rows for which the table finds no room stay with
//! their participant, and the leader adds them to the chains afterwards.
//!
//! Then the table ends, and its partitions are frozen: nothing is written any more, and the participants look up the
//! right rows' keys by plain loads, with no lock, and follow the chains (`Probe`). The pairs are sorted at last, so they
//! are in order no matter which participant found them.

#![tactic(auto)]

ghost use Rattle.std.specs.Prelude.{◌≡◌, ◌<◌, ◌≤◌, IfErr, IfOk, OnOk, length};
ghost use Rattle.hash_join.specs.Answers.{IsCause};
ghost use Rattle.join_pairs.specs.Join.{AllAccepted, most_pairs, pairs_of, width_of};
ghost use Rattle.hash_join.specs.Used.{IsUsed};

use csv_rows::RowStore;
use dsa_area::AreaPass;
use dshash_parts::ClosedTable;
use gathering::gather_rows;
use join_pairs::{NoPairs, find_pairs, first_refused};
use probe::Probe;
use scan_claim::Drawn;
use std::alloc::Global;
use std::sync::Wait;
use std::thread::Threads;

mod filling;
mod gathering;
mod probe;
mod store;
mod widths;

pub use join_pairs::{LONGEST_KEY, LastRow, Link, MOST_PAIRS, Pair, Pairs};

/// Why there is no join.
#[derive(Debug, Clone, Copy, PartialEq, Eq)]
pub enum JoinAnswer {
    /// This row of the left or the right table is refused, for this cause: [`par_model::WIDTH_CAUSE`] or
    /// [`par_model::KEY_CAUSE`].
    Row { right: bool, row: u64, cause: u8 },
    /// There are more than [`MOST_PAIRS`] pairs.
    TooManyPairs,
    /// There was no memory.
    Memory,
}

/// What a join comes to.
#[derive(Drop)]
pub struct Joined {
    /// The pairs, in order of the left row and then the right one.
    pub pairs: Pairs,
    /// Which participant drew which blocks of the left table.
    pub drawn: Drawn,
    /// The table of the left rows, which has ended: it shows the history of each partition. The partitions themselves
    /// have been taken out, so [`ClosedTable::take_last`] has none to give.
    pub table: ClosedTable<LastRow>,
    /// The participants' passes of the table's area, in order of their numbers.
    pub areas: Vec<AreaPass>,
}

/// Joins two tables on a column of each: the pairs of rows whose fields there have the same bytes and are not empty.
/// All rows are tested first, those of the left table before those of the right one. The caller's thread and this many
/// workers take part; fewer threads may start, also none.
///
/// It takes the time of the rows and of the pairs, and of sorting the pairs. Memory is 17 MB for the table, 24 bytes for
/// each left row, the words of each key and some 70 bytes more, and 32 bytes for each pair.
pub fn join<R: Threads + Wait + Sync>(
    rt: &R,
    alloc: Global,
    left: &RowStore,
    right: &RowStore,
    left_column: u32,
    right_column: u32,
    workers: u32,
) -> Result<Joined, JoinAnswer>
    requires left_column { left_column < width_of left.now }
    requires right_column { right_column < width_of right.now }
    requires workers { workers ≤ 64 }
    ensures accepted { OnOk result (AllAccepted left.now left_column × AllAccepted right.now right_column) }
    ensures pairs { IfOk result (λ j. j.pairs ≡ pairs_of left.now right.now left_column right_column) }
    ensures few { IfOk result (λ j. length j.pairs ≤ most_pairs) }
    ensures cause { IfErr result (λ why. IsCause left.now right.now left_column right_column why) }
    ensures used { IfOk result (λ j. IsUsed left.now left_column workers j) }
{
    if let Some(refused) = first_refused(left, left_column) {
        return Err(JoinAnswer::Row {
            right: false,
            row: refused.row,
            cause: refused.cause,
        });
    }
    if let Some(refused) = first_refused(right, right_column) {
        return Err(JoinAnswer::Row {
            right: true,
            row: refused.row,
            cause: refused.cause,
        });
    }
    let callers = workers + 1;
    let Ok(gathered) = gather_rows(rt, alloc, left, left_column, callers) else {
        return Err(JoinAnswer::Memory);
    };
    let probe = Probe::of(gathered.frozen.lookup(), gathered.key_words);
    match find_pairs(
        rt,
        alloc,
        &probe,
        &gathered.chains,
        right,
        right_column,
        callers,
    ) {
        Ok(pairs) => Ok(Joined {
            pairs,
            drawn: gathered.drawn,
            table: gathered.table,
            areas: gathered.areas,
        }),
        Err(NoPairs::TooMany) => Err(JoinAnswer::TooManyPairs),
        Err(NoPairs::Memory) => Err(JoinAnswer::Memory),
    }
}
