//! The two ways in which a query reads its records: in the caller's thread, or in all threads that it may have.

ghost use Rattle.std.specs.Prelude.{[], ◌≡◌, ◌<◌, ◌≤◌, IfOk, OnOk, length};
ghost use Rattle.std.specs.Thread.{IsSync};
ghost use Rattle.csv_rows.specs.Records.{records_of};
ghost use Rattle.csv_rows.specs.declared.records.RowsAnswer.TheVariants as answer;
ghost use Rattle.csv_rows.specs.declared.records.TheConstants.{MOST_RECORDS};

use csv_rows::{RowStore, RowsAnswer, rows, rows_in_threads};
use std::alloc::Global;
use std::thread::Threads;

/// Reads the records of bytes.
pub trait Reading {
    /// What a caller has to meet before it reads.
    ghost asks: { Type 0 };

    /// The records of bytes, read by the caller's thread and at most this many others.
    fn rows(&self, alloc: Global, bytes: &[u8], workers: u32) -> Result<RowStore, RowsAnswer>
        requires { asks }
        ensures records { IfOk result (λ store. store ≡ records_of bytes.now) }
        ensures some { OnOk result (0 < length (records_of bytes.now)) }
        ensures few { OnOk result (length (records_of bytes.now) ≤ MOST_RECORDS) }
        ensures no_header { result ≡ Err answer.NoHeader → records_of bytes.now ≡ [] }
        ensures too_many { result ≡ Err answer.TooManyRows → MOST_RECORDS < length (records_of bytes.now) };
}

/// In the caller's thread.
#[derive(Drop)]
pub struct Alone;

impl Reading for Alone {
    ghost asks = { Unit {0} };

    fn rows(&self, alloc: Global, bytes: &[u8], _workers: u32) -> Result<RowStore, RowsAnswer> {
        rows(alloc, bytes)
    }
}

/// In the caller's thread and one more for each worker.
#[derive(Drop)]
pub struct InThreads<'a, R: Threads + Sync> {
    pub rt: &'a R,
}

impl<'a, R: Threads + Sync> Reading for InThreads<'a, R> {
    ghost asks = { IsSync R.row };

    fn rows(&self, alloc: Global, bytes: &[u8], workers: u32) -> Result<RowStore, RowsAnswer> {
        rows_in_threads(self.rt, alloc, bytes, workers as usize + 1)
    }
}
