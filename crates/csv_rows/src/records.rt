//! The records of bytes, read in the caller's thread or in several.

ghost use Rattle.std.specs.Prelude.{◌≡◌, ◌<◌, ◌≤◌, [], IfOk, OnOk, length};
ghost use Rattle.csv_rows.specs.Readings.{records_as};
ghost use Rattle.csv_rows.specs.Records.{records_of};
ghost use Rattle.csv_rows.specs.declared.records.RowsAnswer.TheVariants as answer;

use crate::cleaning::Reading;
use crate::pieces::{read_one, read_one_as, read_pieces};
use crate::store::RowStore;
use std::alloc::Global;
use std::thread::Threads;

/// The most records that a store has: the header and 4,194,304 rows.
pub const MOST_RECORDS: u64 = 4_194_305;

/// Why bytes gave no store: there is no record, there are more than [`MOST_RECORDS`], or memory ran
/// out.
#[derive(Debug, Drop)]
pub enum RowsAnswer {
    NoHeader,
    TooManyRows,
    Memory,
}

/// The fewest bytes for which one more thread pays.
const LEAST_BYTES: usize = 65_536;

/// The records of bytes. The time is linear in the bytes, and least if there is no quote among them. The memory is the
/// bytes of the fields, at most five more for each field, and four for each record from the first one on whose width is
/// not the header's, each at most twice over.
pub fn rows(alloc: Global, bytes: &[u8]) -> Result<RowStore, RowsAnswer>
    ensures records { IfOk result (λ store. store ≡ records_of bytes.now) }

    // When each answer comes: unless memory runs out, it comes exactly then.
    ensures some { OnOk result (0 < length (records_of bytes.now)) }
    ensures few { OnOk result (length (records_of bytes.now) ≤ MOST_RECORDS) }
    ensures no_header { result ≡ Err answer.NoHeader → records_of bytes.now ≡ [] }
    ensures too_many { result ≡ Err answer.TooManyRows → MOST_RECORDS < length (records_of bytes.now) }
{
    match read_one(alloc, bytes) {
        Ok(pieces) => RowStore::of_pieces(pieces),
        Err(why) => Err(why),
    }
}

/// The records of bytes, each field as it is read: of the text in which the comma and the separator are exchanged. The
/// time is that of [`rows`], and a look at each byte if the separator is no comma. If white space is left out or some texts
/// are read as nothing each field is copied once more, with memory for that.
pub fn rows_as(alloc: Global, reading: &Reading, bytes: &[u8]) -> Result<RowStore, RowsAnswer>
    ensures records { IfOk result (λ store. store ≡ records_as reading.now bytes.now) }
    ensures some { OnOk result (0 < length (records_as reading.now bytes.now)) }
    ensures few { OnOk result (length (records_as reading.now bytes.now) ≤ MOST_RECORDS) }
    ensures no_header { result ≡ Err answer.NoHeader → records_as reading.now bytes.now ≡ [] }
    ensures too_many { result ≡ Err answer.TooManyRows → MOST_RECORDS < length (records_as reading.now bytes.now) }
{
    match read_one_as(alloc, reading, bytes) {
        Ok(pieces) => RowStore::of_pieces(pieces),
        Err(why) => Err(why),
    }
}

/// The records of bytes, read by at most this many threads, the caller's among them. The work is that of [`rows`],
/// shared out among the threads, and for each doubling of their number one more look at half of the bytes. Each thread
/// has at least 65,536 bytes, so a short text is read by fewer.
pub fn rows_in_threads<R: Threads + Sync>(
    rt: &R,
    alloc: Global,
    bytes: &[u8],
    threads: usize,
) -> Result<RowStore, RowsAnswer>
    ensures records { IfOk result (λ store. store ≡ records_of bytes.now) }
    ensures some { OnOk result (0 < length (records_of bytes.now)) }
    ensures few { OnOk result (length (records_of bytes.now) ≤ MOST_RECORDS) }
    ensures no_header { result ≡ Err answer.NoHeader → records_of bytes.now ≡ [] }
    ensures too_many { result ≡ Err answer.TooManyRows → MOST_RECORDS < length (records_of bytes.now) }
{
    match read_pieces(rt, alloc, bytes, threads.min(bytes.len() / LEAST_BYTES)) {
        Ok(pieces) => RowStore::of_pieces(pieces),
        Err(why) => Err(why),
    }
}
