//! Records that are written by several threads. The list of the items that stand for them is cut into ranges, and each
//! thread makes the text of one. The texts go out one after the other, since the text of records is that of each one
//! after the other. They are made round by round, a range for each thread, so that never more than the texts of one
//! round wait.
//!
//! If there is no memory for a text, the records of its range go out one by one.

ghost use Rattle.std.specs.Prelude.{◌≡◌, All, IfOk, map};
ghost use Rattle.par_model.specs.Table.{table_text};
ghost use Rattle.answer_text.specs.Held.{Puts};
ghost use Rattle.answer_text.specs.Parts.{AreParts};

use crate::held::Held;
use crate::memory::Text;
use par_io::Sink;
use std::alloc::{AllocError, Global};
use std::thread::{Threads, map_chunks};

/// What has a record for each item of a list, and can put these records.
pub trait Lines: Sync {
    ghost use Rattle.std.specs.Prelude.{ℕ, List, All, map};
    ghost use Rattle.par_model.specs.Table.{table_text};
    ghost use Rattle.answer_text.specs.Held.{Puts};

    /// What stands for a record.
    type Item: Sync;

    /// Which items can be put.
    ghost fits: { Self → Self.Item → Type 0 };

    /// The record of an item.
    ghost record_of: { Self → Self.Item → List (List ℕ) };

    /// Puts the records of items after what waits, up to a write that fails.
    fn put_lines<O: Sink>(&self, held: &mut Held, out: &mut O, items: &[Self::Item])
        requires { All (fits self.now) items.now }
        ensures { Puts O.taken O.faults out.old out.new held.old held.new (table_text (map (record_of self.now) items.now)) };
}

/// How many records a range has.
const RANGE: usize = 16_384;

/// The most threads that make text at once.
const MOST_THREADS: usize = 65;

/// The text of a range, or no memory.
type Part = Result<Vec<u8>, AllocError>;

/// Puts the records of items after what waits, up to a write that fails, with a text that is made by at most this many
/// threads, the caller's among them. With more than one thread the text of 16,384 records for each of them is kept too.
pub fn put_in_threads<R: Threads + Sync, L: Lines, O: Sink>(
    rt: &R,
    alloc: Global,
    held: &mut Held,
    out: &mut O,
    lines: &L,
    items: &[L::Item],
    threads: usize,
)
    requires fits { All (L.fits lines.now) items.now }
    ensures { Puts O.taken O.faults out.old out.new held.old held.new (table_text (map (L.record_of lines.now) items.now)) }
{
    if threads < 2 {
        lines.put_lines(held, out, items);
        return;
    }
    let size = RANGE * threads.min(MOST_THREADS);
    let mut at = 0;
    'rounds: while at < items.len() {
        if held.is_broken() {
            return;
        }
        let end = at + size.min(items.len() - at);
        put_round(rt, alloc, held, out, lines, &items[at..end]);
        at = end;
    }
}

/// The records of a round: a range for each thread.
fn put_round<R: Threads + Sync, L: Lines, O: Sink>(
    rt: &R,
    alloc: Global,
    held: &mut Held,
    out: &mut O,
    lines: &L,
    items: &[L::Item],
)
    requires fits { All (L.fits lines.now) items.now }
    ensures { Puts O.taken O.faults out.old out.new held.old held.new (table_text (map (L.record_of lines.now) items.now)) }
{
    match texts_of(rt, alloc, lines, items) {
        Ok(parts) => put_parts(held, out, lines, items, &parts),
        Err(AllocError) => lines.put_lines(held, out, items),
    }
}

/// The texts of ranges of records, each by a separate thread if one can be made.
fn texts_of<R: Threads + Sync, L: Lines>(
    rt: &R,
    alloc: Global,
    lines: &L,
    items: &[L::Item],
) -> Result<Vec<Part>, AllocError>
    requires fits { All (L.fits lines.now) items.now }
    ensures { IfOk result (λ parts. AreParts (L.record_of lines.now) items.now RANGE parts.items) }
{
    map_chunks(
        rt,
        alloc,
        items,
        RANGE,
        &|_, range|
            requires { All (L.fits lines.now) range.now }
        { text_of(alloc, lines, range) },
    )
}

/// The text of some records.
fn text_of<L: Lines>(alloc: Global, lines: &L, items: &[L::Item]) -> Part
    requires fits { All (L.fits lines.now) items.now }
    ensures { IfOk result (λ text. text.items ≡ table_text (map (L.record_of lines.now) items.now)) }
{
    let mut held = Held::new(alloc)?;
    let mut text = Text::new(alloc);
    lines.put_lines(&mut held, &mut text, items);
    held.pass_on(&mut text);
    if held.is_broken() {
        return Err(AllocError);
    }
    Ok(text.into_bytes())
}

/// Puts the texts of the ranges, one after the other.
fn put_parts<L: Lines, O: Sink>(
    held: &mut Held,
    out: &mut O,
    lines: &L,
    items: &[L::Item],
    parts: &[Part],
)
    requires fits { All (L.fits lines.now) items.now }
    requires parts { AreParts (L.record_of lines.now) items.now RANGE parts.now }
    ensures { Puts O.taken O.faults out.old out.new held.old held.new (table_text (map (L.record_of lines.now) items.now)) }
{
    for at in 0..parts.len() {
        let start = at * RANGE;
        let end = start + RANGE.min(items.len() - start);
        put_part(held, out, lines, &items[start..end], &parts[at]);
    }
}

/// Puts the text of a range, or its records one by one if there was no memory for it.
fn put_part<L: Lines, O: Sink>(
    held: &mut Held,
    out: &mut O,
    lines: &L,
    items: &[L::Item],
    part: &Part,
)
    requires fits { All (L.fits lines.now) items.now }
    requires text { IfOk part.now (λ text. text.items ≡ table_text (map (L.record_of lines.now) items.now)) }
    ensures { Puts O.taken O.faults out.old out.new held.old held.new (table_text (map (L.record_of lines.now) items.now)) }
{
    match part {
        Ok(text) => held.put(out, text.as_slice()),
        Err(AllocError) => lines.put_lines(held, out, items),
    }
}
