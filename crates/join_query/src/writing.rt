//! The writing of the joined records: the two headers side by side, and then the rows of each pair. With one thread they go
//! out one by one, so nothing of the table is copied but what waits for the next write; with more, each makes the text of a
//! range of them.

ghost use Rattle.std.specs.Prelude.{◌≡◌, ◌≢◌, ◌⊎◌, ◌<◌, ◌++◌, [], ℕ, IfErr, OnOk, false, length, map, take};
ghost use Rattle.std.specs.Io.KnownBytes.{Appends};
ghost use Rattle.csv.specs.Writing.{default_writer, row_text};
ghost use Rattle.join_pairs.specs.Join.{joined_records};
ghost use Rattle.par_io.specs.Faults.{Rose};
ghost use Rattle.par_model.specs.Table.{table_text};
ghost use Rattle.answer_text.specs.Held.{Puts};
ghost use Rattle.join_query.specs.Writable.{AreWritable, HasHeaders, beside};
ghost use Rattle.join_query.specs.declared.stop.Stop.TheVariants as stop;

use crate::stop::Stop;
use answer_text::{Held, Lines, put_fields, put_in_threads};
use csv_rows::{Record, RowStore};
use join_pairs::{Pair, Pairs};
use par_io::Sink;
use std::alloc::Global;
use std::thread::Threads;

/// Writes the header and the record of each pair, with a text that is made by at most this many threads, the caller's among
/// them. Time is that of the bytes that are written, and memory 65,536 bytes; with more than one thread the text of 16,384
/// records for each of them besides.
pub fn write_joined<R: Threads + Sync, O: Sink>(
    rt: &R,
    alloc: Global,
    left: &RowStore,
    right: &RowStore,
    pairs: &Pairs,
    threads: usize,
    out: &mut O,
) -> Result<(), Stop>
    requires headers { HasHeaders left.now right.now }
    requires pairs { AreWritable left.now right.now pairs.now }
    ensures records { OnOk result (Appends (O.taken out.old) (O.taken out.new) (table_text (joined_records left.now right.now pairs.now))) }
    ensures part { IfErr result (λ why. why ≡ stop.WriteFault → (n : ℕ) × Appends (O.taken out.old) (O.taken out.new) (take n (table_text (joined_records left.now right.now pairs.now)))) }
    ensures nothing { IfErr result (λ why. (why ≢ stop.WriteFault) → out.new ≡ out.old) }
    ensures write_fault { IfErr result (λ why. why ≡ stop.WriteFault → Rose (O.faults out.old) (O.faults out.new)) }
    ensures why { IfErr result (λ why. (why ≡ stop.WriteFault) ⊎ (why ≡ stop.Memory)) }
{
    let mut held = Held::new(alloc)?;
    put_all(
        rt,
        alloc,
        &mut held,
        out,
        left,
        right,
        pairs.list(),
        threads,
    );
    if held.is_broken() {
        return Err(Stop::WriteFault);
    }
    Ok(())
}

/// The rows of two stores side by side, by pairs of their numbers.
#[derive(Drop)]
struct Beside<'a> {
    left: &'a RowStore,
    right: &'a RowStore,
}

impl<'a> Lines for Beside<'a> {
    ghost use Rattle.join_query.specs.Writable.{IsWritable, beside};

    type Item = Pair;

    ghost fits = { λ lines pair. IsWritable lines.left.now lines.right.now pair };

    ghost record_of = { λ lines pair. beside lines.left.now lines.right.now pair };

    fn put_lines<O: Sink>(&self, held: &mut Held, out: &mut O, items: &[Pair]) {
        put_pairs(held, out, self.left, self.right, items);
    }
}

/// The header and the records, and then what waits.
fn put_all<R: Threads + Sync, O: Sink>(
    rt: &R,
    alloc: Global,
    held: &mut Held,
    out: &mut O,
    left: &RowStore,
    right: &RowStore,
    pairs: &[Pair],
    threads: usize,
)
    requires headers { HasHeaders left.now right.now }
    requires pairs { AreWritable left.now right.now pairs.now }
    ensures puts { Puts O.taken O.faults out.old out.new held.old held.new (table_text (joined_records left.now right.now pairs.now)) }
    ensures none { held.new.is_broken ≡ false → held.new.bytes ≡ [] }
{
    put_beside(held, out, &left.find(0), &right.find(0));
    put_in_threads(
        rt,
        alloc,
        held,
        out,
        &Beside { left, right },
        pairs,
        threads,
    );
    held.pass_on(out);
}

/// The record of each pair, up to a write that fails.
fn put_pairs<O: Sink>(
    held: &mut Held,
    out: &mut O,
    left: &RowStore,
    right: &RowStore,
    pairs: &[Pair],
)
    requires { AreWritable left.now right.now pairs.now }
    ensures { Puts O.taken O.faults out.old out.new held.old held.new (table_text (map (beside left.now right.now) pairs.now)) }
{
    'pairs: for at in 0..pairs.len() {
        if held.is_broken() {
            return;
        }
        let pair = pairs[at];
        put_beside(held, out, &left.find(pair.left), &right.find(pair.right));
    }
}

/// The record that has the fields of one and then those of another.
fn put_beside<O: Sink>(held: &mut Held, out: &mut O, left: &Record<'_>, right: &Record<'_>)
    requires left { 0 < length left.now }
    requires right { 0 < length right.now }
    ensures { Puts O.taken O.faults out.old out.new held.old held.new (row_text default_writer (left.now ++ right.now)) }
{
    put_fields(held, out, left);
    held.put(out, b",");
    put_fields(held, out, right);
    held.put(out, b"\n");
}
