//! The writing of rows in order: the header and then the rows. With one thread they go out one by one, so nothing of
//! the table is copied but what waits for the next write. With more, the text of the next rows is made by all threads,
//! each of a range of them, and then goes out, before that of the rows after them is made.

ghost use Rattle.std.specs.Prelude.{◌≡◌, ◌≢◌, ◌⊎◌, ◌<◌, ◌≤◌, [], ℕ, All, IfErr, OnOk, false, length, take};
ghost use Rattle.std.specs.Io.KnownBytes.{Appends};
ghost use Rattle.gather_merge.specs.Order.{IsOrder, ordered};
ghost use Rattle.order_query.specs.Pieces.{AreKnown, rows_text};
ghost use Rattle.par_io.specs.Faults.{Rose};
ghost use Rattle.par_model.specs.Table.{table_text};
ghost use Rattle.answer_text.specs.Held.{Puts};
ghost use Rattle.table_query.specs.Ready.{IsBound};
ghost use Rattle.table_query.specs.declared.stop.Stop.TheVariants as stop;

use answer_text::{Held, Lines, begins_special, put_in_threads, put_known, put_record};
use csv_rows::RowStore;
use gather_merge::Order;
use par_io::Sink;
use std::alloc::Global;
use std::thread::Threads;
use table_query::{Ready, Stop};

/// How many rows are looked up before they are put.
const AHEAD: usize = 16;

/// Writes the header and the rows in this order, with a text that is made by at most this many threads, the caller's
/// among them.
pub(crate) fn write_rows<R: Threads + Sync, O: Sink>(
    rt: &R,
    alloc: Global,
    ready: &Ready,
    order: &Order,
    threads: usize,
    out: &mut O,
) -> Result<(), Stop>
    requires bound { IsBound ready.now }
    requires order { IsOrder ready.now.bound ready.now.rows order.now }
    ensures rows { OnOk result (Appends (O.taken out.old) (O.taken out.new) (table_text (ordered ready.now.rows order.now))) }
    ensures part { IfErr result (λ why. why ≡ stop.WriteFault → (n : ℕ) × Appends (O.taken out.old) (O.taken out.new) (take n (table_text (ordered ready.now.rows order.now)))) }
    ensures nothing { IfErr result (λ why. (why ≢ stop.WriteFault) → out.new ≡ out.old) }
    ensures write_fault { IfErr result (λ why. why ≡ stop.WriteFault → Rose (O.faults out.old) (O.faults out.new)) }
    ensures why { IfErr result (λ why. (why ≡ stop.WriteFault) ⊎ (why ≡ stop.Memory)) }
{
    let mut held = Held::new(alloc)?;
    put_all(
        rt,
        alloc,
        &mut held,
        out,
        &ready.rows,
        order.numbers(),
        threads,
    );
    if held.is_broken() {
        return Err(Stop::WriteFault);
    }
    Ok(())
}

/// The rows of a store, by their numbers.
#[derive(Drop)]
struct Numbered<'a> {
    rows: &'a RowStore,
}

impl<'a> Lines for Numbered<'a> {
    ghost use Rattle.std.specs.Prelude.{◌<◌, length};
    ghost use Rattle.csv_rows.specs.Records.{record_at};

    type Item = u64;

    ghost fits = { λ lines row. row < length lines.rows.now };

    ghost record_of = { λ lines row. record_at lines.rows.now row };

    fn put_lines<O: Sink>(&self, held: &mut Held, out: &mut O, items: &[u64]) {
        put_rows(held, out, self.rows, items);
    }
}

/// The header and the rows, and then what waits.
fn put_all<R: Threads + Sync, O: Sink>(
    rt: &R,
    alloc: Global,
    held: &mut Held,
    out: &mut O,
    rows: &RowStore,
    numbers: &[u64],
    threads: usize,
)
    requires header { 0 < length rows.now }
    requires rows { All (λ row. row < length rows.now) numbers.now }
    ensures puts { Puts O.taken O.faults out.old out.new held.old held.new (table_text (ordered rows.now numbers.now)) }
    ensures none { held.new.is_broken ≡ false → held.new.bytes ≡ [] }
{
    put_record(held, out, &rows.find(0));
    put_in_threads(rt, alloc, held, out, &Numbered { rows }, numbers, threads);
    held.pass_on(out);
}

/// The rows, up to a write that fails. Rows in order lie all over the memory, so several at a time are looked up before
/// the first of them is put.
fn put_rows<O: Sink>(held: &mut Held, out: &mut O, rows: &RowStore, numbers: &[u64])
    requires { All (λ row. row < length rows.now) numbers.now }
    ensures { Puts O.taken O.faults out.old out.new held.old held.new (rows_text rows.now numbers.now) }
{
    let mut at = 0;
    'stretches: while at < numbers.len() {
        if held.is_broken() {
            return;
        }
        let end = at + AHEAD.min(numbers.len() - at);
        put_block(held, out, rows, &numbers[at..end]);
        at = end;
    }
}

/// A few rows.
fn put_block<O: Sink>(held: &mut Held, out: &mut O, rows: &RowStore, numbers: &[u64])
    requires rows { All (λ row. row < length rows.now) numbers.now }
    requires few { length numbers.now ≤ AHEAD }
    ensures { Puts O.taken O.faults out.old out.new held.old held.new (rows_text rows.now numbers.now) }
{
    let begins = look_ahead(rows, numbers);
    for at in 0..numbers.len() {
        put_known(held, out, &rows.find(numbers[at]), begins[at]);
    }
}

/// Whether each of a few rows begins with a byte that calls for quotes.
fn look_ahead(rows: &RowStore, numbers: &[u64]) -> [bool; AHEAD]
    requires rows { All (λ row. row < length rows.now) numbers.now }
    requires few { length numbers.now ≤ AHEAD }
    ensures { AreKnown rows.now numbers.now result (length numbers.now) }
{
    let mut begins = [false; AHEAD];
    for place in 0..numbers.len() {
        begins[place] = begins_special(&rows.find(numbers[place]));
    }
    begins
}
