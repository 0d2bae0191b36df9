//! What is shown of a table that was put together in memory.

ghost use Rattle.std.specs.Prelude.{◌≡◌, ◌≢◌, ◌⊎◌, ◌∷◌, ℕ, List, IfErr, IfOk, OnOk};
ghost use Rattle.answer_text.specs.Lines.{IsSaid};
ghost use Rattle.par_io.specs.Faults.{Rose};
ghost use Rattle.par_model.specs.Table.{table_text};
ghost use Rattle.shown_stream.specs.Ended.{EndsFor, PutsPart, PutsShown};
ghost use Rattle.shown_stream.specs.Shown.{IsFormText, by_in, shown_by};
ghost use Rattle.stream_groups.specs.declared.stop.Stop.TheVariants as stop;

use crate::how::{ByColumn, How};
use crate::text::Text;
use par_io::{Sink, write_whole};
use par_stream::{Stop, TABLE, WRITE_FAULT};
use std::alloc::{AllocError, Global};
use table_form::{Form, formed};
use table_order::{By, Order, Shown, places_in, shown_rows};

/// Ends a query whose table and whose line were kept in memory, and which ended with this status: writes what is shown of the
/// table, or the line.
pub(crate) fn end_kept<O: Sink, E: Sink>(
    alloc: Global,
    status: u8,
    table: &Text,
    said: &Text,
    how: How,
    out: &mut O,
    err: &mut E,
) -> u8
    ensures table { result ≡ TABLE → (status ≡ TABLE) × PutsShown how table.now.bytes.items (O.taken out.old) (O.taken out.new) }
    ensures part { result ≡ WRITE_FAULT → (status ≡ TABLE) × PutsPart how table.now.bytes.items (O.taken out.old) (O.taken out.new) }
    ensures nothing { (result ≢ TABLE) → (result ≢ WRITE_FAULT) → out.new ≡ out.old }
    ensures write_fault { result ≡ WRITE_FAULT → Rose (O.faults out.old) (O.faults out.new) }
    ensures quiet { result ≡ TABLE → err.new ≡ err.old }
    ensures why { (result ≢ TABLE) → EndsFor status said.now.bytes.items said.now.faults result (E.taken err.old) (E.taken err.new) (E.faults err.old) (E.faults err.new) }
{
    if status == TABLE {
        return match write_shown(alloc, table.as_slice(), how, out) {
            Ok(()) => TABLE,
            Err(stop) => stop.end(err),
        };
    }
    if status == WRITE_FAULT || said.is_short() {
        return Stop::Memory.end(err);
    }
    say_bytes(err, said.as_slice());
    status
}

/// Writes bytes that were said. A failed write ends it, and changes nothing else.
pub(crate) fn say_bytes<E: Sink>(err: &mut E, said: &[u8])
    ensures { IsSaid (E.taken err.old) (E.taken err.new) (E.faults err.old) (E.faults err.new) said.now }
{
    let _ = write_whole(err, said);
}

/// Writes what is shown of a table.
fn write_shown<O: Sink>(alloc: Global, table: &[u8], how: How, out: &mut O) -> Result<(), Stop>
    ensures whole { OnOk result (PutsShown how table.now (O.taken out.old) (O.taken out.new)) }
    ensures part { IfErr result (λ why. why ≡ stop.WriteFault → PutsPart how table.now (O.taken out.old) (O.taken out.new)) }
    ensures nothing { IfErr result (λ why. (why ≢ stop.WriteFault) → out.new ≡ out.old) }
    ensures write_fault { IfErr result (λ why. why ≡ stop.WriteFault → Rose (O.faults out.old) (O.faults out.new)) }
    ensures why { IfErr result (λ why. (why ≡ stop.WriteFault) ⊎ (why ≡ stop.Memory)) }
{
    let text = text_of(alloc, table, how)?;
    write_whole(out, text.as_slice())?;
    Ok(())
}

/// The text of what is shown of a table.
fn text_of(alloc: Global, table: &[u8], how: How) -> Result<Vec<u8>, AllocError>
    ensures { IfOk result (λ text. (header : List (List ℕ)) (rows : List (List (List ℕ))) → table.now ≡ table_text (header ∷ rows) → IsFormText how header rows text.items) }
{
    let shown = shown_rows(alloc, table, shown_of(table, how))?;
    match how.form {
        Form::Csv => Ok(shown),
        form => formed(alloc, shown.as_slice(), form, how.keys),
    }
}

/// Which rows of a table are shown, and in which order.
fn shown_of(table: &[u8], how: How) -> Shown
    ensures { (header : List (List ℕ)) (rows : List (List (List ℕ))) → table.now ≡ table_text (header ∷ rows) → result ≡ shown_by how rows }
{
    let order = match how.order {
        None => None,
        Some(order) => Some(Order {
            column: order.column.at,
            by: by_of(table, order),
            down: order.down,
        }),
    };
    Shown {
        order,
        limit: how.limit,
    }
}

/// What the fields of the column of an order are compared as.
fn by_of(table: &[u8], order: ByColumn) -> By
    ensures { (header : List (List ℕ)) (rows : List (List (List ℕ))) → table.now ≡ table_text (header ∷ rows) → result ≡ by_in order rows }
{
    if order.column.is_item {
        By::Numbers(places_in(table, order.column.at))
    } else if order.numeric {
        By::Numbers(0)
    } else {
        By::Bytes
    }
}
