//! The writing of a record, in the bytes that the crate `csv` writes for it: field by field, from where they lie.

ghost use Rattle.std.specs.Prelude.{◌≡◌, ◌++◌, ◌∷◌, [], if◌then◌else◌, true};
ghost use Rattle.csv.specs.Writing.{default_writer, escaped, field_text, is_blank, needs_byte, needs_quotes, next_sep, row_body, row_text};
ghost use Rattle.answer_text.specs.Held.{Puts};
ghost use Rattle.answer_text.specs.Special.{BeginsSpecial};

use crate::held::Held;
use csv_rows::Record;
use par_io::Sink;

/// Puts a record after what waits.
pub fn put_record<O: Sink>(held: &mut Held, out: &mut O, row: &Record<'_>)
    ensures { Puts O.taken O.faults out.old out.new held.old held.new (row_text default_writer row.now) }
{
    put_known(held, out, row, false);
}

/// Whether a record begins with a byte that calls for quotes. It reads where the record lies, and its first byte: a
/// caller that asks this of several records before it puts them waits for the memory of all of them at once.
pub fn begins_special(row: &Record<'_>) -> bool
    ensures { result ≡ true → BeginsSpecial row.now }
{
    row.width() > 0 && starts_special(row.field(0))
}

/// Puts a record that is known to begin with a byte that calls for quotes, or of which nothing is known.
pub fn put_known<O: Sink>(held: &mut Held, out: &mut O, row: &Record<'_>, begins: bool)
    requires known { begins ≡ true → BeginsSpecial row.now }
    ensures { Puts O.taken O.faults out.old out.new held.old held.new (row_text default_writer row.now) }
{
    put_known_fields(held, out, row, begins);
    held.put(out, row_end(row));
}

/// Puts the fields of a record, with the commas between them.
pub fn put_fields<O: Sink>(held: &mut Held, out: &mut O, row: &Record<'_>)
    ensures { Puts O.taken O.faults out.old out.new held.old held.new (row_body default_writer row.now) }
{
    put_known_fields(held, out, row, false);
}

/// Puts the fields of a record, with the commas between them; `begins` says that the record is known to begin with a
/// byte that calls for quotes.
fn put_known_fields<O: Sink>(held: &mut Held, out: &mut O, row: &Record<'_>, begins: bool)
    requires known { begins ≡ true → BeginsSpecial row.now }
    ensures { Puts O.taken O.faults out.old out.new held.old held.new (row_body default_writer row.now) }
{
    for at in 0..row.width() {
        held.put(out, separator(at));
        put_field(held, out, row.field(at), is_first(at, begins));
    }
}

/// Whether the field at a place is known to begin with a byte that calls for quotes: the first is, if `begins`.
fn is_first(at: u32, begins: bool) -> bool
    ensures { result ≡ true → (at ≡ 0) × (begins ≡ true) }
{
    at == 0 && begins
}

/// What comes before the field at a place.
fn separator(at: u32) -> &'static [u8]
    ensures { result.now ≡ next_sep default_writer at }
{
    if at == 0 { b"" } else { b"," }
}

/// What ends a record: two quotes stand for a lone empty field.
fn row_end(row: &Record<'_>) -> &'static [u8]
    ensures { result.now ≡ (if is_blank default_writer row.now then 34 ∷ 34 ∷ [] else []) ++ 10 ∷ [] }
{
    if is_blank(row) { b"\"\"\n" } else { b"\n" }
}

/// Whether a record is a lone empty field, or nothing at all.
fn is_blank(row: &Record<'_>) -> bool
    ensures { result ≡ is_blank default_writer row.now }
{
    let width = row.width();
    if width > 1 {
        return false;
    }
    width == 0 || row.field(0).is_empty()
}

/// Puts a field, in quotes if it calls for them; `special` says that it is known to.
fn put_field<O: Sink>(held: &mut Held, out: &mut O, field: &[u8], special: bool)
    requires known { special ≡ true → needs_quotes default_writer field.now ≡ true }
    ensures { Puts O.taken O.faults out.old out.new held.old held.new (field_text default_writer field.now) }
{
    if is_quoted(field, special) {
        held.put(out, b"\"");
        put_escaped(held, out, field);
        held.put(out, b"\"");
    } else {
        held.put(out, field);
    }
}

/// Whether a field calls for quotes; `special` says that it is known to.
fn is_quoted(field: &[u8], special: bool) -> bool
    requires known { special ≡ true → needs_quotes default_writer field.now ≡ true }
    ensures { result ≡ needs_quotes default_writer field.now }
{
    special || has_special(field)
}

/// Whether the first byte of a field calls for quotes.
fn starts_special(field: &[u8]) -> bool
    ensures { result ≡ true → needs_quotes default_writer field.now ≡ true }
{
    !field.is_empty() && is_special(field[0])
}

/// Whether a byte of the field calls for quotes.
fn has_special(field: &[u8]) -> bool
    ensures { result ≡ needs_quotes default_writer field.now }
{
    field.iter().any(|byte| is_special(*byte))
}

/// Whether a byte calls for quotes.
fn is_special(byte: u8) -> bool
    ensures { result ≡ needs_byte default_writer byte }
{
    byte == b',' || byte == b'"' || byte == b'\r' || byte == b'\n'
}

/// Puts the bytes of a field, each quote twice.
fn put_escaped<O: Sink>(held: &mut Held, out: &mut O, field: &[u8])
    ensures { Puts O.taken O.faults out.old out.new held.old held.new (escaped default_writer field.now) }
{
    for byte in field {
        put_byte(held, out, *byte);
    }
}

/// Puts a byte, and a quote twice.
fn put_byte<O: Sink>(held: &mut Held, out: &mut O, byte: u8)
    ensures { Puts O.taken O.faults out.old out.new held.old held.new (escaped default_writer (byte ∷ [])) }
{
    if byte == b'"' {
        held.put(out, b"\"\"");
    } else {
        held.put(out, &[byte]);
    }
}
