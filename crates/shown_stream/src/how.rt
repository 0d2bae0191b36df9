//! How a table is shown, by the options that were taken off the words.

ghost use Rattle.std.specs.Prelude.{◌≡◌, ◌⊎◌, ℕ, List, IfOk, IfSome, MatchResult, codes, string_bytes, true};
ghost use Rattle.std.specs.Result.{is_ok};
ghost use Rattle.answer_text.specs.Lines.{IsSaid};
ghost use Rattle.answer_text.specs.Words.{texts};
ghost use Rattle.shown_words.specs.Asking.{asked_as};
ghost use Rattle.shown_words.specs.Taking.{taken_as};
ghost use Rattle.shown_stream.specs.Ended.{SaysWrong};
ghost use Rattle.shown_stream.specs.Shown.{how_in, how_with};
ghost use Rattle.stream_groups.specs.Lines.{line};
ghost use Rattle.table_form.specs.declared.form.Form.TheVariants as written;

use answer_text::{MISUSED, NO_MEMORY, write_pieces};
use par_io::Sink;
use shown_words::{Asked, Column, Taken, asked_of, column_of, column_text, keys_of, wrong_text};
use std::alloc::{AllocError, Global};
use table_form::Form;

/// An order by a column of the table: whether its fields are integers, and whether the greatest come first.
#[derive(Clone, Copy, Debug)]
pub struct ByColumn {
    pub column: Column,
    pub numeric: bool,
    pub down: bool,
}

/// How a table is shown: the order of its rows, if it is not that of the keys, how many there are at most, its form, and how
/// many of its columns are keys.
#[derive(Clone, Copy, Debug)]
pub struct How {
    pub order: Option<ByColumn>,
    pub limit: Option<usize>,
    pub form: Form,
    pub keys: usize,
}

impl How {
    /// Whether the table is shown as it is.
    pub(crate) fn is_plain(self) -> bool
        ensures { result ≡ true → (self.order ≡ None) × (self.limit ≡ None) × (self.form ≡ written.Csv) }
    {
        match self.form {
            Form::Csv => self.order.is_none() && self.limit.is_none(),
            _ => false,
        }
    }
}

/// How the table is shown, or what is said of the first option that is wrong.
pub(crate) fn how_of(alloc: Global, taken: &Taken<'_>) -> Result<Result<How, String>, AllocError>
    ensures { IfOk result (λ how. MatchResult how (λ how. how_in (taken_as taken.now) ≡ Ok how) (λ text. how_in (taken_as taken.now) ≡ Err (string_bytes text))) }
{
    match asked_of(taken) {
        Ok(asked) => how_with(alloc, taken.rest.as_slice(), asked),
        Err(wrong) => Ok(Err(wrong_text(alloc, taken, wrong)?)),
    }
}

/// The same of options of which each is right by itself: the order may be by a column that the table has not.
fn how_with(
    alloc: Global,
    words: &[String],
    asked: Asked<'_>,
) -> Result<Result<How, String>, AllocError>
    ensures { IfOk result (λ how. MatchResult how (λ how. how_with (texts words.now) (asked_as asked.entry) ≡ Ok how) (λ text. how_with (texts words.now) (asked_as asked.entry) ≡ Err (string_bytes text))) }
{
    let keys = keys_of(alloc, words)?;
    let Some(order) = asked.order else {
        return Ok(Ok(How {
            order: None,
            limit: asked.limit,
            form: asked.form,
            keys,
        }));
    };
    let Some(column) = column_of(alloc, words, order)? else {
        return Ok(Err(column_text(alloc, words, order)?));
    };
    Ok(Ok(How {
        order: Some(ByColumn {
            column,
            numeric: order.numeric,
            down: order.down,
        }),
        limit: asked.limit,
        form: asked.form,
        keys,
    }))
}

/// If an option is wrong, it tells `err` so by a line, and returns the exit status; otherwise none. The time and the memory are
/// linear in the words.
pub fn refuse_options<E: Sink>(alloc: Global, taken: &Taken<'_>, err: &mut E) -> Option<u8>
    ensures statuses { IfSome result (λ status. (status ≡ MISUSED) ⊎ (status ≡ NO_MEMORY)) }

    // None: the options are right, and `err` receives nothing.
    ensures right { result ≡ None → is_ok (how_in (taken_as taken.now)) ≡ true }
    ensures quiet { result ≡ None → err.new ≡ err.old }

    // Otherwise one is wrong, and the line says how, or memory ran out, and the line says so.
    ensures wrong { result ≡ Some MISUSED → (text : List ℕ) × (how_in (taken_as taken.now) ≡ Err text)
        × IsSaid (E.taken err.old) (E.taken err.new) (E.faults err.old) (E.faults err.new) (line text) }
    ensures memory { result ≡ Some NO_MEMORY → IsSaid (E.taken err.old) (E.taken err.new) (E.faults err.old) (E.faults err.new) (line (codes "out of memory")) }
{
    match how_of(alloc, taken) {
        Ok(Ok(_)) => None,
        Ok(Err(text)) => Some(say_wrong(err, text.as_str())),
        Err(AllocError) => Some(say_memory(err)),
    }
}

/// Writes what is said of a wrong option as a line, and gives the status.
pub(crate) fn say_wrong<E: Sink>(err: &mut E, text: &str) -> u8
    ensures status { result ≡ MISUSED }
    ensures said { IsSaid (E.taken err.old) (E.taken err.new) (E.faults err.old) (E.faults err.new) (line text.now) }
{
    say(err, text);
    MISUSED
}

/// Says that memory ran out, and gives the status.
pub(crate) fn say_memory<E: Sink>(err: &mut E) -> u8
    ensures status { result ≡ NO_MEMORY }
    ensures said { IsSaid (E.taken err.old) (E.taken err.new) (E.faults err.old) (E.faults err.new) (line (codes "out of memory")) }
{
    say(err, "out of memory");
    NO_MEMORY
}

/// Writes a text as a line. A failed write ends it, and changes nothing else.
fn say<E: Sink>(err: &mut E, text: &str)
    ensures { IsSaid (E.taken err.old) (E.taken err.new) (E.faults err.old) (E.faults err.new) (line text.now) }
{
    let _ = write_pieces(err, &["parstream: ", text, "\n"]);
}
