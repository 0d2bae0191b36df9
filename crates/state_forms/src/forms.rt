//! Which form a command line names, and its run over the standard streams.

ghost use Rattle.std.specs.Prelude.{◌≡◌, ◌≢◌, ◌<◌, [], ℕ, List, IfSome, get_or, take};
ghost use Rattle.std.specs.Io.KnownBytes.{Appends};
ghost use Rattle.answer_text.specs.Lines.{IsSaid};
ghost use Rattle.answer_text.specs.Words.{texts};
ghost use Rattle.answer_text.specs.declared.status.TheConstants.{MISUSED, READ_FAULT, WRITE_FAULT};
ghost use Rattle.par_io.specs.Faults.{Rose};
ghost use Rattle.state_forms.specs.Forms.{IsFormWhy, IsMadeBy, above_in, below_in, combine_in, finalize_in, form_in, has_end, is_range, usage_line};
ghost use Rattle.state_query.specs.Stops.{line, stop_says};
ghost use Rattle.state_query.specs.declared.stop.Stop.{Stop};
ghost use Rattle.state_query.specs.declared.stop.TheConstants.{WRITTEN};

use answer_text::{MISUSED, write_pieces};
use par_io::{Sink, Source};
use state_query::{RangeWords, combine_states, finalize_range, finalize_states};
use std::alloc::Global;
use std::thread::Threads;

/// How many threads make the lines of a table, the caller's among them.
const THREADS: usize = 3;

/// What is done with the files of the standard input; `Misused` if the words after the form's name are none of those that it takes.
#[derive(Clone, Copy, Debug, PartialEq, Eq)]
pub enum Form {
    Combine,
    Finalize,
    Range,
    Misused,
}

/// The form that the words after the program's name name, if the first of them is one's name.
pub fn form_of(words: &[String]) -> Option<Form>
    ensures { result ≡ form_in (texts words.now) }
{
    let Some(word) = words.first() else {
        return None;
    };
    if word.as_str() == "combine" {
        return Some(combine_form(words));
    }
    if word.as_str() == "finalize" {
        return Some(finalize_form(words));
    }
    None
}

/// The form of words of which the first is `combine`.
fn combine_form(words: &[String]) -> Form
    ensures { result ≡ combine_in (texts words.now) }
{
    if words.len() == 1 {
        Form::Combine
    } else {
        Form::Misused
    }
}

/// The form of words of which the first is `finalize`.
fn finalize_form(words: &[String]) -> Form
    ensures { result ≡ finalize_in (texts words.now) }
{
    if words.len() == 1 {
        return Form::Finalize;
    }
    if is_range(words) {
        return Form::Range;
    }
    Form::Misused
}

/// Whether the words after the first name one end of a range or both, the low one first.
fn is_range(words: &[String]) -> bool
    ensures { result ≡ is_range (texts words.now) }
{
    if words.len() == 3 {
        return has_end(words, 1, "--above") || has_end(words, 1, "--below");
    }
    if words.len() == 5 {
        return has_end(words, 1, "--above") && has_end(words, 3, "--below");
    }
    false
}

/// The ends of a range that the words after the first name, each empty if there is none.
fn range_of(words: &[String]) -> RangeWords<'_>
    ensures above { result.above.now ≡ above_in (texts words.now) }
    ensures below { result.below.now ≡ below_in (texts words.now) }
{
    RangeWords {
        above: above_of(words).as_bytes(),
        below: below_of(words).as_bytes(),
    }
}

/// The low end of a range.
fn above_of(words: &[String]) -> &str
    ensures { result.now ≡ above_in (texts words.now) }
{
    if has_end(words, 1, "--above") {
        return word_at(words, 2);
    }
    ""
}

/// The high end of a range.
fn below_of(words: &[String]) -> &str
    ensures { result.now ≡ below_in (texts words.now) }
{
    if has_end(words, 1, "--below") {
        return word_at(words, 2);
    }
    if has_end(words, 3, "--below") {
        return word_at(words, 4);
    }
    ""
}

/// Whether the word at a place is this option, and one that is not empty comes after it.
fn has_end(words: &[String], at: usize, option: &str) -> bool
    requires { at < 8 }
    ensures { result ≡ has_end (texts words.now) at option.now }
{
    word_at(words, at) == option && !word_at(words, at + 1).is_empty()
}

/// The word at a place, or an empty one if there is none.
fn word_at(words: &[String], at: usize) -> &str
    ensures { result.now ≡ get_or (texts words.now) at [] }
{
    match words.get(at) {
        Some(word) => word.as_str(),
        None => "",
    }
}

/// Reads the files that the source has, one after another, and writes them as one file, or the table that they come to, or the range of it
/// whose ends the words name, or a line to `err` that says why there is none; the exit status. Time and memory are those of
/// [`combine_states`], [`finalize_states`] and [`finalize_range`].
pub fn run_form<R: Threads + Sync, S: Source, O: Sink, E: Sink>(
    rt: &R,
    alloc: Global,
    form: Form,
    words: &[String],
    source: &mut S,
    out: &mut O,
    err: &mut E,
) -> u8
    // A name with words after it is answered before anything is read.
    ensures misused { form ≡ Form.Misused → (result ≡ MISUSED) × IsSaid (E.taken err.old) (E.taken err.new) (E.faults err.old) (E.faults err.new) usage_line }
    ensures unread { form ≡ Form.Misused → source.new ≡ source.old }

    // On every other status but that of an answer there is a reason; the status is the reason's, and so is the line that `err`
    // receives, or a prefix of it if a write of it failed. A fault is answered only if it came in this call.
    ensures why { (form ≢ Form.Misused) → (result ≢ WRITTEN) → (why : Stop) × IfSome (S.left source.old) (λ bytes. IsFormWhy form (texts words.now) bytes why) × (result ≡ (stop_says why).0)
        × IsSaid (E.taken err.old) (E.taken err.new) (E.faults err.old) (E.faults err.new) (line (stop_says why).1) }
    ensures read_fault { result ≡ READ_FAULT → Rose (S.faults source.old) (S.faults source.new) }
    ensures write_fault { result ≡ WRITE_FAULT → Rose (O.faults out.old) (O.faults out.new) }
    ensures quiet { result ≡ WRITTEN → err.new ≡ err.old }

    // `out` receives what the form makes of the files, or a prefix of it if a write failed, and on every other status nothing.
    ensures made { result ≡ WRITTEN → IfSome (S.left source.old) (λ bytes. (text : List ℕ) × IsMadeBy form (texts words.now) bytes text × Appends (O.taken out.old) (O.taken out.new) text) }
    ensures part { result ≡ WRITE_FAULT → IfSome (S.left source.old) (λ bytes.
        (text : List ℕ) × IsMadeBy form (texts words.now) bytes text × (n : ℕ) × Appends (O.taken out.old) (O.taken out.new) (take n text)) }
    ensures nothing { (result ≢ WRITTEN) → (result ≢ WRITE_FAULT) → out.new ≡ out.old }
{
    match form {
        Form::Combine => combine_states(alloc, source, out, err),
        Form::Finalize => finalize_states(rt, alloc, THREADS, source, out, err),
        Form::Range => finalize_range(alloc, range_of(words), source, out, err),
        Form::Misused => {
            let _ = write_pieces(
                err,
                &[
                    "parstream: usage: parstream combine < STATES, or parstream finalize [--above RECORD] [--below RECORD] < STATES\n",
                ],
            );
            MISUSED
        }
    }
}
