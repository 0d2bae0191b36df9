//! What `parstream` doesn't take: words that are no query, and an input that is no comma-separated text. Each is answered
//! by one line, and a status.

ghost use Rattle.std.specs.Prelude.{◌≡◌, ◌⊎◌, ◌++◌, IfOk, IfSome, None, Some, codes, is_none, is_some, string_bytes, true};
ghost use Rattle.std.specs.Io.KnownBytes.{Keeps};
ghost use Rattle.par_io.specs.Faults.{Rose};
ghost use Rattle.answer_text.specs.Lines.{IsSaid};
ghost use Rattle.answer_text.specs.Words.{texts};
ghost use Rattle.plan_spec.specs.Query.{stream_query_of};
ghost use Rattle.input_hints.specs.Kinds.{kind_in, kind_text};
ghost use Rattle.input_hints.specs.Peeking.{peeked_faults, peeked_left};
ghost use Rattle.input_hints.specs.Refused.{line, place_text, refused_text, wrong_text};
ghost use Rattle.input_hints.specs.Wrong.{wrong_in};
ghost use Rattle.input_hints.specs.declared.kind.Kind.{Kind};

use crate::peeked::Peeked;
use crate::wrong::{Wrong, word_at, wrong_word};
use answer_text::{MISUSED, NO_MEMORY, READ_FAULT, write_pieces};
use par_io::{Sink, Source};
use shown_text::put_shown;
use std::alloc::{AllocError, Global};

/// Of words that are no query of `parstream` it tells `err` the first that is not understood, and what may come there, and
/// returns the exit status. If they are a query it returns none. The time and the memory are linear in the words.
pub fn refuse_words<E: Sink>(alloc: Global, words: &[String], err: &mut E) -> Option<u8>
    ensures statuses { IfSome result (λ status. (status ≡ MISUSED) ⊎ (status ≡ NO_MEMORY)) }

    // None: the words are a query, and `err` receives nothing.
    ensures query { result ≡ None → is_some (stream_query_of (texts words.now)) ≡ true }
    ensures quiet { result ≡ None → err.new ≡ err.old }

    // Otherwise they are none, and the line names the word, or memory ran out, and the line says so.
    ensures none { result ≡ Some MISUSED → stream_query_of (texts words.now) ≡ None }
    ensures wrong { result ≡ Some MISUSED → IsSaid (E.taken err.old) (E.taken err.new) (E.faults err.old) (E.faults err.new) (line (refused_text (texts words.now))) }
    ensures memory { result ≡ Some NO_MEMORY → IsSaid (E.taken err.old) (E.taken err.new) (E.faults err.old) (E.faults err.new) (line (codes "out of memory")) }
{
    match refusal_of(alloc, words) {
        Ok(None) => None,
        Ok(Some(text)) => {
            say(err, text.as_str());
            Some(MISUSED)
        }
        Err(AllocError) => {
            say(err, "out of memory");
            Some(NO_MEMORY)
        }
    }
}

/// If the input is no comma-separated text by its first bytes, it tells `err` what it is, with a command that makes text
/// of it, and returns the exit status. Otherwise it returns none. No byte of the input is lost by it. It takes no memory.
pub fn refuse_input<S: Source, E: Sink>(source: &mut Peeked<S>, err: &mut E) -> Option<u8>
    ensures statuses { IfSome result (λ status. (status ≡ MISUSED) ⊎ (status ≡ READ_FAULT)) }
    ensures left { Keeps (peeked_left S.left source.old) (peeked_left S.left source.new) }

    // None: the input may be text, and `err` receives nothing.
    ensures text { result ≡ None → IfSome (peeked_left S.left source.old) (λ bytes. kind_in bytes ≡ None) }
    ensures quiet { result ≡ None → err.new ≡ err.old }

    // Otherwise the line says what the input is, or a read failed, and the line says so.
    ensures kind { result ≡ Some MISUSED → (kind : Kind) × IfSome (peeked_left S.left source.old) (λ bytes. kind_in bytes ≡ Some kind)
        × IsSaid (E.taken err.old) (E.taken err.new) (E.faults err.old) (E.faults err.new) (line (kind_text kind)) }
    ensures read_fault { result ≡ Some READ_FAULT → Rose (peeked_faults S.faults source.old) (peeked_faults S.faults source.new)
        × IsSaid (E.taken err.old) (E.taken err.new) (E.faults err.old) (E.faults err.new) (line (codes "read fault")) }
{
    match source.kind() {
        Ok(None) => None,
        Ok(Some(kind)) => {
            say(err, kind.text());
            Some(MISUSED)
        }
        Err(_) => {
            say(err, "read fault");
            Some(READ_FAULT)
        }
    }
}

/// Writes a text as a line. A failed write ends it, and changes nothing else.
fn say<E: Sink>(err: &mut E, text: &str)
    ensures { IsSaid (E.taken err.old) (E.taken err.new) (E.faults err.old) (E.faults err.new) (line text.now) }
{
    let _ = write_pieces(err, &["parstream: ", text, "\n"]);
}

/// What is said of words that are no query.
fn refusal_of(alloc: Global, words: &[String]) -> Result<Option<String>, AllocError>
    ensures none { IfOk result (λ text. is_none text ≡ is_some (stream_query_of (texts words.now))) }
    ensures text { IfOk result (λ text. IfSome text (λ text. string_bytes text ≡ refused_text (texts words.now))) }
{
    match wrong_word(alloc, words)? {
        None => Ok(None),
        Some(wrong) => Ok(Some(wrong_text(alloc, words, wrong)?)),
    }
}

/// What is said of a word that is not understood.
fn wrong_text(alloc: Global, words: &[String], wrong: Wrong) -> Result<String, AllocError>
    ensures { IfOk result (λ text. string_bytes text ≡ wrong_text (texts words.now) wrong) }
{
    let mut text = String::new(alloc);
    put_place(&mut text, words, wrong.at)?;
    text.push_str(wrong.expected.text())?;
    text.push_str("; see parstream --help")?;
    Ok(text)
}

/// Puts what is said of the place of a word: the word, or that one is missing.
fn put_place(text: &mut String, words: &[String], at: usize) -> Result<(), AllocError>
    ensures { IfOk result (λ _. string_bytes text.new ≡ string_bytes text.old ++ place_text (texts words.now) at) }
{
    if at >= words.len() {
        text.push_str("a word is missing at the end: ")?;
        return Ok(());
    }
    put_shown(text, word_at(words, at).as_bytes())?;
    text.push_str(" is not understood: ")?;
    Ok(())
}
