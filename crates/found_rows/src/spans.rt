//! The places of a record's fields.

ghost use Rattle.std.specs.Prelude.{◌≡◌, ◌≤◌, ◌<◌, ◌+◌, ◌++◌, ◌∷◌, [], ℕ, List, OnOk, get_or, length};
ghost use Rattle.found_rows.specs.Spans.{AreSpans, fields_in};
ghost use Rattle.csv.specs.declared.parser.State.TheVariants as st;
ghost use Rattle.found_rows.specs.Written.{EndsNoField, between, read_as};

use crate::written::copy_field;
use std::alloc::{AllocError, Global};

/// The most fields of a record that is given. One with more is told by [`Found::Wide`](crate::Found::Wide).
pub const MOST_FIELDS: usize = 64;

/// Where a field lies: in the text, or among the bytes that were copied.
#[derive(Clone, Copy, Drop)]
pub(crate) struct Span {
    start: usize,
    end: usize,
    is_copied: bool,
}

const NO_SPAN: Span = Span {
    start: 0,
    end: 0,
    is_copied: false,
};

/// The places of the fields of a record of some text.
#[derive(Drop)]
pub(crate) struct Spans {
    list: [Span; MOST_FIELDS],
    count: usize,
    copied: Vec<u8>,
}

/// No fields. Takes no memory.
pub(crate) fn no_spans(alloc: Global) -> Spans
    ensures spans { (text : List ℕ) → AreSpans text result }
    ensures none { (text : List ℕ) → fields_in text result ≡ [] }
{
    Spans {
        list: [NO_SPAN; MOST_FIELDS],
        count: 0,
        copied: Vec::new(alloc),
    }
}

impl Spans {
    /// The number of fields.
    #[inline(always)]
    pub(crate) fn count(&self) -> usize
        ensures count { (text : List ℕ) → AreSpans text self.now → result ≡ length (fields_in text self.now) }
        ensures few { (text : List ℕ) → AreSpans text self.now → result ≤ 64 }
    {
        self.count
    }

    /// A field. The text is that of its place.
    #[inline(always)]
    pub(crate) fn field<'a>(&'a self, text: &'a [u8], at: u32) -> &'a [u8]
        requires spans { AreSpans text.now self.now }
        requires place { at < length (fields_in text.now self.now) }
        ensures { result.now ≡ get_or (fields_in text.now self.now) at [] }
    {
        let span = self.list[at as usize];
        if span.is_copied {
            &self.copied.as_slice()[span.start..span.end]
        } else {
            &text[span.start..span.end]
        }
    }

    /// Takes all fields out, and keeps the memory.
    #[inline(always)]
    pub(crate) fn clear(&mut self)
        ensures spans { (text : List ℕ) → AreSpans text self.new }
        ensures none { (text : List ℕ) → fields_in text self.new ≡ [] }
    {
        self.count = 0;
        self.copied.clear();
    }

    /// Puts a field that lies between two places of the text after the others.
    #[inline(always)]
    pub(crate) fn push(&mut self, text: &[u8], start: usize, end: usize)
        requires spans { AreSpans text.now self.old }
        requires room { length (fields_in text.now self.old) < 64 }
        requires order { start ≤ end }
        requires within { end ≤ length text.now }
        ensures spans { AreSpans text.now self.new }
        ensures fields { fields_in text.now self.new ≡ fields_in text.now self.old ++ between start end text.now ∷ [] }
    {
        let _text = text;
        self.list[self.count] = Span {
            start,
            end,
            is_copied: false,
        };
        self.count += 1;
    }

    /// Copies a field that is written with quotes, and puts it after the others.
    #[cold]
    pub(crate) fn push_written(&mut self, text: &[u8], written: &[u8]) -> Result<(), AllocError>
        requires spans { AreSpans text.now self.old }
        requires room { length (fields_in text.now self.old) < 64 }
        requires written { EndsNoField st.StartField written.now }
        ensures spans { OnOk result (AreSpans text.now self.new) }
        ensures fields { OnOk result (fields_in text.now self.new ≡ fields_in text.now self.old ++ read_as written.now ∷ []) }
    {
        let _text = text;
        let start = self.copied.len();
        copy_field(&mut self.copied, written)?;
        self.list[self.count] = Span {
            start,
            end: self.copied.len(),
            is_copied: true,
        };
        self.count += 1;
        Ok(())
    }
}
