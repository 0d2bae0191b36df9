//! The first word of a command line of `parstream` that is not understood, and what may come in its place.
//!
//! Which words are a query is known to `plan_spec` only. So the words that are understood are found by asking it: the
//! first few words are, if they are a query, or are one once `--agg=count`, the `--decimals` of the line, or both come
//! before them. A query has at most thirty words: eight options, of which one is given eight times and one has no value,
//! with their values, and `--`. So a longer line is asked about no further than that.

ghost use Rattle.std.specs.Prelude.{◌≡◌, ◌<◌, ◌≤◌, ◌++◌, ◌∷◌, [], IfOk, IfSome, OnOk, bytes_eq, codes, if◌then◌else◌, is_none, is_some, length, slice_index_or, string_bytes, take};
ghost use Rattle.std.specs.List.{list_any, position_or_len};
ghost use Rattle.answer_text.specs.Words.{texts};
ghost use Rattle.plan_spec.specs.Query.{stream_query_of};
ghost use Rattle.input_hints.specs.Wrong.{expected_text, front_of, given_places, is_begun, is_begun_after, is_decimals, is_ended, is_equals, is_itself, is_named, is_value, may_repeat, name_in, name_of, name_text, takes_value, understood, values_text, wants_value, wrong_after, wrong_in, wrong_option};

use plan_spec::{Plan, PlanAnswer};
use std::alloc::{AllocError, Global};

/// The most words that a query has.
pub const MOST_WORDS: usize = 30;

/// An option of `parstream`.
#[derive(Clone, Copy, Debug, PartialEq, Eq)]
pub enum Name {
    Group,
    Agg,
    Where,
    Workers,
    Decimals,
    Separator,
    Null,
    Trim,
}

/// What may come where a word is not understood.
#[derive(Clone, Copy, Debug, PartialEq, Eq)]
pub enum Expected {
    /// An option.
    Name,
    /// An option that was not given before, or may be given again.
    Other,
    /// The value of an option.
    Value(Name),
    /// `--agg` with its value, which is missing.
    Items,
    /// No word, after `--`.
    Nothing,
}

/// Which word is not understood: its place among the words, counted from 0, or their number if one is missing after them.
#[derive(Clone, Copy, Debug, PartialEq, Eq)]
pub struct Wrong {
    pub at: usize,
    pub expected: Expected,
}

/// The first word that is not understood, if the words are no query of `parstream`. The time and the memory are linear in
/// the words.
pub fn wrong_word(alloc: Global, words: &[String]) -> Result<Option<Wrong>, AllocError>
    ensures none { IfOk result (λ wrong. is_none wrong ≡ is_some (stream_query_of (texts words.now))) }
    ensures first { IfOk result (λ wrong. IfSome wrong (λ wrong. wrong ≡ wrong_in (texts words.now))) }
{
    if is_query(alloc, words)? {
        return Ok(None);
    }
    Ok(Some(first_wrong(alloc, words)?))
}

/// Whether words are a query of `parstream`.
fn is_query(alloc: Global, words: &[String]) -> Result<bool, AllocError>
    ensures { IfOk result (λ is. is ≡ is_some (stream_query_of (texts words.now))) }
{
    match Plan::of_stream_words(alloc, words) {
        Ok(_) => Ok(true),
        Err(PlanAnswer::Usage) => Ok(false),
        Err(PlanAnswer::Memory) => Err(AllocError),
    }
}

/// The first word that is not understood, of words that are no query.
fn first_wrong(alloc: Global, words: &[String]) -> Result<Wrong, AllocError>
    ensures { IfOk result (λ wrong. wrong ≡ wrong_in (texts words.now)) }
{
    let understood = count_understood(alloc, words)?;
    Ok(wrong_after(words, understood))
}

/// How many of the words, from the first on, are understood.
fn count_understood(alloc: Global, words: &[String]) -> Result<usize, AllocError>
    ensures count { IfOk result (λ count. count ≡ understood (texts words.now)) }
    ensures within { IfOk result (λ count. count ≤ length words.now) }
{
    let places = given_places(words);
    let mut count = words.len().min(MOST_WORDS);
    'counts: while count > 0 {
        if is_begun(alloc, places, &words[..count])? {
            return Ok(count);
        }
        count -= 1;
    }
    Ok(0)
}

/// `--decimals` with its value, as the words first give it: in one word with an equals sign, or in two.
fn given_places(words: &[String]) -> &[String]
    ensures { texts result.now ≡ given_places (texts words.entry.now) }
{
    let at = decimals_place(words);
    let size = option_size(words, at);
    let left = &words[at..];
    &left[..size.min(left.len())]
}

/// How many words an option and its value are: one, if the word at its place has an equals sign, and otherwise two.
fn option_size(words: &[String], at: usize) -> usize
    ensures { result ≡ (if list_any is_equals (slice_index_or (texts words.now) at []) then 1 else 2) }
{
    if at < words.len() && has_value(word_at(words, at)) {
        1
    } else {
        2
    }
}

/// The place of the first word that is `--decimals`, with its value or without, or the number of words.
#[tactic(auto, using(crate::proofs::Words::place_of_decimals))]
fn decimals_place(words: &[String]) -> usize
    ensures place { result ≡ position_or_len is_decimals (texts words.now) }
    ensures within { result ≤ length words.now }
{
    place_of_decimals(words)
}

fn place_of_decimals(words: &[String]) -> usize
    ensures place { result ≡ position_or_len (λ word. is_decimals (string_bytes word)) words.now }
    ensures within { result ≤ length words.now }
{
    words
        .iter()
        .take_while(|word| !is_decimals(word.as_str()))
        .count()
}

/// Whether a word is `--decimals`, with its value or without.
fn is_decimals(word: &str) -> bool
    ensures { result ≡ is_decimals word.now }
{
    front(word) == "--decimals"
}

/// Whether words begin a query, by themselves or once these places come before them.
fn is_begun(alloc: Global, places: &[String], words: &[String]) -> Result<bool, AllocError>
    ensures { IfOk result (λ is. is ≡ is_begun (texts places.now) (texts words.now)) }
{
    if is_begun_after(alloc, &[], words)? {
        return Ok(true);
    }
    is_begun_after(alloc, places, words)
}

/// Whether words, with others before them, are a query, or are one once `--agg=count` comes before all.
fn is_begun_after(alloc: Global, before: &[String], words: &[String]) -> Result<bool, AllocError>
    ensures { IfOk result (λ is. is ≡ is_begun_after (texts before.now) (texts words.now)) }
{
    let counting = with_count(alloc, before, words)?;
    if is_query(alloc, &counting.as_slice()[1..])? {
        return Ok(true);
    }
    is_query(alloc, counting.as_slice())
}

/// The words with others before them, and `--agg=count` before all.
fn with_count(alloc: Global, before: &[String], words: &[String]) -> Result<Vec<String>, AllocError>
    ensures { IfOk result (λ counting. texts counting.items ≡ codes "--agg=count" ∷ (texts before.entry.now ++ texts words.entry.now)) }
{
    let mut counting = Vec::new(alloc);
    counting.push(String::from_str(alloc, "--agg=count")?)?;
    push_all(alloc, before, &mut counting)?;
    push_all(alloc, words, &mut counting)?;
    Ok(counting)
}

/// Puts copies of the words after the others.
fn push_all(alloc: Global, words: &[String], list: &mut Vec<String>) -> Result<(), AllocError>
    ensures { OnOk result (texts list.new.items ≡ texts list.old.items ++ texts words.now) }
{
    'words: for word in words {
        list.push(String::from_str(alloc, word.as_str())?)?;
    }
    Ok(())
}

/// What is wrong after the words that are understood.
fn wrong_after(words: &[String], understood: usize) -> Wrong
    requires { understood ≤ length words.now }
    ensures { result ≡ wrong_after (texts words.now) understood }
{
    if understood == words.len() {
        return Wrong {
            at: understood,
            expected: Expected::Items,
        };
    }
    if is_ended(words, understood) {
        return Wrong {
            at: understood,
            expected: Expected::Nothing,
        };
    }
    match name_of(word_at(words, understood)) {
        None => Wrong {
            at: understood,
            expected: Expected::Name,
        },
        Some(name) => wrong_option(words, understood, name),
    }
}

/// Whether the last of the words that are understood is `--`, after which there may be no other.
fn is_ended(words: &[String], understood: usize) -> bool
    requires { understood ≤ length words.now }
    ensures { result ≡ is_ended (texts words.now) understood }
{
    understood != 0 && (word_at(words, understood - 1) == "--" && !is_value(words, understood - 1))
}

/// Whether the word at a place is the value of an option: the one before it is the name of an option that takes one.
fn is_value(words: &[String], at: usize) -> bool
    requires { at < length words.now }
    ensures { result ≡ is_value (texts words.now) at }
{
    at != 0 && wants_value(word_at(words, at - 1))
}

/// Whether a word is the name of an option that takes a value.
fn wants_value(word: &str) -> bool
    ensures { result ≡ wants_value word.now }
{
    match name_in(word) {
        Some(name) => name.takes_value(),
        None => false,
    }
}

/// What is wrong at a word that begins with the name of an option, after this many words that are understood.
fn wrong_option(words: &[String], understood: usize, name: Name) -> Wrong
    requires { understood < length words.now }
    ensures { result ≡ wrong_option (texts words.now) understood name }
{
    if !name.may_repeat() && is_given(words, understood, name) {
        Wrong {
            at: understood,
            expected: Expected::Other,
        }
    } else if is_itself(name, word_at(words, understood)) {
        Wrong {
            at: understood,
            expected: Expected::Value(name),
        }
    } else {
        Wrong {
            at: understood + 1,
            expected: Expected::Value(name),
        }
    }
}

/// Whether a word that names an option is itself what is not understood, if the value is: it has one, or may have none.
fn is_itself(name: Name, word: &str) -> bool
    ensures { result ≡ is_itself name word.now }
{
    has_value(word) || !name.takes_value()
}

/// A word.
pub(crate) fn word_at(words: &[String], at: usize) -> &str
    requires { at < length words.now }
    ensures { result.now ≡ slice_index_or (texts words.now) at [] }
{
    words[at].as_str()
}

/// Whether a word has an equals sign.
fn has_value(word: &str) -> bool
    ensures { result ≡ list_any is_equals word.now }
{
    word.as_bytes().contains(&b'=')
}

/// Whether one of the first words is this option.
#[tactic(auto, using(crate::proofs::Words::texts_taken))]
fn is_given(words: &[String], count: usize, name: Name) -> bool
    requires { count ≤ length words.now }
    ensures { result ≡ is_named name (take count (texts words.now)) }
{
    is_named(name, &words[..count])
}

/// Whether one of the words is this option.
#[tactic(auto, using(crate::proofs::Words::any_named))]
fn is_named(name: Name, words: &[String]) -> bool
    ensures { result ≡ is_named name (texts words.now) }
{
    has_name(name, words)
}

fn has_name(name: Name, words: &[String]) -> bool
    ensures { result ≡ list_any (λ word. bytes_eq (front_of (string_bytes word)) (name_text name)) words.now }
{
    words.iter().any(|word| front(word.as_str()) == name.text())
}

/// The option that a word begins with the name of.
fn name_of(word: &str) -> Option<Name>
    ensures { result ≡ name_of word.now }
{
    name_in(front(word))
}

/// The option of this name.
fn name_in(text: &str) -> Option<Name>
    ensures { result ≡ name_in text.now }
{
    if text == "--group" {
        Some(Name::Group)
    } else if text == "--agg" {
        Some(Name::Agg)
    } else if text == "--where" {
        Some(Name::Where)
    } else if text == "--workers" {
        Some(Name::Workers)
    } else if text == "--decimals" {
        Some(Name::Decimals)
    } else if text == "--separator" {
        Some(Name::Separator)
    } else if text == "--null" {
        Some(Name::Null)
    } else if text == "--trim" {
        Some(Name::Trim)
    } else {
        None
    }
}

/// A word up to its first equals sign.
fn front(word: &str) -> &str
    ensures { result.now ≡ front_of word.now }
{
    &word[..equals_place(word.as_bytes())]
}

/// Where the first equals sign is, or the end of the word.
fn equals_place(bytes: &[u8]) -> usize
    ensures place { result ≡ position_or_len is_equals bytes.now }
    ensures within { result ≤ length bytes.now }
{
    bytes.iter().take_while(|byte| !is_equals(**byte)).count()
}

fn is_equals(byte: u8) -> bool
    ensures { result ≡ is_equals byte }
{
    byte == b'='
}

impl Name {
    /// How it is written.
    pub fn text(self) -> &'static str
        ensures { result.now ≡ name_text self }
    {
        match self {
            Name::Group => "--group",
            Name::Agg => "--agg",
            Name::Where => "--where",
            Name::Workers => "--workers",
            Name::Decimals => "--decimals",
            Name::Separator => "--separator",
            Name::Null => "--null",
            Name::Trim => "--trim",
        }
    }

    /// Whether it may be given more than once.
    fn may_repeat(self) -> bool
        ensures { result ≡ may_repeat self }
    {
        match self {
            Name::Where => true,
            Name::Group
            | Name::Agg
            | Name::Workers
            | Name::Decimals
            | Name::Separator
            | Name::Null
            | Name::Trim => false,
        }
    }

    /// Whether it takes a value.
    fn takes_value(self) -> bool
        ensures { result ≡ takes_value self }
    {
        match self {
            Name::Trim => false,
            Name::Group
            | Name::Agg
            | Name::Where
            | Name::Workers
            | Name::Decimals
            | Name::Separator
            | Name::Null => true,
        }
    }

    /// What its value may be.
    fn values(self) -> &'static str
        ensures { result.now ≡ values_text self }
    {
        match self {
            Name::Group => "--group takes one to eight names between commas",
            Name::Agg => {
                "--agg takes one to eight of count, count:C, sum:C, min:C, max:C and avg:C between commas, without spaces"
            }
            Name::Where => {
                "--where takes a column, one of = != < <= > >=, and an integer, or a decimal with --decimals, as in 'qty>=10'; after = and != also a text, as in region=north"
            }
            Name::Workers => "--workers takes a number from 0 to 64",
            Name::Decimals => {
                "--decimals takes a number from 0 to 18, or one for each column, as in 'price=2,weight=3'"
            }
            Name::Separator => {
                "--separator takes one character of ASCII that is no quote and ends no line, or tab"
            }
            Name::Null => {
                "--null takes one to eight texts between commas, at most 248 bytes in all"
            }
            Name::Trim => "--trim takes no value",
        }
    }
}

impl Expected {
    /// What may come, as a line says it.
    pub fn text(self) -> &'static str
        ensures { result.now ≡ expected_text self }
    {
        match self {
            Expected::Name => {
                "the options are --group, --agg, --where, --decimals, --separator, --null, --trim, --workers, --order, --limit, --output, --skip-bad and --no-header; the input is the standard input, as in < FILE"
            }
            Expected::Other => "this option may be given once",
            Expected::Value(name) => name.values(),
            Expected::Items => "--agg ITEMS is missing",
            Expected::Nothing => "no word may come after --",
        }
    }
}
