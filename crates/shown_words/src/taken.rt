//! The options taken off the words.

ghost use Rattle.std.specs.Prelude.{◌≡◌, IfOk, OnOk, option_map};
ghost use Rattle.answer_text.specs.Words.{texts};
ghost use Rattle.shown_words.specs.Taking.{has_no_header, name_in, option_in, taken_as, took_more, took_of, took_option, with_name, with_value};
ghost use Rattle.shown_words.specs.Words.{option_as};

use std::alloc::{AllocError, Global};

/// An option that says how a table is shown, how many refused rows may be left out, or that the input has no header.
#[derive(Clone, Copy, Debug, PartialEq, Eq)]
pub enum Name {
    Order,
    Limit,
    Output,
    SkipBad,
    NoHeader,
}

/// The words that are left, the values of each option, and the option that the last word names if its value is missing. Each
/// `--no-header` has the empty value, or what comes after an equals sign.
#[derive(Drop)]
pub struct Taken<'a> {
    pub rest: Vec<String>,
    pub orders: Vec<&'a str>,
    pub limits: Vec<&'a str>,
    pub outputs: Vec<&'a str>,
    pub skips: Vec<&'a str>,
    pub no_headers: Vec<&'a str>,
    pub next: Option<Name>,
}

impl Taken<'_> {
    /// Whether the input has no header.
    pub fn has_no_header(&self) -> bool
        ensures { result ≡ has_no_header (taken_as self.now) }
    {
        !self.no_headers.is_empty()
    }
}

/// The options of the words. The time and the memory are linear in the words.
pub fn take_options<'a>(alloc: Global, words: &'a [String]) -> Result<Taken<'a>, AllocError>
    ensures { IfOk result (λ taken. taken_as taken ≡ took_of (texts words.entry.now)) }
{
    let mut taken = Taken {
        rest: Vec::new(alloc),
        orders: Vec::new(alloc),
        limits: Vec::new(alloc),
        outputs: Vec::new(alloc),
        skips: Vec::new(alloc),
        no_headers: Vec::new(alloc),
        next: None,
    };
    'words: for word in words {
        take_word(alloc, &mut taken, word.as_str())?;
    }
    Ok(taken)
}

/// Takes one word more: the value of the option before it, an option, or another word.
fn take_word<'a>(alloc: Global, taken: &mut Taken<'a>, word: &'a str) -> Result<(), AllocError>
    ensures { OnOk result (taken_as taken.new ≡ took_more (taken_as taken.old) word.entry.now) }
{
    match taken.next {
        Some(name) => put_value(taken, name, word),
        None => take_option(alloc, taken, word),
    }
}

/// Takes a word that is the value of no option.
fn take_option<'a>(alloc: Global, taken: &mut Taken<'a>, word: &'a str) -> Result<(), AllocError>
    requires { taken.old.next ≡ None }
    ensures { OnOk result (taken_as taken.new ≡ took_option (taken_as taken.old) word.entry.now (option_in word.entry.now)) }
{
    match option_of(word) {
        None => put_rest(alloc, taken, word),
        Some((name, None)) => put_name(taken, name),
        Some((name, Some(value))) => put_value(taken, name, value),
    }
}

/// An option whose value is the next word, unless it takes none.
fn put_name(taken: &mut Taken<'_>, name: Name) -> Result<(), AllocError>
    requires { taken.old.next ≡ None }
    ensures { OnOk result (taken_as taken.new ≡ with_name (taken_as taken.old) name) }
{
    match name {
        Name::NoHeader => put_value(taken, name, ""),
        _ => {
            taken.next = Some(name);
            Ok(())
        }
    }
}

/// One value more of an option.
fn put_value<'a>(taken: &mut Taken<'a>, name: Name, value: &'a str) -> Result<(), AllocError>
    ensures { OnOk result (taken_as taken.new ≡ with_value (taken_as taken.old) name value.entry.now) }
{
    match name {
        Name::Order => taken.orders.push(value)?,
        Name::Limit => taken.limits.push(value)?,
        Name::Output => taken.outputs.push(value)?,
        Name::SkipBad => taken.skips.push(value)?,
        Name::NoHeader => taken.no_headers.push(value)?,
    }
    taken.next = None;
    Ok(())
}

/// One word more that is no option.
fn put_rest(alloc: Global, taken: &mut Taken<'_>, word: &str) -> Result<(), AllocError>
    requires { taken.old.next ≡ None }
    ensures { OnOk result (taken_as taken.new ≡ took_option (taken_as taken.old) word.now None) }
{
    taken.rest.push(String::from_str(alloc, word)?)?;
    Ok(())
}

/// The option that a word names, and its value if that is in the word.
fn option_of(word: &str) -> Option<(Name, Option<&str>)>
    ensures { option_map option_as result ≡ option_in word.entry.now }
{
    match word.split_once('=') {
        None => Some((name_of(word)?, None)),
        Some((front, value)) => Some((name_of(front)?, Some(value))),
    }
}

/// The option of this name.
fn name_of(word: &str) -> Option<Name>
    ensures { result ≡ name_in word.now }
{
    if word == "--order" {
        Some(Name::Order)
    } else if word == "--limit" {
        Some(Name::Limit)
    } else if word == "--output" {
        Some(Name::Output)
    } else if word == "--skip-bad" {
        Some(Name::SkipBad)
    } else if word == "--no-header" {
        Some(Name::NoHeader)
    } else {
        None
    }
}
