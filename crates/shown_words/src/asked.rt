//! What the options ask for.

ghost use Rattle.std.specs.Prelude.{◌≡◌, ◌-◌, Err, MatchResult, Ok, codes, length, map, option_map};
ghost use Rattle.shown_words.specs.Asking.{asked_as, asked_in, direction_in, form_given, has_end, limit_given, limit_in, named_in, no_header_given, order_as, order_given, order_in, skip_given, without_end};
ghost use Rattle.shown_words.specs.Taking.{taken_as};

use crate::taken::{Name, Taken};
use table_form::{Form, form_of};

/// An order as words have it: the name of a column, whether its texts are integers, and whether the greatest come first.
#[derive(Clone, Copy, Debug)]
pub struct OrderBy<'a> {
    pub name: &'a [u8],
    pub numeric: bool,
    pub down: bool,
}

/// How a table is to be shown, and of which rows.
#[derive(Clone, Copy, Debug)]
pub struct Asked<'a> {
    pub order: Option<OrderBy<'a>>,
    pub limit: Option<usize>,
    pub form: Form,
    /// How many rows that are refused may be left out.
    pub skip: u64,
}

/// What is wrong with an option: its value is missing, it is given twice, or its value is none.
#[derive(Clone, Copy, Debug, PartialEq, Eq)]
pub enum Wrong {
    Missing(Name),
    Twice(Name),
    Value(Name),
}

/// What the options that were taken ask for, or the first thing that is wrong with them.
pub fn asked_of<'a>(taken: &Taken<'a>) -> Result<Asked<'a>, Wrong>
    ensures { MatchResult result (λ asked. asked_in (taken_as taken.now) ≡ Ok (asked_as asked)) (λ w. asked_in (taken_as taken.now) ≡ Err w) }
{
    if let Some(name) = taken.next {
        return Err(Wrong::Missing(name));
    }
    let order = order_given(taken.orders.as_slice())?;
    let limit = limit_given(taken.limits.as_slice())?;
    let form = form_given(taken.outputs.as_slice())?;
    let skip = skip_given(taken.skips.as_slice())?;
    no_header_given(taken.no_headers.as_slice())?;
    Ok(Asked {
        order,
        limit,
        form,
        skip,
    })
}

/// The order of the values of its option.
fn order_given<'a>(values: &[&'a str]) -> Result<Option<OrderBy<'a>>, Wrong>
    ensures { MatchResult result (λ order. order_given (map (λ value. value.now) values.now) ≡ Ok (option_map order_as order)) (λ w. order_given (map (λ value. value.now) values.now) ≡ Err w) }
{
    match values {
        [] => Ok(None),
        [text] => {
            let order = order_of(text.as_bytes());
            if order.name.is_empty() {
                return Err(Wrong::Value(Name::Order));
            }
            Ok(Some(order))
        }
        _ => Err(Wrong::Twice(Name::Order)),
    }
}

/// The limit of the values of its option.
fn limit_given(values: &[&str]) -> Result<Option<usize>, Wrong>
    ensures { result ≡ limit_given (map (λ value. value.now) values.now) }
{
    match values {
        [] => Ok(None),
        [text] => match limit_of(text.as_bytes()) {
            Some(limit) => Ok(Some(limit)),
            None => Err(Wrong::Value(Name::Limit)),
        },
        _ => Err(Wrong::Twice(Name::Limit)),
    }
}

/// The form of the values of its option: without one that of CSV.
fn form_given(values: &[&str]) -> Result<Form, Wrong>
    ensures { result ≡ form_given (map (λ value. value.now) values.now) }
{
    match values {
        [] => Ok(Form::Csv),
        [text] => match form_of(text.as_bytes()) {
            Some(form) => Ok(form),
            None => Err(Wrong::Value(Name::Output)),
        },
        _ => Err(Wrong::Twice(Name::Output)),
    }
}

/// How many refused rows may be left out, by the values of the option.
fn skip_given(values: &[&str]) -> Result<u64, Wrong>
    ensures { result ≡ skip_given (map (λ value. value.now) values.now) }
{
    match values {
        [] => Ok(0),
        [text] => match limit_of(text.as_bytes()) {
            Some(skip) => Ok(skip as u64),
            None => Err(Wrong::Value(Name::SkipBad)),
        },
        _ => Err(Wrong::Twice(Name::SkipBad)),
    }
}

/// Whether `--no-header` is given, by its values.
fn no_header_given(values: &[&str]) -> Result<bool, Wrong>
    ensures { result ≡ no_header_given (map (λ value. value.now) values.now) }
{
    match values {
        [] => Ok(false),
        [text] if text.is_empty() => Ok(true),
        [_] => Err(Wrong::Value(Name::NoHeader)),
        _ => Err(Wrong::Twice(Name::NoHeader)),
    }
}

/// An order: a name, and `:numeric`, and `:asc` or `:desc`, each if it is there.
fn order_of(text: &[u8]) -> OrderBy<'_>
    ensures { order_as result ≡ order_in text.entry.now }
{
    let (text, down) = direction_of(text);
    if text.ends_with(b":numeric") {
        OrderBy {
            name: without_end(text, 8),
            numeric: true,
            down,
        }
    } else {
        OrderBy {
            name: text,
            numeric: false,
            down,
        }
    }
}

/// A text without the direction at its end, and whether that is `:desc`.
fn direction_of(text: &[u8]) -> (&[u8], bool)
    ensures text { result.0.now ≡ (direction_in text.entry.now).0 }
    ensures down { result.1 ≡ (direction_in text.entry.now).1 }
{
    if text.ends_with(b":desc") {
        (without_end(text, 5), true)
    } else if text.ends_with(b":asc") {
        (without_end(text, 4), false)
    } else {
        (text, false)
    }
}

/// A text without this many bytes at its end.
fn without_end(text: &[u8], size: usize) -> &[u8]
    ensures { result.now ≡ without_end text.entry.now size }
{
    &text[..text.len().saturating_sub(size)]
}

/// The number that one to eighteen digits write.
fn limit_of(digits: &[u8]) -> Option<usize>
    ensures { result ≡ limit_in digits.now }
{
    if digits.is_empty() || digits.len() > 18 {
        return None;
    }
    let mut value = 0;
    'digits: for digit in digits {
        if !digit.is_ascii_digit() {
            return None;
        }
        value = value * 10 + usize::from(*digit - b'0');
    }
    Some(value)
}
