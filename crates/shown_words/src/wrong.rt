//! What is said of options that are not understood.

ghost use Rattle.std.specs.Prelude.{◌≡◌, ◌++◌, [], IfOk, map, slice_index_or, string_bytes};
ghost use Rattle.std.specs.List.{flat_map};
ghost use Rattle.answer_text.specs.Words.{texts};
ghost use Rattle.shown_words.specs.Asking.{order_as};
ghost use Rattle.shown_words.specs.Taking.{taken_as};
ghost use Rattle.shown_words.specs.Telling.{after_comma, between_text, column_text, name_text, names_text, place_text, values_of, values_text, wrong_text};

use crate::asked::{OrderBy, Wrong};
use crate::columns::names_of;
use crate::taken::{Name, Taken};
use shown_text::put_shown;
use std::alloc::{AllocError, Global};

/// What is said of an option that is wrong: the value, as [`put_shown`] makes it, and what it may be. It takes at most 300
/// bytes.
pub fn wrong_text(alloc: Global, taken: &Taken<'_>, wrong: Wrong) -> Result<String, AllocError>
    ensures { IfOk result (λ text. string_bytes text ≡ wrong_text (taken_as taken.now) wrong) }
{
    let mut text = String::new(alloc);
    put_wrong(&mut text, taken, wrong)?;
    text.push_str("; see parstream --help")?;
    Ok(text)
}

/// Puts what is wrong, and what the option takes.
fn put_wrong(text: &mut String, taken: &Taken<'_>, wrong: Wrong) -> Result<(), AllocError>
    ensures { IfOk result (λ _. string_bytes text.new ≡ string_bytes text.old ++ place_text (taken_as taken.now) wrong) }
{
    match wrong {
        Wrong::Missing(name) => {
            text.push_str("a word is missing at the end: ")?;
            text.push_str(values_text(name))?;
        }
        Wrong::Twice(name) => {
            text.push_str(name_text(name))?;
            text.push_str(" is there twice: this option may be given once")?;
        }
        Wrong::Value(name) => {
            put_shown(text, first_value(taken, name))?;
            text.push_str(" is not understood: ")?;
            text.push_str(values_text(name))?;
        }
    }
    Ok(())
}

/// The first value of an option, or nothing.
fn first_value<'a>(taken: &Taken<'a>, name: Name) -> &'a [u8]
    ensures { result.now ≡ slice_index_or (values_of (taken_as taken.now) name) 0 [] }
{
    match name {
        Name::Order => first_of(taken.orders.as_slice()),
        Name::Limit => first_of(taken.limits.as_slice()),
        Name::Output => first_of(taken.outputs.as_slice()),
        Name::SkipBad => first_of(taken.skips.as_slice()),
        Name::NoHeader => first_of(taken.no_headers.as_slice()),
    }
}

/// The first of some values, or nothing.
fn first_of<'a>(values: &[&'a str]) -> &'a [u8]
    ensures { result.now ≡ slice_index_or (map (λ value. value.now) values.now) 0 [] }
{
    match values.first() {
        Some(value) => value.as_bytes(),
        None => &[],
    }
}

/// What is said of an order by a column that the table has not: the name, and the columns that there are, as [`put_shown`]
/// makes them.
pub fn column_text(
    alloc: Global,
    words: &[String],
    order: OrderBy<'_>,
) -> Result<String, AllocError>
    ensures { IfOk result (λ text. string_bytes text ≡ column_text (texts words.now) (order_as order.entry)) }
{
    let names = names_of(alloc, words, order)?;
    let mut text = String::from_str(alloc, "no column ")?;
    put_shown(&mut text, order.name)?;
    text.push_str(between(order))?;
    put_names(&mut text, names.as_slice())?;
    Ok(text)
}

/// What comes between the name of an order and those that there are.
fn between(order: OrderBy<'_>) -> &'static str
    ensures { result.now ≡ between_text (order_as order.entry) }
{
    if order.numeric {
        " to order by as integers; --group has "
    } else {
        " to order by; the table has "
    }
}

/// Puts names, with commas between them.
fn put_names(text: &mut String, names: &[&str]) -> Result<(), AllocError>
    ensures { IfOk result (λ _. string_bytes text.new ≡ string_bytes text.old ++ names_text (map (λ name. name.now) names.now)) }
{
    let Some((first, rest)) = names.split_first() else {
        return Ok(());
    };
    put_shown(text, first.as_bytes())?;
    put_rest(text, rest)
}

/// Puts names, each after a comma.
fn put_rest(text: &mut String, names: &[&str]) -> Result<(), AllocError>
    ensures { IfOk result (λ _. string_bytes text.new ≡ string_bytes text.old ++ flat_map after_comma (map (λ name. name.now) names.now)) }
{
    'names: for name in names {
        text.push_str(", ")?;
        put_shown(text, name.as_bytes())?;
    }
    Ok(())
}

/// How an option is written.
fn name_text(name: Name) -> &'static str
    ensures { result.now ≡ name_text name }
{
    match name {
        Name::Order => "--order",
        Name::Limit => "--limit",
        Name::Output => "--output",
        Name::SkipBad => "--skip-bad",
        Name::NoHeader => "--no-header",
    }
}

/// What the value of an option may be.
fn values_text(name: Name) -> &'static str
    ensures { result.now ≡ values_text name }
{
    match name {
        Name::Order => {
            "--order takes an item of --agg or a column of --group, as in sum:qty, sum:qty:desc or year:numeric"
        }
        Name::Limit => "--limit takes a number of one to eighteen digits",
        Name::Output => "--output takes csv, tsv, json or aligned",
        Name::SkipBad => "--skip-bad takes a number of one to eighteen digits",
        Name::NoHeader => "--no-header takes no value",
    }
}
