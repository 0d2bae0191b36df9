//! The words of `partial`: the options of a plan, which of how many sources the part is of, and which bytes of that source.
//!
//! They are read by the crate `clap`, as parstream's words are (`plan_spec`), so an option is written in each way that it has there.

ghost use Rattle.std.specs.Prelude.{◌≡◌, ◌<◌, ◌≤◌, ◌++◌, ◌∷◌, [], IfOk, IfSome, None, bytes_eq, codes, if◌then◌else◌, map, option_and_then, option_map, true, false};
ghost use Rattle.std.specs.List.{list_all};
ghost use Rattle.std.specs.Option.{option_map_or};
ghost use Rattle.answer_text.specs.Words.{texts};
ghost use Rattle.clap.specs.Words.{app_of, found_of, is_simple_and_free, matches_of, new_app, rows_of, with_rule};
ghost use Rattle.plan_spec.specs.Options.{bare, flag_of, is_command_line, option_of, reading_command, repeated_of};
ghost use Rattle.plan_spec.specs.Query.{number_given, text_of};
ghost use Rattle.state_head.specs.Words.{words_of};
ghost use Rattle.state_partial.specs.Words.{asked_by_rows, asked_in, asked_of, asking_command, extent_given, filters_in, filters_of, given_by, may_be_filter, partial_command, place_in, plan_command, reading_texts, source_given, source_in, span_by, span_in, text_after, text_given};

use clap::error::ErrorKind;
use clap::{Arg, ArgAction, ArgMatches, Command};
use plan_spec::{MOST_WORKERS, number};
use state_file::push_text;
use state_head::PlanWords;
use std::alloc::{AllocError, Global};
use tile_source::Span;

/// The most sources.
const MOST_SOURCES: u32 = 65_536;

/// The number of workers if the words ask for none.
const WORKERS: u32 = 2;

/// Places in a source that words can name are below this.
const PAST_PLACES: u64 = 1_000_000_000_000_000_000;

/// A number from this on would be no such place with another digit.
const FULL_PLACE: u64 = 100_000_000_000_000_000;

/// Where a tile is to end that has no such place: at the end of the source.
const OPEN_END: u64 = u64::MAX;

/// The values of the options, each as it was given. Those of `--where`, and how fields are read, are texts one after another.
#[derive(Drop)]
pub(crate) struct Given<'a> {
    group: Option<&'a str>,
    agg: Option<&'a str>,
    decimals: Option<&'a str>,
    filters: Vec<u8>,
    workers: Option<&'a str>,
    source: Option<&'a str>,
    bytes: Option<&'a str>,
    size: Option<&'a str>,
}

/// What the words ask for. The text of an option that was not given is empty.
#[derive(Drop)]
pub(crate) struct PartWords<'a> {
    group: &'a str,
    agg: &'a str,
    decimals: &'a str,
    filters: Vec<u8>,
    pub(crate) workers: u32,
    pub(crate) part: SourcePart,
    pub(crate) extent: Extent,
}

/// Which bytes of a source: all, or a tile.
#[derive(Clone, Copy, Drop)]
pub(crate) enum Extent {
    Whole,
    Tile(Span),
}

/// A source, and how many there are.
#[derive(Clone, Copy, Debug, PartialEq, Eq)]
pub(crate) struct SourcePart {
    pub(crate) source: u32,
    pub(crate) sources: u32,
}

impl<'a> PartWords<'a> {
    /// What some words ask for, if they do: they are options of a plan that have values, and `--source`.
    pub(crate) fn of_words(
        alloc: Global,
        words: &'a [String],
    ) -> Result<Option<PartWords<'a>>, AllocError>
        ensures asked { IfOk result (λ found. option_map asked_of found ≡ asked_in (texts words.now)) }
        ensures workers { IfOk result (λ found. IfSome found (λ asked. asked.workers ≤ MOST_WORKERS)) }
        ensures part { IfOk result (λ found. IfSome found (λ asked. asked.part.source < asked.part.sources)) }
    {
        let given = given_values(alloc, words)?;
        match given {
            Some(given) => Ok(PartWords::of_values(given)),
            None => Ok(None),
        }
    }

    /// What values ask for.
    fn of_values(given: Given<'a>) -> Option<PartWords<'a>>
        ensures asked { option_map asked_of result ≡ given_by given.entry }
        ensures workers { IfSome result (λ asked. asked.workers ≤ MOST_WORKERS) }
        ensures part { IfSome result (λ asked. asked.part.source < asked.part.sources) }
    {
        let Given {
            group,
            agg,
            decimals,
            filters,
            workers,
            source,
            bytes,
            size,
        } = given;
        let group = text_given(group)?;
        let agg = text_given(agg)?;
        let decimals = text_given(decimals)?;
        let workers = workers_given(workers)?;
        let part = source_given(source)?;
        let extent = extent_given(bytes, size)?;
        Some(PartWords {
            group,
            agg,
            decimals,
            filters,
            workers,
            part,
            extent,
        })
    }

    /// Those of the plan.
    pub(crate) fn plan_words(&self) -> PlanWords<'_>
        ensures { words_of result ≡ (asked_of self.now).words }
    {
        PlanWords {
            group: self.group.as_bytes(),
            agg: self.agg.as_bytes(),
            filter: self.filters.as_slice(),
            decimals: self.decimals.as_bytes(),
        }
    }
}

/// A text that was given, which has a byte, or the empty one.
fn text_given<'a>(given: Option<&'a str>) -> Option<&'a str>
    ensures { option_map (λ s. s.now) result ≡ text_given (text_of given.entry) }
{
    match given {
        Some(text) if text.is_empty() => None,
        Some(text) => Some(text),
        None => Some(""),
    }
}

/// A number of workers that was given, or the one if none was.
fn workers_given(given: Option<&str>) -> Option<u32>
    ensures number { result ≡ number_given MOST_WORKERS WORKERS (text_of given.entry) }
    ensures within { IfSome result (λ n. n ≤ MOST_WORKERS) }
{
    match given {
        Some(text) => number(text, MOST_WORKERS),
        None => Some(WORKERS),
    }
}

/// Which of how many sources was given, or the only one.
fn source_given(given: Option<&str>) -> Option<SourcePart>
    ensures part { result ≡ source_given (text_of given.entry) }
    ensures below { IfSome result (λ part. part.source < part.sources) }
{
    match given {
        Some(text) => source_of(text),
        None => Some(SourcePart {
            source: 0,
            sources: 1,
        }),
    }
}

/// Which of how many sources, as `0/3`.
fn source_of(text: &str) -> Option<SourcePart>
    ensures part { result ≡ source_in text.now }
    ensures below { IfSome result (λ part. part.source < part.sources) }
{
    let (source, sources) = text.split_once('/')?;
    let source = number(source, MOST_SOURCES)?;
    let sources = number(sources, MOST_SOURCES)?;
    if source < sources {
        Some(SourcePart { source, sources })
    } else {
        None
    }
}

/// All bytes of a source, if neither the bytes nor the size is given. One needs the other.
fn extent_given(bytes: Option<&str>, size: Option<&str>) -> Option<Extent>
    ensures { result ≡ extent_given (text_of bytes.entry) (text_of size.entry) }
{
    match (bytes, size) {
        (None, None) => Some(Extent::Whole),
        (Some(bytes), Some(size)) => span_of(bytes, size).map(Extent::Tile),
        _ => None,
    }
}

/// The bytes `FROM-TO`, or those from `FROM` on, of a source of this many.
fn span_of(bytes: &str, size: &str) -> Option<Span>
    ensures { result ≡ span_in bytes.now size.now }
{
    match bytes.split_once('-') {
        Some((from, to)) => span_between(place_of(from), place_of(to), place_of(size)),
        None => span_between(place_of(bytes), Some(OPEN_END), place_of(size)),
    }
}

/// The bytes between two places, of which neither the second nor the size comes before the first.
fn span_between(from: Option<u64>, to: Option<u64>, size: Option<u64>) -> Option<Span>
    ensures { result ≡ span_by from to size }
{
    let from = from?;
    let to = to?;
    let size = size?;
    if from <= to && from <= size {
        Some(Span { from, to, size })
    } else {
        None
    }
}

/// The place in a source that a text says in digits.
fn place_of(text: &str) -> Option<u64>
    ensures { result ≡ place_in text.now }
{
    let digits = text.as_bytes();
    if digits.is_empty() {
        return None;
    }
    let mut value: u64 = 0;
    'digits: for digit in digits {
        if !digit.is_ascii_digit() || value >= FULL_PLACE {
            return None;
        }
        value = value * 10 + u64::from(*digit - b'0');
    }
    Some(value)
}

/// What the words give for each option, if they are such a command line, and each text of a filter may be one.
fn given_values<'a>(alloc: Global, words: &'a [String]) -> Result<Option<Given<'a>>, AllocError>
    ensures { IfOk result (λ found. option_and_then given_by found ≡ asked_in (texts words.now)) }
{
    let command = partial(alloc)?;
    let found = matches_in(command, words)?;
    match found {
        Some(matches) => values_in(alloc, &matches),
        None => Ok(None),
    }
}

/// What a parse gives for each option, if each text of a filter may be one.
fn values_in<'a>(alloc: Global, matches: &ArgMatches<'a>) -> Result<Option<Given<'a>>, AllocError>
    ensures { IfOk result (λ found. option_and_then given_by found ≡ asked_by_rows (rows_of (found_of matches.now))) }
{
    let read = filters_read(alloc, matches)?;
    let Some(filters) = read else {
        return Ok(None);
    };
    Ok(Some(Given {
        group: matches.get_str("group"),
        agg: matches.get_str("agg"),
        decimals: matches.get_str("decimals"),
        filters,
        workers: matches.get_str("workers"),
        source: matches.get_str("source"),
        bytes: matches.get_str("bytes"),
        size: matches.get_str("size"),
    }))
}

/// The filters of a parse as texts one after another, and after them those that say how fields are read, if each may be a filter.
fn filters_read(alloc: Global, matches: &ArgMatches<'_>) -> Result<Option<Vec<u8>>, AllocError>
    ensures { IfOk result (λ found. option_map (λ all. all.items) found ≡ filters_in (rows_of (found_of matches.now))) }
{
    let values = matches.get_strs("where").unwrap_or(&[]);
    if !are_filters(values) {
        return Ok(None);
    }
    let texts = filter_texts(alloc, values)?;
    let separator = matches.get_str("separator");
    let nulls = matches.get_str("null");
    let trim = is_true(matches.get_str("trim"));
    let all = with_reading(alloc, texts, separator, nulls, trim)?;
    Ok(Some(all))
}

/// Whether each of some values may be a filter.
#[tactic(auto, using(crate::proofs::Commands::all_filters))]
fn are_filters(values: &[&str]) -> bool
    ensures { result ≡ list_all may_be_filter (map (λ value. value.now) values.now) }
{
    are_all(values)
}

fn are_all(values: &[&str]) -> bool
    ensures { result ≡ list_all (λ value. may_be_filter value.now) values.now }
{
    values.iter().all(|value| may_be_filter(value))
}

/// Whether a text may be a filter. One that begins with an equals sign says in a head how fields are read.
fn may_be_filter(text: &str) -> bool
    ensures { result ≡ may_be_filter text.now }
{
    !text.as_bytes().starts_with(b"=")
}

/// Some values as texts one after another.
fn filter_texts(alloc: Global, values: &[&str]) -> Result<Vec<u8>, AllocError>
    ensures { IfOk result (λ bytes. bytes.items ≡ filters_of (map (λ value. value.now) values.now)) }
{
    let mut texts = Vec::new(alloc);
    for value in values {
        push_text(&mut texts, value.as_bytes())?;
    }
    Ok(texts)
}

/// Texts, and after them those that say how fields are read.
fn with_reading(
    alloc: Global,
    texts: Vec<u8>,
    separator: Option<&str>,
    nulls: Option<&str>,
    trim: bool,
) -> Result<Vec<u8>, AllocError>
    ensures { IfOk result (λ all. all.items ≡ texts.items ++ filters_of (reading_texts (text_of separator.entry) (text_of nulls.entry) trim)) }
{
    let parted = with_text(alloc, texts, "=separator=", separator)?;
    let emptied = with_text(alloc, parted, "=null=", nulls)?;
    with_mark(emptied, "=trim", trim)
}

/// Texts, and after them one with a value, if that is given.
fn with_text(
    alloc: Global,
    mut texts: Vec<u8>,
    front: &str,
    value: Option<&str>,
) -> Result<Vec<u8>, AllocError>
    ensures { IfOk result (λ all. all.items ≡ texts.items ++ filters_of (text_after front.now (text_of value.entry))) }
{
    let Some(value) = value else {
        return Ok(texts);
    };
    let mut text = Vec::from_slice(alloc, front.as_bytes())?;
    text.extend_from_slice(value.as_bytes())?;
    push_text(&mut texts, text.as_slice())?;
    Ok(texts)
}

/// Texts, and after them one more, if it is to be there.
fn with_mark(mut texts: Vec<u8>, mark: &str, is_there: bool) -> Result<Vec<u8>, AllocError>
    ensures { IfOk result (λ all. all.items ≡ texts.items ++ filters_of (if is_there then mark.now ∷ [] else [])) }
{
    if is_there {
        push_text(&mut texts, mark.as_bytes())?;
    }
    Ok(texts)
}

/// Whether the value of an option that takes none says that it is given.
fn is_true(value: Option<&str>) -> bool
    ensures { result ≡ option_map_or (bytes_eq (codes "true")) (text_of value.entry) false }
{
    match value {
        Some(text) => text == "true",
        None => false,
    }
}

/// The parse of the words by a command of which `clap` states the matches and the faults in full; none if it has a fault.
fn matches_in<'a>(
    command: Command<'a>,
    words: &'a [String],
) -> Result<Option<ArgMatches<'a>>, AllocError>
    requires { is_simple_and_free (app_of command) ≡ true }
    ensures takes { IfOk result (λ found. IfSome found (λ _. is_command_line (app_of command.entry) (texts words.now) ≡ true)) }
    ensures rows { IfOk result (λ found. IfSome found (λ m. rows_of (found_of m) ≡ matches_of (app_of command.entry) (texts words.now))) }
    ensures refuses { IfOk result (λ found. found ≡ None → is_command_line (app_of command.entry) (texts words.now) ≡ false) }
{
    match command.try_get_matches_from(words) {
        Ok(matches) => Ok(Some(matches)),
        Err(error) if error.kind() == ErrorKind::OutOfMemory => Err(AllocError),
        Err(_) => Ok(None),
    }
}

/// The command: the options of a plan, which source, and which of its bytes.
fn partial<'a>(alloc: Global) -> Result<Command<'a>, AllocError>
    ensures { IfOk result (λ c. app_of c ≡ partial_command) }
{
    let plan = plan_options(alloc)?;
    let sourced = with_option(alloc, plan, "source", false)?;
    let cut = with_option(alloc, sourced, "bytes", false)?;
    with_option(alloc, cut, "size", false)
}

/// A command with the eight options of parstream, of which `--where` may be repeated and `--trim` takes no value.
fn plan_options<'a>(alloc: Global) -> Result<Command<'a>, AllocError>
    ensures { IfOk result (λ c. app_of c ≡ plan_command) }
{
    let asking = asking_options(alloc)?;
    with_reading_options(alloc, asking)
}

/// Those that say what is asked of the rows, and by how many workers.
fn asking_options<'a>(alloc: Global) -> Result<Command<'a>, AllocError>
    ensures { IfOk result (λ c. app_of c ≡ asking_command) }
{
    let bare = bare_command(alloc, "partial");
    let grouped = with_option(alloc, bare, "group", false)?;
    let summed = with_option(alloc, grouped, "agg", true)?;
    let filtered = with_list(alloc, summed, "where")?;
    let staffed = with_option(alloc, filtered, "workers", false)?;
    with_option(alloc, staffed, "decimals", false)
}

/// A command with those that say how fields are read.
fn with_reading_options<'a>(alloc: Global, command: Command<'a>) -> Result<Command<'a>, AllocError>
    ensures { IfOk result (λ c. app_of c ≡ reading_command (app_of command.entry)) }
{
    let parted = with_option(alloc, command, "separator", false)?;
    let emptied = with_option(alloc, parted, "null", false)?;
    with_flag(alloc, emptied, "trim")
}

/// A command with no options, for words with no program name before them.
fn bare_command<'a>(alloc: Global, name: &'a str) -> Command<'a>
    ensures { app_of result ≡ bare (new_app name.entry.now) }
{
    Command::new(alloc, name).no_binary_name(true)
}

/// A command with one more option, which takes a value each time it is given.
fn with_list<'a>(
    alloc: Global,
    command: Command<'a>,
    name: &'a str,
) -> Result<Command<'a>, AllocError>
    ensures { IfOk result (λ c. app_of c ≡ with_rule (app_of command.entry) (repeated_of name.entry.now)) }
{
    command.arg(Arg::new(alloc, name).long(name).action(ArgAction::Append))
}

/// A command with one more option, which takes no value.
fn with_flag<'a>(
    alloc: Global,
    command: Command<'a>,
    name: &'a str,
) -> Result<Command<'a>, AllocError>
    ensures { IfOk result (λ c. app_of c ≡ with_rule (app_of command.entry) (flag_of name.entry.now)) }
{
    command.arg(Arg::new(alloc, name).long(name).action(ArgAction::SetTrue))
}

/// A command with one more option, which takes one value.
fn with_option<'a>(
    alloc: Global,
    command: Command<'a>,
    name: &'a str,
    is_required: bool,
) -> Result<Command<'a>, AllocError>
    ensures { IfOk result (λ c. app_of c ≡ with_rule (app_of command.entry) (option_of name.entry.now is_required)) }
{
    command.arg(Arg::new(alloc, name).long(name).required(is_required))
}
