//! The options of a command line, through the crate `clap`.
//!
//! `clap` states what its parse gives as a function of the command and the words, so which words are a command line,
//! and what each option was given, is said only in terms of that function.

ghost use Rattle.std.specs.Prelude.{◌≡◌, IfOk, None, OnOk, bytes_eq, codes, map, option_map, option_to_list, false, true, string_bytes};
ghost use Rattle.std.specs.Option.{option_map_or};
ghost use Rattle.clap.specs.Words.{app_of, found_of, is_simple_and_free, matches_of, new_app, rows_of, with_rule};
ghost use Rattle.plan_spec.specs.Options.{asking_command, bare, flag_in, flag_of, is_command_line, option_of, pargather_command, parstream_command, reading_command, repeated_of, value_of, values_of};
ghost use Rattle.plan_spec.specs.declared.plan.PlanAnswer.TheVariants as answer;

use crate::PlanAnswer;
use clap::error::ErrorKind;
use clap::{Arg, ArgAction, ArgMatches, Command};
use std::alloc::{AllocError, Global};

/// The values of the options, each as it was given. One that a command does not have is not given.
#[derive(Drop)]
pub(crate) struct OptionValues<'a> {
    pub(crate) group: Option<&'a str>,
    pub(crate) agg: Option<&'a str>,
    /// The values of `--where`.
    pub(crate) filters: Vec<&'a str>,
    /// Whether a filter may compare texts.
    pub(crate) texts: bool,
    pub(crate) decimals: Option<&'a str>,
    pub(crate) separator: Option<&'a str>,
    pub(crate) nulls: Option<&'a str>,
    /// Whether `--trim` is given.
    pub(crate) trim: bool,
    pub(crate) workers: Option<&'a str>,
    pub(crate) plan: Option<&'a str>,
    pub(crate) area_pages: Option<&'a str>,
}

/// What the words of pargather give for each option.
pub(crate) fn option_values<'a>(
    alloc: Global,
    words: &'a [String],
) -> Result<OptionValues<'a>, PlanAnswer>
    ensures takes { OnOk result (is_command_line pargather_command (map string_bytes words.entry.now) ≡ true) }
    ensures group { IfOk result (λ g. option_map (λ s. s.now) g.group ≡ value_of pargather_command (codes "group") (map string_bytes words.entry.now)) }
    ensures agg { IfOk result (λ g. option_map (λ s. s.now) g.agg ≡ value_of pargather_command (codes "agg") (map string_bytes words.entry.now)) }
    ensures filters { IfOk result (λ g. map (λ s. s.now) g.filters.items ≡ option_to_list (value_of pargather_command (codes "where") (map string_bytes words.entry.now))) }
    ensures texts { IfOk result (λ g. g.texts ≡ false) }
    ensures decimals { IfOk result (λ g. g.decimals ≡ None) }
    ensures reading { IfOk result (λ g. (g.separator ≡ None) × (g.nulls ≡ None) × (g.trim ≡ false)) }
    ensures workers { IfOk result (λ g. option_map (λ s. s.now) g.workers ≡ value_of pargather_command (codes "workers") (map string_bytes words.entry.now)) }
    ensures plan { IfOk result (λ g. option_map (λ s. s.now) g.plan ≡ value_of pargather_command (codes "plan") (map string_bytes words.entry.now)) }
    ensures area_pages { IfOk result (λ g. option_map (λ s. s.now) g.area_pages ≡ value_of pargather_command (codes "area-pages") (map string_bytes words.entry.now)) }
    ensures refuses { result ≡ Err answer.Usage → is_command_line pargather_command (map string_bytes words.entry.now) ≡ false }
{
    let Ok(command) = pargather(alloc) else {
        return Err(PlanAnswer::Memory);
    };
    let matches = matches_in(command, words)?;
    let Ok(filters) = list_of(alloc, matches.get_str("where")) else {
        return Err(PlanAnswer::Memory);
    };
    Ok(OptionValues {
        group: matches.get_str("group"),
        agg: matches.get_str("agg"),
        filters,
        texts: false,
        decimals: None,
        separator: None,
        nulls: None,
        trim: false,
        workers: matches.get_str("workers"),
        plan: matches.get_str("plan"),
        area_pages: matches.get_str("area-pages"),
    })
}

/// What the words of parstream give for each option.
pub(crate) fn stream_values<'a>(
    alloc: Global,
    words: &'a [String],
) -> Result<OptionValues<'a>, PlanAnswer>
    ensures takes { OnOk result (is_command_line parstream_command (map string_bytes words.entry.now) ≡ true) }
    ensures group { IfOk result (λ g. option_map (λ s. s.now) g.group ≡ value_of parstream_command (codes "group") (map string_bytes words.entry.now)) }
    ensures agg { IfOk result (λ g. option_map (λ s. s.now) g.agg ≡ value_of parstream_command (codes "agg") (map string_bytes words.entry.now)) }
    ensures filters { IfOk result (λ g. map (λ s. s.now) g.filters.items ≡ values_of parstream_command (codes "where") (map string_bytes words.entry.now)) }
    ensures texts { IfOk result (λ g. g.texts ≡ true) }
    ensures decimals { IfOk result (λ g. option_map (λ s. s.now) g.decimals ≡ value_of parstream_command (codes "decimals") (map string_bytes words.entry.now)) }
    ensures workers { IfOk result (λ g. option_map (λ s. s.now) g.workers ≡ value_of parstream_command (codes "workers") (map string_bytes words.entry.now)) }
    ensures separator { IfOk result (λ g. option_map (λ s. s.now) g.separator ≡ value_of parstream_command (codes "separator") (map string_bytes words.entry.now)) }
    ensures nulls { IfOk result (λ g. option_map (λ s. s.now) g.nulls ≡ value_of parstream_command (codes "null") (map string_bytes words.entry.now)) }
    ensures trim { IfOk result (λ g. g.trim ≡ flag_in parstream_command (codes "trim") (map string_bytes words.entry.now)) }
    ensures plan { IfOk result (λ g. (g.plan ≡ None) × (g.area_pages ≡ None)) }
    ensures refuses { result ≡ Err answer.Usage → is_command_line parstream_command (map string_bytes words.entry.now) ≡ false }
{
    let Ok(command) = parstream(alloc) else {
        return Err(PlanAnswer::Memory);
    };
    let matches = matches_in(command, words)?;
    let Ok(filters) = copied(alloc, matches.get_strs("where").unwrap_or(&[])) else {
        return Err(PlanAnswer::Memory);
    };
    Ok(OptionValues {
        group: matches.get_str("group"),
        agg: matches.get_str("agg"),
        filters,
        texts: true,
        decimals: matches.get_str("decimals"),
        separator: matches.get_str("separator"),
        nulls: matches.get_str("null"),
        trim: is_true(matches.get_str("trim")),
        workers: matches.get_str("workers"),
        plan: None,
        area_pages: None,
    })
}

/// Whether the value of an option that takes none says that it is given.
fn is_true(value: Option<&str>) -> bool
    ensures { result ≡ option_map_or (bytes_eq (codes "true")) (option_map (λ s. s.now) value.entry) false }
{
    match value {
        Some(text) => text == "true",
        None => false,
    }
}

/// The list of a value, if there is one.
fn list_of<'a>(alloc: Global, value: Option<&'a str>) -> Result<Vec<&'a str>, AllocError>
    ensures { IfOk result (λ v. map (λ s. s.now) v.items ≡ option_to_list (option_map (λ s. s.now) value.entry)) }
{
    let mut values = Vec::new(alloc);
    if let Some(value) = value {
        values.push(value)?;
    }
    Ok(values)
}

/// A list of the values.
fn copied<'a>(alloc: Global, values: &[&'a str]) -> Result<Vec<&'a str>, AllocError>
    ensures { IfOk result (λ v. map (λ s. s.now) v.items ≡ map (λ s. s.now) values.now) }
{
    Vec::from_slice(alloc, values)
}

/// The parse of the words by a command of which `clap` states the matches and the faults in full.
fn matches_in<'a>(command: Command<'a>, words: &'a [String]) -> Result<ArgMatches<'a>, PlanAnswer>
    requires { is_simple_and_free (app_of command) ≡ true }
    ensures takes { OnOk result (is_command_line (app_of command.entry) (map string_bytes words.entry.now) ≡ true) }
    ensures rows { IfOk result (λ m. rows_of (found_of m) ≡ matches_of (app_of command.entry) (map string_bytes words.entry.now)) }
    ensures refuses { result ≡ Err answer.Usage → is_command_line (app_of command.entry) (map string_bytes words.entry.now) ≡ false }
{
    match command.try_get_matches_from(words) {
        Ok(matches) => Ok(matches),
        Err(error) if error.kind() == ErrorKind::OutOfMemory => Err(PlanAnswer::Memory),
        Err(_) => Err(PlanAnswer::Usage),
    }
}

/// The command of pargather with its six options, for words with no program name before them.
fn pargather<'a>(alloc: Global) -> Result<Command<'a>, AllocError>
    ensures { IfOk result (λ c. app_of c ≡ pargather_command) }
{
    let bare = bare_command(alloc, "pargather");
    let grouped = with_option(alloc, bare, "group", false)?;
    let summed = with_option(alloc, grouped, "agg", true)?;
    let filtered = with_option(alloc, summed, "where", false)?;
    let staffed = with_option(alloc, filtered, "workers", false)?;
    let planned = with_option(alloc, staffed, "plan", false)?;
    with_option(alloc, planned, "area-pages", false)
}

/// The command of parstream with its eight options, of which `--where` may be repeated and `--trim` takes no value.
fn parstream<'a>(alloc: Global) -> Result<Command<'a>, AllocError>
    ensures { IfOk result (λ c. app_of c ≡ parstream_command) }
{
    let asking = asking_options(alloc)?;
    with_reading(alloc, asking)
}

/// Those that say what is asked of the rows, and by how many workers.
fn asking_options<'a>(alloc: Global) -> Result<Command<'a>, AllocError>
    ensures { IfOk result (λ c. app_of c ≡ asking_command) }
{
    let bare = bare_command(alloc, "parstream");
    let grouped = with_option(alloc, bare, "group", false)?;
    let summed = with_option(alloc, grouped, "agg", true)?;
    let filtered = with_list(alloc, summed, "where")?;
    let staffed = with_option(alloc, filtered, "workers", false)?;
    with_option(alloc, staffed, "decimals", false)
}

/// A command with those that say how fields are read.
fn with_reading<'a>(alloc: Global, command: Command<'a>) -> Result<Command<'a>, AllocError>
    ensures { IfOk result (λ c. app_of c ≡ reading_command (app_of command.entry)) }
{
    let parted = with_option(alloc, command, "separator", false)?;
    let emptied = with_option(alloc, parted, "null", false)?;
    with_flag(alloc, emptied, "trim")
}

/// A command with no options, for words with no program name before them.
fn bare_command<'a>(alloc: Global, name: &'a str) -> Command<'a>
    ensures { app_of result ≡ bare (new_app name.entry.now) }
{
    Command::new(alloc, name).no_binary_name(true)
}

/// A command with one more option, which takes a value each time it is given.
fn with_list<'a>(
    alloc: Global,
    command: Command<'a>,
    name: &'a str,
) -> Result<Command<'a>, AllocError>
    ensures { IfOk result (λ c. app_of c ≡ with_rule (app_of command.entry) (repeated_of name.entry.now)) }
{
    command.arg(Arg::new(alloc, name).long(name).action(ArgAction::Append))
}

/// A command with one more option, which takes no value.
fn with_flag<'a>(
    alloc: Global,
    command: Command<'a>,
    name: &'a str,
) -> Result<Command<'a>, AllocError>
    ensures { IfOk result (λ c. app_of c ≡ with_rule (app_of command.entry) (flag_of name.entry.now)) }
{
    command.arg(Arg::new(alloc, name).long(name).action(ArgAction::SetTrue))
}

/// A command with one more option, which takes one value.
fn with_option<'a>(
    alloc: Global,
    command: Command<'a>,
    name: &'a str,
    is_required: bool,
) -> Result<Command<'a>, AllocError>
    ensures { IfOk result (λ c. app_of c ≡ with_rule (app_of command.entry) (option_of name.entry.now is_required)) }
{
    command.arg(Arg::new(alloc, name).long(name).required(is_required))
}
