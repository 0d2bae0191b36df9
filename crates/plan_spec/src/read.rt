//! The plan of the words of a command line.

ghost use Rattle.std.specs.Prelude.{◌≡◌, ◌≤◌, None, Some, All, IfOk, map, string_bytes, true, vec_len};
ghost use Rattle.par_model.specs.Plain.{is_plain_named};
ghost use Rattle.csv_rows.specs.Readings.{IsSeparator};
ghost use Rattle.plan_spec.specs.Query.{groups_given, hash_given, items_given, nulls_given, number_given, places_given, query_of, separator_given, stream_query_of, text_of};
ghost use Rattle.plan_spec.specs.Given.{entry_of, query_given, reading_of};
ghost use Rattle.plan_spec.specs.Grammar.{filters_in};
ghost use Rattle.par_model.specs.declared.plan.TheConstants.{MOST_PLACES};
ghost use Rattle.plan_spec.specs.declared.plan.PlanAnswer.TheVariants as answer;

use crate::grammar::{
    MOST_NUMBER, PlacesOf, filters, hash, items, names, nulls, number, places, separator,
};
use crate::options::{OptionValues, option_values, stream_values};
use crate::plan::{MOST_AREA_PAGES, MOST_WORKERS, Plan, PlanAnswer, PlanItem};
use csv_rows::Reading;
use par_model::Text;
use std::alloc::Global;

/// The number of workers if the words ask for none.
const WORKERS: u32 = 2;

/// The number of pages if the words ask for none.
const AREA_PAGES: u32 = 2_048;

impl Plan {
    /// The plan of the words after pargather's name: a simple command of `clap` with the options
    /// `--group`, `--agg` (required), `--where`, `--workers`, `--plan` and `--area-pages`, each with one
    /// value, and each value by its grammar. Asking for help is no plan.
    pub fn of_words(alloc: Global, words: &[String]) -> Result<Plan, PlanAnswer>
        ensures plan { IfOk result (λ plan. query_of (map string_bytes words.now) ≡ Some plan) }
        ensures plain { IfOk result (λ plan. is_plain_named plan.plan ≡ true) }
        ensures usage { result ≡ Err answer.Usage → query_of (map string_bytes words.now) ≡ None }
    {
        match option_values(alloc, words) {
            Ok(given) => read_values(alloc, &given),
            Err(answer) => Err(answer),
        }
    }

    /// The plan of the words after parstream's name: a simple command with the options `--group`, `--agg` (required),
    /// `--where`, which may be repeated, `--workers`, `--decimals`, `--separator`, `--null` and `--trim`, which takes no value. It
    /// uses no shared table, and names the default number of pages for one.
    pub fn of_stream_words(alloc: Global, words: &[String]) -> Result<Plan, PlanAnswer>
        ensures plan { IfOk result (λ plan. stream_query_of (map string_bytes words.now) ≡ Some plan) }
        ensures usage { result ≡ Err answer.Usage → stream_query_of (map string_bytes words.now) ≡ None }
    {
        match stream_values(alloc, words) {
            Ok(given) => read_values(alloc, &given),
            Err(answer) => Err(answer),
        }
    }
}

/// The plan of the options' values. What takes no memory is read first.
fn read_values(alloc: Global, given: &OptionValues<'_>) -> Result<Plan, PlanAnswer>
    ensures plan { IfOk result (λ plan. query_given given.now ≡ Some plan) }
    ensures usage { result ≡ Err answer.Usage → query_given given.now ≡ None }
{
    let hash = hash_read(given.plan)?;
    let workers = number_read(given.workers, MOST_WORKERS, WORKERS)?;
    let area_pages = number_read(given.area_pages, MOST_AREA_PAGES, AREA_PAGES)?;
    let reading = reading_read(given)?;
    let places = places_read(alloc, given.decimals)?;
    let filters = filters(alloc, &places, given.filters.as_slice(), given.texts)?;
    let groups = groups_read(alloc, given.group)?;
    let items = items_read(alloc, &places, given.agg)?;
    Ok(Plan {
        groups,
        items,
        filters,
        hash,
        workers,
        area_pages,
        reading,
    })
}

/// How the fields of the input are read.
fn reading_read(given: &OptionValues<'_>) -> Result<Reading, PlanAnswer>
    ensures reading { IfOk result (λ r. reading_of given.now ≡ Some r) }
    ensures separator { IfOk result (λ r. IsSeparator r.separator) }
    ensures none { result ≡ Err answer.Usage → reading_of given.now ≡ None }
{
    let separator = separator_read(given.separator)?;
    let nulls = nulls_read(given.nulls)?;
    Ok(Reading {
        separator,
        trim: given.trim,
        nulls,
    })
}

fn separator_read(given: Option<&str>) -> Result<u8, PlanAnswer>
    ensures byte { IfOk result (λ byte. separator_given (text_of given.entry) ≡ Some byte) }
    ensures fits { IfOk result IsSeparator }
    ensures none { result ≡ Err answer.Usage → separator_given (text_of given.entry) ≡ None }
{
    match given {
        Some(text) => separator(text).ok_or(PlanAnswer::Usage),
        None => Ok(b','),
    }
}

fn nulls_read(given: Option<&str>) -> Result<Text, PlanAnswer>
    ensures texts { IfOk result (λ text. nulls_given (text_of given.entry) ≡ Some text) }
    ensures none { result ≡ Err answer.Usage → nulls_given (text_of given.entry) ≡ None }
{
    match given {
        Some(text) => nulls(text).ok_or(PlanAnswer::Usage),
        None => Ok(Reading::plain().nulls),
    }
}

fn places_read<'a>(alloc: Global, given: Option<&'a str>) -> Result<Vec<PlacesOf<'a>>, PlanAnswer>
    ensures places { IfOk result (λ v. places_given (text_of given.entry) ≡ Some (map entry_of v.items)) }
    ensures within { IfOk result (λ v. All (λ entry. entry.places ≤ MOST_PLACES) v.items) }
    ensures none { result ≡ Err answer.Usage → places_given (text_of given.entry) ≡ None }
{
    match given {
        Some(text) => places(alloc, text),
        None => Ok(Vec::new(alloc)),
    }
}

fn groups_read(alloc: Global, given: Option<&str>) -> Result<Vec<String>, PlanAnswer>
    ensures groups { IfOk result (λ v. groups_given (text_of given.entry) ≡ Some (map string_bytes v.items)) }
    ensures within { IfOk result (λ v. vec_len v ≤ 8) }
    ensures none { result ≡ Err answer.Usage → groups_given (text_of given.entry) ≡ None }
{
    match given {
        Some(text) => names(alloc, text),
        None => Ok(Vec::new(alloc)),
    }
}

fn items_read(
    alloc: Global,
    places: &[PlacesOf<'_>],
    given: Option<&str>,
) -> Result<Vec<PlanItem>, PlanAnswer>
    requires { All (λ entry. entry.places ≤ MOST_PLACES) places.now }
    ensures items { IfOk result (λ v. items_given (map entry_of places.now) (text_of given.entry) ≡ Some v.items) }
    ensures some { IfOk result (λ v. 1 ≤ vec_len v) }
    ensures within { IfOk result (λ v. vec_len v ≤ 8) }
    ensures none { result ≡ Err answer.Usage → items_given (map entry_of places.now) (text_of given.entry) ≡ None }
{
    match given {
        Some(text) => items(alloc, places, text),
        None => Err(PlanAnswer::Usage),
    }
}

fn hash_read(given: Option<&str>) -> Result<bool, PlanAnswer>
    ensures hash { IfOk result (λ h. hash_given (text_of given.entry) ≡ Some h) }
    ensures none { result ≡ Err answer.Usage → hash_given (text_of given.entry) ≡ None }
{
    match given {
        Some(text) => hash(text).ok_or(PlanAnswer::Usage),
        None => Ok(false),
    }
}

fn number_read(given: Option<&str>, most: u32, missing: u32) -> Result<u32, PlanAnswer>
    requires most { most ≤ MOST_NUMBER }
    requires missing { missing ≤ most }
    ensures number { IfOk result (λ n. number_given most missing (text_of given.entry) ≡ Some n) }
    ensures within { IfOk result (λ n. n ≤ most) }
    ensures none { result ≡ Err answer.Usage → number_given most missing (text_of given.entry) ≡ None }
{
    match given {
        Some(text) => number(text, most).ok_or(PlanAnswer::Usage),
        None => Ok(missing),
    }
}
