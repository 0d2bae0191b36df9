//! The words of a head as those of parstream's command line: each option in one word with its value. The texts of the
//! filters are those of `--where`; one that begins as no filter does, with an equals sign, may say how fields are read.

ghost use Rattle.std.specs.Prelude.{◌≡◌, ◌≤◌, ◌^◌, ◌++◌, ◌⊎◌, ◌∷◌, [], ℕ, All, List, IfOk, MatchOption, Ok, false, length, map as map_list, string_bytes, true};
ghost use Rattle.std.specs.List.{flat_map};
ghost use Rattle.std.specs.Str.{IsUtf8};
ghost use Rattle.state_file.specs.Text.{text_bytes};
ghost use Rattle.state_head.specs.Words.{words_of};
ghost use Rattle.state_plan.specs.Words.{HaveNoCommand, IsCommand, filter_word, option_words, says_reading};

use state_file::read_text;
use state_head::PlanWords;
use std::alloc::{AllocError, Global};
use std::str;

/// The most bytes of a word.
const MOST_WORD: u64 = 1 << 20;

/// The words of a command line that say the same as those of a head, if these are UTF-8. It takes memory for them.
pub(crate) fn command_words(
    alloc: Global,
    words: PlanWords<'_>,
) -> Result<Option<Vec<String>>, AllocError>
    ensures { IfOk result (λ found. MatchOption found (HaveNoCommand (words_of words.entry)) (λ command. IsCommand (words_of words.entry) (map_list string_bytes command.items))) }
{
    let mut command = Vec::new(alloc);
    let group = push_option(alloc, &mut command, "--group=", words.group)?;
    let agg = push_option(alloc, &mut command, "--agg=", words.agg)?;
    let filters = push_filters(alloc, &mut command, words.filter)?;
    let decimals = push_option(alloc, &mut command, "--decimals=", words.decimals)?;
    if are_all(group, agg, filters, decimals) {
        Ok(Some(command))
    } else {
        Ok(None)
    }
}

/// Whether all four are so.
fn are_all(group: bool, agg: bool, filters: bool, decimals: bool) -> bool
    ensures all { result ≡ true → (group ≡ true) × (agg ≡ true) × (filters ≡ true) × (decimals ≡ true) }
    ensures not_all { result ≡ false → ((group ≡ false) ⊎ (agg ≡ false)) ⊎ ((filters ≡ false) ⊎ (decimals ≡ false)) }
{
    group && agg && filters && decimals
}

/// Puts an option at the end of some words, unless its value is empty, and says whether it is UTF-8.
fn push_option(
    alloc: Global,
    command: &mut Vec<String>,
    option: &str,
    text: &[u8],
) -> Result<bool, AllocError>
    ensures put { result ≡ Ok true → map_list string_bytes command.new.items ≡ map_list string_bytes command.old.items ++ option_words option.now text.now }
    ensures no_text { result ≡ Ok false → IsUtf8 text.now → ⊥ }
{
    if text.is_empty() {
        return Ok(true);
    }
    push_word(alloc, command, option, text)
}

/// Puts each of some texts as an option at the end of some words, and says whether they are texts, and UTF-8.
fn push_filters(alloc: Global, command: &mut Vec<String>, texts: &[u8]) -> Result<bool, AllocError>
    ensures put { result ≡ Ok true → (filters : List (List ℕ)) × (texts.now ≡ flat_map text_bytes filters) × All (λ text. length text ≤ 2 ^ 20) filters
        × (map_list string_bytes command.new.items ≡ map_list string_bytes command.old.items ++ map_list filter_word filters) }
    ensures no_texts { result ≡ Ok false → (filters : List (List ℕ)) → texts.now ≡ flat_map text_bytes filters → All (λ text. length text ≤ 2 ^ 20) filters → All IsUtf8 filters → ⊥ }
{
    let mut rest = texts;
    for _ in 0..texts.len() {
        if rest.is_empty() {
            return Ok(true);
        }
        let Some((text, after)) = read_text(rest, MOST_WORD) else {
            return Ok(false);
        };
        let is_text = push_filter(alloc, command, text)?;
        if !is_text {
            return Ok(false);
        }
        rest = after;
    }
    Ok(rest.is_empty())
}

/// Puts a text among the filters as an option at the end of some words, if it is UTF-8, and says whether it is.
fn push_filter(alloc: Global, command: &mut Vec<String>, text: &[u8]) -> Result<bool, AllocError>
    ensures put { result ≡ Ok true → map_list string_bytes command.new.items ≡ map_list string_bytes command.old.items ++ filter_word text.now ∷ [] }
    ensures no_text { result ≡ Ok false → IsUtf8 text.now → ⊥ }
{
    if says_reading(text) {
        push_word(alloc, command, "--", &text[1..])
    } else {
        push_word(alloc, command, "--where=", text)
    }
}

/// Whether a text says how fields are read.
fn says_reading(text: &[u8]) -> bool
    ensures { result ≡ says_reading text.now }
{
    text.starts_with(b"=separator=") || text.starts_with(b"=null=") || text == b"=trim".as_slice()
}

/// Puts a word of these two parts at the end of some words, if the second is UTF-8, and says whether it is.
fn push_word(
    alloc: Global,
    command: &mut Vec<String>,
    front: &str,
    text: &[u8],
) -> Result<bool, AllocError>
    ensures put { result ≡ Ok true → map_list string_bytes command.new.items ≡ map_list string_bytes command.old.items ++ (front.now ++ text.now) ∷ [] }
    ensures no_text { result ≡ Ok false → IsUtf8 text.now → ⊥ }
{
    let Ok(text) = str::from_utf8(text) else {
        return Ok(false);
    };
    let mut word = String::from_str(alloc, front)?;
    word.push_str(text)?;
    command.push(word)?;
    Ok(true)
}
