//! The words `gen SEED ROWS`.

ghost use Rattle.std.specs.Prelude.{◌≡◌, ◌≢◌, ◌≤◌, ◌<◌, ◌^◌, ◌-◌, IfSome, option_map};
ghost use Rattle.par_model.specs.Outcome.{most_rows};
ghost use Rattle.gen_query.specs.Words.{asked_by, asked_in, gen_of, is_gen, number_in, rows_in, seed_in};
ghost use Rattle.answer_text.specs.Words.{texts};

/// The most rows, as many as an input may have.
const MOST_ROWS: u64 = 4_194_304;

/// What words ask for.
#[derive(Debug, Clone, Copy)]
pub(crate) struct GenWords {
    /// The seed of the generator, which is not 0.
    pub(crate) seed: u64,
    /// The number of rows, at most [`MOST_ROWS`].
    pub(crate) rows: u64,
}

/// Whether words begin with `gen`.
pub fn is_gen(words: &[String]) -> bool
    ensures { result ≡ is_gen (texts words.now) }
{
    match words.first() {
        Some(word) => word.as_str() == "gen",
        None => false,
    }
}

/// What the words after a program's name ask for, if they are `gen`, a seed and a number of rows: 1 to 20 digits with a
/// value from 1 to 2^64 - 1, and 1 to 7 digits with a value up to [`MOST_ROWS`]. It takes no memory.
pub(crate) fn read_words(words: &[String]) -> Option<GenWords>
    ensures asked { option_map asked_by result ≡ gen_of (texts words.now) }
    ensures few { IfSome result (λ asked. asked.rows ≤ most_rows) }
{
    if words.len() != 3 || !is_gen(words) {
        return None;
    }
    asked_in(words[1].as_str(), words[2].as_str())
}

/// What SEED and ROWS ask for.
fn asked_in(seed: &str, rows: &str) -> Option<GenWords>
    ensures asked { option_map asked_by result ≡ asked_in seed.now rows.now }
    ensures few { IfSome result (λ asked. asked.rows ≤ most_rows) }
{
    let seed = read_seed(seed)?;
    let rows = number(rows, 7, MOST_ROWS)?;
    Some(GenWords { seed, rows })
}

/// One to twenty digits, with a value from 1 to 2^64 - 1.
fn read_seed(text: &str) -> Option<u64>
    ensures { result ≡ seed_in text.now }
{
    let seed = number(text, 20, u64::MAX)?;
    if seed == 0 { None } else { Some(seed) }
}

/// One digit or more, at most `longest`, with a value up to `most`.
fn number(text: &str, longest: usize, most: u64) -> Option<u64>
    ensures value { result ≡ number_in longest most text.now }
    ensures within { IfSome result (λ n. n ≤ most) }
{
    let digits = text.as_bytes();
    if digits.is_empty() || digits.len() > longest {
        return None;
    }
    let largest = u128::from(most);
    let mut value: u128 = 0;
    'digits: for digit in digits {
        if !digit.is_ascii_digit() {
            return None;
        }
        if value > largest {
            return None;
        }
        value = value * 10 + u128::from(*digit - b'0');
    }
    if value > largest {
        return None;
    }
    Some(value as u64)
}
