//! The words `join COLUMN N`.

ghost use Rattle.std.specs.Prelude.{◌≡◌, ◌≤◌, IfSome, option_map};
ghost use Rattle.answer_text.specs.Words.{texts};
ghost use Rattle.join_query.specs.Words.{asked_by, asked_in, is_join, join_of};

use plan_spec::number;

/// What words ask for: the name of the column, and the number of workers, at most 64.
#[derive(Debug, Clone, Copy)]
pub struct JoinWords<'a> {
    pub column: &'a str,
    pub workers: u32,
}

/// Whether words begin with `join`.
pub fn is_join(words: &[String]) -> bool
    ensures { result ≡ is_join (texts words.now) }
{
    match words.first() {
        Some(word) => word.as_str() == "join",
        None => false,
    }
}

/// What the words after a program's name ask for, if they are `join`, a name that is not empty, and a number: one to five
/// digits with a value up to 64. It takes no memory.
pub fn read_words(words: &[String]) -> Option<JoinWords<'_>>
    ensures asked { option_map asked_by result ≡ join_of (texts words.now) }
    ensures workers { IfSome result (λ asked. asked.workers ≤ 64) }
{
    if words.len() != 3 || !is_join(words) {
        return None;
    }
    asked_in(words[1].as_str(), words[2].as_str())
}

/// What COLUMN and N ask for.
fn asked_in<'a>(column: &'a str, workers: &str) -> Option<JoinWords<'a>>
    ensures asked { option_map asked_by result ≡ asked_in column.now workers.now }
    ensures workers { IfSome result (λ asked. asked.workers ≤ 64) }
{
    if column.is_empty() {
        return None;
    }
    let workers = number(workers, 64)?;
    Some(JoinWords { column, workers })
}
