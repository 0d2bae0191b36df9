//! The commands over the hash table: `table`, `put`, `get`, `del`, `fill` and `total`.

ghost use Rattle.std.specs.Prelude.{◌≡◌, [], ◌∷◌, IfSome, map, option_map};
ghost use Rattle.shell_lines.specs.TableRequests.{IsAllowed, request_in, request_of};

use crate::words::{is, name, number};

/// The most puts of one `fill`.
const MOST_PUTS: u64 = 100_000;

/// A command over the hash table.
#[derive(Clone, Copy, Debug, PartialEq, Eq)]
pub enum TableCommand<'a> {
    Table,
    Put { key: &'a [u8], value: u64 },
    Get { key: &'a [u8] },
    Delete { key: &'a [u8] },
    Fill { count: u64 },
    Total,
}

/// The command over the table that words are.
pub(crate) fn table_command<'a>(words: &[&'a [u8]]) -> Option<TableCommand<'a>>
    ensures command { option_map request_of result ≡ request_in (map (λ word. word.now) words.now) }
    ensures allowed { IfSome result (λ c. IsAllowed (request_of c)) }
{
    match words {
        [verb] => table_or_total(verb),
        [verb, word] => get_delete_or_fill(verb, word),
        [verb, key, value] => put_command(verb, key, value),
        _ => None,
    }
}

/// `table` or `total`
fn table_or_total<'a>(verb: &[u8]) -> Option<TableCommand<'a>>
    ensures command { option_map request_of result ≡ request_in (verb.now ∷ []) }
    ensures allowed { IfSome result (λ c. IsAllowed (request_of c)) }
{
    if is(verb, "table") {
        Some(TableCommand::Table)
    } else if is(verb, "total") {
        Some(TableCommand::Total)
    } else {
        None
    }
}

/// `get KEY`, `del KEY` or `fill N`
fn get_delete_or_fill<'a>(verb: &[u8], word: &'a [u8]) -> Option<TableCommand<'a>>
    ensures command { option_map request_of result ≡ request_in (verb.now ∷ word.now ∷ []) }
    ensures allowed { IfSome result (λ c. IsAllowed (request_of c)) }
{
    if is(verb, "get") {
        let key = name(word)?;
        Some(TableCommand::Get { key })
    } else if is(verb, "del") {
        let key = name(word)?;
        Some(TableCommand::Delete { key })
    } else if is(verb, "fill") {
        let count = number(word, 1, MOST_PUTS)?;
        Some(TableCommand::Fill { count })
    } else {
        None
    }
}

/// `put KEY VALUE`
fn put_command<'a>(verb: &[u8], key: &'a [u8], value: &[u8]) -> Option<TableCommand<'a>>
    ensures command { option_map request_of result ≡ request_in (verb.now ∷ key.now ∷ value.now ∷ []) }
    ensures allowed { IfSome result (λ c. IsAllowed (request_of c)) }
{
    if is(verb, "put") {
        let key = name(key)?;
        let value = number(value, 0, u64::MAX)?;
        Some(TableCommand::Put { key, value })
    } else {
        None
    }
}
