//! The commands over the table of contents: `toc alloc`, `insert`, `find`, `freeze` and `attach`.

ghost use Rattle.std.specs.Prelude.{◌≡◌, [], ◌∷◌, IfSome, map, option_map};
ghost use Rattle.shell_lines.specs.TocRequests.{IsAllowed, request_in, request_of};

use crate::words::{MOST_BYTES, is, name, number};

/// A command over the table of contents.
#[derive(Clone, Copy, Debug, PartialEq, Eq)]
pub enum TocCommand<'a> {
    Alloc { name: &'a [u8], bytes: u64 },
    Insert { key: u64, name: &'a [u8] },
    Find { key: u64 },
    Freeze,
    Attach { magic: u64 },
}

/// The command over the table of contents that words are.
pub(crate) fn toc_command<'a>(words: &[&'a [u8]]) -> Option<TocCommand<'a>>
    ensures command { option_map request_of result ≡ request_in (map (λ word. word.now) words.now) }
    ensures allowed { IfSome result (λ c. IsAllowed (request_of c)) }
{
    match words {
        [toc, verb] => freeze_command(toc, verb),
        [toc, verb, n] => find_or_attach(toc, verb, n),
        [toc, verb, x, y] => alloc_or_insert(toc, verb, x, y),
        _ => None,
    }
}

/// `toc freeze`
fn freeze_command<'a>(toc: &[u8], verb: &[u8]) -> Option<TocCommand<'a>>
    ensures command { option_map request_of result ≡ request_in (toc.now ∷ verb.now ∷ []) }
    ensures allowed { IfSome result (λ c. IsAllowed (request_of c)) }
{
    if is(toc, "toc") && is(verb, "freeze") {
        Some(TocCommand::Freeze)
    } else {
        None
    }
}

/// `toc find KEY` or `toc attach MAGIC`
fn find_or_attach<'a>(toc: &[u8], verb: &[u8], n: &[u8]) -> Option<TocCommand<'a>>
    ensures command { option_map request_of result ≡ request_in (toc.now ∷ verb.now ∷ n.now ∷ []) }
    ensures allowed { IfSome result (λ c. IsAllowed (request_of c)) }
{
    if is(toc, "toc") && is(verb, "find") {
        let key = number(n, 0, u64::MAX)?;
        Some(TocCommand::Find { key })
    } else if is(toc, "toc") && is(verb, "attach") {
        let magic = number(n, 0, u64::MAX)?;
        Some(TocCommand::Attach { magic })
    } else {
        None
    }
}

/// `toc alloc NAME BYTES` or `toc insert KEY NAME`
fn alloc_or_insert<'a>(
    toc: &[u8],
    verb: &[u8],
    first: &'a [u8],
    second: &'a [u8],
) -> Option<TocCommand<'a>>
    ensures command { option_map request_of result ≡ request_in (toc.now ∷ verb.now ∷ first.now ∷ second.now ∷ []) }
    ensures allowed { IfSome result (λ c. IsAllowed (request_of c)) }
{
    if is(toc, "toc") && is(verb, "alloc") {
        let name = name(first)?;
        let bytes = number(second, 1, MOST_BYTES)?;
        Some(TocCommand::Alloc { name, bytes })
    } else if is(toc, "toc") && is(verb, "insert") {
        let key = number(first, 0, u64::MAX)?;
        let name = name(second)?;
        Some(TocCommand::Insert { key, name })
    } else {
        None
    }
}
