//! The commands over chunks: `alloc`, `free`, `store` and `load`.

ghost use Rattle.std.specs.Prelude.{◌≡◌, [], ◌∷◌, IfSome, map, option_map};
ghost use Rattle.shell_lines.specs.ChunkRequests.{IsAllowed, request_in, request_of};

use crate::words::{MOST_BYTES, is, name, number};

/// A command over chunks.
#[derive(Clone, Copy, Debug, PartialEq, Eq)]
pub enum ChunkCommand<'a> {
    Alloc {
        name: &'a [u8],
        bytes: u64,
    },
    Free {
        name: &'a [u8],
    },
    Store {
        name: &'a [u8],
        word: u64,
        value: u64,
    },
    Load {
        name: &'a [u8],
        word: u64,
    },
}

/// The command over chunks that words are.
pub(crate) fn chunk_command<'a>(words: &[&'a [u8]]) -> Option<ChunkCommand<'a>>
    ensures command { option_map request_of result ≡ request_in (map (λ word. word.now) words.now) }
    ensures allowed { IfSome result (λ c. IsAllowed (request_of c)) }
{
    match words {
        [verb, chunk] => free_command(verb, chunk),
        [verb, chunk, n] => alloc_or_load(verb, chunk, n),
        [verb, chunk, n, value] => store_command(verb, chunk, n, value),
        _ => None,
    }
}

/// `free NAME`
fn free_command<'a>(verb: &[u8], chunk: &'a [u8]) -> Option<ChunkCommand<'a>>
    ensures command { option_map request_of result ≡ request_in (verb.now ∷ chunk.now ∷ []) }
    ensures allowed { IfSome result (λ c. IsAllowed (request_of c)) }
{
    if is(verb, "free") {
        let name = name(chunk)?;
        Some(ChunkCommand::Free { name })
    } else {
        None
    }
}

/// `alloc NAME BYTES` or `load NAME N`
fn alloc_or_load<'a>(verb: &[u8], chunk: &'a [u8], n: &[u8]) -> Option<ChunkCommand<'a>>
    ensures command { option_map request_of result ≡ request_in (verb.now ∷ chunk.now ∷ n.now ∷ []) }
    ensures allowed { IfSome result (λ c. IsAllowed (request_of c)) }
{
    if is(verb, "alloc") {
        let name = name(chunk)?;
        let bytes = number(n, 1, MOST_BYTES)?;
        Some(ChunkCommand::Alloc { name, bytes })
    } else if is(verb, "load") {
        let name = name(chunk)?;
        let word = number(n, 0, u64::MAX)?;
        Some(ChunkCommand::Load { name, word })
    } else {
        None
    }
}

/// `store NAME N VALUE`
fn store_command<'a>(
    verb: &[u8],
    chunk: &'a [u8],
    n: &[u8],
    value: &[u8],
) -> Option<ChunkCommand<'a>>
    ensures command { option_map request_of result ≡ request_in (verb.now ∷ chunk.now ∷ n.now ∷ value.now ∷ []) }
    ensures allowed { IfSome result (λ c. IsAllowed (request_of c)) }
{
    if is(verb, "store") {
        let name = name(chunk)?;
        let word = number(n, 0, u64::MAX)?;
        let value = number(value, 0, u64::MAX)?;
        Some(ChunkCommand::Store { name, word, value })
    } else {
        None
    }
}
