//! The commands over rings: `ring`, `send`, `post`, `recv` and `detach`. Of `send` and `post` the text is all that
//! follows the ring's name, spaces too, so they are read off the line and not off its words.

ghost use Rattle.std.specs.Prelude.{◌≡◌, ◌^◌, ◌≤◌, ℕ, [], ◌∷◌, IfSome, Some, map, option_map};
ghost use Rattle.shell_lines.specs.RingRequests.{IsAllowed, request_in, request_of, ring_size_in, send_behind as send_by, send_in};

use crate::words::{cut, is, name, number};

/// The most cells of a ring.
const MOST_CELLS: u64 = 1_048_576;

/// The most bytes of a message.
const MOST_MESSAGE: u64 = 1_048_576;

/// A command over rings.
#[derive(Clone, Copy, Debug, PartialEq, Eq)]
pub enum RingCommand<'a> {
    Ring {
        name: &'a [u8],
        words: u64,
        from: u64,
        max: u32,
    },
    Send {
        name: &'a [u8],
        text: &'a [u8],
        flush: bool,
    },
    Receive {
        name: &'a [u8],
    },
    DetachSender {
        name: &'a [u8],
    },
    DetachReceiver {
        name: &'a [u8],
    },
}

/// The command with a text that a line is.
pub(crate) fn send_command<'a>(line: &'a [u8]) -> Option<RingCommand<'a>>
    ensures command { option_map request_of result ≡ send_in line.now }
    ensures allowed { IfSome result (λ c. IsAllowed (request_of c)) }
{
    let (verb, rest) = cut(line);
    if is(verb, "send") {
        send_behind(rest?, true)
    } else if is(verb, "post") {
        send_behind(rest?, false)
    } else {
        None
    }
}

/// The command whose ring and text follow `send` or `post`. The text is empty if no space follows the ring's name.
fn send_behind<'a>(rest: &'a [u8], flush: bool) -> Option<RingCommand<'a>>
    ensures command { option_map request_of result ≡ send_by flush (Some rest.now) }
    ensures allowed { IfSome result (λ c. IsAllowed (request_of c)) }
{
    let (ring, text) = cut(rest);
    let name = name(ring)?;
    let text = match text {
        Some(text) => text,
        None => &[],
    };
    Some(RingCommand::Send { name, text, flush })
}

/// The command over rings that words are, but for those with a text.
pub(crate) fn ring_command<'a>(words: &[&'a [u8]]) -> Option<RingCommand<'a>>
    ensures command { option_map request_of result ≡ request_in (map (λ word. word.now) words.now) }
    ensures allowed { IfSome result (λ c. IsAllowed (request_of c)) }
{
    match words {
        [verb, ring] => receive_command(verb, ring),
        [verb, ring, end] => detach_command(verb, ring, end),
        [_, _, _, _] => None,
        [verb, ring, words, from, max] => make_ring(verb, ring, words, from, max),
        _ => None,
    }
}

/// `recv Q`
fn receive_command<'a>(verb: &[u8], ring: &'a [u8]) -> Option<RingCommand<'a>>
    ensures command { option_map request_of result ≡ request_in (verb.now ∷ ring.now ∷ []) }
    ensures allowed { IfSome result (λ c. IsAllowed (request_of c)) }
{
    if is(verb, "recv") {
        let name = name(ring)?;
        Some(RingCommand::Receive { name })
    } else {
        None
    }
}

/// `detach Q sender` or `detach Q receiver`
fn detach_command<'a>(verb: &[u8], ring: &'a [u8], end: &[u8]) -> Option<RingCommand<'a>>
    ensures command { option_map request_of result ≡ request_in (verb.now ∷ ring.now ∷ end.now ∷ []) }
    ensures allowed { IfSome result (λ c. IsAllowed (request_of c)) }
{
    if is(verb, "detach") && is(end, "sender") {
        let name = name(ring)?;
        Some(RingCommand::DetachSender { name })
    } else if is(verb, "detach") && is(end, "receiver") {
        let name = name(ring)?;
        Some(RingCommand::DetachReceiver { name })
    } else {
        None
    }
}

/// `ring Q WORDS FROM MAX`
fn make_ring<'a>(
    verb: &[u8],
    ring: &'a [u8],
    words: &[u8],
    from: &[u8],
    max: &[u8],
) -> Option<RingCommand<'a>>
    ensures command { option_map request_of result ≡ request_in (verb.now ∷ ring.now ∷ words.now ∷ from.now ∷ max.now ∷ []) }
    ensures allowed { IfSome result (λ c. IsAllowed (request_of c)) }
{
    if is(verb, "ring") {
        let name = name(ring)?;
        let words = ring_size(words)?;
        let from = number(from, 0, u64::MAX)?;
        let max = number(max, 0, MOST_MESSAGE)? as u32;
        Some(RingCommand::Ring {
            name,
            words,
            from,
            max,
        })
    } else {
        None
    }
}

/// The word as a number of cells that a ring may have.
fn ring_size(word: &[u8]) -> Option<u64>
    ensures value { result ≡ ring_size_in word.now }
    ensures power { IfSome result (λ n. (e : ℕ) × (n ≡ 2 ^ e) × (e ≤ 20)) }
{
    let words = number(word, 1, MOST_CELLS)?;
    if words.is_power_of_two() {
        Some(words)
    } else {
        None
    }
}
