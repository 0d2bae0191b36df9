//! The commands over barriers: `bar new`, `attach`, `arrive`, `look` and `detach`.

ghost use Rattle.std.specs.Prelude.{◌≡◌, [], ◌∷◌, IfSome, map, option_map};
ghost use Rattle.shell_lines.specs.BarrierRequests.{IsAllowed, call_in, request_in, request_of};

use crate::words::{is, name, number};

/// The most callers of a barrier.
const MOST_CALLERS: u64 = 64;

/// What a party of a barrier does.
#[derive(Clone, Copy, Debug, PartialEq, Eq)]
pub enum PartyCall {
    Attach,
    Arrive,
    Look,
    Detach,
}

/// A command over barriers.
#[derive(Clone, Copy, Debug, PartialEq, Eq)]
pub enum BarrierCommand<'a> {
    New {
        name: &'a [u8],
        callers: u32,
    },
    Call {
        name: &'a [u8],
        caller: u64,
        call: PartyCall,
    },
}

/// What the word says a party of a barrier does.
fn party_call(word: &[u8]) -> Option<PartyCall>
    ensures { result ≡ call_in word.now }
{
    if is(word, "attach") {
        Some(PartyCall::Attach)
    } else if is(word, "arrive") {
        Some(PartyCall::Arrive)
    } else if is(word, "look") {
        Some(PartyCall::Look)
    } else if is(word, "detach") {
        Some(PartyCall::Detach)
    } else {
        None
    }
}

/// The command over barriers that words are.
pub(crate) fn barrier_command<'a>(words: &[&'a [u8]]) -> Option<BarrierCommand<'a>>
    ensures command { option_map request_of result ≡ request_in (map (λ word. word.now) words.now) }
    ensures allowed { IfSome result (λ c. IsAllowed (request_of c)) }
{
    match words {
        [bar, verb, barrier, n] => new_or_call(bar, verb, barrier, n),
        _ => None,
    }
}

/// `bar new B CALLERS`, or a party's call
fn new_or_call<'a>(
    bar: &[u8],
    verb: &[u8],
    barrier: &'a [u8],
    n: &[u8],
) -> Option<BarrierCommand<'a>>
    ensures command { option_map request_of result ≡ request_in (bar.now ∷ verb.now ∷ barrier.now ∷ n.now ∷ []) }
    ensures allowed { IfSome result (λ c. IsAllowed (request_of c)) }
{
    if is(bar, "bar") && is(verb, "new") {
        let name = name(barrier)?;
        let callers = number(n, 1, MOST_CALLERS)? as u32;
        Some(BarrierCommand::New { name, callers })
    } else if is(bar, "bar") {
        let name = name(barrier)?;
        let caller = number(n, 0, u64::MAX)?;
        let call = party_call(verb)?;
        Some(BarrierCommand::Call { name, caller, call })
    } else {
        None
    }
}
