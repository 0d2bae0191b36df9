//! A text that is replaced if it is still the expected one: a look and a change in one turn of the name's partition, so
//! that no other caller's call comes between.

ghost use Rattle.std.specs.Prelude.{◌≡◌, ◌≢◌, ◌↔◌, [], ◌∷◌, ◌++◌, Some, IsSome, true, false, cond};
ghost use Rattle.lock_book.specs.Shown.{calls_in, mine_of, number_in, number_of, place_in, seen_of};
ghost use Rattle.dshash_core.specs.Key.{hash_of};
ghost use Rattle.dshash_core.specs.Cells.{partition_of};
ghost use Rattle.dshash_parts.specs.Replays.{calls_of_key};
ghost use Rattle.dshash_parts.specs.Tables.{Belongs, IsTable, key_words_of};
ghost use Rattle.dshash_parts.specs.Turns.{IsTurn, under_in};
ghost use Rattle.uses_table.specs.Texts.{after, may, owner_of};
ghost use Rattle.uses_table.specs.Cached.{AreSwap, Swapped, under};

use crate::text::{TEXT_WORDS, Text, TextCall};
use dshash_core::{CoreOut, hash_key, partition_of_hash};
use dshash_parts::{DsPass, DsTurn, Dshash};
use region_words::Region;
use std::sync::Wait;

/// A call of a name in a turn at its partition, which puts in no new name, so it needs no item. The text that was under
/// the name.
fn ask_in(
    cache: &Dshash<Text>,
    r: &Region,
    turn: &mut DsTurn<Text>,
    name: &[u64; TEXT_WORDS],
    call: TextCall,
) -> Option<Text>
    requires table { IsTable r.now cache.now }
    requires keys { key_words_of cache.now ≡ 32 }
    requires turn { (p : _) × IsTurn cache.now p turn.old }
    requires place { partition_of (hash_of name.now) ≡ place_in turn.old }
    requires may { may (number_in turn.old) name.now call }
    requires there { IsSome (after (under_in turn.old name.now) call) → IsSome (under_in turn.old name.now) }
    ensures turn { (p : _) → IsTurn cache.now p turn.old → IsTurn cache.now p turn.new }
    ensures same { (place_in turn.new ≡ place_in turn.old) × (number_in turn.new ≡ number_in turn.old) }
    ensures before { result ≡ under_in turn.old name.now }
    ensures after { under_in turn.new name.now ≡ after result call }
    ensures made { (e : _) × (calls_in turn.new ≡ calls_in turn.old ++ e ∷ []) × (calls_of_key name.now (e ∷ []) ≡ (call, result) ∷ []) }
{
    match cache.call_in(r, turn, name, &call, None) {
        CoreOut::Done { reply, .. } => reply,
        _ => unreachable!(),
    }
}

/// Puts a text under one of the caller's own names if the expected one is there, and says whether it was.
fn swap_in(
    cache: &Dshash<Text>,
    r: &Region,
    turn: &mut DsTurn<Text>,
    name: &[u64; TEXT_WORDS],
    expected: &Text,
    text: Text,
) -> bool
    requires table { IsTable r.now cache.now }
    requires keys { key_words_of cache.now ≡ 32 }
    requires turn { (p : _) × IsTurn cache.now p turn.old }
    requires place { partition_of (hash_of name.now) ≡ place_in turn.old }
    requires owner { owner_of name.now ≡ number_in turn.old }
    ensures turn { (p : _) → IsTurn cache.now p turn.old → IsTurn cache.now p turn.new }
    ensures same { (place_in turn.new ≡ place_in turn.old) × (number_in turn.new ≡ number_in turn.old) }
    ensures told { result ≡ true ↔ (under_in turn.old name.now ≡ Some expected.now) }
    ensures after { under_in turn.new name.now ≡ cond result (Some text) (under_in turn.old name.now) }
    ensures swap { (es : _) × (calls_in turn.new ≡ calls_in turn.old ++ es) × AreSwap es name.now (under_in turn.old name.now) text result }
{
    let found = ask_in(cache, r, turn, name, TextCall::Get);
    if found != Some(*expected) {
        return false;
    }
    let _before = ask_in(cache, r, turn, name, TextCall::Set(text));
    true
}

/// Puts a text under one of the caller's own names if the expected one is there, and says whether it was. It asks
/// nothing of the area.
pub fn replace_if<R: Wait>(
    rt: &R,
    cache: &Dshash<Text>,
    r: &Region,
    pass: &mut DsPass<Text>,
    name: &[u64; TEXT_WORDS],
    expected: &Text,
    text: Text,
) -> bool
    requires table { IsTable r.now cache.now }
    requires keys { key_words_of cache.now ≡ 32 }
    requires own { Belongs cache.now pass.old }
    requires owner { owner_of name.now ≡ number_of pass.old }
    ensures own { Belongs cache.now pass.new }
    ensures caller { number_of pass.new ≡ number_of pass.old }
    ensures replaced { result ≡ true → under (seen_of pass.new) name.now ≡ Some text }
    ensures kept { result ≡ false → under (seen_of pass.new) name.now ≢ Some expected.now }
    ensures swapped { let home = partition_of (hash_of name.now) in Swapped (seen_of pass.new home) (mine_of pass.old home) (mine_of pass.new home) name.now expected.now text result }
{
    let partition = partition_of_hash(hash_key(name));
    let mut turn = cache.turn(rt, pass, partition);
    let replaced = swap_in(cache, r, &mut turn, name, expected, text);
    cache.end_turn(turn, pass);
    replaced
}
