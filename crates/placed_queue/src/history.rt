//! The history of a queue, and the word that has its length.

ghost use Rattle.std.specs.Prelude.{◌≡◌, ◌+◌, ◌<◌, ◌^◌, ◌++◌, ◌∷◌, [], length, MatchBool};
ghost use mathlib.Core.List.{IsPrefix};
ghost use Rattle.placed_queue.specs.Rules.{head_of, IsLonger};

use crate::item::Item;
use logbook::{Gain, Offer, Plain, Play, Rule, Seen, Word};

/// The rule of a history: its word has its length.
pub struct Law;

impl Rule<Item, u64> for Law {
    ghost use Rattle.std.specs.Prelude.{[]};
    ghost use base.Fml.{ftrue};
    ghost use Rattle.placed_queue.specs.Rules.{IsKept};

    ghost holds = { λ cells log. IsKept cells log };

    ghost first = { [] };

    ghost hinted = { λ n log. Unit {0} };

    ghost shows = { λ log. [] };

    ghost keeps = { λ names log. ftrue };

    ghost moves = { λ ask before after answer. Unit {0} };
}

/// The ends trade nothing.
pub struct Nothing;

impl Gain<Item, u64> for Nothing {
    ghost use base.Fml.{ftrue};

    ghost after = { λ names about answer. ftrue };
}

/// A step that looks.
pub struct Look;

impl Play<Item, u64> for Look {
    ghost use Rattle.placed_queue.specs.Rules.{Looks};

    ghost then = { Looks };
}

/// A step that adds an item.
pub struct Add;

impl Play<Item, u64> for Add {
    ghost use Rattle.placed_queue.specs.Rules.{Adds};

    ghost then = { Adds };
}

/// What a step asks for: the item.
impl Plain<Item, Item, u64> for Add {
    ghost use Rattle.std.specs.Prelude.{None};

    ghost ask = { λ item. item };

    ghost state = { λ item. None };
}

/// The history as it is now, and its length. One load.
pub(crate) fn observe(head: &Word<Item, u64, Law>, seen: &mut Seen<Item, u64, Law>) -> u64
    requires { head.now ≡ head_of seen.old.book }
    ensures seen { (seen.new.book ≡ seen.old.book) × IsPrefix seen.old.log seen.new.log }
    ensures length { result ≡ length seen.new.log }
{
    let mut offer: Offer<Item, u64, Law, Nothing> = seen.plain::<Nothing, Item, Add>(&Item::End);
    head.load::<Look, Nothing>(seen, &mut offer)
}

/// Adds an item to all that was seen, if nobody else has added one. It answers the length that was found. One
/// compare-exchange.
pub(crate) fn add_item(
    head: &Word<Item, u64, Law>,
    seen: &mut Seen<Item, u64, Law>,
    count: u64,
    item: &Item,
) -> u64
    requires here { head.now ≡ head_of seen.old.book }
    requires count { count ≡ length seen.old.log }
    requires room { count + 1 < 2 ^ 64 }
    ensures book { seen.new.book ≡ seen.old.book }
    ensures added { result ≡ count → seen.new.log ≡ seen.old.log ++ item.now ∷ [] }
    ensures overtaken { (result ≡ count → ⊥) → IsLonger seen.old.log seen.new.log × (result ≡ length seen.new.log) }
{
    let mut offer: Offer<Item, u64, Law, Nothing> = seen.plain::<Nothing, Item, Add>(item);
    let mut pen = seen.no_pen();
    head.compare_exchange::<Add, Nothing>(count, count + 1, seen, &mut offer, &mut pen)
}
