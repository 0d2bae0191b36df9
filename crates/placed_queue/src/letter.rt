//! An item in a cell.

ghost use Rattle.std.specs.Prelude.{◌≡◌, ◌+◌, ◌<◌, ◌^◌, ◌++◌, ◌∷◌, [], length, take};

use crate::history::Law;
use crate::item::Item;
use counted_slot::Fits;
use logbook::Seen;

/// An item, its place in the history, and the token of the history up to it.
#[derive(Drop)]
pub struct Letter {
    pub(crate) number: u64,
    pub(crate) item: Item,
    pub(crate) seen: Seen<Item, u64, Law>,
    ghost last: { seen.log ≡ take number seen.log ++ item ∷ [] },
    ghost counted: { length seen.log ≡ number + 1 },
    ghost small: { number + 1 < 2 ^ 64 },
}

/// A cell has letters of one queue, by the token that it was made with.
impl Fits for Letter {
    type Tag = Seen<Item, u64, Law>;

    ghost fits = { λ tag letter. letter.seen.book ≡ tag.book };
}
