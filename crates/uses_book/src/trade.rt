//! Parts of a region that three parties exchange.

ghost use Rattle.uses_book.specs.Trading.{brings, gives};

use par_exchange::Trade;
use region_words::Part;

/// Each party brings a part in which the word of its own number has what it wrote, and is given that of the party after
/// it. A part that stays behind says which region.
pub struct Parts;

impl Trade for Parts {
    type Token = Part;

    type Sign = Part;

    ghost brings = { brings };

    ghost gives = { gives };

    // nobody leaves
    ghost leaves = { λ _ _. ⊥ };
}
