//! Frozen words: nobody changes them any more, so any number of tokens may share them.

ghost use Rattle.std.specs.Prelude.{◌≡◌, ℕ, ◌<◌, ◌^◌, Some, IsSome};
ghost use Rattle.word_map.specs.WordMap.{at as word_at, union};
ghost use Rattle.region_words.specs.Parts.{owned};

use crate::region::Region;
use atomic_table::Seat;
use region_rule::{Gathers, Known, LoadsFrozen, Shares};
use std::marker::Model;

/// A token for words that no longer change. Contracts see its region and the map from its words' numbers to their
/// values. It has no bytes.
#[derive(Drop)]
pub struct Frozen {
    pub(crate) seat: Seat<u64, Known>,
}

impl Model for Frozen {
    ghost use Rattle.region_words.specs.Parts.{Owned, owned_code, owned, frozen_map, IsFrozen};

    ghost Value = { Owned };

    ghost coded = { owned_code };

    ghost view = { λ p. owned p.seat.table_id (frozen_map p.seat.me.0.view) };

    ghost invariant = { λ p. IsFrozen p.seat.table_id p.seat.me };
}

impl Frozen {
    /// The value of a word: one load.
    #[inline]
    pub fn load(&mut self, r: &Region, at: u64) -> u64
        requires here { self.old.region ≡ r.now }
        requires has { IsSome (word_at self.old.words at) }
        ensures found { word_at self.old.words at ≡ Some result }
        ensures same { self.new ≡ self.old }
    {
        r.load_as::<LoadsFrozen>(&mut self.seat, at)
    }

    /// A second token for the same words.
    pub fn share(&mut self, r: &Region) -> Frozen
        requires { self.old.region ≡ r.now }
        ensures same { self.new ≡ self.old }
        ensures copy { result ≡ self.old }
    {
        Frozen {
            seat: r.split_as::<Shares>(&mut self.seat),
        }
    }

    /// Ends the other token, which has the same words.
    pub fn join(&mut self, r: &Region, other: Frozen)
        requires here { self.old.region ≡ r.now }
        requires equal { other ≡ self.old }
        ensures { self.new ≡ self.old }
    {
        let Frozen { seat } = other;
        r.join_as::<Shares>(&mut self.seat, seat);
    }

    /// This token has the words of both, which agree in those that both have.
    pub fn gather(&mut self, r: &Region, other: Frozen)
        requires here { self.old.region ≡ r.now }
        requires other_here { other.region ≡ r.now }
        ensures { self.new ≡ owned self.old.region (union self.old.words other.words) }
    {
        let Frozen { seat } = other;
        r.join_as::<Gathers>(&mut self.seat, seat);
    }

    /// Tells that each word's number is below 2^26, so that places can be added up. It does nothing.
    #[inline]
    pub fn is_small(&self)
        ensures { (k : ℕ) → IsSome (word_at self.now.words k) → k < 2 ^ 26 }
    {
        let _ = &self.seat;
    }
}
