//! A part goes into a drawer and comes out again.

ghost use Rattle.std.specs.Prelude.{◌≡◌, ◌<◌, IsSome, IfSome, Some, None};
ghost use mathlib.Core.Option.{some};
ghost use lib.ListN.{get_elem?};
ghost use Rattle.word_map.specs.WordMap.{at as word_at};
ghost use Rattle.lock_book.specs.History.{last_of};
ghost use Rattle.lock_book.specs.Shown.{Belongs, callers_of, count_of, number_of, opens_of, seen_of};

use crate::asks::{Answer, Ask};
use crate::numbered::{Numbered, Tag};
use lock_book::{Pass, Shelf};
use region_words::{Part, Region};
use std::sync::Wait;

/// Takes out what the drawer holds, if it holds a part, and loads from it.
pub fn take_out<R: Wait, O: Tag>(
    rt: &R,
    region: &Region,
    shelf: &Shelf<Numbered<O>>,
    pass: &mut Pass<Numbered<O>>,
    at: u64,
) -> Option<(Part, u64)>
    requires own { Belongs shelf.now pass.old × (0 < count_of shelf.now) }
    requires name { (o : _) → get_elem? (opens_of shelf.now) 0 ≡ some o → (region.now ≡ o.0.region) × (at ≡ o.0.at) }
    ensures own { Belongs shelf.now pass.new × (number_of pass.new ≡ number_of pass.old) }
    ensures region { IfSome result (λ r. r.0.region ≡ region.now) }
    ensures loaded { IfSome result (λ r. word_at r.0.words at ≡ Some r.1) }
{
    match shelf.call(rt, region, pass, 0, Ask::TakeOut) {
        Answer::Taken(mut part, _word, _tag) => {
            let word = part.load(region, at);
            Some((part, word))
        }
        _ => None,
    }
}

/// Puts a part in. If the drawer is full, it comes back with all its words.
pub fn put_in<R: Wait, O: Tag>(
    rt: &R,
    region: &Region,
    shelf: &Shelf<Numbered<O>>,
    pass: &mut Pass<Numbered<O>>,
    part: Part,
    at: u64,
) -> Option<Part>
    requires own { Belongs shelf.now pass.old × (0 < count_of shelf.now) }
    requires name { (o : _) → get_elem? (opens_of shelf.now) 0 ≡ some o → (region.now ≡ o.0.region) × (at ≡ o.0.at) }
    requires part { (part.region ≡ region.now) × IsSome (word_at part.words at) }
    ensures own { Belongs shelf.now pass.new × (number_of pass.new ≡ number_of pass.old) }
    ensures back { IfSome result (λ p. p ≡ part) }
{
    match shelf.call(rt, region, pass, 0, Ask::PutIn(part)) {
        Answer::Full(back) => Some(back),
        _ => None,
    }
}

/// Puts a part into an empty drawer and takes it out again. The one caller of a shelf knows that nobody came between:
/// it gets a part back that has the same word.
pub fn round_trip<R: Wait, O: Tag>(
    rt: &R,
    region: &Region,
    shelf: &Shelf<Numbered<O>>,
    pass: &mut Pass<Numbered<O>>,
    part: Part,
    at: u64,
) -> (Part, u64)
    requires own { Belongs shelf.now pass.old × (0 < count_of shelf.now) }
    requires lone { callers_of shelf.now ≡ 1 }
    requires name { (o : _) → get_elem? (opens_of shelf.now) 0 ≡ some o → (region.now ≡ o.0.region) × (at ≡ o.0.at) }
    requires empty { (o : _) → get_elem? (opens_of shelf.now) 0 ≡ some o → last_of o.1 (seen_of pass.old 0) ≡ None }
    requires part { (part.region ≡ region.now) × IsSome (word_at part.words at) }
    ensures own { Belongs shelf.now pass.new × (number_of pass.new ≡ number_of pass.old) }
    ensures region { result.0.region ≡ region.now }
    ensures loaded { word_at result.0.words at ≡ Some result.1 }
    ensures same_word { word_at part.words at ≡ Some result.1 }
{
    let Answer::Stored(_) = shelf.call(rt, region, pass, 0, Ask::PutIn(part)) else {
        unreachable!()
    };
    let Answer::Taken(mut back, _word, _tag) = shelf.call(rt, region, pass, 0, Ask::TakeOut) else {
        unreachable!()
    };
    let word = back.load(region, at);
    (back, word)
}
