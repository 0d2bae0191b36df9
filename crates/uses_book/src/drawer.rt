//! A drawer that holds at most one part of a region, and the word that it read there.

ghost use Rattle.std.specs.Prelude.{◌≡◌, IsSome, Some, None};
ghost use Rattle.std.specs.Option.{ForSome};
ghost use Rattle.word_map.specs.WordMap.{at as word_at};

use crate::asks::Answer;
use region_words::{Part, Region};

/// It may hold a part of the region of `base` that owns the word at `at`, in which it has read `word`. It keeps `base`
/// for good.
#[derive(Drop)]
pub struct Drawer {
    pub base: Part,
    pub at: u64,
    pub word: u64,
    pub held: Option<Part>,
    pub ghost same: { ForSome held (λ p. (p.region ≡ base.region) × (word_at p.words at ≡ Some word)) },
}

impl Drawer {
    ghost use Rattle.uses_book.specs.Drawers.{AnswerFits, AskFits, DrawerLegal, call_of, reply_of, state_of};
    ghost use Rattle.uses_book.specs.declared.asks.Ask.TheVariants.{PutIn, TakeOut};

    /// Holds the part, if it holds none yet.
    pub fn put(&mut self, region: &Region, mut part: Part) -> Answer
        requires here { (region.now ≡ self.old.base.region) × (part.region ≡ region.now) }
        requires owns { IsSome (word_at part.words self.old.at) }
        ensures name { (self.new.base ≡ self.old.base) × (self.new.at ≡ self.old.at) }
        ensures legal { (tag : _) → DrawerLegal tag (state_of self.old) (call_of (PutIn part)) (reply_of result) (state_of self.new) }
        ensures fits { (n : _) → n.region ≡ self.old.base.region → n.at ≡ self.old.at → AnswerFits n (PutIn part) result }
    {
        if self.held.is_some() {
            return Answer::Full(part);
        }
        let word = part.load(region, self.at);
        self.keep(part, word);
        Answer::Stored(word)
    }

    /// Holds a part with that word.
    fn keep(&mut self, part: Part, word: u64)
        requires { (part.region ≡ self.old.base.region) × (word_at part.words self.old.at ≡ Some word) }
        ensures { (self.new.base ≡ self.old.base) × (self.new.at ≡ self.old.at) × (self.new.word ≡ word) × (self.new.held ≡ Some part) }
    {
        self.held = None;
        self.word = word;
        self.held = Some(part);
    }

    /// Gives out what it holds, with a tag.
    pub fn take(&mut self, with: u64) -> Answer
        ensures name { (self.new.base ≡ self.old.base) × (self.new.at ≡ self.old.at) }
        ensures legal { DrawerLegal with (state_of self.old) (call_of TakeOut) (reply_of result) (state_of self.new) }
        ensures fits { (n : _) → n.region ≡ self.old.base.region → n.at ≡ self.old.at → AnswerFits n TakeOut result }
    {
        match self.held.take() {
            Some(part) => Answer::Taken(part, self.word, with),
            None => Answer::Empty,
        }
    }
}
