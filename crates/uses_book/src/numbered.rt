//! A drawer as a kept value, in a wrapper that is generic in what it says with each part.
//!
//! A part goes in and comes out as a token, of which histories say one word's value: the word at a place that the
//! drawer's name says. The region is in the name too, so a caller that takes a part out knows which region it is of.

ghost use Rattle.std.specs.Prelude.{◌≡◌, ℕ, None};
ghost use Rattle.uses_book.specs.Drawers.{AnswerFits, AskFits, DrawerLegal, call_of, reply_of, state_of};

use crate::asks::{Answer, Ask, Call, DrawerName, Reply};
use crate::drawer::Drawer;
use lock_book::Kept;
use region_words::{Part, Region};
use std::marker::PhantomData;

/// A number that is given with each part that comes out.
pub trait Tag: Send {
    ghost tag: { ℕ };

    fn tag() -> u64
        ensures { result ≡ tag };
}

/// A drawer with a number, which gives out parts with the tag of `O`.
#[derive(Drop)]
pub struct Numbered<O: Tag> {
    pub number: u32,
    pub drawer: Drawer,
    tagged: PhantomData<O>,
}

impl<O: Tag> Numbered<O> {
    /// An empty drawer, for parts of the region of `base` that own the word at `at`.
    pub fn new(number: u32, base: Part, at: u64) -> Numbered<O>
        ensures { (result.number ≡ number) × (result.drawer.base ≡ base) × (result.drawer.at ≡ at) × (result.drawer.held ≡ None) }
    {
        let drawer = Drawer {
            base,
            at,
            word: 0,
            held: None,
        };
        Numbered {
            number,
            drawer,
            tagged: PhantomData,
        }
    }
}

impl<O: Tag> Kept for Numbered<O> {
    type Env = Region;

    type In = Ask;

    type Out = Answer;

    type Name = DrawerName;

    type State = Option<u64>;

    type Call = Call;

    type Reply = Reply;

    ghost name = { λ v. record { region = v.drawer.base.region; at = v.drawer.at; number = v.number } };

    ghost state = { λ v. state_of v.drawer };

    ghost call = { call_of };

    ghost reply = { reply_of };

    ghost env_fits = { λ n e. e ≡ n.region };

    ghost in_fits = { λ n _ i. AskFits n i };

    ghost out_fits = { AnswerFits };

    ghost legal = { λ _ _ s c r t. DrawerLegal O.tag s c r t };

    fn apply(&mut self, env: &Region, input: Ask) -> Answer {
        let drawer = &mut self.drawer;
        match input {
            Ask::PutIn(part) => drawer.put(env, part),
            Ask::TakeOut => drawer.take(O::tag()),
        }
    }
}
