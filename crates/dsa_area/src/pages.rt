//! The pages under a lock.
//!
//! What the locked pages are asked represents a call of `free_pages`, what they answer its reply (`specs/Pages.antt`),
//! and the run that goes in or comes out is a token.

ghost use Rattle.std.specs.Prelude.{◌≡◌};
ghost use Rattle.dsa_area.specs.Pages.{name_of, call_of, reply_of, AskFits, AnswerFits, PagesLegal};

use free_pages::{NoRun, Pages, PagesCalls, PagesReplies, PagesStates, Usage};
use lock_book::Kept;
use region_words::{Region, Run};

/// What is fixed of the pages. No value of it is made: it appears only in contracts.
pub(crate) struct PagesName {
    /// The region of their words.
    pub(crate) region: Region,
    /// The first word of page 0.
    pub(crate) first: u64,
    /// How many there are.
    pub(crate) pages: u64,
}

/// What the locked pages are asked.
#[derive(Drop)]
pub(crate) enum PagesAsk {
    /// A run of this many pages, with their control records or without.
    TakeRun(u32, bool),
    /// A run comes back.
    GiveRun(Run),
    /// How they are used.
    LookAt,
}

/// What the locked pages answer.
#[derive(Drop)]
pub(crate) enum PagesAnswer {
    /// The run.
    Granted(Run),
    /// There are fewer free pages in a row.
    Refused(NoRun),
    /// The run was taken back.
    Returned,
    /// The run is none that was granted.
    Back(Run),
    /// How they are used.
    Seen(Usage),
}

/// The one `Pages` of an area.
#[derive(Drop)]
pub(crate) struct LockedPages {
    pub(crate) pages: Pages,
}

impl Kept for LockedPages {
    type Env = Region;

    type In = PagesAsk;

    type Out = PagesAnswer;

    type Name = PagesName;

    type State = PagesStates;

    type Call = PagesCalls;

    type Reply = PagesReplies;

    ghost name = { λ v. name_of v.pages };

    ghost state = { λ v. v.pages.state };

    ghost call = { call_of };

    ghost reply = { reply_of };

    ghost env_fits = { λ n r. r ≡ n.region };

    ghost in_fits = { λ n _ ask. AskFits n ask };

    ghost out_fits = { AnswerFits };

    ghost legal = { PagesLegal };

    fn apply(&mut self, r: &Region, ask: PagesAsk) -> PagesAnswer {
        let pages = &mut self.pages;
        match ask {
            PagesAsk::TakeRun(n, control) => match pages.take(r, n, control) {
                Ok(run) => PagesAnswer::Granted(run),
                Err(lack) => PagesAnswer::Refused(lack),
            },
            PagesAsk::GiveRun(run) => match pages.give(r, run) {
                Ok(()) => PagesAnswer::Returned,
                Err(run) => PagesAnswer::Back(run),
            },
            PagesAsk::LookAt => PagesAnswer::Seen(pages.usage(r)),
        }
    }
}
