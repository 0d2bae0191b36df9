//! An area under a lock.
//!
//! What the locked area is asked represents a call, what it answers its reply (`specs/Asked.antt`), and the chunk that
//! goes in or comes out is a token.

ghost use Rattle.std.specs.Prelude.{◌≡◌, unwrap_or, None, ℕ};
ghost use Rattle.c_area.specs.Arenas.{IsArena, name_of, state_of};
ghost use Rattle.c_area.specs.Asked.{AnswerFits, AskFits, call_of, reply_of};
ghost use Rattle.c_area.specs.Legal.{IsLegal};

use crate::arena::{Arena, grant, take_back, trim, usage};
use crate::histories::{AreaCalls, AreaName, AreaReplies, AreaStates};
use free_pages::{NoRun, Usage};
use lock_book::Kept;
use region_words::{Chunk, Region};
use std::marker::Model;

/// What the locked area is asked.
#[derive(Drop)]
pub(crate) enum AreaAsk {
    /// A chunk for this many bytes.
    Alloc(u64),
    /// A chunk comes back.
    Free(Chunk),
    /// The active superblock of a class goes to the pages, if nothing in it is live.
    Trim(u8),
    /// How the pages are used.
    Usage,
}

/// What the locked area answers.
#[derive(Drop)]
pub(crate) enum AreaAnswer {
    /// The chunk.
    Given(Chunk),
    /// There are fewer free pages in a row.
    Lacking(NoRun),
    /// The chunk was taken back.
    Taken,
    /// No chunk of the area has its place and size.
    Back(Chunk),
    /// The superblock went to the pages.
    Gone,
    /// None did.
    Left,
    /// How the pages are used.
    Used(Usage),
}

/// The one value of an area's shelf.
#[derive(Drop)]
pub(crate) struct LockedArea {
    pub(crate) arena: Arena,
}

impl Model for LockedArea {
    ghost use Rattle.c_area.specs.Arenas.{IsArena};
    ghost use Rattle.c_area.specs.ArenaCode.{arena_code};
    ghost use Rattle.c_area.specs.declared.arena.Arena.{Arena};

    ghost Value = { Arena };

    ghost coded = { arena_code };

    ghost view = { λ v. v.arena };

    ghost invariant = { λ v. IsArena v.arena };
}

/// Answers an ask.
fn serve(arena: &mut Arena, r: &Region, ask: AreaAsk) -> AreaAnswer
    requires arena { IsArena arena.old }
    requires here { r.now ≡ (name_of arena.old).region }
    requires ask { AskFits (name_of arena.old) ask }
    ensures arena { IsArena arena.new }
    ensures name { name_of arena.new ≡ name_of arena.old }
    ensures legal { (caller : ℕ) → IsLegal (name_of arena.old) caller (state_of arena.old) (call_of ask) (reply_of result) (state_of arena.new) }
    ensures fits { AnswerFits (name_of arena.old) ask result }
{
    match ask {
        AreaAsk::Alloc(bytes) => match grant(arena, r, bytes) {
            Ok(chunk) => AreaAnswer::Given(chunk),
            Err(lack) => AreaAnswer::Lacking(lack),
        },
        AreaAsk::Free(chunk) => match take_back(arena, r, chunk) {
            Ok(()) => AreaAnswer::Taken,
            Err(chunk) => AreaAnswer::Back(chunk),
        },
        AreaAsk::Trim(class) => {
            if trim(arena, r, class) {
                AreaAnswer::Gone
            } else {
                AreaAnswer::Left
            }
        }
        AreaAsk::Usage => AreaAnswer::Used(usage(arena, r)),
    }
}

impl Kept for LockedArea {
    type Env = Region;

    type In = AreaAsk;

    type Out = AreaAnswer;

    type Name = AreaName;

    type State = AreaStates;

    type Call = AreaCalls;

    type Reply = AreaReplies;

    ghost name = { name_of };

    ghost state = { state_of };

    ghost call = { call_of };

    ghost reply = { reply_of };

    ghost env_fits = { λ n r. r ≡ n.region };

    ghost in_fits = { λ n _ ask. AskFits n ask };

    ghost out_fits = { AnswerFits };

    ghost legal = { IsLegal };

    fn apply(&mut self, r: &Region, ask: AreaAsk) -> AreaAnswer {
        serve(&mut self.arena, r, ask)
    }
}
