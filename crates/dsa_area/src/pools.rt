//! A pool under a lock.
//!
//! What a locked pool is asked represents a call of `span_pools`, what it answers its reply (`specs/Pools.antt`), and
//! the object or the superblock that goes in or comes out is a token.

ghost use Rattle.std.specs.Prelude.{◌≡◌};
ghost use Rattle.dsa_area.specs.Pools.{name_of, call_of, chosen_of, reply_of, AskFits, AnswerFits, PoolLegal};

use lock_book::Kept;
use region_words::{Chunk, Region, Run};
use span_pools::{Pool, PoolCalls, PoolName, PoolReplies, PoolStates};

/// What a locked pool is asked.
#[derive(Drop)]
pub(crate) enum PoolAsk {
    /// An object.
    AllocObject,
    /// A superblock comes in, and an object of it is wanted.
    AddRun(Run),
    /// An object comes back.
    FreeObject(Chunk),
    /// Up to this many objects, into an empty list.
    AllocObjects(usize, Vec<Chunk>),
    /// Up to this many objects come back, from the end of a list on.
    FreeObjects(usize, Vec<Chunk>),
    /// The active superblock, if nothing in it is live.
    TrimPool,
}

/// What a locked pool answers.
#[derive(Drop)]
pub(crate) enum PoolAnswer {
    /// The object.
    Given(Chunk),
    /// Every object is live.
    AllLive,
    /// The object was taken back.
    Freed,
    /// The same, and its superblock goes out; or the active superblock does.
    Emptied(Run),
    /// The object is none of the pool's.
    NotOurs(Chunk),
    /// The list of objects.
    Filled(Vec<Chunk>),
    /// The rest of the list; the objects of its end were taken back.
    FreedMany(Vec<Chunk>),
    /// The same, and the superblock of the last of them goes out.
    EmptiedMany(Vec<Chunk>, Run),
    /// The same, except that the last of them is none of the pool's.
    NotAllOurs(Vec<Chunk>, Chunk),
    /// Nothing goes out.
    Untouched,
}

/// The pool of one size class of an area.
#[derive(Drop)]
pub(crate) struct LockedPool {
    pub(crate) pool: Pool,
}

impl Kept for LockedPool {
    type Env = Region;

    type In = PoolAsk;

    type Out = PoolAnswer;

    type Name = PoolName;

    type State = PoolStates;

    type Call = PoolCalls;

    type Reply = PoolReplies;

    ghost name = { λ v. name_of v.pool };

    ghost state = { λ v. v.pool.state };

    ghost call = { call_of };

    ghost reply = { reply_of };

    ghost chosen = { chosen_of };

    ghost env_fits = { λ n r. r ≡ n.region };

    ghost in_fits = { λ n _ ask. AskFits n ask };

    ghost out_fits = { AnswerFits };

    ghost legal = { PoolLegal };

    fn apply(&mut self, r: &Region, ask: PoolAsk) -> PoolAnswer {
        let pool = &mut self.pool;
        match ask {
            PoolAsk::AllocObject => match pool.alloc(r) {
                Some(object) => PoolAnswer::Given(object),
                None => PoolAnswer::AllLive,
            },
            PoolAsk::AddRun(run) => PoolAnswer::Given(pool.add(r, run)),
            PoolAsk::FreeObject(object) => match pool.free(r, object) {
                Ok(None) => PoolAnswer::Freed,
                Ok(Some(run)) => PoolAnswer::Emptied(run),
                Err(object) => PoolAnswer::NotOurs(object),
            },
            PoolAsk::AllocObjects(count, mut objects) => {
                pool.alloc_many(r, count, &mut objects);
                PoolAnswer::Filled(objects)
            }
            PoolAsk::FreeObjects(count, mut objects) => {
                match pool.free_many(r, count, &mut objects) {
                    Ok(None) => PoolAnswer::FreedMany(objects),
                    Ok(Some(run)) => PoolAnswer::EmptiedMany(objects, run),
                    Err(object) => PoolAnswer::NotAllOurs(objects, object),
                }
            }
            PoolAsk::TrimPool => match pool.trim(r) {
                Some(run) => PoolAnswer::Emptied(run),
                None => PoolAnswer::Untouched,
            },
        }
    }
}
