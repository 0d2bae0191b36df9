//! Several calls in one turn.
//!
//! `Shelf::turn` waits for a turn and hands it out; its calls are made one after another, with no other caller's
//! between them, and `Turn::end` gives the value back. Each call is an entry of the history, and all of them go in with
//! the one store that gives the value back. A turn is not `Drop`, so it is ended in each program that compiles.

ghost use Rattle.std.specs.Prelude.{◌≡◌, ◌<◌, [], ◌++◌, unwrap_or};
ghost use mathlib.Core.Option.{some};
ghost use lib.ListN.{get_elem?};

use crate::Kept;
use crate::shelf::{Pass, Shelf, give_back, lend};
use crate::steps::{acquire, begin, release, serve};
use crate::table::Place;
use std::sync::Wait;

/// A turn at one value, which a pass has taken and not given back yet. It has the pass's seat meanwhile.
pub struct Turn<T: Kept> {
    pub(crate) seat: Place<T>,
    pub(crate) number: u32,
    pub(crate) at: usize,
    pub ghost counted: { seat.me.0.from ≡ number },
}

impl<T: Kept> Shelf<T> {
    ghost use Rattle.lock_book.specs.Shown.{Belongs, IsAway, IsTurn, calls_in, count_of, place_in};

    /// Waits for a turn at the value `at`, as `call` does, and takes no memory. All other callers of the value wait
    /// until the turn is ended, so keep it short, and wait for nothing in it. The pass is away until then.
    #[inline(always)]
    pub fn turn<R: Wait>(&self, rt: &R, pass: &mut Pass<T>, at: usize) -> Turn<T>
        requires own { Belongs self.now pass.old }
        requires place { at < count_of self.now }
        ensures turn { IsTurn self.now pass.old result }
        ensures place { place_in result ≡ at }
        ensures none { calls_in result ≡ [] }
        ensures away { IsAway pass.new }
    {
        let mut seat = lend(&mut pass.badge);
        let number = pass.number;
        pass.number = 0;
        acquire(rt, &self.board, &mut seat, number, at);
        begin(&self.board, &mut seat, at);
        Turn { seat, number, at }
    }
}

impl<T: Kept> Turn<T> {
    ghost use Rattle.lock_book.specs.Shown.{Belongs, CalledAll, CalledIn, IsAway, IsTurn, begun_in, calls_in, number_in, number_of, opens_of, place_in, seen_of};

    /// Makes the next call of the turn. It waits for nobody and takes no memory.
    #[inline(always)]
    pub fn call(&mut self, shelf: &Shelf<T>, env: &T::Env, input: T::In) -> T::Out
        requires own { (p : _) × IsTurn shelf.now p self.old }
        requires input { (o : _) → get_elem? (opens_of shelf.now) (place_in self.old) ≡ some o → T.env_fits o.0 env.now × T.in_fits o.0 (number_in self.old) input }
        ensures own { (p : _) → IsTurn shelf.now p self.old → IsTurn shelf.now p self.new }
        ensures called { CalledIn shelf.now self.old self.new (unwrap_or (T.chosen input result) (T.call input)) (T.reply result) }
        ensures output { (o : _) → get_elem? (opens_of shelf.now) (place_in self.old) ≡ some o → T.out_fits o.0 input result }
    {
        serve(
            &shelf.board,
            &mut self.seat,
            self.number,
            self.at,
            env,
            input,
        )
    }

    /// Gives the value back, with all calls of the turn in its history, and the pass its seat. It wakes one of those
    /// that sleep until the value is free.
    #[inline(always)]
    pub fn end(self, shelf: &Shelf<T>, pass: &mut Pass<T>)
        requires own { (p : _) × IsTurn shelf.now p self }
        requires away { IsAway pass.old }
        ensures own { Belongs shelf.now pass.new × (number_of pass.new ≡ number_in self) }
        ensures called { (p : _) → IsTurn shelf.now p self → CalledAll shelf.now p pass.new (place_in self) (calls_in self) }
        ensures seen { seen_of pass.new (place_in self) ≡ begun_in self ++ calls_in self }
    {
        let Turn {
            mut seat,
            number,
            at,
        } = self;
        release(&shelf.board, &mut seat, at);
        give_back(&mut pass.badge, seat);
        pass.number = number;
    }
}
