//! Many adds to one counter in one turn of its lock: one try of the lock's word for all of them, and no other caller's
//! add between two.

ghost use Rattle.std.specs.Prelude.{◌≡◌, ◌<◌, [], IfOk};
ghost use Rattle.lock_book.specs.Shown.{Belongs, callers_of, count_of, mine_of, number_of, opens_of, seen_of};
ghost use Rattle.uses_book.specs.Counting.{EndsWithAdds};

use crate::Counter;
use lock_book::{Pass, Shelf};
use std::alloc::{AllocError, Global};
use std::sync::Wait;

/// Adds 1 this many times in one turn.
pub fn add_in_one_turn<R: Wait>(
    rt: &R,
    shelf: &Shelf<Counter>,
    pass: &mut Pass<Counter>,
    times: u64,
)
    requires own { Belongs shelf.now pass.old }
    requires place { 0 < count_of shelf.now }
    ensures own { Belongs shelf.now pass.new × (number_of pass.new ≡ number_of pass.old) }
    ensures added { EndsWithAdds (seen_of pass.new 0) (mine_of pass.old 0) (mine_of pass.new 0) times }
{
    let mut turn = shelf.turn(rt, pass, 0);
    for _ in 0..times {
        let _before = turn.call(shelf, &(), 1);
    }
    turn.end(shelf, pass);
}

/// What a counter has after that, by the only caller of its shelf.
pub fn added_in_one_turn<R: Wait>(rt: &R, alloc: Global, times: u64) -> Result<u64, AllocError> {
    let mut values = Vec::new(alloc);
    values.push(Counter { value: 0 })?;
    let (shelf, mut passes) = Shelf::new(alloc, values, 1)?;
    let Some(mut pass) = passes.pop() else {
        unreachable!()
    };
    add_in_one_turn(rt, &shelf, &mut pass, times);
    let before = shelf.call(rt, &(), &mut pass, 0, 0);
    Ok(before)
}
