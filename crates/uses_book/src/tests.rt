//! Two threads that add a thousand times each, and a part that goes into a drawer and comes out, run.

ghost use Rattle.std.specs.Prelude.{◌≡◌, ◌<◌, IfOk, None, Some};
ghost use mathlib.Core.Option.{some};
ghost use lib.ListN.{get_elem?};
ghost use Rattle.word_map.specs.WordMap.{at as word_at};
ghost use Rattle.lock_book.specs.History.{last_of};
ghost use Rattle.lock_book.specs.Shown.{Belongs, callers_of, count_of, number_of, opens_of, seen_of};

use crate::{
    Guarded, Numbered, Object, Tag, added_by_two, added_in_one_turn, called_by_two, called_once,
    end_two, for_three, one_goes_on, put_in, round_trip, take_out, three_parties,
};
use lock_book::{Pass, Shelf, two_of};
use region_words::{Part, Region};
use std::alloc::{AllocError, Global};
use std::test::Fail;

/// The tag of the drawers here.
struct Nine;

impl Tag for Nine {
    ghost tag = { 9 };

    fn tag() -> u64 {
        9
    }
}

#[test]
fn two_threads_add_a_thousand_times_each(rt: HostRuntime) -> Result<(), Fail> {
    assert_eq!(rt; added_by_two(&rt, rt.alloc(), 1000)?, 2000);
    Ok(())
}

#[test]
fn one_caller_adds_a_thousand_times_in_one_turn(rt: HostRuntime) -> Result<(), Fail> {
    assert_eq!(rt; added_in_one_turn(&rt, rt.alloc(), 1000)?, 1000);
    Ok(())
}

/// A region of 8 words, a part of it, and the part of its word 1, which has 77.
fn with_77(alloc: Global) -> Result<(Region, Part, Part), AllocError>
    ensures base { IfOk result (λ r. r.1.region ≡ r.0) }
    ensures one { IfOk result (λ r. (r.2.region ≡ r.0) × (word_at r.2.words 1 ≡ Some 77)) }
{
    let (region, mut base) = Region::new(alloc, 8)?;
    let mut one = base.split(&region, 1, 1);
    one.store(&region, 1, 77);
    Ok((region, base, one))
}

/// A shelf of one drawer, for parts of the region that own the word 1.
fn one_drawer(
    alloc: Global,
    base: Part,
) -> Result<(Shelf<Numbered<Nine>>, Pass<Numbered<Nine>>), AllocError>
    ensures own { IfOk result (λ r. Belongs r.0 r.1 × (0 < count_of r.0)) }
    ensures lone { IfOk result (λ r. callers_of r.0 ≡ 1) }
    ensures name { IfOk result (λ r. (o : _) → get_elem? (opens_of r.0) 0 ≡ some o → (o.0.region ≡ base.region) × (o.0.at ≡ 1)) }
    ensures empty { IfOk result (λ r. (o : _) → get_elem? (opens_of r.0) 0 ≡ some o → last_of o.1 (seen_of r.1 0) ≡ None) }
{
    let mut drawers = Vec::new(alloc);
    drawers.push(Numbered::new(0, base, 1))?;
    let (shelf, mut passes) = Shelf::new(alloc, drawers, 1)?;
    let Some(pass) = passes.pop() else {
        unreachable!()
    };
    Ok((shelf, pass))
}

#[test]
fn a_part_goes_in_and_comes_out(rt: HostRuntime) -> Result<(), Fail> {
    let (region, base, one) = with_77(rt.alloc())?;
    let (shelf, mut pass) = one_drawer(rt.alloc(), base)?;
    let (one, word) = round_trip(&rt, &region, &shelf, &mut pass, one, 1);
    assert_eq!(rt; word, 77);
    let back = put_in(&rt, &region, &shelf, &mut pass, one, 1);
    assert!(rt; back.is_none());
    let taken = take_out(&rt, &region, &shelf, &mut pass, 1).expect(&rt, "a part");
    assert_eq!(rt; taken.1, 77);
    let none = take_out(&rt, &region, &shelf, &mut pass, 1);
    assert!(rt; none.is_none());
    Ok(())
}

/// A number that each call raises to itself at least.
struct Most;

impl Object for Most {
    ghost use Rattle.std.specs.Prelude.{nat_lt, if◌then◌else◌};

    type State = u64;

    type Call = u64;

    ghost stepped = { λ s c. if nat_lt s c then c else s };

    fn step(state: &u64, call: &u64) -> u64 {
        if *state < *call { *call } else { *state }
    }
}

/// A shelf of one such number, and the passes of two callers.
fn one_most(
    alloc: Global,
) -> Result<
    (
        Shelf<Guarded<Most>>,
        Pass<Guarded<Most>>,
        Pass<Guarded<Most>>,
    ),
    AllocError,
>
    ensures shelf { IfOk result (λ r. (0 < count_of r.0) × (callers_of r.0 ≡ 2)) }
    ensures zero { IfOk result (λ r. Belongs r.0 r.1 × (number_of r.1 ≡ 0)) }
    ensures one { IfOk result (λ r. Belongs r.0 r.2 × (number_of r.2 ≡ 1)) }
{
    let mut values = Vec::new(alloc);
    values.push(Guarded::new(3))?;
    let (shelf, passes) = Shelf::new(alloc, values, 2)?;
    let (zero, one) = two_of(passes);
    Ok((shelf, zero, one))
}

#[test]
fn two_threads_raise_a_number(rt: HostRuntime) -> Result<(), Fail> {
    let (shelf, zero, one) = one_most(rt.alloc())?;
    let (mut zero, one) = called_by_two(&rt, &shelf, zero, one, 5, 9);
    assert_eq!(rt; called_once(&rt, &shelf, &mut zero, 7), 9);
    let mut closed = end_two(shelf, zero, one);
    let last = closed.take_last().ok_or("no value")?;
    assert_eq!(rt; last.state, 9);
    Ok(())
}

#[test]
fn three_threads_read_what_the_next_one_wrote(rt: HostRuntime) -> Result<(), Fail> {
    let (region, exchange, zero, one, two) = for_three(rt.alloc())?;
    let read = three_parties(&rt, &region, &exchange, zero, one, two);
    assert!(rt; read == (41, (42, 40)));
    Ok(())
}

#[test]
fn a_party_goes_on_without_another_that_left(rt: HostRuntime) -> Result<(), Fail> {
    assert!(rt; one_goes_on(&rt, rt.alloc(), 3)? == (0, 1));
    Ok(())
}
