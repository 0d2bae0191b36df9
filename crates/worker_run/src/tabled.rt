//! A worker with a table of groups: it puts the groups that it keeps into the table, one call each, and sends as a tuple
//! only a group for which the table has no room.

ghost use Rattle.std.specs.Prelude.{◌≡◌, ◌≤◌, All, MatchBool, length};
ghost use Rattle.std.specs.FinMap as map;
ghost use Rattle.std.specs.List.{AllByRecursion};
ghost use Rattle.agg_table.specs.Shown.{Grew, IsPart, IsSeat, use_of};
ghost use Rattle.par_model.specs.declared.refusal.TheConstants.{LONGEST_KEY};
ghost use Rattle.worker_run.specs.Sent.{HasZeros, IsReady, StoppedSending, pairs_of};
ghost use Rattle.worker_run.specs.Tabled.{GivesGroup, GivesGroups};
ghost use Rattle.tuple_codec.specs.declared.write.TheConstants.{TUPLE_BYTES};

use crate::sending::send_group;
use agg_table::{HashPart, HashSeat};
use mq_handle::Sender;
use par_model::AggState;
use partial_agg::{GroupKey, GroupMap, LentGroups, empty};
use region_words::Region;
use std::sync::Wait;
use tuple_codec::Tuple;

/// Puts a group into the table, or sends it if the table has no room. Answers false if the receiver is gone.
fn give_group<R: Wait>(
    rt: &R,
    r: &Region,
    part: &HashPart,
    seat: &mut HashSeat,
    tuples: &mut Sender,
    tuple: &mut Tuple,
    key: &[u8],
    state: &AggState,
    slots: u32,
) -> bool
    requires part { IsPart r.now part.now }
    requires seat { IsSeat part.now seat.old }
    requires here { tuples.old.region ≡ r.now }
    requires ready { IsReady TUPLE_BYTES tuples.old.end }
    requires key { length key.now ≤ LONGEST_KEY }
    requires few { slots ≤ 8 }
    requires zeros { HasZeros slots (key.now, state.now) }
    ensures seat { IsSeat part.now seat.new × Grew seat.old seat.new }
    ensures kept { tuples.new ≡ record tuples.old { end = tuples.new.end } }
    ensures given { MatchBool result (GivesGroup slots (use_of seat.old) (use_of seat.new) tuples.old.end tuples.new.end (key.now, state.now)) (StoppedSending slots tuples.old.end tuples.new.end) }
{
    let Some(copy) = GroupKey::of(key) else {
        unreachable!()
    };
    if part.put(rt, r, seat, &copy, state) {
        return true;
    }
    send_group(rt, r, tuples, tuple, key, state, slots)
}

/// Gives out groups where they lie, one after another, through one tuple and one state. Answers false if the receiver is
/// gone.
fn give_lent<R: Wait>(
    rt: &R,
    r: &Region,
    part: &HashPart,
    seat: &mut HashSeat,
    tuples: &mut Sender,
    groups: &LentGroups<'_>,
    slots: u32,
) -> bool
    requires part { IsPart r.now part.now }
    requires seat { IsSeat part.now seat.old }
    requires here { tuples.old.region ≡ r.now }
    requires ready { IsReady TUPLE_BYTES tuples.old.end }
    requires few { slots ≤ 8 }
    requires zeros { All (HasZeros slots) (pairs_of groups.now) }
    ensures seat { IsSeat part.now seat.new × Grew seat.old seat.new }
    ensures kept { tuples.new ≡ record tuples.old { end = tuples.new.end } }
    ensures given { MatchBool result (GivesGroups slots (pairs_of groups.now) (use_of seat.old) (use_of seat.new) tuples.old.end tuples.new.end) (StoppedSending slots tuples.old.end tuples.new.end) }
{
    let mut tuple = Tuple::new();
    let mut state = empty();
    for at in 0..groups.len() {
        groups.read_state(at, &mut state, slots);
        if !give_group(
            rt,
            r,
            part,
            seat,
            tuples,
            &mut tuple,
            groups.key(at),
            &state,
            slots,
        ) {
            return false;
        }
    }
    true
}

/// Gives out all groups of the map, in the order in which they lie, and takes them out of it. Answers false if the receiver
/// is gone.
pub(crate) fn give_groups<R: Wait>(
    rt: &R,
    r: &Region,
    part: &HashPart,
    seat: &mut HashSeat,
    tuples: &mut Sender,
    groups: &mut GroupMap,
    slots: u32,
) -> bool
    requires part { IsPart r.now part.now }
    requires seat { IsSeat part.now seat.old }
    requires here { tuples.old.region ≡ r.now }
    requires ready { IsReady TUPLE_BYTES tuples.old.end }
    requires few { slots ≤ 8 }
    requires zeros { AllByRecursion (HasZeros slots) (map.entries groups.old) }
    ensures seat { IsSeat part.now seat.new × Grew seat.old seat.new }
    ensures kept { tuples.new ≡ record tuples.old { end = tuples.new.end } }
    ensures given { MatchBool result ((groups.new ≡ map.empty) × GivesGroups slots (map.entries groups.old) (use_of seat.old) (use_of seat.new) tuples.old.end tuples.new.end) (StoppedSending slots tuples.old.end tuples.new.end) }
{
    if !give_lent(rt, r, part, seat, tuples, &groups.lent(), slots) {
        return false;
    }
    groups.clear();
    true
}
