//! What a worker sends on its tuple queue: its groups, one tuple each. A send that finds the receiver gone ends the
//! work.
//!
//! The groups are read where they lie in the map, in the order in which they do, and each is written into the same
//! tuple; then the map is emptied, and its memory stays for the groups of the next blocks.

ghost use Rattle.std.specs.Prelude.{◌≡◌, ◌≤◌, [], ◌∷◌, All, MatchBool, length};
ghost use Rattle.std.specs.FinMap as map;
ghost use Rattle.std.specs.List.{AllByRecursion};
ghost use Rattle.par_model.specs.declared.refusal.TheConstants.{LONGEST_KEY};
ghost use Rattle.tuple_codec.specs.Tuple.{IsTuple, tuple_bytes};
ghost use Rattle.worker_run.specs.Sent.{FoundGone, HasSent, HasSentGroups, HasSentThese, HasZeros, IsReady, StoppedSending, pairs_of};
ghost use Rattle.tuple_codec.specs.declared.write.TheConstants.{TUPLE_BYTES};

use mq_handle::{SendDone, Sender};
use par_model::AggState;
use partial_agg::{GroupMap, LentGroups, empty};
use region_words::Region;
use std::sync::Wait;
use tuple_codec::{Tuple, encode_into};

/// Sends a group as a tuple, without flush. The tuple is written into memory that is there. Answers false if the
/// receiver is gone.
pub(crate) fn send_group<R: Wait>(
    rt: &R,
    r: &Region,
    tuples: &mut Sender,
    tuple: &mut Tuple,
    key: &[u8],
    state: &AggState,
    slots: u32,
) -> bool
    requires here { tuples.old.region ≡ r.now }
    requires ready { IsReady TUPLE_BYTES tuples.old.end }
    requires key { length key.now ≤ LONGEST_KEY }
    requires few { slots ≤ 8 }
    requires zeros { HasZeros slots (key.now, state.now) }
    ensures kept { tuples.new ≡ record tuples.old { end = tuples.new.end } }
    ensures tuple { IsTuple key.now state.now slots }
    ensures sent { MatchBool result (HasSent tuples.old.end tuples.new.end (tuple_bytes key.now state.now slots ∷ [])) (FoundGone tuples.old.end tuples.new.end []) }
{
    encode_into(tuple, key, state, slots);
    match tuples.send(rt, r, &tuple.bytes[..tuple.len as usize], false) {
        SendDone::Sent => true,
        SendDone::Detached => false,
        SendDone::TooLong { length: _ } => unreachable!(),
    }
}

/// Sends groups where they lie, one after another, through one tuple and one state. Answers false if the receiver is
/// gone.
fn send_lent<R: Wait>(
    rt: &R,
    r: &Region,
    tuples: &mut Sender,
    groups: &LentGroups<'_>,
    slots: u32,
) -> bool
    requires here { tuples.old.region ≡ r.now }
    requires ready { IsReady TUPLE_BYTES tuples.old.end }
    requires few { slots ≤ 8 }
    requires zeros { All (HasZeros slots) (pairs_of groups.now) }
    ensures kept { tuples.new ≡ record tuples.old { end = tuples.new.end } }
    ensures sent { MatchBool result (HasSentThese slots (pairs_of groups.now) tuples.old.end tuples.new.end) (StoppedSending slots tuples.old.end tuples.new.end) }
{
    let mut tuple = Tuple::new();
    let mut state = empty();
    for at in 0..groups.len() {
        groups.read_state(at, &mut state, slots);
        if !send_group(rt, r, tuples, &mut tuple, groups.key(at), &state, slots) {
            return false;
        }
    }
    true
}

/// Sends all groups of the map, in the order in which they lie, and takes them out of it. Answers false if the receiver
/// is gone.
pub(crate) fn send_groups<R: Wait>(
    rt: &R,
    r: &Region,
    tuples: &mut Sender,
    groups: &mut GroupMap,
    slots: u32,
) -> bool
    requires here { tuples.old.region ≡ r.now }
    requires ready { IsReady TUPLE_BYTES tuples.old.end }
    requires few { slots ≤ 8 }
    requires zeros { AllByRecursion (HasZeros slots) (map.entries groups.old) }
    ensures kept { tuples.new ≡ record tuples.old { end = tuples.new.end } }
    ensures sent { MatchBool result (HasSentGroups slots groups.old groups.new tuples.old.end tuples.new.end) (StoppedSending slots tuples.old.end tuples.new.end) }
{
    if !send_lent(rt, r, tuples, &groups.lent(), slots) {
        return false;
    }
    groups.clear();
    true
}
