//! The lines of one map, in the order of the table.

ghost use Rattle.std.specs.Prelude.{◌≡◌, ◌<◌, ◌≤◌, ◌++◌, ◌∷◌, [], ℕ, All, IfOk, List, OnOk, get_or, length, map as map_list};
ghost use Rattle.csv.specs.Records.{cut_from, prev};
ghost use Rattle.csv_rows.specs.Store.{Covers};
ghost use Rattle.par_model.specs.Refuse.{longest_key};
ghost use Rattle.partial_agg.specs.Listed.{listed};
ghost use Rattle.result_text.specs.GroupOrder.{group_of};
ghost use Rattle.result_text.specs.Printable.{ArePrintable, IsSmallSlot};
ghost use Rattle.line_runs.specs.Entries.{entry_bytes, entry_in, entry_of, no_entry, whole_entry};
ghost use Rattle.line_runs.specs.Runs.{IsRunOf};

use par_model::{AggState, BoundPlan, SlotState};
use partial_agg::{GroupMap, Groups, empty};
use result_text::{GroupRef, in_order, push_line};
use std::alloc::{AllocError, Global};
use std::marker::Model;

/// Lines, each after its key. The key has its length before it, in one byte.
#[derive(Drop)]
pub struct Run {
    bytes: Vec<u8>,
    ends: Vec<usize>,
}

impl Model for Run {
    ghost use Rattle.std.specs.Prelude.{List, length, map};
    ghost use Rattle.csv.specs.Records.{cut_from};
    ghost use Rattle.csv_rows.specs.Store.{Covers};
    ghost use Rattle.line_runs.specs.Entries.{Entry, entry_in};

    ghost Value = { List Entry };

    ghost view = { λ r. map entry_in (cut_from 0 r.ends.items r.bytes.items) };

    ghost invariant = { λ r. Covers r.ends.items (length r.bytes.items) };
}

impl Run {
    /// The lines of the groups of a map, which is gone afterwards.
    pub(crate) fn of_map(alloc: Global, bound: &BoundPlan, map: GroupMap) -> Result<Run, AllocError>
        requires { ArePrintable bound.now (listed map) }
        ensures { IfOk result (IsRunOf bound.now (listed map)) }
    {
        let room = about_bytes(bound, &map);
        let groups = map.into_groups();
        let refs = in_order(alloc, &groups, group_count(bound))?;
        Run::of_groups(alloc, bound, &groups, &refs, room)
    }

    /// The lines of groups, in this order, for which about this many bytes are enough.
    fn of_groups(
        alloc: Global,
        bound: &BoundPlan,
        groups: &Groups,
        refs: &[GroupRef<'_>],
        room: usize,
    ) -> Result<Run, AllocError>
        requires small { All (λ group. All IsSmallSlot group.state.slots) groups.now }
        requires within { All (λ group. group.at < length groups.now) refs.now }
        requires short { All (λ group. length group.key.now ≤ longest_key) refs.now }
        ensures { IfOk result (λ run. run ≡ map_list (entry_of bound.now) (map_list (group_of groups.now) refs.now)) }
    {
        let mut bytes = Vec::with_capacity(alloc, room)?;
        let mut ends = Vec::with_capacity(alloc, refs.len())?;
        let lent = groups.lent();
        let mut state = empty();
        for group in refs {
            lent.read_state(group.at, &mut state, bound.items().len() as u32);
            push_entry(&mut bytes, bound, group.key, &state)?;
            ends.push(bytes.len())?;
        }
        Ok(Run::of(bytes, ends))
    }

    /// The lines that these bytes are, each of which ends at one of these places.
    fn of(bytes: Vec<u8>, ends: Vec<usize>) -> Run
        requires { Covers ends.items (length bytes.items) }
        ensures { result ≡ map_list entry_in (cut_from 0 ends.items bytes.items) }
    {
        Run { bytes, ends }
    }

    /// No lines, and room for this many, which have this many bytes with their keys.
    pub fn with_capacity(alloc: Global, lines: usize, bytes: usize) -> Result<Run, AllocError>
        ensures { IfOk result (λ run. run ≡ []) }
    {
        let bytes = Vec::with_capacity(alloc, bytes)?;
        let ends = Vec::with_capacity(alloc, lines)?;
        Ok(Run::of(bytes, ends))
    }

    /// The run with a line more, after its key, at the end.
    pub fn push(self, key: &[u8], line: &[u8]) -> Result<Run, AllocError>
        requires { length key.now ≤ longest_key }
        ensures { IfOk result (λ run. run ≡ self ++ (key.now, line.now) ∷ []) }
    {
        let Run { mut bytes, ends } = self;
        put_entry(&mut bytes, key, line)?;
        Run::ended(bytes, ends)
    }

    /// The run with an entry more at the end, which is given as its bytes.
    pub(crate) fn push_entry(self, entry: &[u8]) -> Result<Run, AllocError>
        ensures { IfOk result (λ run. run ≡ self ++ entry_in entry.now ∷ []) }
    {
        let Run { mut bytes, ends } = self;
        bytes.extend_from_slice(entry)?;
        Run::ended(bytes, ends)
    }

    /// The lines that end at one of these places, and one that comes after them in the bytes.
    fn ended(bytes: Vec<u8>, mut ends: Vec<usize>) -> Result<Run, AllocError>
        requires { (front : List ℕ) × (entry : List ℕ) × Covers ends.items (length front) × (bytes.items ≡ front ++ entry) }
        ensures { IfOk result (λ run. (front entry : List ℕ) → Covers ends.items (length front) → bytes.items ≡ front ++ entry → run ≡ map_list entry_in (cut_from 0 ends.items front) ++ entry_in entry ∷ []) }
    {
        ends.push(bytes.len())?;
        Ok(Run::of(bytes, ends))
    }

    /// The number of lines.
    pub fn len(&self) -> usize
        ensures { result ≡ length self.now }
    {
        self.ends.len()
    }

    /// The key of the line at a place, and no bytes if there is no line.
    pub fn key(&self, at: usize) -> &[u8]
        ensures { result.now ≡ (get_or self.now at no_entry).0 }
    {
        let (key, _line) = self.split(at);
        key
    }

    /// The line at a place, and no bytes if there is none.
    pub fn line(&self, at: usize) -> &[u8]
        ensures { result.now ≡ (get_or self.now at no_entry).1 }
    {
        let (_key, line) = self.split(at);
        line
    }

    /// The key and the line at a place.
    fn split(&self, at: usize) -> (&[u8], &[u8])
        ensures key { result.0.now ≡ (get_or self.now at no_entry).0 }
        ensures line { result.1.now ≡ (get_or self.now at no_entry).1 }
    {
        split_entry(self.entry(at))
    }

    /// The entry at a place as bytes, and no bytes if there is none.
    pub(crate) fn entry(&self, at: usize) -> &[u8]
        ensures { entry_in result.now ≡ get_or self.now at no_entry }
    {
        if at >= self.len() {
            return &[];
        }
        let (start, end) = span(&self.ends, at);
        &self.bytes.as_slice()[start..end]
    }

    /// About how many bytes the lines from one place on to another have, with their keys. It only says how much memory to take.
    pub(crate) fn bytes_between(&self, from: usize, to: usize) -> usize {
        self.start(to).saturating_sub(self.start(from))
    }

    /// Where the line at a place begins, and 0 if there is no such place.
    fn start(&self, at: usize) -> usize {
        if at == 0 || at > self.ends.len() {
            return 0;
        }
        self.ends[at - 1]
    }
}

/// About how many bytes the entries of a map's groups have. All of them are read once in the order in which they lie, so they are
/// near when they are read again in the order of their keys.
fn about_bytes(bound: &BoundPlan, map: &GroupMap) -> usize {
    let groups = map.lent();
    let mut state = empty();
    let mut bytes = 0usize;
    for at in 0..groups.len() {
        groups.read_state(at, &mut state, bound.items().len() as u32);
        bytes = bytes.saturating_add(about_entry(bound, groups.key(at), &state));
    }
    bytes
}

/// About how many bytes the entry of a group has: the key and its columns, and a number for each aggregate.
fn about_entry(bound: &BoundPlan, key: &[u8], state: &AggState) -> usize {
    let mut bytes = key.len().saturating_mul(2);
    for (_item, slot) in bound.items().iter().zip(state.slots.iter()) {
        bytes = bytes.saturating_add(about_number(state.rows, slot));
    }
    bytes
}

/// About how many bytes a number of an aggregate has: a digit for three bits, and some for a sign, a point, places and
/// a comma.
fn about_number(rows: u64, slot: &SlotState) -> usize {
    let size = slot.sum.unsigned_abs().max(u128::from(rows));
    (128 - size.leading_zeros()) as usize / 3 + 8
}

/// How many columns a plan groups by.
pub(crate) fn group_count(bound: &BoundPlan) -> u32
    ensures { result ≡ length bound.now.groups }
{
    bound.group_columns().len() as u32
}

/// Where the entry at this place starts and ends.
fn span(ends: &Vec<usize>, at: usize) -> (usize, usize)
    requires { at < length ends.now.items }
    ensures start { result.0 ≡ prev 0 ends.now.items at }
    ensures end { result.1 ≡ get_or ends.now.items at 0 }
{
    let start = if at == 0 { 0 } else { ends[at - 1] };
    (start, ends[at])
}

/// The key and the line of an entry.
fn split_entry(bytes: &[u8]) -> (&[u8], &[u8])
    ensures key { result.0.now ≡ (entry_in bytes.now).0 }
    ensures line { result.1.now ≡ (entry_in bytes.now).1 }
{
    let [size, rest @ ..] = bytes else {
        return (&[], &[]);
    };
    rest.split_at((*size as usize).min(rest.len()))
}

/// Puts an entry at the end of others.
fn put_entry(bytes: &mut Vec<u8>, key: &[u8], line: &[u8]) -> Result<(), AllocError>
    requires { length key.now ≤ longest_key }
    ensures { OnOk result (bytes.new.items ≡ bytes.old.items ++ whole_entry key.now line.now) }
{
    bytes.push(key.len() as u8)?;
    bytes.extend_from_slice(key)?;
    bytes.extend_from_slice(line)?;
    Ok(())
}

/// Puts the entry of a group at the end of others.
fn push_entry(
    bytes: &mut Vec<u8>,
    bound: &BoundPlan,
    key: &[u8],
    state: &AggState,
) -> Result<(), AllocError>
    requires small { All IsSmallSlot state.now.slots }
    requires short { length key.now ≤ longest_key }
    ensures { OnOk result (bytes.new.items ≡ bytes.old.items ++ entry_bytes bound.now key.now state.now) }
{
    bytes.push(key.len() as u8)?;
    bytes.extend_from_slice(key)?;
    push_line(bytes, bound, key, state)
}
