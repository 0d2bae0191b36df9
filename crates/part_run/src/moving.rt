//! The groups of participants, put into the maps of the parts.

ghost use Rattle.std.specs.Prelude.{◌≡◌, ◌<◌, ◌≤◌, ◌^◌, All, IfOk, Ok, OnOk, length, map as map_list, slice_index_or};
ghost use Rattle.par_model.specs.Plan.{Plan};
ghost use Rattle.row_blocks.specs.Blocks.{Table};
ghost use Rattle.gather_law.specs.KeyParts.{AreListings, groups_in, part_map, with_listed};
ghost use Rattle.gather_law.specs.Shares.{AreShared};
ghost use Rattle.partial_agg.specs.Groups.{added};
ghost use Rattle.row_lists.specs.Parts.{part_of as key_part};
ghost use Rattle.part_run.specs.Moving.{AreMade, IsLent, IsMade, lists_of};
ghost use Rattle.part_run.specs.Parted.{AreParted};

use par_model::AggState;
use partial_agg::{GroupMap, LentGroups, empty};
use row_lists::{PARTS, part_of};
use std::alloc::{AllocError, Global};
use std::thread::{Threads, for_each_mut};

/// The slots of a state.
const ALL_SLOTS: u32 = 8;

/// The groups of a map, and the part of each.
#[derive(Drop)]
pub(crate) struct LentParts<'a> {
    pub(crate) groups: LentGroups<'a>,
    pub(crate) parts: Vec<u8>,
}

/// The map of a part, or no memory for it.
type Made = Result<GroupMap, AllocError>;

/// The maps of the parts, with the groups of all participants, in at most this many threads. The time is that of a look-up of
/// each group; the participants' maps are only read.
pub(crate) fn part_maps<R: Threads + Sync>(
    rt: &R,
    alloc: Global,
    maps: &[GroupMap],
    threads: usize,
) -> Result<Vec<GroupMap>, AllocError>
    requires some { 0 < threads }
    ensures many { IfOk result (λ parts. length parts.items ≡ 256) }
    ensures parted { IfOk result (λ parts. (plan : Plan) (width : _) (rows : Table) → AreShared plan width rows maps.now → length rows < 2 ^ 64 → AreParted plan width rows parts.items) }
{
    let lists = lend_all(alloc, maps)?;
    let mut parts = no_maps(alloc)?;
    make_maps(rt, alloc, &lists, &mut parts, threads);
    all_of(alloc, parts)
}

/// Makes the map of each part of the groups in all lists, in at most this many threads.
fn make_maps<R: Threads + Sync>(
    rt: &R,
    alloc: Global,
    lists: &[LentParts<'_>],
    parts: &mut Vec<Made>,
    threads: usize,
)
    requires some { 0 < threads }
    requires lent { All IsLent lists.now }
    ensures { AreMade lists.now parts.old.items parts.new.items }
{
    for_each_mut(
        rt,
        parts.as_mut_slice(),
        threads,
        &|part, map| { make_map(alloc, lists, part, map) },
    );
}

/// Makes the map of a part of the groups in all lists.
fn make_map(alloc: Global, lists: &[LentParts<'_>], part: usize, map: &mut Made)
    requires { All IsLent lists.now }
    ensures { IsMade lists.now part map.new }
{
    *map = part_map(alloc, lists, part);
}

/// The groups of each map, with their parts.
fn lend_all(alloc: Global, maps: &[GroupMap]) -> Result<Vec<LentParts<'_>>, AllocError>
    ensures listings { IfOk result (λ lists. AreListings maps.now (lists_of lists.items)) }
    ensures lent { IfOk result (λ lists. All IsLent lists.items) }
{
    let mut lists = Vec::with_capacity(alloc, maps.len())?;
    for map in maps {
        let groups = map.lent();
        let parts = parts_of_keys(alloc, &groups)?;
        lists.push(LentParts { groups, parts })?;
    }
    Ok(lists)
}

/// The part of each group.
fn parts_of_keys(alloc: Global, groups: &LentGroups<'_>) -> Result<Vec<u8>, AllocError>
    ensures { IfOk result (λ parts. parts.items ≡ map_list (λ group. key_part group.key) groups.now) }
{
    let mut parts = Vec::with_capacity(alloc, groups.len())?;
    for at in 0..groups.len() {
        parts.push(part_of(groups.key(at)))?;
    }
    Ok(parts)
}

/// As many maps as there are parts, none of which was made.
fn no_maps(alloc: Global) -> Result<Vec<Made>, AllocError>
    ensures { IfOk result (λ maps. length maps.items ≡ 256) }
{
    let mut maps = Vec::with_capacity(alloc, PARTS)?;
    for _part in 0..PARTS {
        maps.push(Err(AllocError))?;
    }
    Ok(maps)
}

/// The map of a part of the groups in all lists.
fn part_map(alloc: Global, lists: &[LentParts<'_>], part: usize) -> Made
    requires { All IsLent lists.now }
    ensures { IfOk result (λ so_far. so_far ≡ part_map key_part part (lists_of lists.now)) }
{
    let mut so_far = GroupMap::new(alloc);
    for list in lists {
        add_list(&mut so_far, &list.groups, &list.parts, part)?;
    }
    Ok(so_far)
}

/// Adds the groups of a part in a list.
fn add_list(
    so_far: &mut GroupMap,
    groups: &LentGroups<'_>,
    parts: &[u8],
    part: usize,
) -> Result<(), AllocError>
    requires whole { All (λ group. length group.state.slots ≡ 8) groups.now }
    requires parts { parts.now ≡ map_list (λ group. key_part group.key) groups.now }
    ensures { OnOk result (so_far.new ≡ with_listed so_far.old (groups_in key_part part groups.now)) }
{
    let mut state = empty();
    for at in 0..groups.len() {
        if parts[at] as usize == part {
            add_group(so_far, groups, at, &mut state)?;
        }
    }
    Ok(())
}

/// Adds the group at a place, whose state is read into a place of the caller's.
fn add_group(
    so_far: &mut GroupMap,
    groups: &LentGroups<'_>,
    at: usize,
    state: &mut AggState,
) -> Result<(), AllocError>
    requires place { at < length groups.now }
    requires whole { All (λ group. length group.state.slots ≡ 8) groups.now }
    requires eight { length state.old.slots ≡ 8 }
    ensures eight { length state.new.slots ≡ 8 }
    ensures added { OnOk result ((d : _) → so_far.new ≡ added so_far.old (slice_index_or groups.now at d).key (slice_index_or groups.now at d).state) }
{
    groups.read_state(at, state, ALL_SLOTS);
    so_far.add_bytes(groups.key(at), state)
}

/// The maps, if there was memory for all.
fn all_of(alloc: Global, made: Vec<Made>) -> Result<Vec<GroupMap>, AllocError>
    ensures { IfOk result (λ maps. map_list Ok maps.items ≡ made.items) }
{
    let mut maps = Vec::with_capacity(alloc, made.len())?;
    for map in made {
        maps.push(map?)?;
    }
    Ok(maps)
}
