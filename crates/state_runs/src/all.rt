//! The groups of all rows: in one map if they are few, or in the maps of the parts of their keys.

ghost use Rattle.std.specs.Prelude.{◌≡◌, ◌<◌, ◌≤◌, ◌^◌, ◌++◌, ◌∷◌, [], ℕ, All, Err, IfErr, IfOk, List, OnOk, length};
ghost use Rattle.std.specs.FinMap as finite;
ghost use Rattle.par_model.specs.Plan.{Plan};
ghost use Rattle.part_run.specs.Parted.{AreParted};
ghost use Rattle.partial_agg.specs.Groups.{AreGroups};
ghost use Rattle.partial_agg.specs.Listed.{listed};
ghost use Rattle.result_text.specs.Printable.{IsKeyOf};
ghost use Rattle.row_blocks.specs.Blocks.{Table};
ghost use Rattle.state_head.specs.Head.{head_bytes, preface_of};
ghost use Rattle.state_save.specs.Saving.{DoNotFit, IsFileOf};
ghost use Rattle.state_whole.specs.Adding.{IsShape};
ghost use Rattle.state_whole.specs.Files.{StateFile, file_bytes};
ghost use Rattle.state_writer.specs.declared.writer.WriteError.TheVariants as variant;

use crate::saving::push_apart_file;
use partial_agg::GroupMap;
use state_head::Head;
use state_save::push_file;
use state_whole::Shape;
use state_writer::WriteError;
use std::alloc::{AllocError, Global};
use std::marker::Model;
use std::thread::Threads;

/// All groups of some rows: what is seen of it is one map of them. They lie in that map, or in several of which no two have a key.
#[derive(Drop)]
pub struct AllGroups {
    maps: Vec<GroupMap>,
}

impl Model for AllGroups {
    ghost use Rattle.partial_agg.specs.Groups.{GroupsByKey, groups_code};
    ghost use Rattle.state_runs.specs.Whole.{AreWhole, whole_of};

    ghost Value = { GroupsByKey };

    ghost coded = { groups_code };

    ghost view = { λ all. whole_of all.maps.items };

    ghost invariant = { λ all. AreWhole all.maps.items };
}

impl AllGroups {
    /// No groups.
    pub fn none(alloc: Global) -> AllGroups
        ensures { result ≡ finite.empty }
    {
        AllGroups {
            maps: Vec::new(alloc),
        }
    }

    /// The groups of a map.
    pub fn of_map(alloc: Global, map: GroupMap) -> Result<AllGroups, AllocError>
        ensures { IfOk result (λ all. all ≡ map) }
    {
        let mut maps = Vec::with_capacity(alloc, 1)?;
        maps.push(map)?;
        Ok(AllGroups { maps })
    }

    /// The groups in the maps of all parts of the keys.
    pub fn of_parts(maps: Vec<GroupMap>) -> AllGroups
        requires { (plan : Plan) × (width : ℕ) × (rows : Table) × (length rows ≤ 2 ^ 50) × AreParted plan width rows maps.items }
        ensures { (plan : Plan) (width : ℕ) (rows : Table) → length rows ≤ 2 ^ 50 → AreParted plan width rows maps.items → AreGroups plan rows result }
    {
        AllGroups { maps }
    }
}

/// Puts a file of all groups at the end of `out`: this head, and the groups in the order of the table. If they lie in one map, it takes
/// what [`push_file`] takes. Else at most this many threads work, the caller's among them, and a map is gone when its tuples are made:
/// beside the maps that are left it takes memory for the file, and twice for each group's key, its numbers and 8 bytes.
/// After an error the bytes at the end of `out` are of no use.
pub fn push_all<R: Threads + Sync>(
    rt: &R,
    alloc: Global,
    out: &mut Vec<u8>,
    head: &Head<'_>,
    all: AllGroups,
    shape: &Shape<'_>,
    threads: usize,
) -> Result<(), WriteError>
    requires some { 0 < threads }
    requires shape { IsShape shape.now }
    requires keys { All (λ group. IsKeyOf shape.now.columns group.key) (listed all) }
    ensures file { OnOk result ((f : StateFile) × IsFileOf shape.now (preface_of head.now) (listed all) f × (out.new.items ≡ out.old.items ++ file_bytes shape.now.kinds.now f)) }
    ensures short { OnOk result (length (head_bytes (preface_of head.now)) ≤ 2 ^ 28) }

    // When the error comes that is not of memory: the head or what comes after it is too long for a file.
    ensures long { result ≡ Err variant.Long → DoNotFit shape.now (preface_of head.now) (listed all) }
{
    let AllGroups { maps } = all;
    match only_map(maps) {
        Ok(map) => push_file(alloc, out, head, &map.into_groups(), shape),
        Err(maps) => push_apart_file(rt, alloc, out, head, maps, shape, threads),
    }
}

/// The only map, or all maps if there are none or several.
fn only_map(mut maps: Vec<GroupMap>) -> Result<GroupMap, Vec<GroupMap>>
    ensures one { IfOk result (λ map. maps.items ≡ map ∷ []) }
    ensures all { IfErr result (λ all. all.items ≡ maps.items) }
{
    if maps.len() != 1 {
        return Err(maps);
    }
    match maps.pop() {
        Some(map) => Ok(map),
        None => Err(maps),
    }
}
