//! Participants that share the pieces of a table.

ghost use Rattle.std.specs.Prelude.{◌≡◌, ◌<◌, ◌≤◌, ◌^◌, ℕ, List, IfOk, length};
ghost use Rattle.partial_agg.specs.Groups.{AreGroups};
ghost use Rattle.split_run.specs.Pieces.{AreUnder, HaveColumns, rows_of};

use csv_rows::{Reading, rows_as};
use par_io::MemSource;
use par_model::BoundPlan;
use partial_agg::{BlockAnswer, GroupMap};
use plan_spec::Plan;
use row_windows::Window;
use split_run::{add_pieces, begin, put_together};
use std::alloc::Global;
use std::sync::Wait;
use std::test::Fail;
use std::thread::Threads;

/// The groups of all rows of some pieces, by this many participants, the caller's thread among them.
fn shared_groups<R: Threads + Wait + Sync>(
    rt: &R,
    alloc: Global,
    pieces: &[Window],
    plan: &BoundPlan,
    participants: u32,
) -> Result<GroupMap, BlockAnswer>
    requires some { 0 < participants }
    requires many { length pieces.now ≤ 2 ^ 32 }
    requires columns { HaveColumns plan.now pieces.now }
    ensures { IfOk result (λ groups. (header : List (List ℕ)) → AreUnder header pieces.now → AreGroups plan.now (rows_of pieces.now) groups) }
{
    let Ok(maps) = begin(alloc, participants) else {
        return Err(BlockAnswer::Memory);
    };
    let (maps, count) = match add_pieces(rt, alloc, pieces, plan, maps) {
        Ok(done) => done,
        Err(why) => return Err(why),
    };
    if count == u64::MAX {
        return Err(BlockAnswer::Memory);
    }
    match put_together(rt, alloc, maps) {
        Ok(groups) => Ok(groups),
        Err(_) => Err(BlockAnswer::Memory),
    }
}

/// A whole text as one window.
fn whole(alloc: Global, text: &[u8]) -> Result<Window, Fail> {
    let mut source = MemSource::new(Vec::from_slice(alloc, text)?, text.len(), Vec::new(alloc));
    let mut window = Window::new(alloc, &Reading::plain());
    match window.fill(&mut source, text.len().saturating_add(1)) {
        Ok(true) => Ok(window),
        _ => Err("one window".into()),
    }
}

/// How many groups a table has by the column `g`, and which row is refused, as this many participants find it.
fn counted<R: Threads + Wait + Sync>(
    rt: &R,
    alloc: Global,
    text: &[u8],
    participants: u32,
) -> Result<Result<usize, u64>, Fail>
    requires { 0 < participants }
{
    let mut words = Vec::new(alloc);
    for word in ["--group", "g", "--agg", "sum:v"] {
        words.push(String::from_str(alloc, word)?)?;
    }
    let plan = Plan::of_words(alloc, words.as_slice())
        .ok()
        .ok_or("a plan")?;
    let window = whole(alloc, text)?;
    let store = rows_as(alloc, window.reading(), window.table())
        .ok()
        .ok_or("a store")?;
    let Ok(bound) = plan.bind(&store) else {
        return Err("columns".into());
    };
    let mut pieces = Vec::new(alloc);
    pieces.push(window)?;
    match shared_groups(rt, alloc, pieces.as_slice(), &bound, participants) {
        Ok(groups) => Ok(Ok(groups.len())),
        Err(BlockAnswer::Row { row, .. }) => Ok(Err(row)),
        Err(BlockAnswer::Memory) => Err("memory".into()),
    }
}

#[test]
fn groups_are_shared(rt: HostRuntime) -> Result<(), Fail> {
    let alloc = rt.alloc();
    let mut text = Vec::from_slice(alloc, b"g,v\n")?;
    for row in 0..2_000u32 {
        let line = format!(in alloc; "{},{}\n", row % 700, row)?;
        text.extend_from_slice(line.as_bytes())?;
    }
    for participants in [1, 2, 5u32] {
        let found = counted(&rt, alloc, text.as_slice(), participants)?;
        assert!(rt; found == Ok(700), "by {participants}");
    }
    // From here on each row is refused, so a participant that draws a later block meets one too.
    for row in 0..2_000u32 {
        let line = format!(in alloc; "{row},x\n")?;
        text.extend_from_slice(line.as_bytes())?;
    }
    for participants in [1, 2, 5u32] {
        let found = counted(&rt, alloc, text.as_slice(), participants)?;
        assert!(rt; found == Err(2_001), "by {participants}");
    }
    Ok(())
}
