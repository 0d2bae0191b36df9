//! The lists that a run fills, and a flag for each worker. They are taken before any worker starts, so that nothing is
//! asked for while threads run.

ghost use Rattle.std.specs.Prelude.{◌≡◌, ◌≤◌, ◌+◌, [], IfOk, vec_capacity, vec_len};
ghost use Rattle.parallel_ctx.specs.Ready.{HasRoom};

use crate::home::Returned;
use crate::roles::Worker;
use crate::start::{Back, Placed};
use agg_cell::AggObject;
use agg_table::HashSeat;
use dsa_area::AreaPass;
use dshash_parts::DsPass;
use scan_claim::ClaimSeat;
use std::alloc::{AllocError, Global};
use std::sync::atomic::AtomicBool;

/// The lists of the threads: those that were started, what they bring back, and a flag for each.
#[derive(Drop)]
struct ThreadLists<P, B> {
    placed: Vec<P>,
    backs: Vec<B>,
    flags: Vec<AtomicBool>,
}

/// The lists of what comes home: the workers', and the seats of all participants.
#[derive(Drop)]
struct HomeLists<E> {
    workers: Vec<Returned<E>>,
    claims: Vec<ClaimSeat>,
    hashes: Vec<HashSeat>,
    tables: Vec<DsPass<AggObject>>,
    areas: Vec<AreaPass>,
}

/// All lists of a run. The first three are the threads', the others are of what comes home.
#[derive(Drop)]
pub(crate) struct RunLists<P, B, E> {
    /// The workers that were started.
    pub(crate) placed: Vec<P>,
    /// What they bring back.
    pub(crate) backs: Vec<B>,
    /// For each worker, whether its start was refused.
    pub(crate) flags: Vec<AtomicBool>,
    pub(crate) workers: Vec<Returned<E>>,
    /// The seats at the counter of blocks, the lead's first.
    pub(crate) claims: Vec<ClaimSeat>,
    /// The passes of the table of groups and of its area, first together and then apart.
    pub(crate) hashes: Vec<HashSeat>,
    pub(crate) tables: Vec<DsPass<AggObject>>,
    pub(crate) areas: Vec<AreaPass>,
}

/// One flag for each worker.
fn lowered(alloc: Global, count: usize) -> Result<Vec<AtomicBool>, AllocError>
    ensures { IfOk result (λ v. vec_len v ≡ count) }
{
    let mut flags = Vec::with_capacity(alloc, count)?;
    for _i in 0..count {
        flags.push_reserved(AtomicBool::new(false));
    }
    Ok(flags)
}

/// The lists of this many threads.
fn thread_lists<P: Drop, B: Drop>(
    alloc: Global,
    asked: usize,
) -> Result<ThreadLists<P, B>, AllocError>
    ensures placed { IfOk result (λ l. HasRoom asked l.placed) }
    ensures backs { IfOk result (λ l. HasRoom asked l.backs) }
    ensures flags { IfOk result (λ l. vec_len l.flags ≡ asked) }
{
    Ok(ThreadLists {
        placed: Vec::with_capacity(alloc, asked)?,
        backs: Vec::with_capacity(alloc, asked)?,
        flags: lowered(alloc, asked)?,
    })
}

/// Lists of the seats of this many participants.
fn seat_lists(alloc: Global, count: usize) -> Result<(Vec<ClaimSeat>, Vec<HashSeat>), AllocError>
    ensures claims { IfOk result (λ l. HasRoom count l.0) }
    ensures hashes { IfOk result (λ l. HasRoom count l.1) }
{
    let claims = Vec::with_capacity(alloc, count)?;
    let hashes = Vec::with_capacity(alloc, count)?;
    Ok((claims, hashes))
}

/// Lists of the two passes of this many participants.
fn pass_lists(
    alloc: Global,
    count: usize,
) -> Result<(Vec<DsPass<AggObject>>, Vec<AreaPass>), AllocError>
    ensures tables { IfOk result (λ l. HasRoom count l.0) }
    ensures areas { IfOk result (λ l. HasRoom count l.1) }
{
    let tables = Vec::with_capacity(alloc, count)?;
    let areas = Vec::with_capacity(alloc, count)?;
    Ok((tables, areas))
}

/// The lists of this many workers and a lead.
fn home_lists<E: Drop>(alloc: Global, asked: usize) -> Result<HomeLists<E>, AllocError>
    requires { asked ≤ 64 }
    ensures workers { IfOk result (λ l. HasRoom asked l.workers) }
    ensures claims { IfOk result (λ l. HasRoom (asked + 1) l.claims) }
    ensures hashes { IfOk result (λ l. HasRoom (asked + 1) l.hashes) }
    ensures tables { IfOk result (λ l. HasRoom (asked + 1) l.tables) }
    ensures areas { IfOk result (λ l. HasRoom (asked + 1) l.areas) }
{
    let workers = Vec::with_capacity(alloc, asked)?;
    let (claims, hashes) = seat_lists(alloc, asked + 1)?;
    let (tables, areas) = pass_lists(alloc, asked + 1)?;
    Ok(HomeLists {
        workers,
        claims,
        hashes,
        tables,
        areas,
    })
}

/// The lists of a run of this many workers, in one step, so that a run that has no memory ends in one place.
pub(crate) fn run_lists<P: Drop, B: Drop, E: Drop>(
    alloc: Global,
    asked: usize,
) -> Result<RunLists<P, B, E>, AllocError>
    requires { asked ≤ 64 }
    ensures placed { IfOk result (λ l. HasRoom asked l.placed) }
    ensures backs { IfOk result (λ l. HasRoom asked l.backs) }
    ensures flags { IfOk result (λ l. vec_len l.flags ≡ asked) }
    ensures workers { IfOk result (λ l. HasRoom asked l.workers) }
    ensures claims { IfOk result (λ l. HasRoom (asked + 1) l.claims) }
    ensures hashes { IfOk result (λ l. HasRoom (asked + 1) l.hashes) }
    ensures tables { IfOk result (λ l. HasRoom (asked + 1) l.tables) }
    ensures areas { IfOk result (λ l. HasRoom (asked + 1) l.areas) }
{
    let ThreadLists {
        placed,
        backs,
        flags,
    } = thread_lists(alloc, asked)?;
    let HomeLists {
        workers,
        claims,
        hashes,
        tables,
        areas,
    } = home_lists(alloc, asked)?;
    Ok(RunLists {
        placed,
        backs,
        flags,
        workers,
        claims,
        hashes,
        tables,
        areas,
    })
}
