//! The lines of a table by several threads: the order of the groups is cut into ranges, and each thread writes the
//! lines of one with a separate writer. The texts one after the other are that of all lines, since the text of a table
//! is that of its records one after the other.

ghost use Rattle.std.specs.Prelude.{◌≡◌, ◌∷◌, ◌<◌, All, IfOk, Ok, length, map};
ghost use Rattle.result_text.specs.Pieces.{AreParts, lines_text};
ghost use Rattle.result_text.specs.Printable.{IsSmallSlot};

use crate::order::GroupRef;
use crate::table::TableWriter;
use par_model::BoundPlan;
use partial_agg::Groups;
use std::alloc::{AllocError, Global};
use std::thread::{Threads, map_chunks};

/// The text of a range of groups, or no memory.
pub type Part = Result<Vec<u8>, AllocError>;

/// The texts of the lines of the groups, by at most this many threads, and at least one.
pub(crate) fn lines_in_threads<R: Threads + Sync>(
    rt: &R,
    alloc: Global,
    bound: &BoundPlan,
    groups: &Groups,
    refs: &[GroupRef<'_>],
    threads: usize,
) -> Result<Vec<Part>, AllocError>
    requires small { All (λ group. All IsSmallSlot group.state.slots) groups.now }
    requires within { All (λ group. group.at < length groups.now) refs.now }
    ensures { IfOk result (λ parts. AreParts bound.now groups.now refs.now parts.items) }
{
    let size = refs.len().div_ceil(threads.max(1)).max(1);
    map_chunks(
        rt,
        alloc,
        refs,
        size,
        &|_, range| { lines_of(alloc, bound, groups, range) },
    )
}

/// The text of the lines of a range of groups.
fn lines_of(alloc: Global, bound: &BoundPlan, groups: &Groups, refs: &[GroupRef<'_>]) -> Part
    requires small { All (λ group. All IsSmallSlot group.state.slots) groups.now }
    requires within { All (λ group. group.at < length groups.now) refs.now }
    ensures { IfOk result (λ text. text.items ≡ lines_text bound.now groups.now refs.now) }
{
    let mut table = TableWriter::new(alloc);
    table.write_each(bound, groups, refs)?;
    table.into_text()
}

/// A first text and the texts of the parts after it, if there was memory for all of them.
pub fn behind(alloc: Global, first: Vec<u8>, parts: Vec<Part>) -> Result<Vec<Vec<u8>>, AllocError>
    ensures { IfOk result (λ pieces. map Ok pieces.items ≡ Ok first ∷ parts.items) }
{
    let mut pieces = Vec::with_capacity(alloc, parts.len() + 1)?;
    pieces.push(first)?;
    for part in parts {
        pieces.push(part?)?;
    }
    Ok(pieces)
}
