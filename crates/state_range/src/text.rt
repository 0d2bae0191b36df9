//! The text of a range: its lines, after the header if the range has no low end.

ghost use Rattle.std.specs.Prelude.{◌≡◌, ◌<◌, ◌++◌, ℕ, List, All, IfOk, OnOk, length};
ghost use Rattle.csv.specs.Writing.{default_writer, row_text};
ghost use Rattle.result_text.specs.GroupOrder.{line_of};
ghost use Rattle.result_text.specs.Pieces.{lines_text};
ghost use Rattle.result_text.specs.Printable.{ArePrintable, IsBoundFrom, IsSmallSlot};
ghost use Rattle.result_text.specs.Text.{AreLinesOf, line_record};
ghost use Rattle.state_range.specs.Ranges.{IsTextAfter, header_before};

use par_model::BoundPlan;
use partial_agg::Groups;
use plan_spec::Plan;
use result_text::{GroupRef, header_text, in_order, push_line};
use std::alloc::{AllocError, Global};

/// The text of the groups of a range: their lines in the order of the table, after the header unless the range has this low end, which is
/// empty if there is none. It takes memory for the text and 24 bytes a group; the time is that of the text, and of n log n comparisons of
/// the keys of n groups.
pub fn text_within(
    alloc: Global,
    plan: &Plan,
    bound: &BoundPlan,
    groups: &Groups,
    low: &[u8],
) -> Result<Vec<u8>, AllocError>
    requires bound { IsBoundFrom plan.now.plan bound.now }
    requires printable { ArePrintable bound.now groups.now }
    ensures { IfOk result (λ text. IsTextAfter plan.now.plan bound.now low.now groups.now text.items) }
{
    let columns = bound.group_columns().len() as u32;
    let mut text = header_for(alloc, plan, bound, low)?;
    push_lines(alloc, &mut text, bound, groups, columns)?;
    Ok(text)
}

/// The header, if a range has no low end.
fn header_for(
    alloc: Global,
    plan: &Plan,
    bound: &BoundPlan,
    low: &[u8],
) -> Result<Vec<u8>, AllocError>
    requires { IsBoundFrom plan.now.plan bound.now }
    ensures { IfOk result (λ text. text.items ≡ header_before plan.now.plan low.now) }
{
    if !low.is_empty() {
        return Ok(Vec::new(alloc));
    }
    header_text(alloc, plan, bound)
}

/// Puts the lines of some groups at the end of a text, in the order of the table.
fn push_lines(
    alloc: Global,
    text: &mut Vec<u8>,
    bound: &BoundPlan,
    groups: &Groups,
    columns: u32,
) -> Result<(), AllocError>
    requires printable { ArePrintable bound.now groups.now }
    requires columns { columns ≡ length bound.now.groups }
    ensures { OnOk result ((lines : List ℕ) × AreLinesOf bound.now groups.now lines × (text.new.items ≡ text.old.items ++ lines)) }
{
    let refs = in_order(alloc, groups, columns)?;
    push_each(text, bound, groups, &refs)
}

/// Puts the lines of some groups at the end of a text, in this order.
fn push_each(
    text: &mut Vec<u8>,
    bound: &BoundPlan,
    groups: &Groups,
    refs: &[GroupRef<'_>],
) -> Result<(), AllocError>
    requires small { All (λ group. All IsSmallSlot group.state.slots) groups.now }
    requires within { All (λ group. group.at < length groups.now) refs.now }
    ensures { OnOk result (text.new.items ≡ text.old.items ++ lines_text bound.now groups.now refs.now) }
{
    for at in 0..refs.len() {
        let group = refs[at];
        push_one(text, bound, groups, group)?;
    }
    Ok(())
}

/// Puts the line of a group at the end of a text.
fn push_one(
    text: &mut Vec<u8>,
    bound: &BoundPlan,
    groups: &Groups,
    group: GroupRef<'_>,
) -> Result<(), AllocError>
    requires small { All (λ group. All IsSmallSlot group.state.slots) groups.now }
    requires within { group.at < length groups.now }
    ensures { OnOk result (text.new.items ≡ text.old.items ++ row_text default_writer (line_record bound.now (line_of (length bound.now.groups) groups.now group.entry))) }
{
    push_line(text, bound, group.key, &groups.state(group.at))
}
