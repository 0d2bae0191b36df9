//! Groups in order of their columns.
//!
//! An encoded key has each column after its length, lowest byte first, so keys as bytes come in another order than the
//! columns that they encode. Two keys are compared column by column, as they lie, and nothing is copied.

ghost use Rattle.std.specs.Prelude.{◌≡◌, ◌<◌, ◌≤◌, ℕ, List, All, IfOk, OnOk, length, map};
ghost use Rattle.std.specs.Bool.{OnTrue};
ghost use Rattle.std.specs.List.Sorted.{IsPermutation, IsSortedBy};
ghost use Rattle.par_model.specs.Table.{columns_cmp};
ghost use Rattle.result_text.specs.KeyColumns.{after_first_column, columns_in, first_column, lengths_in};
ghost use Rattle.result_text.specs.GroupOrder.{group_of, is_before};
ghost use Rattle.result_text.specs.Printable.{IsKeyOf};

use partial_agg::Groups;
use std::alloc::{AllocError, Global};
use std::cmp::Ordering;

/// A group of a list: its encoded key, where it lies, and its place.
#[derive(Clone, Copy)]
pub struct GroupRef<'a> {
    pub key: &'a [u8],
    pub at: usize,
}

/// The groups in order of their keys, which have this many columns. It takes 24 bytes a group. If all keys have columns
/// of the same lengths, that is the order in which they are listed.
pub fn in_order<'a>(
    alloc: Global,
    groups: &'a Groups,
    columns: u32,
) -> Result<Vec<GroupRef<'a>>, AllocError>
    requires { All (λ group. IsKeyOf columns group.key) groups.now }
    ensures same { IfOk result (λ refs. IsPermutation groups.now (map (group_of groups.now) refs.items)) }
    ensures within { IfOk result (λ refs. All (λ group. group.at < length groups.now) refs.items) }
    ensures short { OnOk result (All (λ group. length group.key ≤ 248) groups.now) }
    ensures sorted { IfOk result (λ refs. IsSortedBy (is_before columns) refs.items) }
{
    let mut refs = as_they_are(alloc, groups)?;
    groups.keys_rise();
    if are_alike(&refs, columns) {
        return Ok(refs);
    }
    refs.sort_unstable_by(|a, b| compare_columns(a.key, b.key, columns));
    Ok(refs)
}

/// The groups as they are listed.
fn as_they_are<'a>(alloc: Global, groups: &'a Groups) -> Result<Vec<GroupRef<'a>>, AllocError>
    ensures same { IfOk result (λ refs. map (group_of groups.now) refs.items ≡ groups.now) }
    ensures within { IfOk result (λ refs. All (λ group. group.at < length groups.now) refs.items) }
    ensures short { OnOk result (All (λ group. length group.key ≤ 248) groups.now) }
{
    let mut refs = Vec::with_capacity(alloc, groups.len())?;
    for at in 0..groups.len() {
        refs.push(GroupRef {
            key: groups.key(at),
            at,
        })?;
    }
    Ok(refs)
}

/// Whether the keys of all groups have columns of the same lengths.
fn are_alike(refs: &[GroupRef<'_>], columns: u32) -> bool
    ensures { OnTrue result ((lengths : List ℕ) × All (λ group. lengths_in columns group.key.now ≡ lengths) refs.now) }
{
    if refs.is_empty() {
        return true;
    }
    let first = refs[0].key;
    for group in refs {
        if !is_alike(first, group.key, columns) {
            return false;
        }
    }
    true
}

/// Whether this many columns of two keys have the same lengths.
fn is_alike(a: &[u8], b: &[u8], columns: u32) -> bool
    ensures { OnTrue result (lengths_in columns b.now ≡ lengths_in columns a.now) }
{
    let mut left = a;
    let mut right = b;
    for _at in 0..columns {
        let (x, more_left) = split_column(left);
        let (y, more_right) = split_column(right);
        if x.len() != y.len() {
            return false;
        }
        left = more_left;
        right = more_right;
    }
    true
}

/// How two keys compare by this many columns, one after another and each byte by byte, as the lines of a table are
/// ordered.
pub fn compare_columns(a: &[u8], b: &[u8], columns: u32) -> Ordering
    ensures { result ≡ columns_cmp (columns_in columns a.now) (columns_in columns b.now) }
{
    let mut left = a;
    let mut right = b;
    for _at in 0..columns {
        let (x, more_left) = split_column(left);
        let (y, more_right) = split_column(right);
        match x.cmp(y) {
            Ordering::Equal => {}
            unequal => return unequal,
        }
        left = more_left;
        right = more_right;
    }
    Ordering::Equal
}

/// The first column of a key, and what comes after it.
pub fn split_column(key: &[u8]) -> (&[u8], &[u8])
    ensures first { result.0.now ≡ first_column key.now }
    ensures rest { result.1.now ≡ after_first_column key.now }
{
    let [a, b, c, d, rest @ ..] = key else {
        return (&[], &[]);
    };
    let size = u32::from_le_bytes([*a, *b, *c, *d]) as usize;
    rest.split_at(size.min(rest.len()))
}
