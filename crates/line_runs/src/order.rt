//! The lines of a range in the order of the table.
//!
//! A line is sorted together with a number of its key: 8 bytes of one column, after what all keys of the range have in
//! common. Unequal numbers decide the order of two keys, so hardly any key is looked at twice.

ghost use Rattle.std.specs.Prelude.{◌≡◌, ◌<◌, ◌≤◌, ◌++◌, All, IfOk, IfSome, drop, length, map as map_list};
ghost use Rattle.std.specs.Bool.{OnTrue};
ghost use Rattle.std.specs.List.Sorted.{IsPermutation, IsSortedBy};
ghost use Rattle.std.specs.Ordering.{nat_cmp, ordering_then};
ghost use Rattle.par_model.specs.Table.{columns_cmp};
ghost use Rattle.key_index.specs.Front.{AllBytes, leading};
ghost use Rattle.result_text.specs.KeyColumns.{first_size};
ghost use Rattle.line_runs.specs.Entries.{comes_before, entry_in};
ghost use Rattle.line_runs.specs.Order.{AreNumbered, IsNumbered, IsNumberOf, IsWhole, columns_at, entry_at, place_of};

use crate::run::Run;
use result_text::{compare_columns, split_column};
use std::alloc::AllocError;
use std::cmp::Ordering;

/// A line of a run: its place, and a number of its key.
#[derive(Clone, Copy)]
pub(crate) struct LineRef {
    number: u64,
    run: u32,
    at: u32,
}

impl LineRef {
    /// The line at a place of a run, without a number, or no memory if there are more places than numbers for them.
    pub(crate) fn new(run: usize, at: usize) -> Result<LineRef, AllocError>
        ensures { IfOk result (λ line. (line.run ≡ run) × (line.at ≡ at)) }
    {
        match (u32::try_from(run), u32::try_from(at)) {
            (Ok(run), Ok(at)) => Ok(LineRef { number: 0, run, at }),
            _ => Err(AllocError),
        }
    }

    /// Its key, and no bytes if there is no such line.
    fn key<'a>(&self, runs: &'a [Run]) -> &'a [u8]
        ensures { result.now ≡ (entry_at runs.now self.now).0 }
    {
        let run = self.run as usize;
        if run < runs.len() {
            runs[run].key(self.at as usize)
        } else {
            &[]
        }
    }

    /// Its key and line as bytes of an entry, and no bytes if there is no such line.
    pub(crate) fn entry<'a>(&self, runs: &'a [Run]) -> &'a [u8]
        ensures { entry_in result.now ≡ entry_at runs.now self.now }
    {
        let run = self.run as usize;
        if run < runs.len() {
            runs[run].entry(self.at as usize)
        } else {
            &[]
        }
    }

    /// The line, and no bytes if there is none.
    pub(crate) fn line<'a>(&self, runs: &'a [Run]) -> &'a [u8]
        ensures { result.now ≡ (entry_at runs.now self.now).1 }
    {
        let run = self.run as usize;
        if run < runs.len() {
            runs[run].line(self.at as usize)
        } else {
            &[]
        }
    }
}

/// What the keys of a range have in common: some whole columns, as they are encoded, and a front of the next one.
#[derive(Clone, Copy)]
pub(crate) struct Shared<'a> {
    columns: &'a [u8],
    front: &'a [u8],
}

impl<'a> Shared<'a> {
    /// What two keys with this many columns have in common, and so all keys between them. If all columns are the same, nothing
    /// is said to be in common.
    pub(crate) fn between(low: &'a [u8], high: &[u8], columns: u32) -> Shared<'a>
        requires { 0 < columns }
        ensures { IsWhole columns result }
    {
        let mut left = low;
        let mut right = high;
        for _at in 0..columns {
            let (x, more_left) = split_column(left);
            let (y, more_right) = split_column(right);
            if x != y || !has_column(left) {
                return Shared {
                    columns: &low[..low.len() - left.len()],
                    front: &x[..common_front(x, y)],
                };
            }
            left = more_left;
            right = more_right;
        }
        Shared {
            columns: &[],
            front: &[],
        }
    }

    /// The number of a key, if it has the columns and the front: 8 bytes after them, the highest first.
    fn number_of(&self, key: &[u8]) -> Option<u64>
        ensures { IfSome result (IsNumberOf self.now key.now) }
    {
        let rest = after(key, self.columns)?;
        let (column, _more) = split_column(rest);
        let more = after(column, self.front)?;
        Some(number(&more[..more.len().min(8)]))
    }
}

/// Whether the first column of some bytes lies in them with all of its length.
fn has_column(bytes: &[u8]) -> bool
    ensures { OnTrue result ((4 ≤ length bytes.now) × (first_size bytes.now ≤ length (drop 4 bytes.now))) }
{
    let [a, b, c, d, rest @ ..] = bytes else {
        return false;
    };
    u32::from_le_bytes([*a, *b, *c, *d]) as usize <= rest.len()
}

/// What comes after the front of some bytes, if they have it.
fn after<'a>(bytes: &'a [u8], front: &[u8]) -> Option<&'a [u8]>
    ensures { IfSome result (λ rest. bytes.now ≡ front.now ++ rest.now) }
{
    if bytes.starts_with(front) {
        Some(&bytes[front.len()..])
    } else {
        None
    }
}

/// In how many bytes two columns begin alike.
fn common_front(a: &[u8], b: &[u8]) -> usize
    ensures { (result ≤ length a.now) × (result ≤ length b.now) }
{
    let most = a.len().min(b.len());
    for at in 0..most {
        if a[at] != b[at] {
            return at;
        }
    }
    most
}

/// Up to 8 bytes as a number, the highest first, with zeros after them.
fn number(bytes: &[u8]) -> u64
    requires { length bytes.now ≤ 8 }
    ensures number { result ≡ leading 8 bytes.now }
    ensures bytes { AllBytes bytes.now }
{
    let mut all = [0; 8];
    all[..bytes.len()].copy_from_slice(bytes);
    u64::from_be_bytes(all)
}

/// Puts lines in the order of the table. That what is shared is shared by all keys is tested: if one has not got it, the keys
/// decide, without numbers.
pub(crate) fn sort_lines(lines: &mut [LineRef], runs: &[Run], shared: &Shared<'_>, columns: u32)
    requires { IsWhole columns shared.now }
    ensures same { IsPermutation (map_list (entry_at runs.now) lines.old) (map_list (entry_at runs.now) lines.new) }
    ensures sorted { IsSortedBy (comes_before columns) (map_list (entry_at runs.now) lines.new) }
{
    if number_all(lines, runs, shared) {
        sort_numbered(lines, runs, columns);
        return;
    }
    sort_by_keys(lines, runs, columns);
}

/// Gives each line the number of its key; returns whether each has one.
fn number_all(lines: &mut [LineRef], runs: &[Run], shared: &Shared<'_>) -> bool
    ensures same { map_list place_of lines.new ≡ map_list place_of lines.old }
    ensures numbers { OnTrue result (All (IsNumbered shared.now runs.now) lines.new) }
{
    for line in lines.iter_mut() {
        match shared.number_of(line.key(runs)) {
            Some(number) => line.number = number,
            None => return false,
        }
    }
    true
}

/// Puts lines that have numbers of their keys in the order of the table.
fn sort_numbered(lines: &mut [LineRef], runs: &[Run], columns: u32)
    requires { AreNumbered columns runs.now lines.old }
    ensures same { IsPermutation lines.old lines.new }
    ensures sorted { IsSortedBy (comes_before columns) (map_list (entry_at runs.now) lines.new) }
{
    lines.sort_unstable_by(|a, b| compare(runs, columns, a, b));
}

/// Puts lines in the order of the table, by their keys.
pub(crate) fn sort_by_keys(lines: &mut [LineRef], runs: &[Run], columns: u32)
    ensures same { IsPermutation lines.old lines.new }
    ensures sorted { IsSortedBy (comes_before columns) (map_list (entry_at runs.now) lines.new) }
{
    lines.sort_unstable_by(|a, b| compare_keys(runs, columns, a, b));
}

/// How two lines compare: by their numbers, and by their keys if these are equal.
fn compare(runs: &[Run], columns: u32, a: &LineRef, b: &LineRef) -> Ordering
    ensures { result ≡ ordering_then (nat_cmp a.now.number b.now.number) (columns_cmp (columns_at columns runs.now a.now) (columns_at columns runs.now b.now)) }
{
    match a.number.cmp(&b.number) {
        Ordering::Equal => compare_keys(runs, columns, a, b),
        unequal => unequal,
    }
}

/// How two lines compare by their keys.
fn compare_keys(runs: &[Run], columns: u32, a: &LineRef, b: &LineRef) -> Ordering
    ensures { result ≡ columns_cmp (columns_at columns runs.now a.now) (columns_at columns runs.now b.now) }
{
    compare_columns(a.key(runs), b.key(runs), columns)
}
