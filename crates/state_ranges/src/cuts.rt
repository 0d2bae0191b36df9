//! The keys at which ranges begin, from a file: first keys of blocks, in parts of about the same size.

ghost use Rattle.std.specs.Prelude.{◌≡◌, ◌++◌, ◌∷◌, [], IfOk, OnOk, map as map_list, true};
ghost use Rattle.state_range.specs.Ranges.{RiseFrom};
ghost use Rattle.state_ranges.specs.Parts.{bytes_of};
ghost use Rattle.state_whole.specs.Adding.{IsShape};

use result_text::compare_columns;
use state_blocks::{read_first, split_block};
use state_whole::Shape;
use std::alloc::{AllocError, Global};

/// Keys that cut the groups of a file, of which these are the blocks, into about this many parts of the same size, each key after the one
/// before it: first keys of blocks. They are fewer than that if the file has few blocks.
pub fn cuts_of(
    alloc: Global,
    blocks: &[u8],
    shape: &Shape<'_>,
    parts: usize,
) -> Result<Vec<Vec<u8>>, AllocError>
    requires { IsShape shape.now }
    ensures { IfOk result (λ cuts. RiseFrom shape.now.columns [] (map_list bytes_of cuts.items)) }
{
    let mut cuts = Vec::new(alloc);
    if parts == 0 {
        return Ok(cuts);
    }
    let step = blocks.len() / parts;
    let mut next = step;
    let mut rest = blocks;
    for _ in 0..blocks.len() {
        let Some((part, after)) = split_block(rest) else {
            return Ok(cuts);
        };
        if blocks.len().saturating_sub(rest.len()) > next {
            push_cut(alloc, &mut cuts, part, shape)?;
            next = next.saturating_add(step);
        }
        rest = after;
    }
    Ok(cuts)
}

/// Puts the first key of a block at the end of some keys, if it comes after the last of them.
fn push_cut(
    alloc: Global,
    cuts: &mut Vec<Vec<u8>>,
    part: &[u8],
    shape: &Shape<'_>,
) -> Result<(), AllocError>
    requires { IsShape shape.now }
    ensures { RiseFrom shape.now.columns [] (map_list bytes_of cuts.old.items) → OnOk result (RiseFrom shape.now.columns [] (map_list bytes_of cuts.new.items)) }
{
    let Some(key) = read_first(part, shape.columns, shape.kinds) else {
        return Ok(());
    };
    if !follows(cuts, key, shape.columns) {
        return Ok(());
    }
    let mut cut = Vec::with_capacity(alloc, key.len())?;
    cut.extend_from_slice(key)?;
    cuts.push(cut)?;
    Ok(())
}

/// Whether a key has bytes, and comes after the last of some keys, if there are any.
fn follows(cuts: &[Vec<u8>], key: &[u8], columns: u32) -> bool
    ensures { result ≡ true → RiseFrom columns [] (map_list bytes_of cuts.now) → RiseFrom columns [] (map_list bytes_of cuts.now ++ key.now ∷ []) }
{
    if key.is_empty() {
        return false;
    }
    if cuts.is_empty() {
        return true;
    }
    let last = cuts[cuts.len() - 1].as_slice();
    compare_columns(last, key, columns).is_lt()
}
