//! The file that some bytes begin with, looked at without a sum: so that one file can be looked at beside the adding of another.

ghost use Rattle.std.specs.Prelude.{◌≡◌, ◌<◌, ◌++◌, List, ℕ, IfErr, IfOk, IfSome, length};
ghost use Rattle.partial_agg.specs.Groups.{GroupsByKey};
ghost use Rattle.state_head.specs.Head.{subject_of};
ghost use Rattle.state_head.specs.Words.{keys_of};
ghost use Rattle.state_load.specs.Faults.{IsNoPart};
ghost use Rattle.state_load.specs.Loading.{IsLookedAt};
ghost use Rattle.state_whole.specs.Adding.{IsShape};

use crate::loading::{LoadCause, read_alike};
use state_front::FrontRead;
use state_head::{KeyRange, Whole};
use state_keep::check_groups;
use state_whole::{Shape, read_groups};
use std::alloc::Global;

/// A file that was looked at: its front, its blocks, and the bytes after it.
#[derive(Drop)]
pub struct LookedAt<'a> {
    pub front: FrontRead<'a>,
    pub blocks: &'a [u8],
    pub rest: &'a [u8],
}

/// The file that some bytes begin with: it is of this query, and its groups are in order. `None` if they begin with no file of this
/// query: it may be that more bytes have to come. An error stays one whatever bytes come. Time is that of a look at each byte and each
/// group; memory is that of the file's foot and cover.
pub fn look_first<'a>(
    alloc: Global,
    bytes: &'a [u8],
    whole: Whole<'_>,
    range: KeyRange<'_>,
    shape: &Shape<'_>,
) -> Result<Option<LookedAt<'a>>, LoadCause>
    requires { IsShape shape.now }
    ensures looked { IfOk result (λ found. IfSome found (IsLookedAt shape.now (subject_of whole.entry) (keys_of range.entry) bytes.now)) }
    ensures shorter { IfOk result (λ found. IfSome found (λ at. length at.rest.now < length bytes.now)) }

    // When an error comes.
    ensures refused { (m : GroupsByKey) (more : List ℕ) → IfErr result (IsNoPart shape.now (subject_of whole.entry) (keys_of range.entry) m (bytes.now ++ more)) }
{
    let Ok(front) = read_alike(alloc, bytes, whole, range) else {
        return Ok(None);
    };
    let Ok(body) = read_groups(alloc, &front, shape) else {
        return Ok(None);
    };
    match check_groups(alloc, body.blocks, &front, shape) {
        Ok(()) => Ok(Some(LookedAt {
            front,
            blocks: body.blocks,
            rest: body.rest,
        })),
        Err(why) => Err(LoadCause::File { why }),
    }
}
