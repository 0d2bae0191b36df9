//! The file that some bytes begin with, before it is known what comes after them: so files can be added as they come.

ghost use Rattle.std.specs.Prelude.{◌≡◌, ◌<◌, ◌++◌, List, ℕ, IfErr, IfOk, IfSome, None, length};
ghost use Rattle.partial_agg.specs.Groups.{GroupsByKey};
ghost use Rattle.state_head.specs.Head.{subject_of};
ghost use Rattle.state_head.specs.Words.{keys_of};
ghost use Rattle.state_head.specs.declared.cover.Stretch.{Stretch};
ghost use Rattle.state_load.specs.Faults.{IsNoPart};
ghost use Rattle.state_load.specs.Loading.{IsPart};
ghost use Rattle.state_whole.specs.Adding.{IsShape, sum_with};
ghost use Rattle.state_whole.specs.Files.{StateFile, file_bytes, tuples_in};
ghost use Rattle.state_whole.specs.Sums.{AreSummed};

use crate::loading::{LoadCause, read_alike};
use state_head::{KeyRange, Whole};
use state_whole::{Shape, Sum, read_groups};
use std::alloc::Global;

/// Adds the file that some bytes begin with, and gives the bytes after it. `None` if they begin with no file of this query: it may be that
/// more bytes have to come, and the sum is as it was. An error stays one whatever bytes come. After it a sum can only be dropped.
pub fn add_first<'a>(
    alloc: Global,
    sum: &mut Sum<'_>,
    bytes: &'a [u8],
    whole: Whole<'_>,
    range: KeyRange<'_>,
    shape: &Shape<'_>,
) -> Result<Option<&'a [u8]>, LoadCause>
    requires { IsShape shape.now }
    ensures added { (m : GroupsByKey) (cover : List Stretch) → AreSummed m cover sum.old
        → IfOk result (λ found. IfSome found (λ rest. (f : StateFile) × IsPart shape.now (subject_of whole.entry) (keys_of range.entry) f × (bytes.now ≡ file_bytes shape.now.kinds.now f ++ rest.now)
        × AreSummed (sum_with shape.now m (tuples_in f)) (cover ++ f.preface.cover) sum.new)) }
    ensures none { IfOk result (λ found. found ≡ None → sum.new ≡ sum.old) }
    ensures shorter { IfOk result (λ found. IfSome found (λ rest. length rest.now < length bytes.now)) }
    ensures kept { sum.new.kept ≡ sum.old.kept }

    // When an error comes.
    ensures refused { (m : GroupsByKey) (cover : List Stretch) (more : List ℕ) → AreSummed m cover sum.old → IfErr result (IsNoPart shape.now (subject_of whole.entry) (keys_of range.entry) m (bytes.now ++ more)) }
{
    let Ok(front) = read_alike(alloc, bytes, whole, range) else {
        return Ok(None);
    };
    let Ok(body) = read_groups(alloc, &front, shape) else {
        return Ok(None);
    };
    match sum.add_groups(body.blocks, &front, shape) {
        Ok(()) => Ok(Some(body.rest)),
        Err(why) => Err(LoadCause::File { why }),
    }
}
