//! The files of an input, one after another: each says itself where it ends.
//!
//! All have to say the same plan, header, number of sources and range.

ghost use Rattle.std.specs.Prelude.{◌≡◌, ◌<◌, ◌++◌, ℕ, List, IfErr, IfOk, MatchResult, length};
ghost use Rattle.partial_agg.specs.Groups.{GroupsByKey};
ghost use Rattle.state_front.specs.Front.{IsFront, front_bytes};
ghost use Rattle.state_front.specs.declared.title.FrontFault.TheVariants as fault;
ghost use Rattle.state_head.specs.Head.{Preface, preface_of, subject_of};
ghost use Rattle.state_head.specs.Words.{keys_of};
ghost use Rattle.state_head.specs.declared.cover.Stretch.{Stretch};
ghost use Rattle.state_load.specs.Faults.{AreNoParts, IsNoAlike, IsNoPart};
ghost use Rattle.state_load.specs.Loading.{AreAdded, AreParts, IsAlikeFront, IsPart, files_bytes, stretches_of, sum_of};
ghost use Rattle.state_load.specs.declared.loading.LoadCause.TheVariants as cause;
ghost use Rattle.state_whole.specs.Adding.{IsShape, sum_with};
ghost use Rattle.state_whole.specs.Files.{StateFile, file_bytes, tuples_in};
ghost use Rattle.state_whole.specs.Sums.{AreSummed};

use state_front::{FrontFault, FrontRead, read_front};
use state_head::{KeyRange, Whole};
use state_whole::{FileFault, OtherFile, Shape, Sum, check_range, check_whole};
use std::alloc::Global;

/// Why bytes do not go on with a file of the same query: they begin with no front of a file; it says another plan, header,
/// number of sources or range; it is not added, as `why` says.
#[derive(Clone, Copy, Debug, PartialEq, Eq)]
pub enum LoadCause {
    Front { why: FrontFault },
    Other { why: OtherFile },
    File { why: FileFault },
}

/// Why an input is not taken: the file of this number in it, counting from 1.
#[derive(Clone, Copy, Debug, PartialEq, Eq)]
pub struct LoadFault {
    pub file: u64,
    pub why: LoadCause,
}

/// Adds the files that some bytes are, one after another, to a sum, and says how many they are. Each has to say
/// this plan, header, number of sources and range. Time is that of the bytes and a look-up for each group; memory is
/// that of the groups that the sum keeps, of a file's foot, and of the covers.
/// After an error a sum can only be dropped.
pub fn add_files(
    alloc: Global,
    sum: &mut Sum<'_>,
    bytes: &[u8],
    whole: Whole<'_>,
    range: KeyRange<'_>,
    shape: &Shape<'_>,
) -> Result<u64, LoadFault>
    requires { IsShape shape.now }
    ensures added { (m : GroupsByKey) (cover : List Stretch) → AreSummed m cover sum.old → IfOk result (AreAdded shape.now (subject_of whole.entry) (keys_of range.entry) bytes.now m cover sum.new) }
    ensures written { (m : GroupsByKey) (cover : List Stretch) (files : List StateFile) → AreSummed m cover sum.old → AreParts shape.now (subject_of whole.entry) (keys_of range.entry) files → bytes.now ≡ files_bytes shape.now files
        → IfOk result (λ n. (n ≡ length files) × AreSummed (sum_of shape.now m files) (cover ++ stretches_of files) sum.new) }
    ensures kept { sum.new.kept ≡ sum.old.kept }

    // When each error comes.
    ensures refused { (m : GroupsByKey) (cover : List Stretch) → AreSummed m cover sum.old → IfErr result (AreNoParts shape.now (subject_of whole.entry) (keys_of range.entry) m bytes.now) }
{
    let mut rest = bytes;
    for at in 0..bytes.len() {
        if rest.is_empty() {
            return Ok(at as u64);
        }
        match add_next(alloc, sum, rest, whole, range, shape) {
            Ok(after) => rest = after,
            Err(why) => {
                let file = at as u64 + 1;
                return Err(LoadFault { file, why });
            }
        }
    }
    Ok(bytes.len() as u64)
}

/// Adds the file that some bytes begin with. The bytes after it.
fn add_next<'a>(
    alloc: Global,
    sum: &mut Sum<'_>,
    bytes: &'a [u8],
    whole: Whole<'_>,
    range: KeyRange<'_>,
    shape: &Shape<'_>,
) -> Result<&'a [u8], LoadCause>
    requires { IsShape shape.now }
    ensures added { (m : GroupsByKey) (cover : List Stretch) → AreSummed m cover sum.old
        → IfOk result (λ rest. (f : StateFile) × IsPart shape.now (subject_of whole.entry) (keys_of range.entry) f × (bytes.now ≡ file_bytes shape.now.kinds.now f ++ rest.now)
        × AreSummed (sum_with shape.now m (tuples_in f)) (cover ++ f.preface.cover) sum.new) }
    ensures written { (m : GroupsByKey) (cover : List Stretch) (f : StateFile) (rest : List ℕ) → AreSummed m cover sum.old → IsPart shape.now (subject_of whole.entry) (keys_of range.entry) f → bytes.now ≡ file_bytes shape.now.kinds.now f ++ rest
        → IfOk result (λ left. (left.now ≡ rest) × AreSummed (sum_with shape.now m (tuples_in f)) (cover ++ f.preface.cover) sum.new) }
    ensures shorter { IfOk result (λ rest. length rest.now < length bytes.now) }
    ensures kept { sum.new.kept ≡ sum.old.kept }
    ensures refused { (m : GroupsByKey) (cover : List Stretch) → AreSummed m cover sum.old → IfErr result (IsNoPart shape.now (subject_of whole.entry) (keys_of range.entry) m bytes.now) }
{
    let front = read_alike(alloc, bytes, whole, range)?;
    match sum.add_file(alloc, &front, shape) {
        Ok(rest) => Ok(rest),
        Err(why) => Err(LoadCause::File { why }),
    }
}

/// The front that some bytes begin with, if it says this plan, header, number of sources and range.
pub(crate) fn read_alike<'a>(
    alloc: Global,
    bytes: &'a [u8],
    whole: Whole<'_>,
    range: KeyRange<'_>,
) -> Result<FrontRead<'a>, LoadCause>
    ensures read { IfOk result (IsAlikeFront (subject_of whole.entry) (keys_of range.entry) bytes.now) }
    ensures written { (p : Preface) (rest : List ℕ) → IsFront p → p.subject ≡ subject_of whole.entry → p.keys ≡ keys_of range.entry → bytes.now ≡ front_bytes p ++ rest
        → MatchResult result (λ found. (preface_of found.head ≡ p) × (found.rest.now ≡ rest)) (λ why. why ≡ cause.Front fault.Memory) }
    ensures refused { IfErr result (IsNoAlike (subject_of whole.entry) (keys_of range.entry) bytes.now) }
{
    let front = match read_front(alloc, bytes) {
        Ok(front) => front,
        Err(why) => return Err(LoadCause::Front { why }),
    };
    match check_whole(whole, front.head.whole) {
        Ok(()) => {}
        Err(why) => return Err(LoadCause::Other { why }),
    }
    match check_range(range, front.head.range) {
        Ok(()) => Ok(front),
        Err(why) => Err(LoadCause::Other { why }),
    }
}
