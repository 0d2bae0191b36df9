//! Whether the files of all parts are those of all bytes, each once; and the first refused row of all.
//!
//! Stretches that touch become one, in which the rows before are added to the number of a refused one. So in a cover of all bytes
//! each source is one stretch, and a refused row has the number that it has in a reading of that source from its first row on.

ghost use Rattle.std.specs.Prelude.{◌≤◌, ℕ, All, IfErr, IfNone, IfOk, IfSome};
ghost use Rattle.std.specs.List.Sorted.{IsPermutation};
ghost use Rattle.state_cover.specs.Bytes.{had};
ghost use Rattle.state_cover.specs.Joined.{IsJoinOf};
ghost use Rattle.state_head.specs.Cover.{IsStretch};
ghost use Rattle.state_total.specs.Total.{IsCounted, IsFirstRefused, IsNoTotal, IsWholeCover};

use state_cover::{CoverFault, Missing, join_cover, missing_bytes};
use state_head::{RefusedRow, Rows, Stretch};
use std::alloc::Global;

/// Why the stretches of all files are not all bytes, each once: they are no cover, as `why` says; or bytes are missing.
#[derive(Clone, Copy, Debug, PartialEq, Eq)]
pub enum TotalFault {
    Cover { why: CoverFault },
    Missing { gap: Missing },
}

/// A refused row, and the source that has it.
#[derive(Clone, Copy, Debug, PartialEq, Eq)]
pub struct FirstRefused {
    pub source: u32,
    pub why: RefusedRow,
}

/// The cover of all of some stretches, in any order, if they have each byte of this many sources once. It sorts them; if they have,
/// there is one stretch for each source.
pub fn whole_cover(
    alloc: Global,
    stretches: &mut Vec<Stretch>,
    sources: u32,
) -> Result<Vec<Stretch>, TotalFault>
    requires { All (IsStretch sources) stretches.old.items }
    ensures same { IsPermutation stretches.old.items stretches.new.items }
    ensures whole { IfOk result (λ cover. IsWholeCover sources stretches.old.items cover.items) }
    ensures joins { IfOk result (λ cover. IsJoinOf cover.items stretches.new.items) }
    ensures once { IfOk result (λ cover. (source at : ℕ) → had source at stretches.old.items ≤ 1) }

    // When each error comes.
    ensures refused { IfErr result (IsNoTotal sources stretches.old.items) }
{
    let cover = match join_cover(alloc, stretches, sources) {
        Ok(cover) => cover,
        Err(why) => return Err(TotalFault::Cover { why }),
    };
    match missing_bytes(cover.as_slice(), sources) {
        Some(gap) => Err(TotalFault::Missing { gap }),
        None => Ok(cover),
    }
}

/// The first refused row of a cover: that of the first source that has one. It costs one step for each stretch before it.
pub fn first_refused(cover: &[Stretch]) -> Option<FirstRefused>
    ensures first { IfSome result (IsFirstRefused cover.now) }
    ensures none { IfNone result (All IsCounted cover.now) }
{
    for at in 0..cover.len() {
        let stretch = cover[at];
        match stretch.rows {
            Rows::Counted(_) => {}
            Rows::Refused(why) => {
                let source = stretch.place.source;
                return Some(FirstRefused { source, why });
            }
        }
    }
    None
}
