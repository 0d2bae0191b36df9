//! The head of a file of states: the words of the plan, the header, the sources, the cover, the range of keys.

ghost use Rattle.std.specs.Prelude.{◌≡◌, ◌++◌, IfOk, IfSome, MatchOption, OnOk};
ghost use Rattle.state_head.specs.Head.{IsHead, Preface, head_bytes, preface_of};

use crate::cover::Stretch;
use crate::list::{push_cover, read_cover};
use crate::whole::{Whole, push_whole, read_whole};
use crate::words::{KeyRange, push_range, read_range};
use std::alloc::{AllocError, Global};

/// What a file says of itself before its groups: what the files of all parts say alike, which bytes it is of, and the range of
/// keys.
#[derive(Drop)]
pub struct Head<'a> {
    pub whole: Whole<'a>,
    pub cover: Vec<Stretch>,
    pub range: KeyRange<'a>,
}

/// Puts a head at the end of some bytes.
#[tactic(auto, unfolding(crate::specs::Head::head_bytes))]
pub fn push_head(out: &mut Vec<u8>, head: &Head<'_>) -> Result<(), AllocError>
    ensures { OnOk result (out.new.items ≡ out.old.items ++ head_bytes (preface_of head.now)) }
{
    push_whole(out, head.whole)?;
    push_cover(out, head.cover.as_slice())?;
    push_range(out, head.range)
}

/// The head that these bytes are, if they are one and nothing else. It takes memory for the cover, and lends the rest.
pub fn read_head<'a>(alloc: Global, bytes: &'a [u8]) -> Result<Option<Head<'a>>, AllocError>
    ensures read { IfOk result (λ found. IfSome found (λ head. (bytes.now ≡ head_bytes (preface_of head)) × IsHead (preface_of head))) }
    ensures written { (preface : Preface) → IsHead preface → bytes.now ≡ head_bytes preface → IfOk result (λ found. MatchOption found ⊥ (λ head. preface_of head ≡ preface)) }
{
    let Some((whole, after)) = read_whole(bytes) else {
        return Ok(None);
    };
    let Some((cover, after)) = read_cover(alloc, after, whole.sources)? else {
        return Ok(None);
    };
    match read_range(after) {
        Some((range, rest)) => {
            if rest.is_empty() {
                Ok(Some(Head {
                    whole,
                    cover,
                    range,
                }))
            } else {
                Ok(None)
            }
        }
        None => Ok(None),
    }
}
