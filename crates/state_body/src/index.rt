//! What is known of the blocks so far: how many they and their groups are, and where each begins. The foot says it.

ghost use Rattle.std.specs.Prelude.{◌≡◌, ◌<◌, ◌+◌, ◌^◌, ◌++◌, ◌∷◌, [], ℕ, Bool, List, IfOk, OnOk, length};
ghost use Rattle.state_blocks.specs.Blocks.{Group, block_bytes, first_key};
ghost use Rattle.state_body.specs.Body.{IsIndex, foot_bytes};

use state_file::{push_number, push_text};
use std::alloc::{AllocError, Global};

/// How many bytes a section has beside its part.
const SECTION_BYTES: u64 = 8;

/// The blocks so far.
#[derive(Drop)]
pub struct Index {
    /// For each block where it begins, and the key of its first group, as in the foot.
    pub(crate) places: Vec<u8>,
    /// Where the next block begins.
    pub at: u64,
    pub blocks: u64,
    pub groups: u64,
}

impl Index {
    /// No blocks; the first one will begin at this place.
    pub fn new(alloc: Global, at: u64) -> Index
        ensures none { (kinds : List Bool) → IsIndex kinds at [] result }
        ensures at { result.at ≡ at }
    {
        Index {
            places: Vec::new(alloc),
            at,
            blocks: 0,
            groups: 0,
        }
    }

    /// Takes in a block of this many groups and bytes, the first group of which has this key.
    pub fn add(&mut self, first: &[u8], groups: u64, bytes: u64) -> Result<(), AllocError>
        requires at { self.old.at + bytes + 8 < 2 ^ 64 }
        requires blocks { self.old.blocks + 1 < 2 ^ 64 }
        requires groups { self.old.groups + groups < 2 ^ 64 }
        ensures ok { (kinds : List Bool) (start : ℕ) (blocks : List (List Group)) (block : List Group) → IsIndex kinds start blocks self.old → first.now ≡ first_key block → groups ≡ length block
            → bytes ≡ length (block_bytes kinds block) → OnOk result (IsIndex kinds start (blocks ++ block ∷ []) self.new) }
        ensures at { OnOk result (self.new.at ≡ self.old.at + bytes + 8) }
        ensures blocks { OnOk result (self.new.blocks ≡ self.old.blocks + 1) }
        ensures groups { OnOk result (self.new.groups ≡ self.old.groups + groups) }
    {
        push_number(&mut self.places, u128::from(self.at))?;
        push_text(&mut self.places, first)?;
        self.at = self.at + bytes + SECTION_BYTES;
        self.blocks += 1;
        self.groups += groups;
        Ok(())
    }

    /// The foot of these blocks.
    #[tactic(auto, unfolding(crate::specs::Body::foot_bytes))]
    pub fn foot(&self, alloc: Global) -> Result<Vec<u8>, AllocError>
        ensures { (kinds : List Bool) (start : ℕ) (blocks : List (List Group)) → IsIndex kinds start blocks self.now → IfOk result (λ foot. foot.items ≡ foot_bytes kinds start blocks) }
    {
        let mut foot = Vec::new(alloc);
        push_number(&mut foot, u128::from(self.groups))?;
        push_number(&mut foot, u128::from(self.blocks))?;
        foot.extend_from_slice(self.places.as_slice())?;
        Ok(foot)
    }
}
