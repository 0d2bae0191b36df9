//! A group's key: its encoded columns, at most 248 bytes, in an array, so that a key takes no allocation. Only the
//! bytes before `len` are the key's; those past it are left over from before, and no call reads them.

ghost use Rattle.std.specs.Prelude.{◌≡◌, ◌≤◌, ◌+◌, ◌++◌, ◌↔◌, [], IsSome, IfSome, IsTrue, length};
ghost use Rattle.std.specs.Bool.{OnTrue};
ghost use Rattle.par_model.specs.Key.{encoded_field};
ghost use Rattle.par_model.specs.declared.refusal.TheConstants.{LONGEST_KEY};

use par_model::LONGEST_KEY;
use std::cmp::Ordering;
use std::marker::Model;

/// An encoded key. Keys compare byte by byte.
#[derive(Debug, Drop)]
pub struct GroupKey {
    bytes: [u8; LONGEST_KEY],
    len: u32,
}

impl Model for GroupKey {
    ghost use Rattle.std.specs.Prelude.{List, ℕ, ◌≤◌, take};

    ghost Value = { List ℕ };

    ghost view = { λ k. take k.len k.bytes };

    ghost use Rattle.par_model.specs.declared.refusal.TheConstants.{LONGEST_KEY};

    ghost invariant = { λ k. k.len ≤ LONGEST_KEY };
}

impl GroupKey {
    /// The key of these bytes, copied, if they are at most 248.
    pub fn of(bytes: &[u8]) -> Option<GroupKey>
        ensures fits { IsSome result ↔ (length bytes.now ≤ LONGEST_KEY) }
        ensures key { IfSome result (λ key. key ≡ bytes.now) }
    {
        let mut key = GroupKey::none();
        if key.push(bytes) { Some(key) } else { None }
    }

    /// The key's bytes.
    pub fn bytes(&self) -> &[u8]
        ensures bytes { result.now ≡ self.now }
        ensures fits { length self.now ≤ LONGEST_KEY }
    {
        &self.bytes[..self.len as usize]
    }

    /// The key of no columns.
    pub(crate) fn none() -> GroupKey
        ensures { result ≡ [] }
    {
        GroupKey {
            bytes: [0; LONGEST_KEY],
            len: 0,
        }
    }

    /// The key of these bytes, which are not too many.
    pub(crate) fn copy_of(bytes: &[u8]) -> GroupKey
        requires { length bytes.now ≤ LONGEST_KEY }
        ensures { result ≡ bytes.now }
    {
        let mut key = GroupKey::none();
        let _fits = key.push(bytes);
        key
    }

    /// Makes it the key of no bytes.
    pub(crate) fn clear(&mut self)
        ensures { self.new ≡ [] }
    {
        self.len = 0;
    }

    /// Adds bytes after those that are there, if they all fit.
    pub(crate) fn push(&mut self, more: &[u8]) -> bool
        ensures fits { IsTrue result ↔ (length self.old + length more.now ≤ LONGEST_KEY) }
        ensures pushed { OnTrue result (self.new ≡ self.old ++ more.now) }
    {
        let start = self.len as usize;
        if more.len() > LONGEST_KEY - start {
            return false;
        }
        let end = start + more.len();
        self.bytes[start..end].copy_from_slice(more);
        self.len = end as u32;
        true
    }

    /// Adds a column's field, after its length, if both fit.
    pub(crate) fn push_field(&mut self, field: &[u8]) -> bool
        ensures fits { IsTrue result ↔ (length self.old + (4 + length field.now) ≤ LONGEST_KEY) }
        ensures pushed { OnTrue result (self.new ≡ self.old ++ encoded_field field.now) }
    {
        if field.len() > LONGEST_KEY {
            return false;
        }
        self.push(&(field.len() as u32).to_le_bytes()) && self.push(field)
    }
}

impl PartialEq for GroupKey {
    ghost use Rattle.std.specs.Prelude.{◌==◌};
    ghost use Rattle.std.specs.Cmp.{partial_equiv_from_equiv};
    ghost use Rattle.std.specs.Cmp.Lexicographic.{pointwise, nat_list_eq_equiv};

    ghost eq = { pointwise ◌==◌ };

    ghost laws = { partial_equiv_from_equiv nat_list_eq_equiv };

    fn eq(&self, other: &GroupKey) -> bool {
        self.bytes() == other.bytes()
    }
}

impl Eq for GroupKey {
    ghost use Rattle.std.specs.Cmp.Lexicographic.{nat_list_eq_equiv};

    ghost laws = { nat_list_eq_equiv };
}

impl PartialOrd for GroupKey {
    ghost use Rattle.std.specs.Cmp.Lexicographic.{slice_cmp, texts_po};
    ghost use Rattle.std.specs.Ordering.{nat_cmp, as_partial_cmp};

    ghost partial_cmp = { as_partial_cmp (slice_cmp nat_cmp) };

    ghost laws = { texts_po };

    fn partial_cmp(&self, other: &GroupKey) -> Option<Ordering> {
        Some(self.cmp(other))
    }
}

impl Ord for GroupKey {
    ghost use Rattle.std.specs.Prelude.{refl};
    ghost use Rattle.std.specs.Cmp.Lexicographic.{slice_cmp, nat_list_cmp_total, texts_ties};
    ghost use Rattle.std.specs.Ordering.{nat_cmp};

    ghost cmp = { slice_cmp nat_cmp };

    ghost total = { nat_list_cmp_total };

    ghost matches_partial_cmp = { λ x y. refl };

    ghost matches_eq = { texts_ties };

    fn cmp(&self, other: &GroupKey) -> Ordering {
        self.bytes().cmp(other.bytes())
    }
}
