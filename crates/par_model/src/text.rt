//! A short text, in an array: what a filter compares a field with.

ghost use Rattle.std.specs.Prelude.{◌≡◌, ◌≤◌, ◌↔◌, IfSome, IsSome, length};

use std::marker::Model;

/// The most bytes of such a text.
pub const LONGEST_TEXT: usize = 248;

/// A text of at most [`LONGEST_TEXT`] bytes. Those past `len` are none of it.
#[derive(Clone, Copy, Debug)]
pub struct Text {
    bytes: [u8; LONGEST_TEXT],
    len: u32,
}

impl Model for Text {
    ghost use Rattle.std.specs.Prelude.{◌≡◌, ◌≤◌, ◌-◌, ◌++◌, List, ℕ, drop, length, replicate, take};
    ghost use Rattle.std.proofs.Common.{ap, sym, ◌∙◌, arith, length-take-le, take-append-drop};
    ghost use Rattle.par_model.specs.declared.text.TheConstants.{LONGEST_TEXT};

    ghost Value = { List ℕ };

    ghost view = { λ t. take t.len t.bytes };

    ghost invariant = { λ t. (t.len ≤ LONGEST_TEXT) × (length t.bytes ≡ LONGEST_TEXT) × (drop t.len t.bytes ≡ replicate (LONGEST_TEXT - t.len) 0) };

    ghost inverse = { λ v. record { bytes = v ++ replicate (LONGEST_TEXT - length v) 0; len = length v } };

    ghost inverse_ok = { λ t h i. record {
      bytes = (ap (λ n. take t.len t.bytes ++ replicate (LONGEST_TEXT - n) 0) (length-take-le t.len t.bytes (omega (arith, h.0, h.1)))
          ∙ ap (λ rest. take t.len t.bytes ++ rest) (sym h.2) ∙ take-append-drop t.len t.bytes) i;
      len = length-take-le t.len t.bytes (omega (arith, h.0, h.1)) i;
    } };
}

impl Text {
    /// The text of these bytes, copied, if they are not too many.
    pub fn of(bytes: &[u8]) -> Option<Text>
        ensures fits { IsSome result ↔ (length bytes.now ≤ LONGEST_TEXT) }
        ensures text { IfSome result (λ text. text ≡ bytes.now) }
    {
        if bytes.len() > LONGEST_TEXT {
            return None;
        }
        let mut whole = [0; LONGEST_TEXT];
        whole[..bytes.len()].copy_from_slice(bytes);
        Some(Text {
            bytes: whole,
            len: bytes.len() as u32,
        })
    }

    /// Its bytes.
    pub fn bytes(&self) -> &[u8]
        ensures bytes { result.now ≡ self.now }
        ensures fits { length result.now ≤ LONGEST_TEXT }
    {
        &self.bytes[..self.len as usize]
    }
}
