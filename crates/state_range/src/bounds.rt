//! The end of a range, from a word of the command line: a record of the columns to group by, as a line of the table begins.

ghost use Rattle.std.specs.Prelude.{◌≡◌, ◌<◌, ◌++◌, All, Err, IfErr, IfOk, OnOk, length};
ghost use Rattle.csv_rows.specs.Records.{record_at};
ghost use Rattle.par_model.specs.Key.{encoded, encoded_field};
ghost use Rattle.state_range.specs.Ranges.{IsBoundOf, IsNoBound, IsShort};
ghost use Rattle.state_range.specs.declared.bounds.BoundFault.TheVariants as fault;

use csv_rows::{RowStore, RowsAnswer, rows};
use std::alloc::{AllocError, Global};

/// A field of a key is shorter than this: its length has 4 bytes.
const MOST_FIELD: usize = 1 << 32;

/// Why a word is no end of a range: memory ran out, or it is no record of this many fields.
#[derive(Clone, Copy, Debug, PartialEq, Eq)]
pub enum BoundFault {
    Memory,
    NoKey,
}

impl From<AllocError> for BoundFault {
    ghost from_gives = { λ _ e. e ≡ fault.Memory };

    fn from(_error: AllocError) -> BoundFault {
        BoundFault::Memory
    }
}

/// The encoded key that a word names, if it is a record of this many fields.
pub fn bound_key(alloc: Global, word: &[u8], columns: u32) -> Result<Vec<u8>, BoundFault>
    ensures key { IfOk result (λ key. IsBoundOf columns word.now key.items) }

    // When each error comes.
    ensures refused { IfErr result (IsNoBound columns word.now) }
{
    let store = match rows(alloc, word) {
        Ok(store) => store,
        Err(RowsAnswer::Memory) => return Err(BoundFault::Memory),
        Err(RowsAnswer::NoHeader | RowsAnswer::TooManyRows) => return Err(BoundFault::NoKey),
    };
    if store.count() > 0 || store.width(0) != columns {
        return Err(BoundFault::NoKey);
    }
    let mut key = Vec::new(alloc);
    push_fields(&mut key, &store, columns)?;
    Ok(key)
}

/// Puts the encoding of the first fields of a record, this many, at the end of some bytes, if each is shorter than 2^32 bytes.
fn push_fields(key: &mut Vec<u8>, store: &RowStore, columns: u32) -> Result<(), BoundFault>
    requires some { 0 < length store.now }
    requires all { length (record_at store.now 0) ≡ columns }
    ensures put { OnOk result (key.new.items ≡ key.old.items ++ encoded (record_at store.now 0)) }
    ensures short { OnOk result (All IsShort (record_at store.now 0)) }
    ensures refused { result ≡ Err fault.NoKey → All IsShort (record_at store.now 0) → ⊥ }
{
    for at in 0..columns {
        push_field(key, store.field(0, at))?;
    }
    Ok(())
}

/// Puts a field after its length at the end of some bytes, if it is shorter than 2^32 bytes.
fn push_field(key: &mut Vec<u8>, field: &[u8]) -> Result<(), BoundFault>
    ensures put { OnOk result (key.new.items ≡ key.old.items ++ encoded_field field.now) }
    ensures short { OnOk result (IsShort field.now) }
    ensures refused { result ≡ Err fault.NoKey → IsShort field.now → ⊥ }
{
    if field.len() >= MOST_FIELD {
        return Err(BoundFault::NoKey);
    }
    key.extend_from_slice(&(field.len() as u32).to_le_bytes())?;
    key.extend_from_slice(field)?;
    Ok(())
}
