//! A record as what is under a key of the table.

ghost use Rattle.std.specs.Prelude.{◌≡◌};

use dshash_core::CellObject;

/// The most words of a value.
pub const RECORD_WORDS: usize = 16;

/// A value of up to 16 words under a key, as a struct of C's. `count` says how many of the words are meant; no call looks
/// at it: all 17 words are kept and given back as they were brought.
#[repr(C)]
#[derive(Clone, Copy)]
pub struct Record {
    pub count: u64,
    pub words: [u64; RECORD_WORDS],
}

/// What is asked of the record under a key. The reply is the record that was there, if any.
#[derive(Clone, Copy)]
pub enum RecordCall {
    /// This record is put there.
    Put(Record),
    /// If nothing is there, this record is put there.
    PutAbsent(Record),
    /// Nothing changes.
    Get,
    /// The key goes.
    Delete,
}

impl CellObject for Record {
    ghost use Rattle.std.specs.Prelude.{◌≡◌, ℕ, List, Option, ◌∷◌, drop, length, slice_index, refl};
    ghost use Rattle.c_records.specs.Values.{stepped};
    ghost use Rattle.c_records.specs.declared.value.Record.{Record};

    const VALUE_WORDS: usize = 17;

    type State = Record;

    type Call = RecordCall;

    type Reply = Option<Record>;

    ghost VALUE_WORDS = { 17 };

    ghost stepped = { stepped };

    ghost is_value = { λ r. length r.words ≡ 16 };

    ghost encoded = { λ r. r.count ∷ r.words };

    ghost decoded = { λ words. record { count = slice_index words 0; words = drop 1 words } };

    ghost reads_back = { λ r h. refl };

    fn step(state: Option<&Record>, call: &RecordCall) -> (Option<Record>, Option<Record>) {
        let before = state.copied();
        let after = match call {
            RecordCall::Put(record) => Some(*record),
            RecordCall::PutAbsent(record) => Some(before.unwrap_or(*record)),
            RecordCall::Get => before,
            RecordCall::Delete => None,
        };
        (after, before)
    }

    fn reads(call: &RecordCall) -> bool {
        match call {
            RecordCall::Get => true,
            RecordCall::Put(_) | RecordCall::PutAbsent(_) | RecordCall::Delete => false,
        }
    }

    fn encode(state: &Record, out: &mut [u64]) {
        let (count, words) = out.split_at_mut(1);
        count[0] = state.count;
        words.copy_from_slice(&state.words);
    }

    fn decode(words: &[u64]) -> Record {
        let mut read = Record {
            count: words[0],
            words: [0; RECORD_WORDS],
        };
        read.words.copy_from_slice(&words[1..]);
        read
    }
}
