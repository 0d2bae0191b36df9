//! A text as what is under a key of the table.

ghost use Rattle.std.specs.Prelude.{◌≡◌, ◌<◌, ◌↔◌, length, IsNone, IfSome};
ghost use Rattle.dshash_core.specs.Key.{packed_key};

use dshash_core::{CellObject, pack_key};

/// The words of a packed text.
pub const TEXT_WORDS: usize = 32;

/// A text of up to 248 bytes, packed into words.
#[derive(Clone, Copy, PartialEq, Eq)]
pub struct Text {
    pub(crate) words: [u64; TEXT_WORDS],
}

impl Text {
    ghost use Rattle.uses_table.specs.Texts.{words_of};

    /// The text of these bytes, if there are at most 248.
    pub fn of(bytes: &[u8]) -> Option<Text>
        ensures long { IsNone result ↔ (248 < length bytes.now) }
        ensures words { IfSome result (λ text. words_of text ≡ packed_key bytes.now) }
    {
        match pack_key(bytes) {
            Some(words) => Some(Text { words }),
            None => None,
        }
    }
}

/// What is asked of the text under a name. The reply is the text that was there. Every caller may get it; only the
/// caller that owns the name may set or remove it.
#[derive(Clone, Copy)]
pub enum TextCall {
    Get,
    Set(Text),
    Remove,
}

impl CellObject for Text {
    ghost use Rattle.std.specs.Prelude.{◌≡◌, List, ℕ, Option, Some, None, length, refl};
    ghost use Rattle.uses_table.specs.declared.text.Text.{Text};
    ghost use Rattle.uses_table.specs.Texts.{may, stepped};

    const VALUE_WORDS: usize = TEXT_WORDS;

    type State = Text;

    type Call = TextCall;

    type Reply = Option<Text>;

    ghost VALUE_WORDS = { 32 };

    ghost stepped = { stepped };

    ghost may = { may };

    ghost is_value = { λ text. length text.words ≡ 32 };

    ghost encoded = { λ text. text.words };

    ghost decoded = { λ words. record { words = words } };

    ghost reads_back = { λ text h. refl };

    fn step(state: Option<&Text>, call: &TextCall) -> (Option<Text>, Option<Text>) {
        let next = match call {
            TextCall::Get => state.copied(),
            TextCall::Set(text) => Some(*text),
            TextCall::Remove => None,
        };
        (next, state.copied())
    }

    fn reads(call: &TextCall) -> bool {
        match call {
            TextCall::Get => true,
            TextCall::Set(_) | TextCall::Remove => false,
        }
    }

    fn encode(state: &Text, out: &mut [u64]) {
        out.copy_from_slice(&state.words);
    }

    fn decode(words: &[u64]) -> Text {
        let mut text = Text {
            words: [0; TEXT_WORDS],
        };
        text.words.copy_from_slice(words);
        text
    }
}
