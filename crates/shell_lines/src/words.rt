//! What a line is made of: words between single spaces, names, and numbers.

ghost use Rattle.std.specs.Prelude.{◌≡◌, ◌==◌, ◌<◌, ◌≤◌, ◌^◌, ℕ, IfSome, IfNone, bytes_eq, length, map, option_map, position, take};
ghost use Rattle.shell_lines.specs.Words.{behind_word, first_word, name_in, number_in, words_of};

/// The byte between two words.
const SPACE: u8 = b' ';

/// The most words that a command has.
const MOST_WORDS: usize = 5;

/// The longest name, in bytes.
const LONGEST_NAME: usize = 64;

/// The most bytes of one request.
pub(crate) const MOST_BYTES: u64 = 1_073_741_824;

/// The most digits of a number.
const MOST_DIGITS: usize = 20;

/// The words of a line, as long as there are not too many for a command.
#[derive(Clone, Copy)]
pub(crate) struct Words<'a> {
    words: [&'a [u8]; MOST_WORDS],
    count: usize,
}

impl<'a> Words<'a> {
    /// Cuts a line at its spaces.
    pub(crate) fn of(line: &'a [u8]) -> Option<Words<'a>>
        ensures words { IfSome result (λ w. map (λ word. word.now) (take w.count w.words) ≡ words_of line.now) }
        ensures count { IfSome result (λ w. w.count ≤ MOST_WORDS) }
        ensures none { IfNone result (MOST_WORDS < length (words_of line.now)) }
    {
        let mut words: [&'a [u8]; MOST_WORDS] = [&[], &[], &[], &[], &[]];
        let mut count = 0;
        let mut left = Some(line);
        'words: while let Some(text) = left {
            if count == MOST_WORDS {
                return None;
            }
            let (word, behind) = cut(text);
            words[count] = word;
            count += 1;
            left = behind;
        }
        Some(Words { words, count })
    }

    /// The words, in order.
    pub(crate) fn as_slice(&self) -> &[&'a [u8]]
        requires { self.now.count ≤ MOST_WORDS }
        ensures { result.now ≡ take self.now.count self.now.words }
    {
        &self.words[..self.count]
    }
}

/// What comes before the first space, and what follows it, if there is one.
pub(crate) fn cut(text: &[u8]) -> (&[u8], Option<&[u8]>)
    ensures first { result.0.now ≡ first_word text.now }
    ensures behind { option_map (λ rest. rest.now) result.1 ≡ behind_word text.now }
{
    match place_of(text, SPACE) {
        Some(at) => (&text[..at], Some(&text[at + 1..])),
        None => (text, None),
    }
}

/// The place of the first such byte.
pub fn place_of(text: &[u8], byte: u8) -> Option<usize>
    ensures { result ≡ position (λ b. b == byte) text.now }
{
    text.iter().position(|b| *b == byte)
}

/// Whether a word is this one.
pub(crate) fn is(word: &[u8], text: &str) -> bool
    ensures { result ≡ bytes_eq word.now text.now }
{
    word == text.as_bytes()
}

/// The word as a name: one to 64 bytes.
pub(crate) fn name(word: &[u8]) -> Option<&[u8]>
    ensures name { option_map (λ name. name.now) result ≡ name_in word.now }
    ensures short { IfSome result (λ name. length name.now ≤ 64) }
{
    (!word.is_empty() && word.len() <= LONGEST_NAME).then_some(word)
}

/// The word as a number: one to twenty digits, with a value from `least` to `most`.
pub fn number(word: &[u8], least: u64, most: u64) -> Option<u64>
    ensures value { result ≡ number_in least most word.now }
    ensures within { IfSome result (λ n. (least ≤ n) × (n ≤ most)) }
{
    if word.is_empty() || word.len() > MOST_DIGITS {
        return None;
    }
    let limit = u128::from(most);
    let mut value: u128 = 0;
    'digits: for digit in word {
        if !digit.is_ascii_digit() {
            return None;
        }
        if value > limit {
            return None;
        }
        let unit = u128::from(*digit - b'0');
        value = value * 10 + unit;
    }
    if value < u128::from(least) || value > limit {
        return None;
    }
    Some(value as u64)
}
