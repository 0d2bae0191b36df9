//! Why there is no file: its status and its line.

ghost use Rattle.std.specs.Prelude.{◌≡◌, ◌==◌, bytes_eq, codes, string_bytes};
ghost use Rattle.std.specs.List.{before_first, list_any};
ghost use Rattle.answer_text.specs.Lines.{IsSaid};
ghost use Rattle.answer_text.specs.Words.{texts};
ghost use Rattle.state_partial.specs.NoPart.{no_part_says, no_words, part_of_tile};
ghost use Rattle.state_partial.specs.Untaken.{has_option, option_of, untaken_text};
ghost use Rattle.stream_groups.specs.Lines.{line};

use answer_text::{MISUSED, READ_FAULT, TOO_LARGE, write_pieces};
use par_io::Sink;
use stream_groups::{LONG_RECORD, Stop};
use tile_source::NoTile;

/// A file was written.
pub const WRITTEN: u8 = 0;

/// How the form is called.
const USAGE: &str =
    "usage: parstream partial [--source I/N] [--bytes FROM[-TO] --size SIZE] [--group COLUMNS] --agg ITEMS .. < PART > STATES";

/// An option of `parstream` that `partial` does not take.
#[derive(Clone, Copy, Debug, PartialEq, Eq)]
pub enum Untaken {
    NoHeader,
    SkipBad,
}

impl Untaken {
    /// What is said of it.
    fn text(self) -> &'static str
        ensures { result.now ≡ untaken_text self }
    {
        match self {
            Untaken::NoHeader => {
                "partial takes no --no-header: the parts of a table need its header"
            }
            Untaken::SkipBad => {
                "partial takes no --skip-bad: a file of states leaves out no rows"
            }
        }
    }
}

/// Why there is no file: the words ask for none, maybe by an option that is not taken; it is too long for a file of partial states; the bytes
/// of a tile do not come after a line that is the header, or that is too long; the source has fewer bytes than it is said to have, or more; or
/// as for a table, but for a refused row.
#[derive(Debug, Drop)]
pub enum NoPart {
    Usage,
    Untaken(Untaken),
    Long,
    NoLine,
    LongHeader,
    Short,
    Grown,
    Stopped(Stop),
}

impl NoPart {
    /// The reason for words that ask for no part.
    pub(crate) fn of_words(words: &[String]) -> NoPart
        ensures { result ≡ no_words (texts words.now) }
    {
        if has_option(words, "--no-header") {
            NoPart::Untaken(Untaken::NoHeader)
        } else if has_option(words, "--skip-bad") {
            NoPart::Untaken(Untaken::SkipBad)
        } else {
            NoPart::Usage
        }
    }

    /// The reason for a tile that there is not.
    pub(crate) fn of_tile(why: NoTile) -> NoPart
        ensures { result ≡ part_of_tile why }
    {
        match why {
            NoTile::ReadFault => NoPart::Stopped(Stop::ReadFault),
            NoTile::NoHeader => NoPart::NoLine,
            NoTile::LongHeader => NoPart::LongHeader,
            NoTile::Short => NoPart::Short,
            NoTile::Memory => NoPart::Stopped(Stop::Memory),
        }
    }

    /// Writes the line, and gives the status.
    pub(crate) fn end<E: Sink>(&self, err: &mut E) -> u8
        ensures said { IsSaid (E.taken err.old) (E.taken err.new) (E.faults err.old) (E.faults err.new) (line (no_part_says self.now).1) }
        ensures status { result ≡ (no_part_says self.now).0 }
    {
        match self {
            NoPart::Usage => say(err, MISUSED, USAGE),
            NoPart::Untaken(option) => say(err, MISUSED, option.text()),
            NoPart::Long => say(err, TOO_LARGE, "too long for a file of states"),
            NoPart::NoLine => say(
                err,
                MISUSED,
                "the bytes do not come after a line that is the header",
            ),
            NoPart::LongHeader => say(err, LONG_RECORD, "the header is longer than 67108864 bytes"),
            NoPart::Short => say(err, READ_FAULT, "the source ends before its size"),
            NoPart::Grown => say(err, READ_FAULT, "the source has more bytes than its size"),
            NoPart::Stopped(stop) => stop.end(err),
        }
    }
}

/// Writes a line, and gives the status that comes with it.
fn say<E: Sink>(err: &mut E, status: u8, text: &str) -> u8
    ensures said { IsSaid (E.taken err.old) (E.taken err.new) (E.faults err.old) (E.faults err.new) (line text.now) }
    ensures status { result ≡ status }
{
    let _ = write_pieces(err, &["parstream: ", text, "\n"]);
    status
}

/// Whether one of the words is this option, with a value or without.
#[tactic(auto, using(crate::proofs::Options::any_option))]
fn has_option(words: &[String], name: &str) -> bool
    ensures { result ≡ has_option name.now (texts words.now) }
{
    is_among(words, name)
}

fn is_among(words: &[String], name: &str) -> bool
    ensures { result ≡ list_any (λ word. bytes_eq (option_of (string_bytes word)) name.now) words.now }
{
    words.iter().any(|word| option_of(word.as_str()) == name)
}

/// A word up to its first equals sign.
fn option_of(word: &str) -> &str
    ensures { result.now ≡ option_of word.now }
{
    match word.split_once('=') {
        Some((option, _)) => option,
        None => word,
    }
}
