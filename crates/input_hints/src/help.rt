//! What a command line asks to be told about the program: how it is called, or its version.

ghost use Rattle.std.specs.Prelude.{◌≡◌, ◌⊎◌, ℕ, codes, take};
ghost use Rattle.std.specs.Io.KnownBytes.{Appends};
ghost use Rattle.par_io.specs.Faults.{Rose};
ghost use Rattle.answer_text.specs.Lines.{IsSaid};
ghost use Rattle.input_hints.specs.Help.{asked_in, asked_text, asks_help, asks_version, wants_help, wants_version};

use answer_text::{TABLE, WRITE_FAULT, write_pieces};
use par_io::{Sink, write_whole};

/// What `--help` and `-h` are answered.
pub const HELP: &str = "\
usage: parstream [--group COLUMNS] --agg ITEMS [--where FILTER]..
                 [--decimals PLACES] [--separator BYTE] [--null TEXTS] [--trim]
                 [--workers N] [--order COLUMN] [--limit N] [--output FORM]
                 [--skip-bad N] [--no-header]
       parstream partial [--source I/N] [--group COLUMNS] --agg ITEMS ..
       parstream partial --bytes FROM[-TO] --size S [--source I/N] ..
       parstream combine
       parstream finalize [--above RECORD] [--below RECORD]

Reads comma-separated records from the standard input, of which the first is the
header, and writes a table with a row for each group.

With partial the records are those of one of several sources, or of a tile of a
large one, and what they come to is written as a file of partial states. combine
reads such files, one after another, and writes them as one; finalize writes the
table of the rows of all sources, if it reads the states of all of them.

  --group COLUMNS  one to eight names between commas; without it all rows are
                   one group
  --agg ITEMS      one to eight items between commas: count, the number of rows;
                   count:C, that of the fields of column C that are not empty;
                   sum:C, min:C, max:C and avg:C of the numbers of column C
  --where FILTER   only rows for which it holds, and all others if it is given
                   up to eight times: a column, one of = != < <= > >=, and a
                   number; after = and != also a text, and nothing for a null;
                   quote it for the shell, as in 'zip=\"01234\"' for a text
  --decimals PLACES
                   how many digits numbers may have after the point, up to 18:
                   2 for all columns, price=2,weight=3 for some; without it
                   numbers are integers
  --separator BYTE what comes between fields: one character, such as ';', or
                   tab; a comma if it is not given. The table has commas
  --null TEXTS     one to eight texts between commas, as in NA,NULL,-: a field
                   that is one of them counts as empty
  --trim           fields without the white space at their ends
  --workers N      at most N threads besides the first, and at most one for each
                   processor: 0 to 64; 2 if it is not given
  --order COLUMN   the rows by an item or a column of --group, as in sum:qty or
                   sum:qty:desc; year:numeric orders keys that are integers
  --limit N        at most the first N rows of the table
  --output FORM    csv, tsv, json (an object a line) or aligned (for a reader)
  --skip-bad N     leaves out rows that are refused, if there are at most N of
                   them, and says on the standard error how many and which is
                   the first
  --no-header      the input has no header: its columns are called 1, 2, 3 and
                   so on
  --source I/N     with partial: the number of the source, from 0 on, and how
                   many there are; 0/1 if it is not given
  --bytes FROM[-TO]
                   with partial: the tile of the source between the first end of
                   a line from byte FROM on and that from TO on, or the end; the
                   input is the header's line and the source from FROM on
  --size S         with --bytes: how many bytes the source has
  --above RECORD   with finalize: only groups from this key on, and no header
  --below RECORD   with finalize: only the groups before this key
  -h, --help       this text
  --version        the program's version

A number has no comma and no unit, and without its point it fits 64 bits. Sums
are exact. An average has four digits more after the point than the numbers. An
empty field is left out of sums, minima, maxima and averages. The input may have
any length, a record at most 67108864 bytes, and the columns of a group 248,
four of them for each column.

Examples:
  parstream --agg count < orders.csv
  parstream --group region,year --agg count,sum:qty,avg:qty < orders.csv
  parstream --group region --agg max:qty --where 'qty>=10' < orders.csv
  parstream --agg count --where region=north --where 'qty!=' < orders.csv
  parstream --agg sum:price --decimals 2 --where 'price>=9.50' < orders.csv
  parstream --group g --agg sum:v --separator tab --null NA,- --trim < t.tsv
  parstream --group region --agg sum:qty --order sum:qty:desc --limit 10 < o.csv
  zcat orders.csv.gz | parstream --group region --agg count --workers 4
  parstream partial --source 0/2 --agg count < 2025.csv > 2025.states
  parstream partial --source 1/2 --agg count < 2026.csv > 2026.states
  cat 2025.states 2026.states | parstream finalize

Status: 0 all was written, 1 a row is refused, 2 no such query, header or
column, or the input is no text, 3 a read failed, 4 a write failed, 5 out of
memory, 6 too long for a file of states, 7 a record is too long, 8 no states
that go together, 9 states are missing.
";

/// What `--version` is answered.
pub const VERSION: &str = "parstream 0.2.0\n";

/// What a command line asks to be told.
#[derive(Clone, Copy, Debug, PartialEq, Eq)]
pub enum Asked {
    Help,
    Version,
}

/// What the words after the program's name ask to be told: help if `--help` or `-h` is one of them, otherwise the version
/// if `--version` is. It takes no memory.
pub fn asked_of(words: &[String]) -> Option<Asked>
    ensures { result ≡ asked_in words.now }
{
    if wants_help(words) {
        Some(Asked::Help)
    } else if wants_version(words) {
        Some(Asked::Version)
    } else {
        None
    }
}

/// Whether one of the words asks how the program is called.
fn wants_help(words: &[String]) -> bool
    ensures { result ≡ wants_help words.now }
{
    words.iter().any(|word| asks_help(word.as_str()))
}

/// Whether one of the words asks for the program's version.
fn wants_version(words: &[String]) -> bool
    ensures { result ≡ wants_version words.now }
{
    words.iter().any(|word| asks_version(word.as_str()))
}

/// Whether a word asks how the program is called.
fn asks_help(word: &str) -> bool
    ensures { result ≡ asks_help word.now }
{
    word == "--help" || word == "-h"
}

/// Whether a word asks for the program's version.
fn asks_version(word: &str) -> bool
    ensures { result ≡ asks_version word.now }
{
    word == "--version"
}

/// Writes what is asked for to `out`, or a line to `err` that says that a write failed, and returns the exit status. It
/// takes no memory.
pub fn tell<O: Sink, E: Sink>(asked: Asked, out: &mut O, err: &mut E) -> u8
    ensures statuses { (result ≡ TABLE) ⊎ (result ≡ WRITE_FAULT) }

    // On `TABLE` `out` received the text and `err` nothing.
    ensures text { result ≡ TABLE → Appends (O.taken out.old) (O.taken out.new) (asked_text asked) }
    ensures quiet { result ≡ TABLE → err.new ≡ err.old }

    // Otherwise a write of it failed: `out` received a prefix, and `err` a line.
    ensures part { result ≡ WRITE_FAULT → (n : ℕ) × Appends (O.taken out.old) (O.taken out.new) (take n (asked_text asked)) }
    ensures write_fault { result ≡ WRITE_FAULT → Rose (O.faults out.old) (O.faults out.new) }
    ensures line { result ≡ WRITE_FAULT → IsSaid (E.taken err.old) (E.taken err.new) (E.faults err.old) (E.faults err.new) (codes "parstream: write fault\n") }
{
    match write_whole(out, text_of(asked).as_bytes()) {
        Ok(()) => TABLE,
        Err(_) => {
            let _ = write_pieces(err, &["parstream: write fault\n"]);
            WRITE_FAULT
        }
    }
}

/// The text that is asked for.
fn text_of(asked: Asked) -> &'static str
    ensures { result.now ≡ asked_text asked }
{
    match asked {
        Asked::Help => HELP,
        Asked::Version => VERSION,
    }
}
