//! What is said of rows that were left out.

ghost use Rattle.std.specs.Prelude.{◌≡◌, map};
ghost use Rattle.std.specs.List.{concat};
ghost use Rattle.answer_text.specs.Lines.{IsSaid};
ghost use Rattle.stream_groups.specs.Lines.{line};
ghost use Rattle.good_stream.specs.Said.{left_out_text, left_out_text_of};

use answer_text::write_pieces;
use good_groups::LeftOut;
use par_io::Sink;

/// Writes the line of rows that were left out. A failed write ends it, and changes nothing else.
pub(crate) fn say_left_out<E: Sink>(left_out: &LeftOut, err: &mut E)
    ensures { IsSaid (E.taken err.old) (E.taken err.new) (E.faults err.old) (E.faults err.new) (line (left_out_text left_out.now)) }
{
    let mut count = itoa::Buffer::new();
    let mut row = itoa::Buffer::new();
    let mut at = itoa::Buffer::new();
    let _ = write_pieces(err, &pieces(left_out, &mut count, &mut row, &mut at));
}

/// The pieces of that line.
fn pieces<'a>(
    left_out: &'a LeftOut,
    count: &'a mut itoa::Buffer,
    row: &'a mut itoa::Buffer,
    at: &'a mut itoa::Buffer,
) -> [&'a str; 11]
    ensures { concat (map (λ piece. piece.now) result) ≡ line (left_out_text left_out.now) }
{
    let first = &left_out.first;
    of_texts(
        count.format(left_out.count),
        row.format(first.row),
        at.format(first.line),
        first.said.as_str(),
    )
}

/// The same of numbers as digits.
fn of_texts<'a>(count: &'a str, row: &'a str, at: &'a str, said: &'a str) -> [&'a str; 11]
    ensures { concat (map (λ piece. piece.now) result) ≡ line (left_out_text_of count.now row.now at.now said.now) }
{
    [
        "parstream: ",
        "rows left out: ",
        count,
        "; the first: ",
        "row ",
        row,
        " (line ",
        at,
        "): ",
        said,
        "\n",
    ]
}
