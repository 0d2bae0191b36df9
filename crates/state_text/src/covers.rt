//! Why stretches are not all bytes, each once, as the pieces of a text.

ghost use Rattle.std.specs.Prelude.{◌≡◌, ◌++◌, codes, map};
ghost use Rattle.std.specs.List.{concat};
ghost use Rattle.state_text.specs.Covers.{cover_text, gap_text};

use state_cover::{CoverFault, Missing};

/// What is said of stretches that are no cover. Each number has digits of its own.
pub fn cover_pieces<'a>(
    why: CoverFault,
    one: &'a mut itoa::Buffer,
    other: &'a mut itoa::Buffer,
) -> [&'a str; 5]
    ensures { concat (map (λ piece. piece.now) result) ≡ cover_text why }
{
    match why {
        CoverFault::Memory => ["out of memory", "", "", "", ""],
        CoverFault::Twice { source, at } => {
            let source = one.format(source);
            [
                "source ",
                source,
                " from ",
                other.format(at),
                " on is twice",
            ]
        }
        CoverFault::Size { source } => {
            ["source ", one.format(source), " has another size", "", ""]
        }
        CoverFault::Rows { source } => {
            ["source ", one.format(source), " has too many rows", "", ""]
        }
        CoverFault::Many => ["too many stretches", "", "", "", ""],
    }
}

/// What is said of bytes that are missing. Each number has digits of its own.
pub fn gap_pieces<'a>(
    gap: Missing,
    one: &'a mut itoa::Buffer,
    other: &'a mut itoa::Buffer,
    third: &'a mut itoa::Buffer,
) -> [&'a str; 7]
    ensures { concat (map (λ piece. piece.now) result) ≡ gap_text gap }
{
    let source = one.format(gap.source);
    match gap.to {
        None => ["source ", source, " is missing", "", "", "", ""],
        Some(to) => {
            let from = other.format(gap.from);
            [
                "source ",
                source,
                " from ",
                from,
                " to ",
                third.format(to),
                " is missing",
            ]
        }
    }
}
