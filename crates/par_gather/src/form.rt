//! The forms of a command line.

ghost use Rattle.std.specs.Prelude.{◌≡◌};
ghost use Rattle.answer_text.specs.Words.{texts};
ghost use Rattle.par_gather.specs.Query.{form_of};

use gen_query::is_gen;
use join_query::is_join;
use plan_spec::is_merge;

/// What the words of a command line are to be.
#[derive(Debug, Clone, Copy, PartialEq, Eq)]
pub(crate) enum Form {
    /// Options that name the plan of a table.
    Plan,
    /// `merge COLUMNS N`, which asks for rows in order.
    Merge,
    /// `join COLUMN N`, which joins two tables.
    Join,
    /// `gen SEED ROWS`, which makes rows.
    Gen,
}

/// The form that words are to have, by the first of them.
pub(crate) fn form_of(words: &[String]) -> Form
    ensures { result ≡ form_of (texts words.now) }
{
    if is_join(words) {
        Form::Join
    } else if is_merge(words) {
        Form::Merge
    } else if is_gen(words) {
        Form::Gen
    } else {
        Form::Plan
    }
}
