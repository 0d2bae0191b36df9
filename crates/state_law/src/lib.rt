//! The laws of partial states: what the files of all parts come to is what one pass over all rows gives.
//!
//! They name no machine and no engine. A file says which bytes of which source it stands for, how many rows these have or which of
//! them is the first refused one, and which groups all its rows come to. If what is said is so of each file, in whatever files or
//! tiles of files the rows came, it is so of several files put together as one, so in any order and any tree; and if the files have
//! each byte of each source once, their text is the one that answers the query over all rows, or the refused row that they name is
//! the first one of all.

#![tactic(auto)]

ghost use Rattle.state_law.specs.Law.{BlankIsTrue, CombinedIsTrue, RowIsFirst, SourcesAreHeaded, SumIsAll, TextAnswers, TextsAgree, TileIsTrue, WholeIsTrue};
ghost use Rattle.state_law.specs.Told.{CombinedIsRead, GroupsAreTold, SumIsTold};
ghost use Rattle.state_law.specs.Trees.{MadeIsTrue};

use state_lanes::{lanes_come_back, rows_are_told};

/// What one reading of all bytes of a source gives is so. A law: it does nothing when it runs.
pub fn whole_is_true()
    ensures { WholeIsTrue }
{}

/// What one reading of a tile of a source gives, after the header, is so. A law: it does nothing when it runs.
pub fn tile_is_true()
    ensures { TileIsTrue }
{}

/// A file that says nothing says nothing that is not so. A law: it does nothing when it runs.
pub fn blank_is_true()
    ensures { BlankIsTrue }
{}

/// Files as one say what is so if they do. A law: it does nothing when it runs.
pub fn combined_is_true()
    ensures { CombinedIsTrue }
{
    rows_are_told();
    lanes_come_back();
}

/// However a file came about, by readings and by putting files together in any tree, what it says is so. A law: it does nothing
/// when it runs.
pub fn made_is_true()
    ensures { MadeIsTrue }
{
    combined_is_true();
}

/// Each of the sources of which files have all bytes begins with the header. A law: it does nothing when it runs.
pub fn sources_are_headed()
    ensures { SourcesAreHeaded }
{}

/// Files that have all bytes of all sources, each once, have the groups of all rows. A law: it does nothing when it runs.
pub fn sum_is_all()
    ensures { SumIsAll }
{
    rows_are_told();
    lanes_come_back();
}

/// The text that files come to answers the query over all rows of all sources. A law: it does nothing when it runs.
pub fn text_answers()
    ensures { TextAnswers }
{
    sum_is_all();
}

/// Files of the same sources that were made and put together in another way come to the same bytes. A law: it does nothing when
/// it runs.
pub fn texts_agree()
    ensures { TextsAgree }
{
    text_answers();
}

/// The refused row that files name is the first one of all rows of all sources. A law: it does nothing when it runs.
pub fn row_is_first()
    ensures { RowIsFirst }
{}

/// The groups of at most 2^50 rows, of which none is refused, are such as a reader of files takes. A law: it does nothing when it
/// runs.
pub fn groups_are_told()
    ensures { GroupsAreTold }
{
    rows_are_told();
    lanes_come_back();
}

/// So are those of files that say what is so, added up. A law: it does nothing when it runs.
pub fn sum_is_told()
    ensures { SumIsTold }
{
    rows_are_told();
    lanes_come_back();
}

/// A reader takes the one file that such files are put together to, if its head is no longer than a head may be. A law: it does
/// nothing when it runs.
pub fn combined_is_read()
    ensures { CombinedIsRead }
{
    sum_is_told();
}
