//! What the forms come to, as laws: the table that the files of all parts come to is that of one pass over all rows, and the refused
//! row that they name is the first one of all.
//!
//! They stand over the words of `state_query`'s contracts, so that what `finalize` writes, and what `combine` makes of files, is said in
//! terms of the rows of the sources.

#![tactic(auto)]

ghost use Rattle.state_answers.specs.Answers.{AskForOne, GroupsAreAll, OneFileIsMade, ReadingIsMade, RefusalIsFirst, TableAnswers, TablesAgree, TileReadingIsMade};
ghost use Rattle.state_answers.specs.Sent.{CatIsSent, CombineIsMade, CombineIsSent, FinalizeAnswers, FinalizeRefuses, FinalizesAgree, MadeIsSent, PartIsSent, SentAreRead, SentGroupsAreAll, TileIsSent};
ghost use Rattle.state_answers.specs.Touching.{RangesAgree, RangesAreTable};

use part_law::answers_agree;
use state_law::{combined_is_read, made_is_true, row_is_first, sum_is_all, text_answers};
use state_range::ranges_answer;

/// The words of a file ask for one query. A law: it does nothing when it runs.
pub fn ask_for_one()
    ensures { AskForOne }
{}

/// What one reading of a whole source gives is a file of the sources of each input that has it. A law: it does nothing when it runs.
pub fn reading_is_made()
    ensures { ReadingIsMade }
{
    ask_for_one();
}

/// So is what one reading of a tile gives, after the header. A law: it does nothing when it runs.
pub fn tile_reading_is_made()
    ensures { TileReadingIsMade }
{
    ask_for_one();
}

/// The files of an input, put together, are a file of the same sources. A law: it does nothing when it runs.
pub fn one_file_is_made()
    ensures { OneFileIsMade }
{}

/// The groups of the files of an input that has all bytes of all sources, each once, are those of all rows. A law: it does nothing
/// when it runs.
pub fn groups_are_all()
    ensures { GroupsAreAll }
{
    made_is_true();
    sum_is_all();
}

/// The text that the files of an input come to is that of one pass over all rows of all sources. A law: it does nothing when it
/// runs.
pub fn table_answers()
    ensures { TableAnswers }
{
    made_is_true();
    text_answers();
}

/// Files that were made and put together in other ways come to the same bytes. A law: it does nothing when it runs.
pub fn tables_agree()
    ensures { TablesAgree }
{
    ask_for_one();
    answers_agree();
    table_answers();
}

/// The refused row that the files of an input have is the first one of all rows of all sources. A law: it does nothing when it
/// runs.
pub fn refusal_is_first()
    ensures { RefusalIsFirst }
{
    made_is_true();
    row_is_first();
}

/// However bytes of files are read as an input, it is of the query and the sources of which the files came about. A law: it does
/// nothing when it runs.
pub fn sent_are_read()
    ensures { SentAreRead }
{}

/// So are those of bytes of files that came about of some sources. A law: it does nothing when it runs.
pub fn sent_groups_are_all()
    ensures { SentGroupsAreAll }
{
    groups_are_all();
}

/// The table that `finalize` makes of bytes of files that came about of some sources is that of one pass over all their rows. A law:
/// it does nothing when it runs.
pub fn finalize_answers()
    ensures { FinalizeAnswers }
{
    table_answers();
}

/// Whatever files of the same sources it is given, the text is the same. A law: it does nothing when it runs.
pub fn finalizes_agree()
    ensures { FinalizesAgree }
{
    answers_agree();
    finalize_answers();
}

/// The texts that `finalize` makes of ranges which touch, one after another, are the table of one pass over all their rows, of whatever
/// files each of them is made. A law: it does nothing when it runs.
pub fn ranges_are_table()
    ensures { RangesAreTable }
{
    sent_groups_are_all();
    ranges_answer();
}

/// They are the text that it makes without a range. A law: it does nothing when it runs.
pub fn ranges_agree()
    ensures { RangesAgree }
{
    answers_agree();
    finalize_answers();
    ranges_are_table();
}

/// The refused row that `finalize` names is the first one of all rows of all sources. A law: it does nothing when it runs.
pub fn finalize_refuses()
    ensures { FinalizeRefuses }
{
    refusal_is_first();
}

/// The file that `combine` makes of files that came about of some sources came about of them. A law: it does nothing when it runs.
pub fn combine_is_made()
    ensures { CombineIsMade }
{
    one_file_is_made();
}

/// Bytes of files that came about of some sources, and others after them, are such bytes. A law: it does nothing when it runs.
pub fn cat_is_sent()
    ensures { CatIsSent }
{}

/// The file that `combine` makes of them may be sent again, so they may be put together in any tree. A law: it does nothing when
/// it runs.
pub fn combine_is_sent()
    ensures { CombineIsSent }
{
    made_is_true();
    combined_is_read();
    one_file_is_made();
}

/// What `partial` makes of a whole source may be sent. A law: it does nothing when it runs.
pub fn part_is_sent()
    ensures { PartIsSent }
{}

/// So may what it makes of a tile of one, after the header. A law: it does nothing when it runs.
pub fn tile_is_sent()
    ensures { TileIsSent }
{}

/// So may whatever came about of the sources, if it can be read. A law: it does nothing when it runs.
pub fn made_is_sent()
    ensures { MadeIsSent }
{}
