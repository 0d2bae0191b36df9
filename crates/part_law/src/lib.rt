//! The laws by which the parts of a text may be added up by anybody, in any order: tiles that touch, each after the header.
//!
//! They name no machine and no engine. What a tile is, its own bytes say: it ends outside quotes, as a scan from its own start
//! finds, and the next one begins with the end of a line. So it does not matter who cut them, nor what was guessed of the place
//! at which one begins: tiles that touch have the records of the whole text, and the maps that were made of each by itself are
//! those of shares of its rows.

#![tactic(auto)]

ghost use Rattle.part_law.specs.Law.{AnswersAgree, CombineKeeps, OrderKeeps, PartsAreShares, TilesAddUp};

/// The records of tiles that touch, one after another, are those of the text. A law: it does nothing when it runs.
pub fn tiles_add_up()
    ensures { TilesAddUp }
{}

/// The maps of tiles, each made by itself after the header, are those of shares of the rows of the whole text. A law: it
/// does nothing when it runs.
pub fn parts_are_shares()
    ensures { PartsAreShares }
{}

/// Maps of shares stay such when two of them are put together. A law: it does nothing when it runs.
pub fn combine_keeps()
    ensures { CombineKeeps }
{}

/// Maps of shares stay such in any order. A law: it does nothing when it runs.
pub fn order_keeps()
    ensures { OrderKeeps }
{}

/// A query over some records has one text, so anybody who answers it writes these bytes. A law: it does nothing when it runs.
pub fn answers_agree()
    ensures { AnswersAgree }
{}
