//! The pages of a shared area, of 4,096 bytes each: runs of them are granted and given back (the part of dsa.c's
//! freepage.c).
//!
//! All that is known of the runs is in the region, in one run word for each page (`specs/Runs.antt`), so `Pages` takes
//! no memory and a call walks from run to run. Free runs that touch count as one: a walk makes one of them as it goes,
//! so giving a run back is one store. A walk begins after the pages that are granted without a gap from page 0 on;
//! `Pages` keeps their number besides the region, and how many pages are granted. The state, the calls and their replies are in `specs/Legal.antt`,
//! which the layers above cite.

#![tactic(auto)]

mod histories;
mod layout;
mod pages;
mod walk;

pub use histories::{PagesCalls, PagesReplies, PagesStates};
pub use layout::{
    CLASS_COUNT, CLASS_END, HEAD_WORDS, PAGE_WORDS, RECORD_WORDS, SUPERBLOCK_PAGES, area_words,
    control_words, front, mark_words,
};
pub use pages::{NoRun, Pages, Usage};
