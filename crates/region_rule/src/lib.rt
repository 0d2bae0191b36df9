//! The rule of a region of words: what each token knows of them, what its steps do, and that every run of steps keeps
//! the region sound.
//!
//! Nothing here runs. `specs/View.antt` says what a token knows and holds, `specs/Sound.antt` what holds of the words
//! and all tokens at every moment, `specs/Steps.antt` what each kind of step does, and `specs/Tells.antt` what its
//! token learns by it. The laws say of every kind that it keeps a sound region sound, and what it finds. `RegionRule`
//! is the rule of an `atomic_table` whose states are runs of these steps, so the crates that step on the table cite the
//! laws and prove nothing about threads.
//!
//! Who may change which word, and when: only an owner (`Own`) reads and changes its words; frozen words (`Frozen`)
//! change no more; the words of a ring are changed by its two ends as `ring_rule` says.

#![tactic(auto)]

mod laws;
mod plays;
mod rule;

pub use laws::{
    end_done_law, end_share_law, freeze_law, gather_law, join_ends_law, join_law, load_data_law,
    load_done_law, load_flag_law, load_frozen_law, load_last_law, load_law, load_read_law,
    load_written_law, make_ring_law, opening_law, part_again_law, partner_law, share_law,
    sound_always, split_law, step_law, store_data_law, store_flag_law, store_law, store_read_law,
    store_written_law,
};
pub use plays::{
    Advises, Begins, Copies, Cuts, Ends, Freezes, Gathers, GivesBack, Glues, Learns, Leaves, Loads,
    LoadsCount, LoadsDone, LoadsFlag, LoadsFrozen, LooksRead, LooksWritten, Makes, Meeting,
    Publishes, Puts, PutsRow, Range, Shape, Shares, Stores, Takes, TakesOut, TakesRow, TakesRowOut,
};
pub use rule::{Known, RegionRule};
