//! What a drawer is asked and answers, and how a contract sees it.

use region_words::{Part, Region};

/// What goes in.
#[derive(Drop)]
pub enum Ask {
    PutIn(Part),
    TakeOut,
}

/// What comes out: the value of the part's word, a part that found the drawer full, or a part with that value and the
/// drawer's tag.
#[derive(Drop)]
pub enum Answer {
    Stored(u64),
    Full(Part),
    Taken(Part, u64, u64),
    Empty,
}

/// The call that an ask stands for. No value of it is made, nor of the next two.
pub enum Call {
    Put,
    Take,
}

/// The reply that an answer stands for.
pub enum Reply {
    WasStored(u64),
    WasFull,
    WasTaken(u64, u64),
    WasEmpty,
}

/// What is fixed of a drawer: the region of its parts, the word that each owns, and a number.
pub struct DrawerName {
    pub region: Region,
    pub at: u64,
    pub number: u32,
}
