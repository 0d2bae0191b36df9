//! What lies at the front of a queue in given memory: its ends, until a process takes them.

ghost use Rattle.std.specs.Prelude.{◌≡◌, ◌≤◌, ◌^◌, ℕ, IfSome};
ghost use Rattle.mq_ring.specs.Ends.{ring_of};
ghost use Rattle.c_given.specs.Which.{Which, which, ArePair, IsSenderOf};
ghost use Rattle.c_given.specs.Takes.{FoundIs};

use counted_slot::{Counted, FREE, Fits, MARKED, PRESENT, TAKEN};
use mq_handle::Sender;
use mq_ring::{RingRx, RingTx};
use region_words::Part;
use std::marker::Model;

/// Which queue it is: a token of its region, which has no bytes, and the two sizes. Contracts see the region and the
/// ring, which begins at word 1.
#[derive(Drop)]
pub struct Mark {
    part: Part,
    words: u64,
    max: u32,
}

impl Model for Mark {
    ghost use Rattle.mq_ring.specs.Ends.{ring_of};
    ghost use Rattle.c_given.specs.Which.{Which, which, which_code};

    ghost Value = { Which };

    ghost coded = { which_code };

    ghost view = { λ m. which m.part.region (ring_of 1 m.words 0 m.max) };
}

impl Mark {
    /// The mark of a ring of `words` words from word 1 on in the part's region, for messages of at most `max` bytes.
    pub(crate) fn new(part: Part, words: u64, max: u32) -> Mark
        ensures { result ≡ which part.region (ring_of 1 words 0 max) }
    {
        Mark { part, words, max }
    }
}

/// Both ends of a ring, which nobody has used.
#[derive(Drop)]
pub(crate) struct Pair {
    pub(crate) tx: RingTx,
    pub(crate) rx: RingRx,
}

impl Fits for Pair {
    type Tag = Mark;

    ghost fits = { λ tag pair. ArePair tag pair.tx pair.rx };
}

/// A sending end that nobody has used.
#[derive(Drop)]
pub(crate) struct Waiting {
    pub(crate) sender: Sender,
}

impl Fits for Waiting {
    type Tag = Mark;

    ghost fits = { λ tag waiting. IsSenderOf tag waiting.sender };
}

/// What a try to take the sending end finds.
pub(crate) enum Found {
    /// The end.
    Sender(Waiting),
    /// No receiver has come yet, or another caller is at it just now.
    NotYet,
    /// Somebody else has it.
    Taken,
}

/// Both ends of a ring until somebody takes the receiving one, and then the sending one until somebody takes it. No
/// pointer is in it. Contracts see which queue it is.
#[derive(Drop)]
pub struct Head {
    mark: Mark,
    pair: Counted<Option<Pair>>,
    sender: Counted<Option<Waiting>>,
}

impl Model for Head {
    ghost use Rattle.std.specs.Prelude.{◌≡◌};
    ghost use Rattle.c_given.specs.Which.{Which, which_code};

    ghost Value = { Which };

    ghost coded = { which_code };

    ghost view = { λ h. h.mark };

    ghost invariant = { λ h. (h.pair ≡ h.mark) × (h.sender ≡ h.mark) };
}

impl Head {
    /// The head of a queue whose ends are both there.
    pub(crate) fn new(mark: Mark, pair: Pair) -> Head
        requires { ArePair mark pair.tx pair.rx }
        ensures { result ≡ mark }
    {
        let pair = Counted::new(Some(pair), &mark);
        let sender = Counted::new(None, &mark);
        Head { mark, pair, sender }
    }

    /// The bytes of the greatest message.
    pub(crate) fn max(&self) -> u32
        ensures { result ≡ self.now.ring.max }
    {
        self.mark.max
    }

    /// Both ends, if they are there: of several callers one gets them. One compare-exchange.
    pub(crate) fn take_pair(&self) -> Option<Pair>
        ensures { IfSome result (λ p. ArePair self.now p.tx p.rx) }
    {
        let (found, claim) = self.pair.turn(FREE, TAKEN);
        if found != FREE {
            claim.done();
            return None;
        }
        claim.put(None, MARKED)
    }

    /// Puts them back, for whoever comes next. Only who took them calls it, so nobody is in the way.
    pub(crate) fn give_pair(&self, pair: Pair)
        requires { ArePair self.now pair.tx pair.rx }
    {
        let (found, claim) = self.pair.turn(MARKED, TAKEN);
        if found != MARKED {
            claim.done();
            return;
        }
        let _empty = claim.put(Some(pair), FREE);
    }

    /// Puts the sending end there. Only who took both ends calls it, once.
    pub(crate) fn give_sender(&self, sender: Sender)
        requires { IsSenderOf self.now sender }
    {
        let (found, claim) = self.sender.turn(FREE, TAKEN);
        if found != FREE {
            claim.done();
            return;
        }
        let _empty = claim.put(Some(Waiting { sender }), PRESENT);
    }

    /// The sending end, if it is there: of several callers one gets it. One compare-exchange.
    pub(crate) fn take_sender(&self) -> Found
        ensures { FoundIs self.now result }
    {
        let (found, claim) = self.sender.turn(PRESENT, TAKEN);
        if found != PRESENT {
            claim.done();
            return if found == MARKED {
                Found::Taken
            } else {
                Found::NotYet
            };
        }
        match claim.put(None, MARKED) {
            Some(waiting) => Found::Sender(waiting),
            None => Found::Taken,
        }
    }

    /// Puts it back, for whoever comes next. Only who took it calls it.
    pub(crate) fn give_back(&self, sender: Sender)
        requires { IsSenderOf self.now sender }
    {
        let (found, claim) = self.sender.turn(MARKED, TAKEN);
        if found != MARKED {
            claim.done();
            return;
        }
        let _empty = claim.put(Some(Waiting { sender }), PRESENT);
    }
}
