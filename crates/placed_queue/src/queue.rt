//! The queue: what its ends share.

ghost use Rattle.std.specs.Prelude.{[], ◌≡◌, IfSome, replicate};
ghost use Rattle.placed_queue.specs.Rules.{head_of};

use crate::history::Law;
use crate::item::Item;
use crate::letter::Letter;
use crate::receiver::Receiver;
use counted_slot::{Counted, FREE, TAKEN};
use logbook::{Seen, Start, Word};
use std::marker::Model;

/// A queue of 16 messages. It has no pointer in it. Contracts see which queue it is. About 4,500 bytes.
#[derive(Drop)]
pub struct Queue {
    head: Word<Item, u64, Law>,
    first: Seen<Item, u64, Law>,
    cells: [Counted<Option<Letter>>; 16],
    reader: Counted<Option<Receiver>>,
}

impl Model for Queue {
    ghost use Rattle.std.specs.Prelude.{[], ◌≡◌, replicate};
    ghost use Rattle.logbook.specs.Pages.{Book, book_coded};
    ghost use Rattle.placed_queue.specs.Rules.{head_of};

    ghost Value = { Book };

    ghost coded = { book_coded };

    ghost view = { λ q. q.first.book };

    ghost invariant = { λ q. (q.head ≡ head_of q.first.book) × (q.first.log ≡ []) × (q.cells ≡ replicate 16 q.first) × (q.reader ≡ q.first) };
}

/// An empty cell of the queue that has this token.
fn cell(first: &Seen<Item, u64, Law>) -> Counted<Option<Letter>>
    ensures { result ≡ first.now }
{
    Counted::new(None, first)
}

/// The cells of a new queue.
fn sixteen(first: &Seen<Item, u64, Law>) -> [Counted<Option<Letter>>; 16]
    ensures { result ≡ replicate 16 first.now }
{
    [
        cell(first),
        cell(first),
        cell(first),
        cell(first),
        cell(first),
        cell(first),
        cell(first),
        cell(first),
        cell(first),
        cell(first),
        cell(first),
        cell(first),
        cell(first),
        cell(first),
        cell(first),
        cell(first),
    ]
}

impl Queue {
    /// A queue through which nothing was sent, with its receiver in it. It takes no memory.
    pub fn new() -> Queue {
        let (first, mut head, _second) = Seen::open(Start::alone(), 0, 0);
        let reader = Counted::new(Some(Receiver::first(first.again())), &first);
        Queue {
            head: Word::tracked(0, &mut head),
            cells: sixteen(&first),
            reader,
            first,
        }
    }

    /// The cell of the item with this number.
    pub(crate) fn cell(&self, number: u64) -> &Counted<Option<Letter>>
        ensures { result.now.book ≡ self.now }
    {
        &self.cells[(number % 16) as usize]
    }

    /// The word that has the length of the history.
    pub(crate) fn head(&self) -> &Word<Item, u64, Law>
        ensures { result.now ≡ head_of self.now }
    {
        &self.head
    }

    /// The token of the empty history.
    pub(crate) fn first(&self) -> Seen<Item, u64, Law>
        ensures { (result.book ≡ self.now) × (result.log ≡ []) }
    {
        self.first.again()
    }

    /// The receiving end, if nobody has it: of several callers one gets it. One compare-exchange.
    pub fn take_receiver(&self) -> Option<Receiver>
        ensures { IfSome result (λ r. r.queue ≡ self.now) }
    {
        let (found, claim) = self.reader.turn(FREE, TAKEN);
        if found != FREE {
            claim.done();
            return None;
        }
        claim.put(None, FREE)
    }

    /// Puts the receiving end back, for whoever takes it next. It comes back if somebody asks for it at that moment.
    pub fn give_receiver(&self, receiver: Receiver) -> Option<Receiver>
        requires { receiver.queue ≡ self.now }
        ensures { IfSome result (λ r. r.queue ≡ self.now) }
    {
        let (found, claim) = self.reader.turn(FREE, TAKEN);
        if found != FREE {
            claim.done();
            return Some(receiver);
        }
        claim.put(Some(receiver), FREE)
    }
}
