//! One try to receive, by the ring's end.

ghost use Rattle.std.specs.Prelude.{◌≡◌, ◌+◌, ◌-◌, ◌*◌, ◌<◌, ◌≤◌, ◌++◌, List, ℕ, false, length};
ghost use Rattle.rel_pointer.specs.Bytes.{word_count};
ghost use Rattle.mq_handle.specs.ReceiveAnswers.{Gives, message_of, HasPlace, steps_beside};
ghost use Rattle.mq_handle.specs.Told.{ReceiveFound};
ghost use Rattle.mq_handle.specs.Taking.{Ready, InHand, IsOpen, before_of};

use crate::answers::ReceiveAnswer;
use crate::looking::look_for_words;
use crate::taking::{Taken, finish_taking, take_words};
use mq_ring::RingRx;
use region_words::Region;

/// Takes words, and looks for more, until a message is whole or there are no more.
pub(crate) fn receive_frame(
    rx: &mut RingRx,
    r: &Region,
    buffer: &mut [u8],
    taken: Taken,
) -> (Taken, ReceiveAnswer)
    requires here { rx.old.region ≡ r.now }
    requires stays { rx.old.end.gone ≡ false }
    requires counted { Ready rx.old.end taken.ready taken.unreturned }
    requires hand { InHand rx.old.end.ring.max (before_of rx.old.end taken.words) rx.old.end.taken buffer.old taken.words taken.len }
    requires unfinished { IsOpen taken.words taken.len }
    requires room { length buffer.old ≡ rx.old.end.ring.max }
    ensures kept { rx.new ≡ record rx.old { end = rx.new.end } }
    ensures ring { rx.new.end.ring ≡ rx.old.end.ring }
    ensures stays { rx.new.end.gone ≡ false }
    ensures later { rx.old.end.turn ≤ rx.new.end.turn }
    ensures grows { (rest : List ℕ) × (rx.new.end.taken ≡ rx.old.end.taken ++ rest) }
    ensures set { rx.old.end.flag_value ≡ 1 → rx.new.end.flag_value ≡ 1 }
    ensures steps { rx.new.end.turn + 4 * length rx.old.end.taken ≤ rx.old.end.turn + 4 * length rx.new.end.taken + steps_beside result.1 }
    ensures few { length rx.new.end.taken ≤ length rx.old.end.taken + word_count rx.old.end.ring.max + 1 }
    ensures counted { Ready rx.new.end result.0.ready result.0.unreturned }
    ensures hand { InHand rx.new.end.ring.max (before_of rx.new.end result.0.words) rx.new.end.taken buffer.new result.0.words result.0.len }
    ensures unfinished { IsOpen result.0.words result.0.len }
    ensures answer { Gives rx.old.end rx.new.end (message_of result.1 buffer.new result.0.len) result.1 }
    ensures told { ReceiveFound rx.old.told rx.old.end rx.new.end result.1 }
    ensures place { HasPlace result.1 result.0.len (length buffer.new) }
{
    let (first, done) = take_words(rx, r, buffer, taken);
    let mut taken = first;
    let mut whole = done;
    while !whole {
        let (next, answer) = look_for_words(rx, r, taken);
        if let Some(answer) = answer {
            return (next, answer);
        }
        let (more, done) = take_words(rx, r, buffer, next);
        taken = more;
        whole = done;
    }
    (finish_taking(rx, r, taken), ReceiveAnswer::Message)
}
