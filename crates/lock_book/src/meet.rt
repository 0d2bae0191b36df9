//! Two passes exchange what they have seen.
//!
//! A note from each side is joined into the other, and then each side looks once: one load shows for all values that
//! what was seen and what was learnt begin the value's one history, so the longer of the two is seen from then on.

ghost use Rattle.std.specs.Prelude.{◌≡◌, ℕ, ◌<◌, [], length};
ghost use Rattle.lock_book.specs.declared.view.Stage.TheVariants.{Idle};
ghost use Rattle.lock_book.specs.Ruled.{IsFree, IsSame, mine_at, note, seen_at, view_of};
ghost use Rattle.lock_book.specs.Told.{IsPass, Meets};
ghost use Rattle.lock_book.specs.Shown.{Belongs, Met, number_of, seen_of};

use crate::Kept;
use crate::shelf::{Pass, Shelf, give_back, lend};
use crate::table::{Board, Look, Note, Place};

/// A seat that knows what this one has seen, and represents nobody.
pub(crate) fn make_note<T: Kept>(board: &Board<T>, seat: &mut Place<T>) -> Place<T>
    requires own { (seat.old.table_id ≡ board.now.shared.table_id) × (0 < board.now.shared.table_id.words) }
    requires idle { seat.old.me.0.stage ≡ Idle }
    ensures same { (seat.new.table_id ≡ seat.old.table_id) × (seat.new.me ≡ seat.old.me) }
    ensures note { (result.table_id ≡ seat.old.table_id) × (result.me ≡ (note seat.old.me.0, [])) }
{
    board.shared.split_seat::<Note>(seat)
}

/// Takes in a note, and looks.
pub(crate) fn take_note<T: Kept>(board: &Board<T>, seat: &mut Place<T>, told: Place<T>)
    requires own { (seat.old.table_id ≡ board.now.shared.table_id) × (told.table_id ≡ board.now.shared.table_id) × (0 < board.now.shared.table_id.words) }
    requires free { IsFree seat.old.me.0 }
    requires note { (w : _) × (told.me ≡ (note w, [])) }
    ensures own { (seat.new.table_id ≡ seat.old.table_id) × (seat.new.me.1 ≡ seat.old.me.1) × IsSame seat.old.me.0 seat.new.me.0 }
    ensures owns { seat.new.me.0.owns ≡ seat.old.me.0.owns }
    ensures met { (w : _) → told.me ≡ (note w, []) → Meets (seen_at seat.old.me.0) (mine_at seat.old.me.0 0) (seen_at w) (seen_at seat.new.me.0) (mine_at seat.new.me.0 0) }
    ensures stands { seat.old.me.0.from < seat.old.me.0.callers → IsPass T.legal seat.old.me.0.opens seat.old.me.0.callers seat.old.me.0.from (seen_at seat.new.me.0) (mine_at seat.new.me.0 0) }
{
    board.shared.join_seat::<Note>(seat, told);
    board.shared.load::<Look>(seat, 0);
}

/// Each seat learns what the other has seen.
fn exchange_notes<T: Kept>(board: &Board<T>, this: &mut Place<T>, that: &mut Place<T>)
    requires own { (this.old.table_id ≡ board.now.shared.table_id) × (that.old.table_id ≡ board.now.shared.table_id) × (0 < board.now.shared.table_id.words) }
    requires free { IsFree this.old.me.0 × IsFree that.old.me.0 }
    ensures own { (this.new.table_id ≡ this.old.table_id) × (that.new.table_id ≡ that.old.table_id) × (this.new.me.1 ≡ this.old.me.1) × (that.new.me.1 ≡ that.old.me.1) }
    ensures same { IsSame this.old.me.0 this.new.me.0 × IsSame that.old.me.0 that.new.me.0 }
    ensures this { Meets (seen_at this.old.me.0) (mine_at this.old.me.0 0) (seen_at that.old.me.0) (seen_at this.new.me.0) (mine_at this.new.me.0 0) }
    ensures that { Meets (seen_at that.old.me.0) (mine_at that.old.me.0 0) (seen_at this.old.me.0) (seen_at that.new.me.0) (mine_at that.new.me.0 0) }
    ensures this_stands { this.old.me.0.from < this.old.me.0.callers → IsPass T.legal this.old.me.0.opens this.old.me.0.callers this.old.me.0.from (seen_at this.new.me.0) (mine_at this.new.me.0 0) }
    ensures that_stands { that.old.me.0.from < that.old.me.0.callers → IsPass T.legal that.old.me.0.opens that.old.me.0.callers that.old.me.0.from (seen_at that.new.me.0) (mine_at that.new.me.0 0) }
{
    let mine = make_note(board, this);
    let theirs = make_note(board, that);
    take_note(board, this, theirs);
    take_note(board, that, mine);
}

impl<T: Kept> Pass<T> {
    /// Afterwards both passes have seen, of each value, the longer of the two histories that they had seen. It waits
    /// for nobody and takes no memory.
    pub fn meet(&mut self, shelf: &Shelf<T>, other: &mut Pass<T>)
        requires own { Belongs shelf.now self.old × Belongs shelf.now other.old }
        ensures own { Belongs shelf.now self.new × Belongs shelf.now other.new }
        ensures numbers { (number_of self.new ≡ number_of self.old) × (number_of other.new ≡ number_of other.old) }
        ensures this { Met self.old other.old self.new }
        ensures that { Met other.old self.old other.new }
        ensures alike { (i : ℕ) → seen_of self.new i ≡ seen_of other.new i }
    {
        let mut this = lend(&mut self.badge);
        let mut that = lend(&mut other.badge);
        exchange_notes(&shelf.board, &mut this, &mut that);
        give_back(&mut self.badge, this);
        give_back(&mut other.badge, that);
    }
}
