//! What a participant of a query works on, and how it draws its blocks. The leader and the workers draw alike, whatever
//! they do with the rows of a block: here it is shown that each block is drawn once and the gate passed with it.

ghost use Rattle.std.specs.Prelude.{◌≡◌, ◌≤◌, ◌<◌, ◌+◌, ◌*◌, ◌++◌, ◌⊎◌, ◌∷◌, [], ℕ, IfNone, IfSome, IsTrue, length};
ghost use Rattle.scan_claim.specs.Drawing.{below, is_spent};
ghost use Rattle.scan_claim.specs.Shown.{Belongs, blocks_of, callers_of, draws_of, number_of};
ghost use Rattle.worker_run.specs.Job.{DrawsNone, IsJob};

use crate::gate::Gate;
use agg_table::HashPart;
use csv_rows::RowStore;
use par_model::BoundPlan;
use region_words::Region;
use scan_claim::{ClaimSeat, Claims};

/// What a participant works on. None of it changes while it works.
pub struct Job<'a, G> {
    /// The region in which its queues lie.
    pub region: &'a Region,
    /// The rows of the table.
    pub rows: &'a RowStore,
    /// What is asked of them.
    pub plan: &'a BoundPlan,
    /// The counter that hands out the blocks of the rows.
    pub claims: &'a Claims,
    /// The table of groups that all share, if there is one.
    pub table: &'a Option<HashPart>,
    /// What it passes before each of its blocks.
    pub gate: &'a G,
    /// Its number: 0 for the leader, and from 1 on for the workers.
    pub number: u32,
}

impl<'a, G> Drop for Job<'a, G> {
    fn drop(self) {
        let Job {
            region: _,
            rows: _,
            plan: _,
            claims: _,
            table: _,
            gate: _,
            number: _,
        } = self;
    }
}

impl<'a, G: Gate> Job<'a, G> {
    /// Draws the next block, and passes the gate with it. There are no more if it answers None.
    pub fn draw(&self, claim: &mut ClaimSeat) -> Option<u64>
        requires job { IsJob self.now }
        requires seat { Belongs self.now.claims.now claim.old }
        ensures seat { Belongs self.now.claims.now claim.new × (number_of claim.new ≡ number_of claim.old) }
        ensures drawn { IfSome result (λ block. draws_of claim.new ≡ draws_of claim.old ++ block ∷ []) }
        ensures there { IfSome result (λ block. 256 * block + 1 < length self.now.rows.now) }
        ensures none { IfNone result (DrawsNone (blocks_of self.now.claims.now) (draws_of claim.old) (draws_of claim.new)) }
        ensures spent { IfNone result (IsTrue (is_spent (blocks_of self.now.claims.now) (draws_of claim.new))) }
        ensures in_order { callers_of self.now.claims.now ≡ 1 → draws_of claim.new ≡ below (length (draws_of claim.new)) }
    {
        let block = claim.claim(self.claims)?;
        self.gate.pass(self.number, block);
        Some(block)
    }
}
