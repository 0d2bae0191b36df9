//! The two roles of a parallel query. Each says by `asks` which plans it can do, and by `did` and `led` what it
//! promises of its draws and its messages; `Context::run` gives these promises to its caller. They speak only of lists,
//! so what happens to an end after the call, such as its detaching, does not touch them.

ghost use Rattle.agg_table.specs.Shown.{use_in};
ghost use Rattle.std.specs.Prelude.{◌≡◌, map};
ghost use Rattle.std.specs.List.{AllZip};
ghost use Rattle.par_model.specs.Plan.{Plan};
ghost use Rattle.plan_descriptor.specs.Planned.{HasPlan};
ghost use Rattle.scan_claim.specs.Shown.{blocks_of, draws_of};
ghost use Rattle.parallel_ctx.specs.Accounts.{account, heard};
ghost use Rattle.parallel_ctx.specs.Tokens.{IsFresh, IsFreshLead, SameEnds, SameQueues, SameSeats};

use crate::tokens::{LeaderEnds, Seats, Shared, WorkerEnds};
use std::sync::Wait;

/// What runs in each worker's thread.
pub trait Worker: Sync {
    ghost use Rattle.std.specs.Prelude.{ℕ};
    ghost use Rattle.par_model.specs.Plan.{Plan};
    ghost use Rattle.parallel_ctx.specs.Accounts.{Account};

    /// What a worker answers when it ends.
    type End: Send + Drop;

    /// Which plans, over this many blocks, it can do.
    ghost asks: { Self → Plan → ℕ → Type 0 };

    /// What the call did by a plan over this many blocks, and its end.
    ghost did: { Self → Plan → ℕ → Account → Self.End → Type 0 };

    /// Whether it pays to start workers. If it doesn't, none is, as if each start were refused.
    fn pays(&self) -> bool {
        true
    }

    /// Works with unused tokens, which stay in their places. It may leave its ends attached.
    fn work<R: Wait + Sync>(
        &self,
        rt: &R,
        shared: &Shared,
        seats: &mut Seats,
        ends: &mut WorkerEnds,
    ) -> Self::End
        requires { (plan : Plan) × IsFresh plan shared.now seats.old ends.old × asks self.now plan (blocks_of shared.now.claims) }
        ensures seats { SameSeats shared.now seats.old seats.new }
        ensures ends { SameEnds ends.old ends.new }
        ensures did { (plan : Plan) → HasPlan seats.old.toc.words plan → did self.now plan (blocks_of shared.now.claims) (account seats.new ends.new) result };
}

/// What runs once, in the caller's thread, while the workers work.
pub trait Lead {
    ghost use Rattle.std.specs.Prelude.{ℕ, List};
    ghost use Rattle.par_model.specs.Plan.{Plan};
    ghost use Rattle.std.specs.Prelude.{Option};
    ghost use Rattle.agg_table.specs.Calls.{Use};
    ghost use Rattle.parallel_ctx.specs.Accounts.{Heard};

    /// Which plans, over this many blocks, it can lead.
    ghost asks: { Self → Plan → ℕ → Type 0 };

    /// What the call did by a plan over this many blocks: the numbers it drew, what it did with the table of groups, if
    /// there is one, and what it took of each worker's queues.
    ghost led: { Self → Plan → ℕ → List ℕ → Option Use → List Heard → Self → Type 0 };

    /// Leads with unused tokens, and one pair of ends for each worker asked for, in order. They stay in their places;
    /// it may leave its ends attached.
    fn lead<R: Wait + Sync>(
        &mut self,
        rt: &R,
        shared: &Shared,
        seats: &mut Seats,
        queues: &mut [LeaderEnds],
    )
        requires { (plan : Plan) × IsFreshLead plan shared.now seats.old queues.old × asks self.old plan (blocks_of shared.now.claims) }
        ensures seats { SameSeats shared.now seats.old seats.new }
        ensures queues { AllZip SameQueues queues.old queues.new }
        ensures led { (plan : Plan) → HasPlan seats.old.toc.words plan → led self.old plan (blocks_of shared.now.claims) (draws_of seats.new.claim) (use_in seats.new.hash) (map heard queues.new) self.new };
}
