//! A lease as what is under a key of the table: a value that lasts some rounds of a clock.

ghost use Rattle.std.specs.Prelude.{◌≡◌};
ghost use Rattle.uses_table.specs.Leases.{ticked};

use dshash_core::CellObject;

/// A value, and how many rounds it outlasts. If there is none left, it is due: the next round takes it out.
#[derive(Clone, Copy)]
pub struct Lease {
    pub value: u64,
    pub rounds: u64,
}

/// What is asked of the lease under a key. The reply is the lease that was there.
#[derive(Clone, Copy)]
pub enum LeaseCall {
    Read,
    /// This lease, whatever is there: a new one, or the same again for more rounds.
    Grant(Lease),
    /// A round of the clock.
    Tick,
}

fn after_tick(lease: Option<Lease>) -> Option<Lease>
    ensures { result ≡ ticked lease }
{
    let Lease { value, rounds } = lease?;
    let rounds = rounds.checked_sub(1)?;
    Some(Lease { value, rounds })
}

impl CellObject for Lease {
    ghost use Rattle.std.specs.Prelude.{[], ◌∷◌, slice_index, refl};
    ghost use Rattle.uses_table.specs.Leases.{stepped};

    const VALUE_WORDS: usize = 2;

    type State = Lease;

    type Call = LeaseCall;

    type Reply = Option<Lease>;

    ghost VALUE_WORDS = { 2 };

    ghost stepped = { stepped };

    ghost is_value = { λ lease. Unit {0} };

    ghost encoded = { λ lease. lease.value ∷ lease.rounds ∷ [] };

    ghost decoded = { λ words. record { value = slice_index words 0; rounds = slice_index words 1 } };

    ghost reads_back = { λ lease h. refl };

    fn step(state: Option<&Lease>, call: &LeaseCall) -> (Option<Lease>, Option<Lease>) {
        let before = state.copied();
        let after = match call {
            LeaseCall::Read => before,
            LeaseCall::Grant(lease) => Some(*lease),
            LeaseCall::Tick => after_tick(before),
        };
        (after, before)
    }

    fn reads(call: &LeaseCall) -> bool {
        matches!(call, LeaseCall::Read)
    }

    fn encode(state: &Lease, out: &mut [u64]) {
        out[0] = state.value;
        out[1] = state.rounds;
    }

    fn decode(words: &[u64]) -> Lease {
        Lease {
            value: words[0],
            rounds: words[1],
        }
    }
}
