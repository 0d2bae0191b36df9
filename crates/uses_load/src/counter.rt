//! A number to which each call adds 1, as a value behind a lock of `lock_book`.

ghost use Rattle.uses_load.specs.Counted.{AddsOne};

use lock_book::Kept;

/// How many calls were made, modulo 2^64.
#[derive(Drop)]
pub struct Counter {
    pub value: u64,
}

impl Kept for Counter {
    type Env = ();

    type In = ();

    type Out = ();

    type Name = ();

    type State = u64;

    type Call = ();

    type Reply = ();

    ghost name = { λ _. tt };

    ghost state = { λ c. c.value };

    ghost call = { λ _. tt };

    ghost reply = { λ _. tt };

    ghost env_fits = { λ _ _. Unit {0} };

    ghost in_fits = { λ _ _ _. Unit {0} };

    ghost out_fits = { λ _ _ _. Unit {0} };

    ghost legal = { λ _ _ before _ _ after. AddsOne before after };

    fn apply(&mut self, _env: &(), _input: ()) {
        self.value = self.value.wrapping_add(1);
    }
}
