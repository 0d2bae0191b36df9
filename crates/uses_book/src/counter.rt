//! A number that calls add to, as a kept value. Its name says nothing, and anything fits it.

ghost use Rattle.std.specs.Prelude.{◌≡◌};
ghost use Rattle.uses_book.specs.Counting.{AddsTo};

use lock_book::Kept;

/// The sum of what was added, modulo 2^64.
#[derive(Drop)]
pub struct Counter {
    pub value: u64,
}

impl Kept for Counter {
    type Env = ();

    type In = u64;

    type Out = u64;

    type Name = ();

    type State = u64;

    type Call = u64;

    type Reply = u64;

    ghost name = { λ _. tt };

    ghost state = { λ c. c.value };

    ghost call = { λ k. k };

    ghost reply = { λ r. r };

    ghost env_fits = { λ _ _. Unit {0} };

    ghost in_fits = { λ _ _ _. Unit {0} };

    ghost out_fits = { λ _ _ _. Unit {0} };

    ghost legal = { λ _ _ s k r t. AddsTo s k r t };

    fn apply(&mut self, _env: &(), input: u64) -> u64 {
        let before = self.value;
        self.value = before.wrapping_add(input);
        before
    }
}
