//! A user's object behind a lock: a wrapper whose `apply` passes its bound on to a generic function.
//!
//! The object's trait asks for no `Send`, and so does each function that `apply` calls. The wrapper is kept, is called
//! and crosses threads if the object, its states and its calls are `Send`.

ghost use Rattle.std.specs.Prelude.{◌≡◌, ◌<◌};
ghost use Rattle.lock_book.specs.Shown.{Belongs, Called, count_of, number_of};

use lock_book::{Kept, Pass, Shelf};
use std::marker::PhantomData;
use std::sync::Wait;
use std::thread::{Threads, join};

/// A state that each call takes one step on.
pub trait Object {
    /// What the calls change.
    type State: Copy;

    /// What is asked of it.
    type Call: Copy;

    // the state that a call leaves
    ghost stepped: { Self.State → Self.Call → Self.State };

    /// The state after the call.
    fn step(state: &Self::State, call: &Self::Call) -> Self::State
        ensures { result ≡ stepped state.now call.now };
}

/// An object's state, as a kept value.
#[derive(Drop)]
pub struct Guarded<O: Object> {
    pub state: O::State,
    object: PhantomData<O>,
}

impl<O: Object> Guarded<O> {
    /// The object in this state.
    pub fn new(state: O::State) -> Guarded<O>
        ensures { result.state ≡ state }
    {
        Guarded {
            state,
            object: PhantomData,
        }
    }
}

/// Makes the call, and gives the state before it.
pub fn advance<O: Object>(value: &mut Guarded<O>, call: &O::Call) -> O::State
    ensures before { result ≡ value.old.state }
    ensures after { value.new.state ≡ O.stepped value.old.state call.now }
{
    let before = value.state;
    value.state = O::step(&before, call);
    before
}

impl<O: Object + Send> Kept for Guarded<O>
where
    O::State: Send,
    O::Call: Send,
{
    type Env = ();

    type In = O::Call;

    type Out = O::State;

    type Name = ();

    type State = O::State;

    type Call = O::Call;

    type Reply = O::State;

    ghost name = { λ _. tt };

    ghost state = { λ v. v.state };

    ghost call = { λ c. c };

    ghost reply = { λ r. r };

    ghost env_fits = { λ _ _. Unit {0} };

    ghost in_fits = { λ _ _ _. Unit {0} };

    ghost out_fits = { λ _ _ _. Unit {0} };

    ghost legal = { λ _ _ s c r t. (r ≡ s) × (t ≡ O.stepped s c) };

    fn apply(&mut self, _env: &(), input: O::Call) -> O::State {
        advance(self, &input)
    }
}

/// A call of the shelf's first object.
pub fn called_once<R: Wait, O: Object + Send>(
    rt: &R,
    shelf: &Shelf<Guarded<O>>,
    pass: &mut Pass<Guarded<O>>,
    call: O::Call,
) -> O::State
where
    O::State: Send,
    O::Call: Send,
    requires own { Belongs shelf.now pass.old × (0 < count_of shelf.now) }
    ensures own { Belongs shelf.now pass.new × (number_of pass.new ≡ number_of pass.old) }
    ensures called { Called shelf.now pass.old pass.new 0 call result }
{
    shelf.call(rt, &(), pass, 0, call)
}

/// Makes the call, by the caller that has the pass.
fn with_call<R: Wait, O: Object + Send>(
    rt: &R,
    shelf: &Shelf<Guarded<O>>,
    mut pass: Pass<Guarded<O>>,
    call: O::Call,
) -> Pass<Guarded<O>>
where
    O::State: Send,
    O::Call: Send,
    requires own { Belongs shelf.now pass × (0 < count_of shelf.now) }
    ensures own { Belongs shelf.now result × (number_of result ≡ number_of pass) }
{
    let _before = called_once(rt, shelf, &mut pass, call);
    pass
}

/// Two threads make a call each.
pub fn called_by_two<R: Threads + Wait + Sync, O: Object + Send>(
    rt: &R,
    shelf: &Shelf<Guarded<O>>,
    one: Pass<Guarded<O>>,
    two: Pass<Guarded<O>>,
    first: O::Call,
    second: O::Call,
) -> (Pass<Guarded<O>>, Pass<Guarded<O>>)
where
    O::State: Send,
    O::Call: Send,
    requires place { 0 < count_of shelf.now }
    requires one { Belongs shelf.now one }
    requires two { Belongs shelf.now two }
    ensures one { Belongs shelf.now result.0 × (number_of result.0 ≡ number_of one) }
    ensures two { Belongs shelf.now result.1 × (number_of result.1 ≡ number_of two) }
{
    join(
        rt,
        move || -> Pass<Guarded<O>>
            requires own { Belongs shelf.now one × (0 < count_of shelf.now) }
            ensures own { Belongs shelf.entry.now result × (number_of result ≡ number_of one) }
        { with_call(rt, shelf, one, first) },
        move || -> Pass<Guarded<O>>
            requires own { Belongs shelf.now two × (0 < count_of shelf.now) }
            ensures own { Belongs shelf.entry.now result × (number_of result ≡ number_of two) }
        { with_call(rt, shelf, two, second) },
    )
}
