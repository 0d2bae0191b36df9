//! The law by which the calls of all callers make up a history. The function does nothing, and its contract is the law.

ghost use Rattle.std.specs.Prelude.{◌≡◌, ℕ, ◌≤◌, List, []};
ghost use Rattle.lock_book.specs.declared.view.Entry.{Entry};
ghost use Rattle.lock_book.specs.Folds.{IsCommutativeMonoid, folded, folded_below};
ghost use Rattle.lock_book.specs.History.{calls_by};

/// The entries of all callers are all entries, each once: if an operation needs no order, what it makes of a whole
/// history is what it makes of the callers' own calls, one caller after another.
pub fn calls_of_all<S, C, R, M>()
    ensures { (op : M → M → M) (unit : M) → IsCommutativeMonoid op unit → (f : Entry S C R → M) (callers : ℕ) (xs : List (Entry S C R)) → ((n : ℕ) → callers ≤ n → calls_by n xs ≡ []) → folded op unit f xs ≡ folded_below op unit f callers xs }
{}
