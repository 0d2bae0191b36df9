//! The passes of two callers, out of the list in which a shelf, or a structure over shelves, gives them.

ghost use Rattle.std.specs.Prelude.{◌≡◌, length};
ghost use mathlib.Core.Option.{some};
ghost use lib.ListN.{get_elem?};

/// The passes of two callers, of whatever structure, in order of their numbers. It takes no memory.
pub fn two_of<P: Drop>(passes: Vec<P>) -> (P, P)
    requires { length passes.items ≡ 2 }
    ensures zero { get_elem? passes.items 0 ≡ some result.0 }
    ensures one { get_elem? passes.items 1 ≡ some result.1 }
{
    let mut passes = passes;
    let Some(one) = passes.pop() else {
        unreachable!()
    };
    let Some(zero) = passes.pop() else {
        unreachable!()
    };
    (zero, one)
}
