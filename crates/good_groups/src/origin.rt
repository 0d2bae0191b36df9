//! What a sieve knows of its beginning.

ghost use Rattle.std.specs.Prelude.{None, Option};
ghost use Rattle.good_groups.specs.Opened.{Start};

use std::marker::Brand;

/// What there was when a reading began. A type stands for it, so that it is the same before and after calls that know the sieve
/// only as a source: a call names it by [`Brand`].
pub(crate) trait Origin {
    // The source, and what is asked of it.
    ghost start: { Option Start };
}

impl Origin for Brand {
    ghost start = { None };
}
