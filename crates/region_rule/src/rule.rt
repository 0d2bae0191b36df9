//! The rule of a table that is a region: its tokens' views are those of a run, and the words of the run lie in the
//! table at the places in which the tokens look for them.

ghost use Rattle.std.specs.Prelude.{List, replicate, None};
ghost use Rattle.word_map.specs.WordMap.{numbered};
ghost use Rattle.region_rule.specs.View.{View, Own};
ghost use Rattle.region_rule.specs.Places.{Token, idle, Ruled};

use atomic_table::TableRule;
use std::marker::Model;

/// What a seat of the table is. Contracts see it as a `Token`. No value of it is made.
pub struct Known {
    nothing: (),
}

impl Model for Known {
    ghost use Rattle.region_rule.specs.View.{Spent};
    ghost use Rattle.region_rule.specs.Places.{Token, idle, token_code};

    ghost Value = { Token };

    ghost coded = { token_code };

    ghost view = { λ _. idle Spent };
}

/// The views are those of a run from words that are all 0. The table has one slot and one word for each word of the
/// run, and the run's words lie in them. The key is their number.
pub struct RegionRule;

impl TableRule<u64, Known, usize> for RegionRule {
    ghost holds = { λ count s. Ruled count s };

    ghost first = { λ count. idle (Own (numbered 0 (replicate count 0)) None) };
}
