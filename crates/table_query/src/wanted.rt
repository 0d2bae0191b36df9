//! What the words of a command line ask for of one table.

ghost use Rattle.std.specs.Prelude.{◌≡◌};
ghost use Rattle.table_query.specs.Asked.{usage_in};

/// What is wanted.
#[derive(Debug, Clone, Copy, PartialEq, Eq)]
pub enum Wanted {
    /// The table of its groups, by options that name a plan.
    Groups,
    /// Its rows in order, by `merge COLUMNS N`.
    Order,
}

impl Wanted {
    /// What the line says of words that don't ask for it.
    pub fn usage(self) -> &'static str
        ensures { result.now ≡ usage_in self }
    {
        match self {
            Wanted::Groups => {
                "usage: pargather [--group COLUMNS] --agg ITEMS [--where FILTER] [--workers N] [--plan gather|hash] [--area-pages N]"
            }
            Wanted::Order => "usage: pargather merge COLUMNS N",
        }
    }
}
