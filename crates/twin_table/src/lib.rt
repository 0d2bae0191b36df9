//! The handle of a table that lies elsewhere, as two addresses of this process.

#![tactic(auto)]

ghost use Rattle.std.specs.Prelude.{◌≡◌, []};
ghost use Rattle.atomic_table.specs.Seated.{TableId, table_id_coded, table_shares};

use atomic_table::{Shared, TableRule};
use std::marker::{Model, PhantomData};

/// Where the words and the slots of a table lie, for a table that is never closed. It may be made anew from the two
/// addresses, and holds nothing but them.
#[derive(Drop)]
pub struct Twin<S, V, K, P: TableRule<S, V, K>> {
    /// Where the words are.
    pub words: *mut u64,
    /// Where the slots are.
    pub slots: *mut S,
    /// Of which rule the table is.
    pub marker: PhantomData<(P, V, K)>,
    pub ghost table_id: { TableId } by { table_id_coded },
    pub ghost key: { K },
}

impl<S, V, K, P: TableRule<S, V, K>> Model for Twin<S, V, K, P> {
    ghost also_owns = { λ t. table_shares S.row V.row.coded.code (P.holds t.key) t.words t.slots t.table_id [] };

    ghost also_shares = { λ t _ κ. table_shares S.row V.row.coded.code (P.holds t.key) t.words t.slots t.table_id κ };
}

impl<S, V, K, P: TableRule<S, V, K>> Twin<S, V, K, P> {
    /// The table, by these addresses.
    pub fn shared(&self) -> &Shared<S, V, K, P>
        ensures { (result.now.table_id ≡ self.now.table_id) × (result.now.key ≡ self.now.key) }
    {
        let at = self as *const Twin<S, V, K, P> as *const Shared<S, V, K, P>;
        unsafe { &*at }
    }

    /// The two addresses of a table that is shared for good.
    pub fn of(table: &'static Shared<S, V, K, P>) -> Twin<S, V, K, P>
        ensures { (result.table_id ≡ table.now.table_id) × (result.key ≡ table.now.key) }
    {
        let at = table as *const Shared<S, V, K, P> as *const Twin<S, V, K, P>;
        let words = unsafe { (*at).words };
        let slots = unsafe { (*at).slots };
        Twin {
            words,
            slots,
            marker: PhantomData,
        }
    }
}

unsafe impl<S: Send, V, K, P: TableRule<S, V, K>> Send for Twin<S, V, K, P> {}

unsafe impl<S: Send, V, K, P: TableRule<S, V, K>> Sync for Twin<S, V, K, P> {}
