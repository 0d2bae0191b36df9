//! How the table of a query ends.

ghost use Rattle.std.specs.Prelude.{◌≡◌, ◌≤◌, [], map, vec_capacity, vec_len};
ghost use Rattle.dshash_parts.specs.Ending.{IsOf, left_of, whole_of};
ghost use Rattle.agg_table.specs.Ending.{AreSeats, IsClosed};
ghost use Rattle.agg_table.specs.Shown.{IsPart};

use crate::part::{HashPart, HashSeat};
use agg_cell::AggObject;
use dsa_area::AreaPass;
use dshash_parts::{ClosedTable, DsPass};

/// Takes the participants' passes apart, in order.
fn take_apart(
    seats: Vec<HashSeat>,
    mut tables: Vec<DsPass<AggObject>>,
    mut areas: Vec<AreaPass>,
) -> (Vec<DsPass<AggObject>>, Vec<AreaPass>)
    requires tables { (tables.items ≡ []) × (vec_len seats ≤ vec_capacity tables) }
    requires areas { (areas.items ≡ []) × (vec_len seats ≤ vec_capacity areas) }
    ensures tables { result.0.items ≡ map (λ s. s.table) seats.items }
    ensures areas { result.1.items ≡ map (λ s. s.area) seats.items }
{
    for seat in seats {
        let HashSeat { area, table } = seat;
        tables.push_reserved(table);
        areas.push_reserved(area);
    }
    (tables, areas)
}

impl HashPart {
    /// Ends the table, whose items stay in the area's words. It takes the passes of all participants, in order of their
    /// numbers, and gives those of the area back. It takes no memory: the two lists that it fills have room.
    pub fn close(
        self,
        seats: Vec<HashSeat>,
        tables: Vec<DsPass<AggObject>>,
        areas: Vec<AreaPass>,
    ) -> (ClosedTable<AggObject>, Vec<AreaPass>)
        requires part { (region : _) × IsPart region self }
        requires seats { AreSeats self seats.items }
        requires tables { (tables.items ≡ []) × (vec_len seats ≤ vec_capacity tables) }
        requires areas { (areas.items ≡ []) × (vec_len seats ≤ vec_capacity areas) }
        ensures closed { IsClosed self seats.items (whole_of result.0) }
        ensures left { left_of result.0 ≡ 128 }
        ensures parts { (region : _) → IsPart region self → IsOf region self.table result.0 }
        ensures areas { result.1.items ≡ map (λ s. s.area) seats.items }
    {
        let (tables, areas) = take_apart(seats, tables, areas);
        let HashPart { area, table } = self;
        drop(area);
        (table.close(tables), areas)
    }
}
