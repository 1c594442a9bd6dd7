// The PQ EOTF as a table of light, and the one way into it.
#![tactic(auto)]

mod table;

ghost use Rattle.std.specs.Prelude.{◌≡◌, min};
ghost use Rattle.pq.specs.Pq.{entry_in, IsEntry};
ghost use Rattle.pq.specs.LightTable.{light_table, light_entry};

use quantity::{DisplayLight, nearest_entry};
use table::LIGHT_TABLE;

// P[k]: the light of the PQ signal k/3504 to the nearest whole unit.
pub fn light_entry(k: u64) -> DisplayLight
    ensures { (result.0 ≡ light_entry k) × IsEntry (min k 3504) result.0 }
{
    entry_in(light_table(), k)
}

// Entry k of any table; an index past it reads its last entry.
pub fn entry_in(table: &[u64; 3505], k: u64) -> DisplayLight
    ensures { result.0 ≡ entry_in table.now k }
{
    DisplayLight(nearest_entry(table, k))
}

// The table.
pub fn light_table() -> &'static [u64; 3505]
    ensures { result.now ≡ light_table }
{
    &LIGHT_TABLE
}
