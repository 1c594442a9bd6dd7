// The PQ inverse EOTF: the code of a display light, in ten bits and narrow range.
#![tactic(auto)]

mod thresholds; // thresholds.rt: the constant

ghost use Rattle.std.specs.Prelude.{◌≡◌};
ghost use Rattle.inverse_eotf.specs.Code.{threshold_in, pq_code};
ghost use Rattle.inverse_eotf.specs.ThresholdTable.{threshold_table};

use laws::largest;
use quantity::{DisplayLight, nearest_entry};

// The PQ code of a light, 64 to 940; a light past 10,000 cd/m2 has the last one.
pub fn pq_code_of(light: DisplayLight) -> u64
    ensures { result ≡ pq_code light.0 }
{
    largest(
        &|d| threshold_in(threshold_table(), d).0 <= light.0,
        64,
        940,
    )
}

// The entry of code d in any table; a code below 65 or above 940 reads the nearer end.
pub fn threshold_in(table: &[u64; 876], d: u64) -> DisplayLight
    ensures { result.0 ≡ threshold_in table.now d }
{
    DisplayLight(nearest_entry(table, d.saturating_sub(65)))
}

// The table.
pub fn threshold_table() -> &'static [u64; 876]
    ensures { result.now ≡ threshold_table }
{
    &thresholds::TABLE
}
