// The position of a light, and the lights of positions. The calls ending in `_in` read any table, the others the light table.
#![tactic(auto)]

pub mod code;

ghost use Rattle.std.specs.Prelude.{◌≡◌, ◌*◌, ◌/◌, ◌≤◌, ◌<◌};
ghost use Rattle.pq.specs.Pq.{entry_in};
ghost use Rattle.position.specs.Position.{light_at_in, light_at, position_of};

use laws::largest;
use pq::{entry_in, light_table};
use quantity::{DisplayLight, LAST_POSITION, Position};

// The position of a light: the largest whose light doesn't exceed it. A light past 10,000 cd/m2 has the last one.
pub fn position_of(l: DisplayLight) -> Position
    ensures { result.0 ≡ position_of l.0 }
{
    Position(largest(&|d| light_at(Position(d)).0 <= l.0, 0, LAST_POSITION))
}

// The light at a position: in a straight line from one entry to the next, rounded down.
pub fn light_at(q: Position) -> DisplayLight
    ensures { result.0 ≡ light_at q.0 }
{
    light_in(light_table(), q)
}

// The same on any table.
pub fn light_in(table: &[u64; 3505], q: Position) -> DisplayLight
    ensures { result.0 ≡ light_at_in (entry_in table.now) q.0 }
{
    let k = q.0 / 256;
    let low = entry_in(table, k);
    let high = entry_in(table, k + 1);
    if high.0 <= low.0 {
        return low;
    }
    DisplayLight(low.0 + interpolate(high.0 - low.0, q.0 % 256))
}

// f of the 256 parts of a rise, rounded down. Their product may pass 64 bits, so the rise is split at 256.
fn interpolate(rise: u64, f: u64) -> u64
    requires { f < 256 }
    ensures { (result ≡ rise * f / 256) × (result ≤ rise) }
{
    rise / 256 * f + rise % 256 * f / 256
}
