// The position of a light, by the cell of the light table in which it stands.
ghost use Rattle.std.specs.Prelude.{◌≡◌, ◌<◌, true};
ghost use Rattle.quantity.specs.Units.{ten_thousand};
ghost use Rattle.position.specs.Position.{position_of};
ghost use Rattle.span.specs.Linear.{InCell};

use crate::hints::cell_hint;
use laws::largest;
use pq::light_entry;
use quantity::{DisplayLight, LAST_POSITION, Position, TEN_THOUSAND};

// The position of a light. In its cell it has the most of 256 parts that don't pass it: floor(rise × f / 256) is at most a distance d just where rise × f is
// below 256 (d + 1).
pub(crate) fn position_by_cell(l: DisplayLight) -> Position
    ensures { result.0 ≡ position_of l.0 }
{
    if TEN_THOUSAND <= l.0 {
        return Position(LAST_POSITION);
    }
    let k = cell_of(l.0);
    let low = light_entry(k);
    let next = light_entry(k + 1);
    Position(256 * k + (256 * (l.0 - low.0 + 1) - 1) / (next.0 - low.0))
}

// The cell of a light: the hinted one or the next where the light stands there, nearly always; else by halving.
fn cell_of(l: u64) -> u64
    requires { l < ten_thousand }
    ensures { InCell result l }
{
    let hinted = cell_hint(l);
    if is_cell(hinted, l) {
        return hinted;
    }
    let next = hinted.wrapping_add(1);
    if is_cell(next, l) {
        return next;
    }
    largest(&|k| light_entry(k).0 <= l, 0, 3503)
}

// Whether a light stands in a cell.
fn is_cell(k: u64, l: u64) -> bool
    ensures { result ≡ true → InCell k l }
{
    k < 3504 && light_entry(k).0 <= l && l < light_entry(k + 1).0
}
