// The highlight curve at a light that has no code: by its position on the light table, and without one where nothing is bent.
ghost use Rattle.std.specs.Prelude.{◌≡◌, ◌≤◌};
ghost use Rattle.quantity.specs.Units.{ten_thousand};
ghost use Rattle.position.specs.Position.{position_of};
ghost use Rattle.eetf.specs.Curve.{peak_read, bent_light};
ghost use Rattle.span.specs.Linear.{knee_light, IsCurve};

use crate::cell::position_by_cell;
use eetf::{knee_curve, read_peak};
use position::light_at;
use pq::light_table;
use quantity::{DisplayLight, Position, THOUSAND, UNITS};

// What the pixels of a call share of the curve: the peak in cd/m2, its position, and the least light that is bent.
#[derive(Clone, Copy)]
pub(crate) struct Curve {
    pub peak: u64,
    pub position: Position,
    pub knee: u64,
    ghost shared: { IsCurve peak position.0 knee },
}

impl Curve {
    // The curve of a declared peak.
    pub(crate) fn of(peak: u64) -> Curve
        ensures { result.peak ≡ peak_read peak }
    {
        let peak = read_peak(peak);
        let position = position_by_cell(DisplayLight(peak * UNITS));
        Curve {
            peak,
            position,
            knee: knee_light(position),
        }
    }

    // M2 of a pixel whose brightest light is l: no position is needed up to the knee, nor under a peak that bends nothing.
    pub(crate) fn bent(self, l: u64) -> u64
        requires { l ≤ ten_thousand }
        ensures { result ≡ bent_light self.peak l (position_of l) }
    {
        if self.peak <= 1000 {
            return l.min(THOUSAND);
        }
        if l < self.knee {
            return l;
        }
        let light = DisplayLight(l);
        knee_curve(light_table(), self.position, light, position_by_cell(light)).0
    }
}

// The light at the least position that a peak with the position w bends.
fn knee_light(w: Position) -> u64
    ensures { result ≡ knee_light w.0 }
{
    let top = 3 * position_by_cell(DisplayLight(THOUSAND)).0 + 1;
    light_at(Position((top - w.0.min(top)) / 2)).0
}
