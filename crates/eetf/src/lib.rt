// The highlight curve (maxRGB EETF) and the components it maps. Lights in units of 1/16,777,216 cd/m2, positions in 1/897,024 of the PQ signal.
#![tactic(auto)]

ghost use Rattle.std.specs.Prelude.{◌≡◌, min, ◌+◌, ◌*◌, ◌≤◌, ◌<◌};
ghost use Rattle.quantity.specs.Units.{thousand, ten_thousand, last_position};
ghost use Rattle.pq.specs.Pq.{entry_in};
ghost use Rattle.position.specs.Position.{position_of};
ghost use Rattle.eetf.specs.Curve.{peak_read, peak_position_read, spline, knee_curve, bent_light_in, bent_light, mapped_light};

use position::{light_in, position_of};
use pq::light_table;
use quantity::{DisplayLight, LAST_POSITION, Position, TEN_THOUSAND, THOUSAND, UNITS};

// t, the position of 1,000 cd/m2, and that of 1,001, the lowest peak that bends.
const THOUSAND_POSITION: u64 = 674406;

const LOWEST_PEAK_POSITION: u64 = 674504;

// M2 of a pixel with the brightest light m1 and the position m of its brightest code, under a declared peak in cd/m2.
#[tactic(auto, unfolding(quantity::specs::Units::units), using(crate::proofs::CurveLaws::bent_on_light_table))]
pub fn highlight_curve(peak: u64, m1: DisplayLight, m: Position) -> DisplayLight
    ensures { result.0 ≡ bent_light (peak_read peak) (min m1.0 ten_thousand) (min m.0 last_position) }
{
    let read = read_peak(peak);
    let w = position_of(DisplayLight(read * UNITS));
    bent_light(light_table(), read, w, m1, m)
}

// The same on any light table, under a peak whose position is w: a peak up to 1,000 cd/m2 bends nothing, and no more than that is shown.
#[tactic(auto, unfolding(quantity::specs::Units::units, quantity::specs::Units::thousand, quantity::specs::Units::ten_thousand))]
pub fn bent_light(
    lights: &[u64; 3505],
    peak: u64,
    w: Position,
    m1: DisplayLight,
    m: Position,
) -> DisplayLight
    ensures { result.0 ≡ bent_light_in (entry_in lights.now) peak (peak_position_read w.0) (min m1.0 ten_thousand) (min m.0 last_position) }
{
    if peak <= 1000 {
        return DisplayLight(m1.0.min(THOUSAND));
    }
    knee_curve(lights, w, m1, m)
}

// A declared peak as it is read: whole cd/m2 from 1 to 10,000.
pub fn read_peak(peak: u64) -> u64
    ensures { result ≡ peak_read peak }
{
    peak.clamp(1, 10000)
}

// M2 under a peak above 1,000 cd/m2 whose position is w, on any light table: M1 below the knee, then the light at the spline. Above the
// peak the curve stays at its end.
pub fn knee_curve(lights: &[u64; 3505], w: Position, m1: DisplayLight, m: Position) -> DisplayLight
    ensures { result.0 ≡ knee_curve (entry_in lights.now) (position_of thousand) (peak_position_read w.0) (min m1.0 ten_thousand)
        (min m.0 last_position) }
{
    let end = w.0.clamp(LOWEST_PEAK_POSITION, LAST_POSITION);
    let at = m.0.min(end);
    if 2 * at + end < 3 * THOUSAND_POSITION {
        return DisplayLight(m1.0.min(TEN_THOUSAND));
    }
    light_in(lights, Position(spline_position(end, at)))
}

// floor(t − 4(w − m)³ / (27(w − t)²)), from the knee to the peak. The minuend stays below 2^60.
fn spline_position(w: u64, m: u64) -> u64
    requires { (674504 ≤ w) × (w ≤ 897024) × (m ≤ w) × (3 * 674406 ≤ 2 * m + w) }
    ensures { result ≡ spline 674406 w m }
{
    let a = w - m;
    let b = w - THOUSAND_POSITION;
    let square = 27 * (b * b);
    (square * THOUSAND_POSITION - 4 * (a * a * a)) / square
}

// A component light c after the pixel's brightest light m1 became m2. No component is brighter than the brightest, and no bent light
// than 1,000 cd/m2: what is past that reads the end.
#[tactic(auto, unfolding(quantity::specs::Units::units, quantity::specs::Units::thousand, quantity::specs::Units::ten_thousand))]
pub fn map_component(c: DisplayLight, m1: DisplayLight, m2: DisplayLight) -> DisplayLight
    ensures { result.0 ≡ mapped_light (min c.0 (min m1.0 ten_thousand)) (min m1.0 ten_thousand) (min m2.0 thousand) }
{
    let brightest = m1.0.min(TEN_THOUSAND);
    if brightest == 0 {
        return DisplayLight(0);
    }
    DisplayLight(scale(c.0.min(brightest), brightest, m2.0.min(THOUSAND)))
}

// floor(c × m2 / m1). The product can pass 64 bits, so m2 is split at bit 17 and the first division's remainder goes into the second.
fn scale(c: u64, m1: u64, m2: u64) -> u64
    requires { (0 < m1) × (m1 ≤ ten_thousand) × (c ≤ m1) × (m2 ≤ ten_thousand) }
    ensures { result ≡ mapped_light c m1 m2 }
{
    let upper = c * (m2 / 131072);
    let lower = c * (m2 % 131072);
    upper / m1 * 131072 + (upper % m1 * 131072 + lower) / m1
}
