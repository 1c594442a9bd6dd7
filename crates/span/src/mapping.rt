// A pixel's mapped components under a curve, by the lights of codes or by given ones.
ghost use Rattle.std.specs.Prelude.{◌≡◌, ◌≤◌};
ghost use Rattle.quantity.specs.Units.{thousand, ten_thousand};
ghost use Rattle.quantity.specs.declared.sample_format.Depth.TheVariants.{Ten};
ghost use Rattle.quantity.specs.declared.sample_format.Range.TheVariants.{Narrow};
ghost use Rattle.quantity.specs.SampleFormat.{coded};
ghost use Rattle.quantity.specs.Component.{Component, components, brightest};
ghost use Rattle.position.specs.Code.{code_light, above_black};
ghost use Rattle.eetf.specs.Curve.{mapped_light};
ghost use Rattle.pixel.specs.Conversion.{lights, brightest_position, mapped};
ghost use Rattle.span.specs.Linear.{mapped_lights};

use crate::curve::Curve;
use crate::hints::{divided_factor, factor_hint};
use eetf::{bent_light, map_component};
use position::code::{code_position, light_of_code};
use pq::{light_entry, light_table};
use quantity::sample_format::{Depth, Range, SampleFormat};
use quantity::{DisplayLight, Position, Rgb};
use words::{is_quotient, upper_word};

impl Curve {
    // The mapped components of a pixel of codes, by its lights and the curve at the brightest of them.
    pub(crate) fn map_codes(self, format: SampleFormat, p: Rgb<u64>) -> Rgb<u64>
        ensures { components result ≡ mapped (record { peak = self.peak; format = format }) (components p) }
    {
        let x = pixel_lights(format, p);
        let m1 = x.lights.brightest();
        let light = DisplayLight(m1);
        let m2 = bent_light(light_table(), self.peak, self.position, light, x.position).0;
        scaled_lights(x.lights, m1, m2, || factor_hint(x.position.0, m1, m2))
    }

    // The mapped components of three lights, by the curve at the brightest of them.
    pub(crate) fn map_lights(self, x: Rgb<u64>) -> Rgb<u64>
        requires { (i : Component) → components x i ≤ ten_thousand }
        ensures { components result ≡ mapped_lights self.peak (components x) }
    {
        let m1 = x.brightest();
        let m2 = self.bent(m1);
        scaled_lights(x, m1, m2, || divided_factor(m1, m2))
    }
}

// Three lights after the brightest of them, m1, became m2. Where nothing is bent they stay, and no guess is made.
fn scaled_lights<F: FnOnce() -> u64>(x: Rgb<u64>, m1: u64, m2: u64, factor: F) -> Rgb<u64>
    requires callable { F.IsAlwaysCallable factor }
    requires lights { (m1 ≡ brightest (components x)) × (m1 ≤ ten_thousand) × (m2 ≤ thousand) }
    ensures { (i : Component) → components result i ≡ mapped_light (components x i) m1 m2 }
{
    if m1 == m2 {
        return x;
    }
    let guess = factor();
    Rgb {
        red: scaled(x.red, m1, m2, guess),
        green: scaled(x.green, m1, m2, guess),
        blue: scaled(x.blue, m1, m2, guess),
    }
}

// floor(c × m2 / m1) by a guess of 2^62 m2 / m1: a quotient that fails its test is divided out.
fn scaled(c: u64, m1: u64, m2: u64, factor: u64) -> u64
    requires { (c ≤ m1) × (m1 ≤ ten_thousand) × (m2 ≤ thousand) }
    ensures { result ≡ mapped_light c m1 m2 }
{
    let q = upper_word(4 * c, factor);
    if is_quotient(q, c, m1, m2) {
        return q;
    }
    map_component(DisplayLight(c), DisplayLight(m1), DisplayLight(m2)).0
}

// The lights of a pixel's codes, in units, and the position of the brightest code.
#[derive(Clone, Copy)]
struct PixelLights {
    lights: Rgb<u64>,
    position: Position,
}

fn pixel_lights(format: SampleFormat, p: Rgb<u64>) -> PixelLights
    ensures { ((i : Component) → components result.lights i ≡ code_light format (components p i))
        × (result.position.0 ≡ brightest_position format (components p)) }
{
    match (format.range, format.depth) {
        (Range::Narrow, Depth::Ten) => ten_bit_narrow_lights(p),
        _ => coded_lights(format, p),
    }
}

fn coded_lights(format: SampleFormat, p: Rgb<u64>) -> PixelLights
    ensures { ((i : Component) → components result.lights i ≡ code_light format (components p i))
        × (result.position.0 ≡ brightest_position format (components p)) }
{
    PixelLights {
        lights: p.map(|d| light_of_code(format, d).0),
        position: code_position(format, p.brightest()),
    }
}

// The same in ten bits and narrow range, by that format's own numbers: code by code as above, a row takes 4 % longer.
fn ten_bit_narrow_lights(p: Rgb<u64>) -> PixelLights
    ensures { ((i : Component) → components result.lights i ≡ code_light (coded Ten Narrow) (components p i))
        × (result.position.0 ≡ brightest_position (coded Ten Narrow) (components p)) }
{
    PixelLights {
        lights: p.map(ten_bit_light),
        position: Position(1024 * ten_bit_above(p.brightest())),
    }
}

fn ten_bit_light(d: u64) -> u64
    ensures { result ≡ code_light (coded Ten Narrow) d }
{
    light_entry(4 * ten_bit_above(d)).0
}

// How many codes a ten-bit narrow-range code lies above black.
fn ten_bit_above(d: u64) -> u64
    ensures { (result ≡ above_black (coded Ten Narrow) d) × (result ≤ 876) }
{
    d.clamp(64, 940) - 64
}
