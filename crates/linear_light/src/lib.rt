// Display light given as 32-bit floats in cd/m2: the class of a value, its light, and the tests 15, 7, 8 and 16 of a span of a row. A call tests what else
// it refuses and converts what these accept.
#![tactic(auto)]

ghost use Rattle.std.specs.Prelude.{◌≡◌, ◌-◌, ◌*◌, ◌/◌, ◌^◌, ◌≤◌, min, true, false, length};
ghost use Rattle.std.specs.Float.Ieee.{lt};
ghost use Rattle.quantity.specs.Units.{units};
ghost use Rattle.rows.specs.Answer.{before};
ghost use Rattle.linear_light.specs.LinearLight.{no_light, most_light, class_of, finite, class_answer, counted_as, magnitude, whole_light};
ghost use Rattle.linear_light.specs.Row.{first_not_finite, linear_span_answer};

use quantity::{DisplayLight, Rgb};
use refusal::Refusal;
use rows::elements::test_elements;
use std::num::truncating_f64_to_u64;
use std::ops::Range;

// A linear pixel as it is read, before its values are classed.
pub type LinearPixel = Rgb<f32>;

// A value from 0 to 10,000 cd/m2, below or above; each with the value as given.
#[derive(Clone, Copy)]
pub enum LightClass {
    Light(f32),
    Negative(f32),
    TooBright(f32),
}

impl LightClass {
    fn of(x: f32) -> LightClass
        ensures { result ≡ class_of x }
    {
        if x < 0.0 {
            LightClass::Negative(x)
        } else if 10000.0 < x {
            LightClass::TooBright(x)
        } else {
            LightClass::Light(x)
        }
    }

    // The value that it counts as.
    fn counted(self) -> f32
        ensures { result ≡ counted_as self }
    {
        match self {
            LightClass::Light(x) => x,
            LightClass::Negative(_) => 0.0,
            LightClass::TooBright(_) => 10000.0,
        }
    }
}

// The class of one value. Refuses 16, with place 0.
#[tactic(auto, unfolding(crate::specs::LinearLight::class_answer))]
pub fn class_of_value(x: f32) -> Result<LightClass, Refusal>
    ensures { result ≡ class_answer x }
{
    if !is_finite(x) {
        return Err(Refusal::NotFinite(0));
    }
    Ok(LightClass::of(x))
}

// The light of a value as it counts, in whole units. What is no number has none, and an infinity counts as the end that it lies past.
pub fn light_of_value(x: f32) -> DisplayLight
    ensures { result.0 ≡ whole_light x }
{
    DisplayLight(whole_light(LightClass::of(x).counted()))
}

// The whole part of the exact product with 16,777,216: 64 bits hold the product of every 32-bit float with that power of two unrounded.
fn whole_light(x: f32) -> u64
    requires { (lt x no_light ≡ false) × (lt most_light x ≡ false) }
    ensures { result ≡ magnitude x * units / 2 ^ 149 }
{
    if 0.0 < x {
        return truncating_f64_to_u64((x as f64) * 16777216.0);
    }
    0
}

// Whether a value is a number.
pub fn is_finite(x: f32) -> bool
    ensures { result ≡ finite x }
{
    x.is_finite()
}

// Tests 15, 7, 8 and 16 in their order, for the pixels of a span of a row and a destination of so many bytes.
pub fn test_linear_span(row: &[f32], bytes: usize, span: Range<usize>) -> Result<(), Refusal>
    ensures { result ≡ linear_span_answer row.now bytes span.start span.end }
{
    test_elements(Refusal::ValueCount, row.len(), bytes, span.start..span.end)?;
    match first_not_finite(row, 3 * span.start..3 * span.end) {
        Some(i) => Err(Refusal::NotFinite(i as u64)),
        None => Ok(()),
    }
}

// The first value of a part of a row that is infinite or no number. A call of its own, as `rows::first_refused` is.
#[inline(never)]
pub fn first_not_finite(row: &[f32], values: Range<usize>) -> Option<usize>
    ensures { let end = min values.end (length row.now) in
        result ≡ before end (first_not_finite row.now values.start (end - values.start)) }
{
    for i in values.start..values.end.min(row.len()) {
        if !is_finite(row[i]) {
            return Some(i);
        }
    }
    None
}
