// The rows that a span is converted from: of codes, and of floats.
ghost use Rattle.std.specs.Prelude.{◌≡◌, ℕ, ◌/◌, ◌<◌, ◌≤◌, length};
ghost use Rattle.quantity.specs.Units.{thousand, ten_thousand};
ghost use Rattle.quantity.specs.SampleFormat.{black};
ghost use Rattle.quantity.specs.Component.{Component, Pixel, pixel, components};
ghost use Rattle.pixel.specs.Conversion.{mapped};
ghost use Rattle.pixel.proofs.PixelLaws.{mapped_at_most, lights_mapped_at_most};
ghost use Rattle.rows.specs.Row.{pixel_at};
ghost use Rattle.linear_light.specs.Conversion.{lights_of};
ghost use Rattle.linear_light.specs.Row.{linear_at};
ghost use Rattle.span.specs.Linear.{mapped_lights};
ghost use Rattle.span.specs.Dark.{black_mapped, zero_mapped, no_light_mapped};

use crate::curve::Curve;
use linear_light::light_of_value;
use quantity::Rgb;
use quantity::sample_format::SampleFormat;
use rows::pixel_of;

// A row of pixels, each given by three numbers that are mapped to components in units.
pub(crate) trait Row {
    ghost pixels: { Self → ℕ };

    ghost given: { Self → ℕ → Pixel };

    ghost mapping: { Self → Pixel → Pixel };

    ghost number_of_black: { Self → ℕ };

    // How many pixels it has.
    fn count(&self) -> usize
        ensures { result ≡ pixels self.now };

    // The numbers of pixel j.
    fn at(&self, j: usize) -> Rgb<u64>
        requires { j < pixels self.now }
        ensures given { components result ≡ given self.now j }
        ensures bounds { (i : Component) → components result i ≤ ten_thousand };

    // The mapped components of such numbers.
    fn map(&self, p: Rgb<u64>) -> Rgb<u64>
        requires { (i : Component) → components p i ≤ ten_thousand }
        ensures { components result ≡ mapping self.now (components p) };

    // The number of black, as pictures have it: a block that begins with black pixels takes them over.
    fn black(&self) -> u64
        ensures { result ≡ number_of_black self.now };

    // three numbers of 0 are black, and so are three of black's; no mapped component is above 1,000 cd/m2
    ghost dark: { (row : Self) → mapping row (pixel 0 0 0) ≡ pixel 0 0 0 };

    ghost black_dark: { (row : Self) → mapping row (pixel (number_of_black row) (number_of_black row) (number_of_black row)) ≡ pixel 0 0 0 };

    ghost shown: { (row : Self) (p : Pixel) (i : Component) → mapping row p i ≤ thousand };
}

// A row of bytes: codes of a format, under the curve of their source.
#[derive(Clone, Copy)]
pub(crate) struct CodeRow<'a> {
    pub curve: Curve,
    pub format: SampleFormat,
    pub codes: &'a [u8],
}

impl<'a> Row for CodeRow<'a> {
    ghost pixels = { λ row. length row.codes.now / 6 };

    ghost given = { λ row j. pixel_at row.codes.now j };

    ghost mapping = { λ row. mapped (record { peak = row.curve.peak; format = row.format }) };

    ghost number_of_black = { λ row. black row.format };

    fn count(&self) -> usize {
        self.codes.len() / 6
    }

    fn at(&self, j: usize) -> Rgb<u64> {
        pixel_of(&self.codes[6 * j..6 * j + 6])
    }

    fn map(&self, p: Rgb<u64>) -> Rgb<u64> {
        self.curve.map_codes(self.format, p)
    }

    fn black(&self) -> u64 {
        self.format.black_code()
    }

    ghost dark = { λ row. zero_mapped (record { peak = row.curve.peak; format = row.format }) };

    ghost black_dark = { λ row. black_mapped (record { peak = row.curve.peak; format = row.format }) };

    ghost shown = { λ row p i. mapped_at_most (record { peak = row.curve.peak; format = row.format }) p i };
}

// A row of floats in cd/m2, under a curve.
#[derive(Clone, Copy)]
pub(crate) struct FloatRow<'a> {
    pub curve: Curve,
    pub values: &'a [f32],
}

impl<'a> Row for FloatRow<'a> {
    ghost pixels = { λ row. length row.values.now / 3 };

    ghost given = { λ row j. lights_of (linear_at row.values.now j) };

    ghost mapping = { λ row. mapped_lights row.curve.peak };

    ghost number_of_black = { λ row. 0 };

    fn count(&self) -> usize {
        self.values.len() / 3
    }

    fn at(&self, j: usize) -> Rgb<u64> {
        Rgb {
            red: light_of_value(self.values[3 * j]).0,
            green: light_of_value(self.values[3 * j + 1]).0,
            blue: light_of_value(self.values[3 * j + 2]).0,
        }
    }

    fn map(&self, p: Rgb<u64>) -> Rgb<u64> {
        self.curve.map_lights(p)
    }

    fn black(&self) -> u64 {
        0
    }

    ghost dark = { λ row. no_light_mapped row.curve.peak };

    ghost black_dark = { λ row. no_light_mapped row.curve.peak };

    ghost shown = { λ row p i. lights_mapped_at_most row.curve.peak p i };
}
