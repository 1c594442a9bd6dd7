// The fast conversion of display light given as floats, of a span and of one pixel: any values under any declared peak. The first pass takes lights from
// floats; all else is that of a span of codes.
ghost use Rattle.std.specs.Prelude.{◌≡◌};
ghost use Rattle.quantity.specs.Component.{red, green, blue};
ghost use Rattle.linear_light.specs.Conversion.{values};
ghost use Rattle.linear_light.specs.Row.{linear_into};
ghost use Rattle.span.specs.Span.{linear_codes_under};

use crate::block::convert_pixels;
use crate::curve::Curve;
use crate::near::near_codes;
use crate::root::root_of;
use crate::row::FloatRow;
use linear_light::light_of_value;
use quantity::Rgb;
use ycbcr::SignalFormat;

// The pixels that fill dst with their HLG codes, converted from the first ones of src: as many whole ones as both have. Other bytes of dst remain. An empty
// span needs no curve.
pub fn convert_linear_span(peak: u64, src: &[f32], dst: &mut [u8])
    ensures { dst.new ≡ linear_into (linear_codes_under peak) src.now dst.old }
{
    let pixels = (src.len() / 3).min(dst.len() / 6);
    if pixels == 0 {
        return;
    }
    let row = FloatRow {
        curve: Curve::of(peak),
        values: src,
    };
    convert_pixels(&row, SignalFormat::Rgb, dst);
}

// The HLG codes of one pixel.
pub fn linear_codes(peak: u64, p: Rgb<f32>) -> Rgb<u64>
    ensures { (result.red ≡ linear_codes_under peak (values p.red p.green p.blue) red)
        × (result.green ≡ linear_codes_under peak (values p.red p.green p.blue) green)
        × (result.blue ≡ linear_codes_under peak (values p.red p.green p.blue) blue) }
{
    let m = Curve::of(peak).map_lights(p.map(|x| light_of_value(x).0));
    near_codes(root_of(m), m)
}
