// The conversion of a span of captions, and of one pixel. A pixel that equals the one before it takes over its codes: captions are mostly such pixels.
ghost use Rattle.std.specs.Prelude.{◌≡◌, ◌<◌};
ghost use Rattle.quantity.specs.Component.{pixel, components};
ghost use Rattle.rows.specs.Row.{pixel_bytes};
ghost use Rattle.rows.specs.Element.{elements_into};
ghost use Rattle.srgb.specs.Conversion.{caption_codes};
ghost use Rattle.srgb_hlg.specs.Codes.{HasCodes};

use crate::scene::{BLUE, GREEN, RED};
use quantity::Rgb;
use quantity::kept::Kept;
use rows::pixel_bytes;
use srgb::light_table;

// The pixels that fill dst, converted from the first ones of src: as many whole ones as both have. Other bytes of dst remain.
pub(crate) fn convert_span(src: &[u8], dst: &mut [u8])
    ensures { dst.new ≡ elements_into pixel 0 caption_codes src.now dst.old }
{
    let pixels = (src.len() / 3).min(dst.len() / 6);
    let mut last = coded_black();
    for (j, bytes) in src[..3 * pixels].chunks_exact(3).enumerate() {
        let pixel = Rgb {
            red: u64::from(bytes[0]),
            green: u64::from(bytes[1]),
            blue: u64::from(bytes[2]),
        };
        last = last.next(pixel, coded);
        // by its place: after `chunks_exact_mut` no proof knows the bytes, so this one did not close
        dst[6 * j..6 * j + 6].copy_from_slice(&last.found);
    }
}

// Black, which is black in HLG.
fn coded_black() -> Kept<[u8; 6]>
    ensures { result.found ≡ pixel_bytes (caption_codes (components result.pixel)) }
{
    Kept {
        pixel: Rgb {
            red: 0,
            green: 0,
            blue: 0,
        },
        found: [0, 64, 0, 64, 0, 64],
    }
}

// The bytes of a pixel's codes.
fn coded(p: Rgb<u64>) -> [u8; 6]
    requires { (p.red < 256) × (p.green < 256) × (p.blue < 256) }
    ensures { result ≡ pixel_bytes (caption_codes (components p)) }
{
    let codes = codes_of(p);
    pixel_bytes(Rgb {
        red: codes.red as u16,
        green: codes.green as u16,
        blue: codes.blue as u16,
    })
}

// The codes of a pixel of values.
pub(crate) fn codes_of(p: Rgb<u64>) -> Rgb<u64>
    requires { (p.red < 256) × (p.green < 256) × (p.blue < 256) }
    ensures { HasCodes p.red p.green p.blue result.red result.green result.blue }
{
    let table = light_table();
    let lights = Rgb {
        red: table[p.red as usize],
        green: table[p.green as usize],
        blue: table[p.blue as usize],
    };
    Rgb {
        red: RED.code(lights),
        green: GREEN.code(lights),
        blue: BLUE.code(lights),
    }
}
