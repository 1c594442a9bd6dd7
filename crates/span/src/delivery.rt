// What is delivered of a pixel's HLG codes in a signal format, and the bytes of it.
ghost use Rattle.std.specs.Prelude.{◌≡◌, ◌≤◌, length};
ghost use Rattle.quantity.specs.Component.{Component, components};
ghost use Rattle.rows.specs.Row.{pixel_bytes};
ghost use Rattle.ycbcr.specs.YCbCr.{ycbcr};
ghost use Rattle.ycbcr.specs.Delivery.{in_format};
ghost use Rattle.span.specs.Block.{IsShown, HasRoot, AreCodes, samples_of};

use crate::near::near_codes;
use quantity::Rgb;
use ycbcr::SignalFormat;

// The samples of what is delivered of mapped components, by the root of their luminance where one was found.
pub(crate) fn coded_samples(format: SignalFormat, root: Option<u64>, m: Rgb<u64>) -> Rgb<u64>
    requires { IsShown m × HasRoot root m }
    ensures { components result ≡ samples_of format (components m) }
{
    samples_in(format, near_codes(root, m))
}

// The six bytes of three samples, each high byte first. By `pixel_bytes` and `copy_from_slice` a row of random pixels takes 3 % more instructions.
pub(crate) fn write_samples(samples: Rgb<u64>, dst: &mut [u8])
    requires { (length dst.old ≡ 6) × (samples.red ≤ 1019) × (samples.green ≤ 1019) × (samples.blue ≤ 1019) }
    ensures { dst.new ≡ pixel_bytes (components samples) }
{
    dst[0] = (samples.red / 256) as u8;
    dst[1] = (samples.red % 256) as u8;
    dst[2] = (samples.green / 256) as u8;
    dst[3] = (samples.green % 256) as u8;
    dst[4] = (samples.blue / 256) as u8;
    dst[5] = (samples.blue % 256) as u8;
}

// The samples of HLG codes in a format.
fn samples_in(format: SignalFormat, codes: Rgb<u64>) -> Rgb<u64>
    requires { AreCodes codes }
    ensures { components result ≡ in_format format (components codes) }
{
    match format {
        SignalFormat::Rgb => codes,
        SignalFormat::YCbCr => luma_and_chroma(codes),
    }
}

// 112 times BT.2100's weights of red, green and blue, and 112 times the 10,000 that they add up to.
const RED: u32 = 112 * 2627;

const GREEN: u32 = 112 * 6780;

const BLUE: u32 = 112 * 593;

const WHOLE: u32 = 112 * 10000;

// The denominators of Cb and Cr, and 512 and a half of each, rounded down.
const CB_PARTS: u32 = 2060133;

const CB_MIDDLE: u32 = 1055818162;

const CR_PARTS: u32 = 1614687;

const CR_MIDDLE: u32 = 827527087;

// Luma, Cb and Cr of HLG codes, each to the nearest by adding a half and rounding down, in the places of red, green and blue as in a row.
// 896 (B' - Y') / 1.8814 is 112 (10,000 B - the weighted sum) / 2,060,133, and Cr alike, so that 112 times the sum serves all three. The weights add up
// to 10,000: black's 64 comes out as 64 of luma and drops out of a chroma, and codes need not be taken less 64. The denominators are odd: no chroma lies
// on a half. All fits 32 bits, in which a division by a constant is one product.
pub(crate) fn luma_and_chroma(codes: Rgb<u64>) -> Rgb<u64>
    requires { AreCodes codes }
    ensures { components result ≡ ycbcr (components codes) }
{
    let r = codes.red as u32;
    let g = codes.green as u32;
    let b = codes.blue as u32;
    let y = RED * r + GREEN * g + BLUE * b;
    Rgb {
        red: ((y + WHOLE / 2) / WHOLE) as u64,
        green: ((WHOLE * b + CB_MIDDLE - y) / CB_PARTS) as u64,
        blue: ((WHOLE * r + CR_MIDDLE - y) / CR_PARTS) as u64,
    }
}
