// The fast conversion, of a span in either signal format and of one pixel: any samples under any declared peak. What pixels share, the curve of the peak,
// is found once a call.
#![tactic(auto)]

mod block;
mod cell;
mod cell_table;
mod curve;
mod delivery;
mod hint_table;
mod hints;
pub mod linear;
mod mapping;
mod near;
mod root;
mod row;

ghost use Rattle.std.specs.Prelude.{◌≡◌};
ghost use Rattle.quantity.specs.Component.{red, green, blue, pixel, components};
ghost use Rattle.rows.specs.Row.{converted_into};
ghost use Rattle.ycbcr.specs.YCbCr.{luma, cb, cr};
ghost use Rattle.span.specs.Span.{codes_under, delivered_under, hlg_read};

use block::convert_pixels;
use curve::Curve;
use delivery::luma_and_chroma;
use near::near_codes;
use quantity::{Rgb, Source};
use root::root_of;
use row::CodeRow;
use ycbcr::SignalFormat;

// The pixels that fill dst, converted from the first ones of src: as many whole ones as both have. Other bytes of dst remain. An empty span needs
// no curve.
pub fn convert_span(source: Source, format: SignalFormat, src: &[u8], dst: &mut [u8])
    ensures { dst.new ≡ converted_into (delivered_under format source) src.now dst.old }
{
    let pixels = src.len().min(dst.len()) / 6;
    if pixels == 0 {
        return;
    }
    let row = CodeRow {
        curve: Curve::of(source.peak),
        format: source.format,
        codes: src,
    };
    convert_pixels(&row, format, dst);
}

// The HLG codes of one pixel.
pub fn pixel_codes(source: Source, p: Rgb<u64>) -> Rgb<u64>
    ensures { (result.red ≡ codes_under source (components p) red) × (result.green ≡ codes_under source (components p) green)
        × (result.blue ≡ codes_under source (components p) blue) }
{
    let m = Curve::of(source.peak).map_codes(source.format, p);
    near_codes(root_of(m), m)
}

// Luma, Cb and Cr of three RGB codes, in the places of red, green and blue as in a row.
pub fn ycbcr_codes(codes: Rgb<u64>) -> Rgb<u64>
    ensures { (result.red ≡ luma (pixel (hlg_read codes.red) (hlg_read codes.green) (hlg_read codes.blue)))
        × (result.green ≡ cb (pixel (hlg_read codes.red) (hlg_read codes.green) (hlg_read codes.blue)))
        × (result.blue ≡ cr (pixel (hlg_read codes.red) (hlg_read codes.green) (hlg_read codes.blue))) }
{
    luma_and_chroma(codes.map(read_hlg))
}

// A code that HLG does not have is read as the nearer end of those that it has.
fn read_hlg(d: u64) -> u64
    ensures { result ≡ hlg_read d }
{
    d.clamp(64, 1019)
}
