// The fast conversion from HLG to PQ, of a span and of one pixel: any samples.
#![tactic(auto)]

mod block;
mod hint_table;
mod hints;
mod near;
mod root;
mod scene;

ghost use Rattle.std.specs.Prelude.{◌≡◌, ◌*◌, ◌/◌, length};
ghost use Rattle.return_pixel.specs.Conversion.{pq_codes};
ghost use Rattle.rows.specs.Row.{span_bytes, converted_into};
ghost use Rattle.return_span.specs.Codes.{HasCodes};

use block::{BYTES, DARK, PIXELS, code_pixels, root_pixels};
use quantity::Rgb;
use scene::Rooted;

// The pixels that fill dst, converted from the first ones of src: as many whole ones as both have. Other bytes of dst remain. An empty span needs
// no block.
pub fn convert_span(src: &[u8], dst: &mut [u8])
    ensures { dst.new ≡ converted_into pq_codes src.now dst.old }
{
    let bytes = src.len().min(dst.len()) / 6 * 6;
    if bytes == 0 {
        return;
    }
    convert_blocks(&src[..bytes], &mut dst[..bytes]);
}

// The PQ codes of one pixel, 64 to 779 each.
pub fn pixel_codes(p: Rgb<u64>) -> Rgb<u64>
    ensures { HasCodes p.red p.green p.blue result.red result.green result.blue }
{
    Rooted::of(p).codes()
}

// Whole pixels, converted block by block.
fn convert_blocks(src: &[u8], dst: &mut [u8])
    requires { (length dst.old ≡ length src.now) × (length src.now ≡ 6 * (length src.now / 6)) }
    ensures { dst.new ≡ span_bytes pq_codes src.now 0 (length src.now / 6) }
{
    let mut block = [DARK; PIXELS];
    for (k, bytes) in src.chunks(BYTES).enumerate() {
        let from = BYTES * k; // by its place: after `chunks_mut` no proof knows the bytes, so this one did not close
        root_pixels(bytes, &mut block);
        code_pixels(&block, bytes, &mut dst[from..from + bytes.len()]);
    }
}
