// A block of up to 64 pixels of a span, in two passes: scene lights and roots of their luminances, then codes. A code waits for its root; within a pass no
// pixel waits for another, so a processor works on several at once. A pixel that equals the one before it takes over what that was given: flat areas are
// mostly such pixels.
ghost use Rattle.std.specs.Prelude.{◌≡◌, ◌*◌, ◌/◌, ◌≤◌, length};
ghost use Rattle.quantity.specs.Component.{Pixel, components};
ghost use Rattle.return_pixel.specs.Conversion.{pq_codes};
ghost use Rattle.rows.specs.Row.{pixel_bytes, span_bytes};
ghost use Rattle.return_span.specs.Settled.{IsRooted, RootedTo};

use crate::root::Roots;
use crate::scene::Rooted;
use quantity::Rgb;
use quantity::kept::Kept;
use rows::{pixel_bytes, pixel_of};

// Pixels of a block, and their bytes.
pub(crate) const PIXELS: usize = 64;

pub(crate) const BYTES: usize = 6 * PIXELS;

// Black, in HLG and in PQ.
const BLACK: Rgb<u64> = Rgb {
    red: 64,
    green: 64,
    blue: 64,
};

// Black has no scene light, and its luminance, 0, has the root 0.
pub(crate) const DARK: Rooted = Rooted {
    scene: Rgb {
        red: 0,
        green: 0,
        blue: 0,
    },
    roots: Some(Roots { low: 0, high: 1 }),
};

// The first pass: scene lights of the pixels of src, and the bounds of each pixel's root, into an array that is lent, whatever it held.
pub(crate) fn root_pixels(src: &[u8], block: &mut [Rooted; PIXELS])
    requires { (length src.now ≤ 384) × (length block.old ≡ 64) }
    ensures { RootedTo src.now block.new (length src.now / 6) × (length block.new ≡ 64) }
{
    let mut last = Kept {
        pixel: BLACK,
        found: DARK,
    };
    for (j, bytes) in src.chunks_exact(6).enumerate() {
        last = last.next(pixel_of(bytes), Rooted::of);
        // by its place: of what a `zip` with `iter_mut` wrote no proof knows the value, so this one did not close
        block[j] = last.found;
    }
}

// The second pass: the bytes of each pixel's codes.
pub(crate) fn code_pixels(block: &[Rooted; PIXELS], src: &[u8], dst: &mut [u8])
    requires { (length src.now ≤ 384) × RootedTo src.now block.now (length src.now / 6) × (length dst.old ≡ length src.now)
        × (length src.now ≡ 6 * (length src.now / 6)) }
    ensures { dst.new ≡ span_bytes pq_codes src.now 0 (length src.now / 6) }
{
    let mut last = Kept {
        pixel: BLACK,
        found: [0, 64, 0, 64, 0, 64],
    };
    for (j, bytes) in src.chunks_exact(6).enumerate() {
        let own = block[j];
        last = last.next(
            pixel_of(bytes),
            |_|
                requires { (p : Pixel) × IsRooted p own }
                ensures { (p : Pixel) → IsRooted p own → result ≡ pixel_bytes (pq_codes p) }
            { coded(own) },
        );
        // by its place, as above: `chunks_exact_mut` leaves the bytes unknown
        dst[6 * j..6 * j + 6].copy_from_slice(&last.found);
    }
}

// The bytes of a pixel's codes, by its scene lights and its root.
fn coded(own: Rooted) -> [u8; 6]
    requires { (p : Pixel) × IsRooted p own }
    ensures { (p : Pixel) → IsRooted p own → result ≡ pixel_bytes (pq_codes p) }
{
    let codes = own.codes();
    pixel_bytes(Rgb {
        red: codes.red as u16,
        green: codes.green as u16,
        blue: codes.blue as u16,
    })
}
