// A block of up to 32 pixels of a span, in three passes: mapped components, roots of their luminances, codes and what is delivered of them. Within a pass
// no pixel waits for another, so a processor works on several at once. A pixel that equals the one before it takes over what that was given: flat areas
// are mostly such pixels.
ghost use Rattle.std.specs.Prelude.{◌≡◌, ℕ, ◌+◌, ◌-◌, ◌*◌, ◌/◌, ◌^◌, ◌<◌, ◌≤◌, min, length};
ghost use Rattle.quantity.specs.Units.{ten_thousand};
ghost use Rattle.quantity.specs.Component.{Component, components};
ghost use Rattle.rows.specs.Row.{pixels_bytes, with_pixels};
ghost use Rattle.span.specs.Block.{IsShown, HasRoot, MappedTo, AllShown, RootsTo, samples_of, samples_at, row_samples};

use crate::delivery::{coded_samples, write_samples};
use crate::root::{found_root, stored_root, weigh};
use crate::row::Row;
use quantity::Rgb;
use quantity::kept::Kept;
use std::ops::Range;
use ycbcr::SignalFormat;

// The pixels of a block.
const BLOCK: usize = 32;

// No light, to which black is mapped.
pub(crate) const DARK: Rgb<u64> = Rgb {
    red: 0,
    green: 0,
    blue: 0,
};

// The pixels that fill dst, converted from the first ones of a row: as many whole ones as both have. Other bytes of dst remain.
pub(crate) fn convert_pixels<R: Row>(row: &R, format: SignalFormat, dst: &mut [u8])
    ensures { dst.new ≡ with_pixels (row_samples format (R.mapping row.now) (R.given row.now)) dst.old 0 (min (R.pixels row.now) (length dst.old / 6)) }
{
    let pixels = row.count().min(dst.len() / 6);
    for first in (0..pixels).step_by(BLOCK) {
        let end = pixels.min(first + BLOCK);
        convert_block(row, first..end, format, &mut dst[6 * first..6 * end]);
    }
}

// The pixels of a block of a row.
fn convert_block<R: Row>(row: &R, pixels: Range<usize>, format: SignalFormat, dst: &mut [u8])
    requires { (pixels.start ≤ pixels.end) × (pixels.end ≤ pixels.start + 32) × (pixels.end ≤ R.pixels row.now)
        × (length dst.old ≡ 6 * (pixels.end - pixels.start)) }
    ensures { dst.new ≡ pixels_bytes (row_samples format (R.mapping row.now) (R.given row.now)) pixels.start (pixels.end - pixels.start) }
{
    let count = pixels.end - pixels.start;
    let mut mapped = [DARK; BLOCK];
    map_pixels(row, pixels.start, &mut mapped[..count]);
    let mut roots = [0; BLOCK];
    find_roots(&mapped[..count], &mut roots[..count]);
    code_pixels(&mapped[..count], &roots[..count], format, dst);
}

// The first pass: the mapped components of the pixels of a row from the first on.
fn map_pixels<R: Row>(row: &R, first: usize, mapped: &mut [Rgb<u64>])
    requires { (first + length mapped.old ≤ R.pixels row.now) × (first + length mapped.old < 2 ^ 64) }
    ensures { MappedTo (λ (k : ℕ). R.mapping row.now (R.given row.now (first + k))) mapped.new }
{
    let black = row.black();
    let mut last = Kept {
        pixel: Rgb {
            red: black,
            green: black,
            blue: black,
        },
        found: DARK,
    };
    for (k, found) in mapped.iter_mut().enumerate() {
        last = last.next(
            row.at(first + k),
            |p|
                requires { (i : Component) → components p i ≤ ten_thousand }
                ensures { components result ≡ R.mapping row.entry.now (components p) }
            { row.map(p) },
        );
        *found = last.found;
    }
}

// The second pass: a root of the luminance of each pixel, or 0 where none is found; as the last where its luminance equals that. With options in the
// block a row of random pixels takes 2 % more instructions.
fn find_roots(mapped: &[Rgb<u64>], roots: &mut [u64])
    requires { AllShown mapped.now × (length roots.old ≡ length mapped.now) }
    ensures { RootsTo mapped.now roots.new }
{
    let mut luminance = 0;
    let mut found = 0;
    for (k, root) in roots.iter_mut().enumerate() {
        let next = weigh(mapped[k]);
        if next != luminance {
            luminance = next;
            found = stored_root(next);
        }
        *root = found;
    }
}

// The third pass: the bytes of what is delivered of each pixel's codes.
fn code_pixels(mapped: &[Rgb<u64>], roots: &[u64], format: SignalFormat, dst: &mut [u8])
    requires { AllShown mapped.now × RootsTo mapped.now roots.now × (length roots.now ≡ length mapped.now)
        × (length dst.old ≡ 6 * length mapped.now) }
    ensures { dst.new ≡ pixels_bytes (samples_at format mapped.now) 0 (length mapped.now) }
{
    let mut last = Kept {
        pixel: DARK,
        found: coded_samples(format, None, DARK),
    };
    // dst by places: after chunks_exact_mut a proof knows none of the bytes written
    for (k, pixel) in mapped.iter().enumerate() {
        let root = found_root(roots[k]);
        last = last.next(
            *pixel,
            |m|
                requires { IsShown m × HasRoot root m }
                ensures { components result ≡ samples_of format (components m) }
            { coded_samples(format, root, m) },
        );
        write_samples(last.found, &mut dst[6 * k..6 * k + 6]);
    }
}
