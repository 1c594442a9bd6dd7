// A row with the bounds of its samples, which are found in one pass: they show most rows to be taken, and how bright a pixel can be.
ghost use Rattle.std.specs.Prelude.{◌≡◌, ◌/◌, ◌%◌, ◌≤◌, ◌<◌, length};
ghost use Rattle.quantity.specs.Units.{last_position};
ghost use Rattle.position.specs.Position.{light_at};
ghost use Rattle.rows.specs.Answer.{first_refused, before};
ghost use Rattle.pq_hlg.specs.Pixel.{sample_refused};
ghost use Rattle.content_light.specs.Peak.{row_in, outshines};
ghost use Rattle.content_light.specs.Run.{position_of};
ghost use Rattle.content_light.specs.Bounds.{Bounded, LastReaching};

use crate::rank::light_rank;
use position::code::code_position;
use quantity::Position;
use quantity::sample_format::SampleFormat;
use rows::{Taken, first_refused, pixel_of};

// Its samples lie from the least to the most.
#[derive(Clone, Copy)]
pub(crate) struct BoundedRow<'a> {
    pub format: SampleFormat,
    pub bytes: &'a [u8],
    pub least: u64,
    pub most: u64,
    ghost bounded: { Bounded bytes.now (length bytes.now / 6) least most },
}

impl<'a> BoundedRow<'a> {
    pub(crate) fn of(format: SampleFormat, bytes: &'a [u8]) -> BoundedRow<'a>
        ensures { (result.format ≡ format) × (result.bytes.now ≡ bytes.now) }
    {
        let mut least: u64 = 65535;
        let mut most: u64 = 0;
        for pixel in bytes.chunks_exact(6) {
            let p = pixel_of(pixel);
            // three at a time, so that the processor waits for one of them only
            least = least.min(p.red.min(p.green).min(p.blue));
            most = most.max(p.brightest());
        }
        BoundedRow {
            format,
            bytes,
            least,
            most,
        }
    }

    // The first sample that is not taken. Most rows are known by their bounds to have none.
    pub(crate) fn first_untaken(&self) -> Option<usize>
        requires { length self.now.bytes.now % 6 ≡ 0 }
        ensures { let samples = length self.now.bytes.now / 2 in
            result ≡ before samples (first_refused (sample_refused self.now.format) self.now.bytes.now 0 samples) }
    {
        let taken = Taken::of(self.format);
        if taken.least <= self.least && self.most <= taken.most {
            return None;
        }
        first_refused(self.bytes, 0..self.bytes.len() / 2, taken)
    }

    // The last pixel whose brightest code reaches the position m.
    pub(crate) fn last_reaching(&self, m: Position) -> Option<usize>
        requires { m.0 ≤ last_position }
        ensures { LastReaching (row_in self.now.format self.now.bytes.now) (length self.now.bytes.now / 6) m.0 result }
    {
        // by index: by chunks from the back the search takes 3.6 ns a pixel, not 2.4
        for j in (0..self.bytes.len() / 6).rev() {
            if outshines(self.position_of(j), m) {
                return Some(j);
            }
        }
        None
    }

    // The position of the brightest code of pixel j.
    pub(crate) fn position_of(&self, j: usize) -> Position
        requires { j < length self.now.bytes.now / 6 }
        ensures { result.0 ≡ position_of (row_in self.now.format self.now.bytes.now) j }
    {
        code_position(
            self.format,
            pixel_of(&self.bytes[6 * j..6 * j + 6]).brightest(),
        )
    }
}

// Whether the light at m outshines the one found: the ranks compare as they do.
pub(crate) fn outshines(m: Position, found: Position) -> bool
    requires { found.0 ≤ last_position }
    ensures { result ≡ outshines (light_at m.0) (light_at found.0) }
{
    light_rank(found) <= light_rank(m)
}
