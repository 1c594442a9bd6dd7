// The fifth root of a luminance, enclosed: a guess of it is raised to the fifth power in three products, and where that comes near enough to the power
// that the root has, the root lies within a part of the guess around it.
ghost use Rattle.std.specs.Prelude.{IfSome};
ghost use Rattle.return_span.specs.Settled.{Enclose};

use crate::hints::root_hint;
use words::{leading_zeros, upper_word};

// 2^34 × 5^11: with a luminance scaled to fill a word, the upper word of the product is the power of the root, in units of 2^256.
const WEIGHT: u64 = 838860800000000000;

// The bounds lie the guess over 2^20 from it. A root so far off has a power that is off by five such parts of itself; the powers must come within four, one
// of them over 2^18. `python3 tools/return_hints.py slack` says how near they come.
const PART: u64 = 20;

const NEAR: u64 = 18;

// What three products, each rounded down, fall short of the power by at most, in its units.
const ROUNDED: u64 = 4;

// Two numbers that enclose the root of 2^96 × 5^11 × Y.
#[derive(Clone, Copy)]
pub(crate) struct Roots {
    pub low: u64,
    pub high: u64,
}

// The bounds of a luminance's root, where the guess comes near enough.
pub(crate) fn roots_of(y: u64) -> Option<Roots>
    ensures { IfSome result (λ r. Enclose r y) }
{
    if y == 0 {
        return Some(Roots { low: 0, high: 1 });
    }
    let z = leading_zeros(y);
    let n = y << z;
    let power = upper_word(n >> (z % 5), WEIGHT);
    let guess = root_hint(n, z);
    let square = upper_word(guess, guess);
    let fifth = upper_word(upper_word(square, square), guess);
    if power < fifth - (fifth >> NEAR) + ROUNDED || fifth <= power - (power >> NEAR) {
        return None;
    }
    let part = (guess >> PART) + 1;
    let shift = 26 + z / 5;
    Some(Roots {
        low: (guess - part) >> shift,
        high: (guess >> shift) + (part >> shift) + 2,
    })
}
