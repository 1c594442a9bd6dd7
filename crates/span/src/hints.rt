// Guesses that spare work where a test confirms them. Nothing rests on their values: no function here promises one, each is only safe. A guess that
// cannot be made is 0, which goes the way of any that its test refuses: a None would take the same way.
use crate::cell_table::CELLS;
use crate::hint_table::HINTS;
use words::{leading_zeros, upper_word};

// 2^58 and 2^38: a word over them is its six, or its 26, leading bits.
const FIRST_BITS: u64 = 288230376151711744;

const LEADING_BITS: u64 = 274877906944;

// Both parts of a line: its slope below 2^20, and a code or a cell in 2^32 of its units.
const SLOPES: u64 = 1048576;

const WHOLE: u64 = 4294967296;

// A root, to fill a word, of the luminance n / 2^(z % 6), n being one that was shifted by its z leading zeros: in a straight line from one entry to the
// next.
pub(crate) fn root_hint(n: u64, z: u64) -> u64 {
    let i = (800 + 33 * (z % 6) + n / FIRST_BITS) as usize;
    let fall = HINTS[i].wrapping_sub(HINTS[i + 1]);
    HINTS[i].wrapping_sub(upper_word(fall, n % FIRST_BITS * 64))
}

// The HLG code of a component by its product with a root, p: the height of a line over the leading bits of p.
pub(crate) fn code_hint(p: u64) -> u64 {
    let z = leading_zeros(p);
    if z < 6 || 30 < z {
        return 0;
    }
    let n = p << z;
    height(HINTS[((30 - z) * 32 + n / FIRST_BITS) as usize], n)
}

// The height of a line over the leading bits of n. A line holds its slope in its low 20 bits and its start above them.
fn height(line: u64, n: u64) -> u64 {
    line.wrapping_add(line % SLOPES * (n / LEADING_BITS)) / WHOLE
}

// The cell of the light table in which a light stands, from 256 cd/m2 on, or the cell before it: the height of a line over the leading bits of the light.
pub(crate) fn cell_hint(l: u64) -> u64 {
    let z = leading_zeros(l);
    if z < 26 || 31 < z {
        return 0;
    }
    let n = l << z;
    height(CELLS[((31 - z) * 32 + n / FIRST_BITS) as usize], n)
}

// 2^62 m2 / m1 for m1 the light at the position m of the brightest code. The positions of ten-bit narrow-range codes have stored reciprocals from code
// 610 on, which is the darkest that is bent; others are divided.
pub(crate) fn factor_hint(m: u64, m1: u64, m2: u64) -> u64 {
    if m % 1024 != 0 {
        return divided_factor(m1, m2);
    }
    let above = m / 1024;
    if above < 546 || 876 < above {
        return 0;
    }
    factor_of(m2, HINTS[(484 + above) as usize])
}

// 2^62 m2 / m1 for any light m1, with one division.
pub(crate) fn divided_factor(m1: u64, m2: u64) -> u64 {
    factor_of(m2, reciprocal(m1))
}

// 2^62 m2 / m1 by 2^96 / m1.
fn factor_of(m2: u64, reciprocal: u64) -> u64 {
    upper_word(m2 << 30, reciprocal).wrapping_add(1)
}

// 2^96 / m1 for m1 from 2^32 on: a word over m1, and one step of Newton's by its rest.
fn reciprocal(m1: u64) -> u64 {
    if m1 == 0 {
        return 0;
    }
    let quotient = u64::MAX / m1 << 32;
    quotient.wrapping_add(upper_word(quotient, u64::MAX % m1))
}
