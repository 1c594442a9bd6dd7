// Guesses that spare work where a test confirms them. Nothing rests on their values: no function here promises one, each is only safe.
use crate::hint_table::HINTS;
use words::{leading_zeros, upper_word};

// 2^58, 2^56 and 2^38: a word over them is its six, its eight or its 26 leading bits.
const FIRST_SIX: u64 = 288230376151711744;

const FIRST_EIGHT: u64 = 72057594037927936;

const LEADING_BITS: u64 = 274877906944;

// Both parts of a line: its slope below 2^20, and a code in 2^32 of its units.
const SLOPES: u64 = 1048576;

const CODE: u64 = 4294967296;

// A root, to fill a word, of the luminance n / 2^(z % 5), n being one that was shifted by its z leading zeros: in a straight line from one entry to the
// next.
pub(crate) fn root_hint(n: u64, z: u64) -> u64 {
    let i = (768 + 129 * (z % 5) + n / FIRST_EIGHT) as usize;
    let entry = HINTS[i];
    let rise = HINTS[i + 1].wrapping_sub(entry);
    entry.wrapping_add(upper_word(rise, n % FIRST_EIGHT * 256))
}

// The PQ code of a light: the height of a line over its leading bits. An entry holds the line's slope in its low 20 bits and its start above them. No line
// stands over black and over what is brighter than the display: 64 is black's code, and elsewhere a guess that goes the way of any that its test refuses, as a
// None would.
pub(crate) fn code_hint(light: u64) -> u64 {
    let z = leading_zeros(light);
    if z < 29 || 55 < z {
        return 64;
    }
    let n = light << z;
    let i = ((55 - z) * 32 + n / FIRST_SIX) as usize;
    let line = HINTS[i];
    line.wrapping_add(line % SLOPES * (n / LEADING_BITS)) / CODE
}
