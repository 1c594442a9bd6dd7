// The sixth root of a luminance, enclosed. With K = 5^11 and a luminance y, the root is that of 2^211 / (K y); a guess of it is tested, and one step of
// Newton's from a guess that passes encloses it.
ghost use Rattle.std.specs.Prelude.{◌≡◌, ◌+◌, ◌*◌, ◌^◌, ◌<◌, ◌≤◌, IfSome};
ghost use Rattle.hlg.specs.Code.{luminance};
ghost use Rattle.hlg.specs.Root.{IsRoot};
ghost use Rattle.span.specs.Block.{IsShown, HasRoot};

use crate::hints::root_hint;
use quantity::Rgb;
use words::{leading_zeros, upper_word};

// 2^79 / K rounded down.
const WHOLE: u64 = 12379400392853802;

// 2^38 K / 6 rounded down: Newton's step divides by six times WHOLE.
const SIXTH: u64 = 2236962133333333333;

// The powers of a guess that passes: from 10^12 below WHOLE to 10^12 above it.
const LEAST: u64 = 12378400392853802;

const SPREAD: u64 = 2000000000000;

// The smallest guess that passes, 2^62.
const GUESS: u64 = 4611686018427387904;

// A root of the luminance of mapped components; none where none is found, as of a black pixel.
pub(crate) fn root_of(m: Rgb<u64>) -> Option<u64>
    requires { IsShown m }
    ensures { HasRoot result m }
{
    lower_root(weigh(m))
}

// A root as a block stores it, 0 where none is found, and read from there.
pub(crate) fn stored_root(y: u64) -> u64
    ensures { IsRoot result y }
{
    match lower_root(y) {
        Some(g) => g,
        None => 0,
    }
}

pub(crate) fn found_root(stored: u64) -> Option<u64>
    ensures { IfSome result (λ g. (g ≡ stored) × (0 < g)) }
{
    if stored == 0 {
        return None;
    }
    Some(stored)
}

// Y, in ten-thousandths of a unit: BT.2100's weights are whole numbers there. `luminance_of` would read each component at its range's end first: of no use
// to components known to be in it, and 2 to 8 % of a row's instructions.
#[tactic(auto, unfolding(quantity::specs::Units::thousand, quantity::specs::Units::units))]
pub(crate) fn weigh(m: Rgb<u64>) -> u64
    requires { IsShown m }
    ensures { result ≡ luminance m.red m.green m.blue }
{
    m.weighted()
}

// At least u v / 2^64.
fn raised(u: u64, v: u64) -> u64
    ensures { (u * v ≤ 2 ^ 64 * result) × (2 ^ 64 * result ≤ u * v + 2 ^ 64) }
{
    upper_word(u, v) + 1
}

// A root of a luminance from below by less than 2; none where the guess fails its test, as that of a black pixel does.
fn lower_root(y: u64) -> Option<u64>
    ensures { IfSome result (λ g. (0 < g) × IsRoot g y) }
{
    let z = leading_zeros(y);
    if 47 < z {
        return None;
    }
    let n = y << z;
    let w = root_hint(n, z);
    let square = raised(w, w);
    let weighed = raised(square, n >> (z % 6));
    let fourth = raised(square, square);
    let power = raised(fourth, weighed);
    if SPREAD < power.wrapping_sub(LEAST) {
        return None;
    }
    if w < GUESS {
        return None;
    }
    let sixth = upper_word(w, SIXTH);
    Some(upper_word(sixth, (7 * WHOLE - power) * 128) >> (38 - z / 6))
}
