// The scene light of a component: its shares of a pixel's three lights, summed and rounded down once. 2 × 10^10 is 2^11 × 5^10, so a light split at bit 11
// gives sums that fit a word: its upper bits nearly all of the result, its lower ones the rest.
ghost use Rattle.std.specs.Prelude.{◌≡◌, ◌+◌, ◌*◌, ◌/◌, ◌^◌, ◌<◌, ◌≤◌, pos};
ghost use Rattle.quantity.specs.Component.{components};
ghost use Rattle.srgb.specs.Conversion.{oetf_code};
ghost use Rattle.srgb_hlg.specs.Shares.{shared_light, Fit, Weights, spread};

use crate::code::{exact_code, near_code};
use quantity::Rgb;

// 2^11 and 5^10.
const SPLIT: u64 = 2048;

const FIVES: u64 = 9765625;

// 2^23.
const WEIGHT: u64 = 8388608;

// A component's shares of red, green and blue light, in 1/(2 × 10^10): 53 times a row of the product of both matrices, whose entries are in 1/10^8, since
// 0.265 is 53/200. And their weights, the shares times 2^23/5^10 rounded down, for lights from below.
#[derive(Clone, Copy)]
pub(crate) struct Shared {
    pub shares: Rgb<u64>,
    pub weights: Rgb<u64>,
}

pub(crate) const RED: Shared = Shared {
    shares: Rgb {
        red: 3325509592,
        green: 1745237000,
        blue: 229628383,
    },
    weights: Rgb {
        red: 2856590988,
        green: 1499147167,
        blue: 197249279,
    },
};

pub(crate) const GREEN: Shared = Shared {
    shares: Rgb {
        red: 365836528,
        green: 4873838872,
        blue: 60366205,
    },
    weights: Rgb {
        red: 314251184,
        green: 4186595712,
        blue: 51854175,
    },
};

pub(crate) const BLUE: Shared = Shared {
    shares: Rgb {
        red: 86609897,
        green: 466302056,
        blue: 4746429257,
    },
    weights: Rgb {
        red: 74397335,
        green: 400550416,
        blue: 4077151686,
    },
};

impl Shared {
    // The HLG code of the component in a pixel of these lights, in 1/2^40 of white's: the one that is found near, else the one of its scene light.
    // In its callers the shares are constants: without that a pixel takes 266 instructions in place of 153.
    #[inline(always)]
    pub(crate) fn code(self, lights: Rgb<u64>) -> u64
        requires { Fit (components self.shares) (components lights) × Weights (components self.shares) (components self.weights) }
        ensures { result ≡ oetf_code (pos (shared_light (components self.shares) (components lights))) }
    {
        match near_code(self.lower_light(lights)) {
            Some(code) => code,
            None => exact_code(self.scene_light(lights)),
        }
    }

    // The scene light, in 1/2^40 of white's.
    fn scene_light(self, lights: Rgb<u64>) -> u64
        requires { Fit (components self.shares) (components lights) }
        ensures { result ≡ shared_light (components self.shares) (components lights) }
    {
        let lower_bits = Rgb {
            red: lights.red % SPLIT,
            green: lights.green % SPLIT,
            blue: lights.blue % SPLIT,
        };
        let upper = sum_shared(self.shares, upper_bits(lights));
        let lower = sum_shared(self.shares, lower_bits);
        (upper + lower / SPLIT) / FIVES
    }

    // A light from which the scene light lies at most `spread` up: by the upper bits alone, and by weights, so that it takes no division.
    fn lower_light(self, lights: Rgb<u64>) -> u64
        requires { Fit (components self.shares) (components lights) × Weights (components self.shares) (components self.weights) }
        ensures { let s = shared_light (components self.shares) (components lights) in
            (result ≤ s) × (s ≤ result + spread) × (result ≤ 2 ^ 40) }
    {
        sum_shared(self.weights, upper_bits(lights)) / WEIGHT
    }
}

// The upper bits of three lights.
fn upper_bits(lights: Rgb<u64>) -> Rgb<u64>
    ensures { (result.red ≡ lights.red / 2048) × (result.green ≡ lights.green / 2048) × (result.blue ≡ lights.blue / 2048) }
{
    Rgb {
        red: lights.red / SPLIT,
        green: lights.green / SPLIT,
        blue: lights.blue / SPLIT,
    }
}

// Three parts of lights by their shares.
fn sum_shared(shares: Rgb<u64>, parts: Rgb<u64>) -> u64
    requires { shares.red * parts.red + shares.green * parts.green + shares.blue * parts.blue < 2 ^ 64 }
    ensures { result ≡ shares.red * parts.red + shares.green * parts.green + shares.blue * parts.blue }
{
    shares.red * parts.red + shares.green * parts.green + shares.blue * parts.blue
}
