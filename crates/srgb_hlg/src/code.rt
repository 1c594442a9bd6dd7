// The HLG code of a scene light that is known from below. A code is guessed and tested by its step and the next one's, which nearly always settles it; what
// that leaves open goes to halving over the codes, by the light itself.
ghost use Rattle.std.specs.Prelude.{◌≡◌, ℕ, ◌+◌, ◌^◌, ◌<◌, ◌≤◌, pos, IfSome};
ghost use Rattle.srgb.specs.Conversion.{oetf_code};
ghost use Rattle.srgb_hlg.specs.Shares.{spread};

use crate::hints::reached_hint;
use hlg_steps::{step_in, step_table};
use laws::largest;

// `spread`: how far a scene light may lie above what `lower_light` gives. `python3 tools/srgb_hints.py slack` says how far they do.
const SPREAD: u64 = 736;

// The code of every scene light from low up to so far above it, where the tests settle it.
pub(crate) fn near_code(low: u64) -> Option<u64>
    requires { low ≤ 2 ^ 40 }
    ensures { IfSome result (λ d. (s : ℕ) → low ≤ s → s ≤ low + spread → d ≡ oetf_code (pos s)) }
{
    let steps = step_table();
    let reached = guess(low);
    if (reached == 0 || steps[reached - 1] <= low) && low + SPREAD < steps[reached] {
        Some(64 + reached as u64)
    } else {
        None
    }
}

// A guess, nothing more, how many steps a light reaches: as many as its hint says, and one more where it reaches the next one too. That takes no branch, since
// no processor foresees which it is. 0 where there is no hint: black and next to it.
fn guess(light: u64) -> usize
    ensures { result < 955 }
{
    match reached_hint(light) {
        Some(hint) => hint + usize::from(step_table()[hint] <= light),
        None => 0,
    }
}

// The code of a scene light, by halving. Few come here, and by a call of its own it costs the others nothing.
#[cold]
#[inline(never)]
pub(crate) fn exact_code(light: u64) -> u64
    ensures { result ≡ oetf_code (pos light) }
{
    largest(&|d| step_in(step_table(), d).0 <= light, 64, 1019)
}
