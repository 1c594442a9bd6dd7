// The HLG codes of three mapped components by a root of their luminance. A code is guessed and tested by its step and the next one's: nearly always that
// settles it in a few products. What it leaves open goes to halving over the codes, and what halving leaves open to the exact comparison of `hlg_codes`.
ghost use Rattle.std.specs.Prelude.{◌≡◌, ℕ, ◌+◌, ◌^◌, ◌<◌, ◌≤◌, true, IfSome};
ghost use Rattle.quantity.specs.Units.{thousand};
ghost use Rattle.quantity.specs.Component.{components};
ghost use Rattle.hlg_steps.specs.StepTable.{step_table, step};
ghost use Rattle.hlg.specs.Code.{hlg_code};
ghost use Rattle.hlg.specs.Root.{LowRoot, HighRoot};
ghost use Rattle.hlg.specs.Settled.{Settled};
ghost use Rattle.span.specs.Block.{IsShown, HasRoot, codes_of};

use crate::block::DARK;
use crate::hints::code_hint;
use hlg::hlg_codes;
use hlg_steps::step_of;
use laws::largest;
use quantity::{DisplayLight, Rgb};

// 2^17: the product of a component and a root over it is scene light, in 1/2^40.
const SCENE: u64 = 131072;

// The HLG codes of three mapped components, by the root of their luminance where one was found.
pub(crate) fn near_codes(root: Option<u64>, m: Rgb<u64>) -> Rgb<u64>
    requires { IsShown m × HasRoot root m }
    ensures { components result ≡ codes_of (components m) }
{
    // unwrap_or_else was tried, and the proof didn't close
    match codes_by_root(root, m) {
        Some(codes) => codes,
        None => exact_codes(m),
    }
}

// The codes by a root, where there is one and its tests settle all three.
fn codes_by_root(root: Option<u64>, m: Rgb<u64>) -> Option<Rgb<u64>>
    requires { IsShown m × HasRoot root m }
    ensures { IfSome result (λ codes. components codes ≡ codes_of (components m)) }
{
    let g = root?;
    Some(Rgb {
        red: near_code(m.red, g)?,
        green: near_code(m.green, g)?,
        blue: near_code(m.blue, g)?,
    })
}

// The codes by the exact comparison; of a black pixel, which has no root, without one.
fn exact_codes(m: Rgb<u64>) -> Rgb<u64>
    requires { IsShown m }
    ensures { components result ≡ codes_of (components m) }
{
    if m == DARK {
        return Rgb {
            red: 64,
            green: 64,
            blue: 64,
        };
    }
    hlg_codes(m.map(DisplayLight))
}

// The code of a component r in every luminance whose root is g, where the tests settle it.
fn near_code(r: u64, g: u64) -> Option<u64>
    requires { (r ≤ thousand) × (g + 2 ≤ 2 ^ 30) }
    ensures { IfSome result (λ d. (y : ℕ) → LowRoot g y → HighRoot (g + 2) y → d ≡ hlg_code y r) }
{
    let low = r * g;
    let s = low / SCENE;
    let u = (low + 2 * r) / SCENE;
    let d = code_hint(low);
    if is_settled(s, u, d) {
        return Some(d);
    }
    if r == 0 {
        return Some(64);
    }
    searched_code(s, u)
}

// Whether a scene light from s to u has the code d, by its step and the next one's.
fn is_settled(s: u64, u: u64, d: u64) -> bool
    ensures { result ≡ true → (64 < d) × (d < 1019) × (step d ≤ s) × (u < step (d + 1)) }
{
    64 < d && d < 1019 && step_of(d).0 <= s && u < step_of(d + 1).0
}

// The code of a scene light from s to u, by halving; none where a step lies between s and u.
fn searched_code(s: u64, u: u64) -> Option<u64>
    ensures { IfSome result (λ d. Settled step_table s u 64 1020 d) }
{
    let d = largest(&|d| step_of(d).0 <= s, 64, 1019);
    if d < 1019 && step_of(d + 1).0 <= u {
        return None;
    }
    Some(d)
}
