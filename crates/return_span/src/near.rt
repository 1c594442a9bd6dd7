// The PQ codes of a pixel by a root of its luminance. A code is guessed and tested by its threshold and the next one's: nearly always that settles it in a
// few products. What it leaves open goes to the exact comparison with a threshold, and what that leaves open to the exact display light.
ghost use Rattle.std.specs.Prelude.{◌≡◌, ℕ, ◌*◌, ◌≤◌, true, IfSome};
ghost use Rattle.quantity.specs.Component.{components, weighted};
ghost use Rattle.ootf.specs.Light.{display_light};
ghost use Rattle.inverse_eotf.specs.Code.{pq_code};
ghost use Rattle.inverse_eotf.specs.ThresholdTable.{threshold_table};
ghost use Rattle.return_span.specs.Settled.{SceneCodes, HasRoot, OfCodes, Enclose, Settled};

use crate::hints::code_hint;
use crate::root::Roots;
use crate::scene::{Rooted, weigh};
use inverse_eotf::{pq_code_of, threshold_in, threshold_table};
use ootf::{display_lights, has_light};
use quantity::{DisplayLight, Rgb, SceneLight};
use words::upper_word;

// 2^23: the upper word of so many times a scene light and a root is display light, in units.
const SCENE: u64 = 8388608;

impl Rooted {
    // The PQ codes of a pixel.
    pub(crate) fn codes(self) -> Rgb<u64>
        requires { HasRoot self × OfCodes self.scene }
        ensures { SceneCodes self.scene.red self.scene.green self.scene.blue result.red result.green result.blue }
    {
        match self.near_codes() {
            Some(codes) => codes,
            None => exact_codes(self.scene),
        }
    }

    // Those by the root, where one was found and settles them.
    fn near_codes(self) -> Option<Rgb<u64>>
        requires { HasRoot self × OfCodes self.scene }
        ensures { IfSome result (λ codes. SceneCodes self.scene.red self.scene.green self.scene.blue codes.red codes.green codes.blue) }
    {
        let roots = self.roots?;
        let y = weigh(self.scene);
        Some(Rgb {
            red: near_code(roots, y, self.scene.red)?,
            green: near_code(roots, y, self.scene.green)?,
            blue: near_code(roots, y, self.scene.blue)?,
        })
    }
}

// The codes by the exact display lights.
fn exact_codes(scene: Rgb<u64>) -> Rgb<u64>
    requires { OfCodes scene }
    ensures { SceneCodes scene.red scene.green scene.blue result.red result.green result.blue }
{
    let lights = display_lights(Rgb {
        red: SceneLight(scene.red),
        green: SceneLight(scene.green),
        blue: SceneLight(scene.blue),
    });
    Rgb {
        red: pq_code_of(lights.red),
        green: pq_code_of(lights.green),
        blue: pq_code_of(lights.blue),
    }
}

// The code of a component with scene light s in a pixel of luminance y, where it does not stay open.
fn near_code(roots: Roots, y: u64, s: u64) -> Option<u64>
    requires { Enclose roots y × (y ≤ 10000 * 1803467062476) × (s ≤ 1803467062476) }
    ensures { IfSome result (λ d. d ≡ pq_code (display_light y s)) }
{
    let low = upper_word(SCENE * s, roots.low);
    let high = upper_word(SCENE * s, roots.high);
    let d = code_hint(low);
    if is_settled(low, high, d) {
        return Some(d);
    }
    searched_code(low, high, y, s)
}

// The code where the hinted one is not settled: that of the lower light, by halving, or by the exact comparison where a threshold stands between both
// lights. Few come here, and by a call of its own it costs the others nothing.
#[cold]
#[inline(never)]
fn searched_code(low: u64, high: u64, y: u64, s: u64) -> Option<u64>
    requires { (y ≤ 10000 * 1803467062476) × (s ≤ 1803467062476)
        × ((d : ℕ) → Settled threshold_table low high d → d ≡ pq_code (display_light y s)) }
    ensures { IfSome result (λ d. d ≡ pq_code (display_light y s)) }
{
    let d = pq_code_of(DisplayLight(low));
    if is_settled(low, high, d) {
        return Some(d);
    }
    open_code(y, s, d)
}

// Whether each light from low to high has the code d, by its threshold and the next one's.
fn is_settled(low: u64, high: u64, d: u64) -> bool
    ensures { result ≡ true → Settled threshold_table low high d }
{
    let table = threshold_table();
    (64..=939).contains(&d)
        && high < threshold_in(table, d + 1).0
        && (d == 64 || threshold_in(table, d).0 <= low)
}

// The code d or the next one, whichever the exact comparison confirms.
fn open_code(y: u64, s: u64, d: u64) -> Option<u64>
    requires { (y ≤ 10000 * 1803467062476) × (s ≤ 1803467062476) }
    ensures { IfSome result (λ code. code ≡ pq_code (display_light y s)) }
{
    if is_code(y, s, d) {
        return Some(d);
    }
    let next = d.min(939) + 1;
    if is_code(y, s, next) {
        return Some(next);
    }
    None
}

// Whether a component has the code d, by the exact comparison with its threshold and the next one's.
fn is_code(y: u64, s: u64, d: u64) -> bool
    requires { (y ≤ 10000 * 1803467062476) × (s ≤ 1803467062476) }
    ensures { result ≡ true → d ≡ pq_code (display_light y s) }
{
    let table = threshold_table();
    (64..=939).contains(&d)
        && !has_light(y, SceneLight(s), threshold_in(table, d + 1))
        && (d == 64 || has_light(y, SceneLight(s), threshold_in(table, d)))
}
