// What a pixel's codes are made of: its scene lights, and a root of their luminance.
ghost use Rattle.std.specs.Prelude.{◌≡◌, ◌*◌, ◌≤◌};
ghost use Rattle.quantity.specs.Component.{components, weighted};
ghost use Rattle.return_span.specs.Settled.{OfCodes, IsRooted};

use crate::root::{Roots, roots_of};
use inverse_oetf::{scene_light_in, scene_table};
use quantity::Rgb;

// The scene lights of a pixel, in 1/2^40 of the nominal range, and the bounds of a root of their luminance where some were found.
#[derive(Clone, Copy)]
pub(crate) struct Rooted {
    pub scene: Rgb<u64>,
    pub roots: Option<Roots>,
}

impl Rooted {
    // Those of the pixel of three samples.
    pub(crate) fn of(p: Rgb<u64>) -> Rooted
        ensures { IsRooted (components p) result }
    {
        let table = scene_table();
        let scene = Rgb {
            red: scene_light_in(table, p.red).0,
            green: scene_light_in(table, p.green).0,
            blue: scene_light_in(table, p.blue).0,
        };
        Rooted {
            scene,
            roots: roots_of(weigh(scene)),
        }
    }
}

// Y, in ten-thousandths of the scene lights' unit. `luminance_of` would read each at its range's end first.
pub(crate) fn weigh(scene: Rgb<u64>) -> u64
    requires { OfCodes scene }
    ensures { (result ≡ weighted (components scene)) × (result ≤ 10000 * 1803467062476) }
{
    scene.weighted()
}
