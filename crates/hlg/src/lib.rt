// The HLG codes of the mapped components of a pixel: BT.2100's inverse HLG OOTF (gamma 1.2), then its OETF, without rounding on the way.
#![tactic(auto)]

mod reach;

ghost use Rattle.std.specs.Prelude.{◌≡◌, min, ◌^◌, ◌<◌};
ghost use Rattle.quantity.specs.Units.{thousand};
ghost use Rattle.hlg.specs.Code.{luminance, hlg_code, HlgCodes};

use hlg_steps::step_of;
use laws::largest;
use quantity::{DisplayLight, Rgb, THOUSAND};
use reach::reached;

// The HLG codes of three mapped components, 64 to 1,019 each.
#[tactic(auto, using(crate::proofs::CodeLaws::code_to), unfolding(quantity::specs::Units::thousand, quantity::specs::Units::units))]
pub fn hlg_codes(p: Rgb<DisplayLight>) -> Rgb<u64>
    ensures { HlgCodes (min p.red.0 thousand) (min p.green.0 thousand) (min p.blue.0 thousand) result.red result.green result.blue }
{
    let y = luminance_of(p);
    p.map(|light| code_of(y, read_component(light)))
}

// Y of three mapped components, in ten-thousandths of a unit: BT.2100's weights are whole numbers there.
#[tactic(auto, unfolding(quantity::specs::Units::thousand, quantity::specs::Units::units))]
pub fn luminance_of(p: Rgb<DisplayLight>) -> u64
    ensures { result ≡ luminance (min p.red.0 thousand) (min p.green.0 thousand) (min p.blue.0 thousand) }
{
    p.map(|light| read_component(light).0).weighted()
}

// A mapped component as read. The delivery shows up to 1,000 cd/m2: a component above that is read as that.
#[tactic(auto, unfolding(quantity::specs::Units::thousand, quantity::specs::Units::units))]
fn read_component(light: DisplayLight) -> DisplayLight
    ensures { result.0 ≡ min light.0 thousand }
{
    DisplayLight(light.0.min(THOUSAND))
}

// The code of a component r in a pixel of luminance y: the largest whose step it reaches.
#[tactic(auto, using(hlg_steps::proofs::StepLaws::step_fits))]
fn code_of(y: u64, r: DisplayLight) -> u64
    requires { (y < 2 ^ 48) × (r.0 < 2 ^ 34) }
    ensures { result ≡ hlg_code y r.0 }
{
    largest(&|d| reached(step_of(d), y, r), 64, 1019)
}
