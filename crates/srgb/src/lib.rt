// The linear lights of sRGB values.
#![tactic(auto)]

mod lights; // lights.rt: the constant

ghost use Rattle.std.specs.Prelude.{◌≡◌};
ghost use Rattle.srgb.specs.Light.{IsLinearLight};
ghost use Rattle.srgb.specs.LightTable.{linear_table, linear_light};

// Light of an sRGB display, in 1/2^40 of its white.
#[derive(Clone, Copy)]
pub struct LinearLight(pub u64);

// The light of value v, and that it is the one that the rule asks for.
pub fn light_of_value(v: u8) -> LinearLight
    ensures { (result.0 ≡ linear_light v) × IsLinearLight v result.0 }
{
    LinearLight(light_table()[v as usize])
}

// The table.
pub fn light_table() -> &'static [u64; 256]
    ensures { result.now ≡ linear_table }
{
    &lights::TABLE
}
