// The steps of the HLG OETF: for each code the smallest scene light whose signal rounds to that code or more.
#![tactic(auto)]

mod steps; // steps.rt: the constant

ghost use Rattle.std.specs.Prelude.{◌≡◌, max, min};
ghost use Rattle.hlg_steps.specs.Steps.{step_in, IsStep};
ghost use Rattle.hlg_steps.specs.StepTable.{step_table, step};

use quantity::{SceneLight, nearest_entry};

// The step of code d, and that it is the one that the rule asks for.
pub fn step_of(d: u64) -> SceneLight
    ensures { (result.0 ≡ step d) × IsStep (min (max d 65) 1019) result.0 }
{
    step_in(step_table(), d)
}

// The entry of code d in any table; a code below 65 or above 1,019 reads the nearer end.
pub fn step_in(table: &[u64; 955], d: u64) -> SceneLight
    ensures { result.0 ≡ step_in table.now d }
{
    SceneLight(nearest_entry(table, d.saturating_sub(65)))
}

// The table.
pub fn step_table() -> &'static [u64; 955]
    ensures { result.now ≡ step_table }
{
    &steps::TABLE
}
