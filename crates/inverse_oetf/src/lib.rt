// The inverse HLG OETF: the scene light of each code.
#![tactic(auto)]

mod scene_lights; // scene_lights.rt: the constant

ghost use Rattle.std.specs.Prelude.{◌≡◌, max, min};
ghost use Rattle.inverse_oetf.specs.SceneLight.{scene_light_in, IsSceneLight};
ghost use Rattle.inverse_oetf.specs.SceneTable.{scene_table, scene_light};

use quantity::{SceneLight, nearest_entry};

// The scene light of code d, and that it is the one that the rule asks for.
pub fn scene_light_of(d: u64) -> SceneLight
    ensures { (result.0 ≡ scene_light d) × IsSceneLight (min (max d 64) 1019) result.0 }
{
    scene_light_in(scene_table(), d)
}

// The entry of code d in any table; a code below 64 or above 1,019 reads the nearer end.
pub fn scene_light_in(table: &[u64; 956], d: u64) -> SceneLight
    ensures { result.0 ≡ scene_light_in table.now d }
{
    SceneLight(nearest_entry(table, d.saturating_sub(64)))
}

// The table.
pub fn scene_table() -> &'static [u64; 956]
    ensures { result.now ≡ scene_table }
{
    &scene_lights::TABLE
}
