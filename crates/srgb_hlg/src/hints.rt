// Guesses of codes that spare a search where a test confirms them. Nothing rests on their values: no function here promises one, each is only safe.
ghost use Rattle.std.specs.Prelude.{◌≤◌, IfSome};

use crate::hint_table::HINTS;

// How many steps a scene light should reach at least: as many as the first light with the same leading bits. By its leading zeros a light has a shift, which
// leaves those bits, and a place from which they count.
pub(crate) fn reached_hint(light: u64) -> Option<usize>
    ensures { IfSome result (λ reached. reached ≤ 953) }
{
    let z = light.leading_zeros() as usize;
    let shift = HINTS[z] % 64;
    let place = u64::from(HINTS[z + 65]).wrapping_add(light >> shift);
    // an entry above 953 is no hint
    let hint = *HINTS.get(place as usize)?;
    if hint <= 953 {
        Some(hint as usize)
    } else {
        None
    }
}
