// The rank of a position: it compares as the light there does, and no light table is read for it.
ghost use Rattle.std.specs.Prelude.{◌≡◌};
ghost use Rattle.content_light.specs.Rank.{light_rank};

use quantity::Position;

// The light table's entries after the first, which is 0.
const SECOND_LIGHT: u64 = 81;

const THIRD_LIGHT: u64 = 271;

// From the third entry on the position, which has more light than the one before it; below, where positions can share a light, the light itself.
pub(crate) fn light_rank(q: Position) -> u64
    ensures { result ≡ light_rank q.0 }
{
    if 512 <= q.0 {
        return q.0;
    }
    if 256 <= q.0 {
        return SECOND_LIGHT + (THIRD_LIGHT - SECOND_LIGHT) * (q.0 - 256) / 256;
    }
    SECOND_LIGHT * q.0 / 256
}
