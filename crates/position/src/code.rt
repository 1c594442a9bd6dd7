// Code values of every depth and range: as they are read, their positions, and their lights, which are those at their positions.
ghost use Rattle.std.specs.Prelude.{◌≡◌};
ghost use Rattle.pq.specs.Pq.{entry_in};
ghost use Rattle.position.specs.Code.{code_read, code_position, code_light_in, code_light};

use crate::light_in;
use pq::{entry_in, light_table};
use quantity::sample_format::{Depth, Range, SampleFormat};
use quantity::{DisplayLight, LAST_POSITION, Position};

// The light of a code, that at its position.
pub fn light_of_code(format: SampleFormat, d: u64) -> DisplayLight
    ensures { result.0 ≡ code_light format d }
{
    light_of_code_in(light_table(), format, d)
}

// The same on any table. In narrow range the position is that of an entry.
pub fn light_of_code_in(table: &[u64; 3505], format: SampleFormat, d: u64) -> DisplayLight
    ensures { result.0 ≡ code_light_in (entry_in table.now) format d }
{
    let position = code_position(format, d);
    match format.range {
        Range::Narrow => entry_in(table, position.0 / 256),
        Range::Full => light_in(table, position),
    }
}

// The position of a code, its signal in 1/897,024, rounded down: in narrow range whole numbers, in full range a division by a constant.
pub fn code_position(format: SampleFormat, d: u64) -> Position
    ensures { result.0 ≡ code_position format d }
{
    let above = read_code(format, d) - format.black_code();
    Position(match (format.range, format.depth) {
        (Range::Narrow, Depth::Ten) => 1024 * above,
        (Range::Narrow, Depth::Twelve) => 256 * above,
        (Range::Full, Depth::Ten) => LAST_POSITION * above / 1023,
        (Range::Full, Depth::Twelve) => LAST_POSITION * above / 4095,
    })
}

// A code as it is read: what lies below black or above nominal peak is read as that.
pub fn read_code(format: SampleFormat, d: u64) -> u64
    ensures { result ≡ code_read format d }
{
    d.clamp(format.black_code(), format.nominal_peak_code())
}
