// The measuring run over a title's rows: the largest component light of all pixels, which is the title's MaxCLL, and where it stands last. A record
// is carried from row to row; every record that can be made is read, a field past its range at the range's end.
#![tactic(auto)]

mod rank;
mod row;
mod walk;

ghost use Rattle.std.specs.Prelude.{◌≡◌};
ghost use Rattle.content_light.specs.Peak.{row_in, rounded_up};
ghost use Rattle.content_light.specs.Run.{fresh_record, record_read, record_answer, peak_answer};

use position::light_at;
use quantity::sample_format::SampleFormat;
use quantity::{LAST_POSITION, Position, UNITS};
use refusal::Refusal;
use row::BoundedRow;
use rows::refuses_count;

// The most rows that a run counts, and their most pixels, 8,192 in each.
const MOST_ROWS: u64 = 4294967295;

const MOST_PIXELS: u64 = 35184372080640;

// The last row and the last pixel of a row that can be found.
const LAST_ROW: u64 = 4294967294;

const LAST_PIXEL: u64 = 8191;

// What a run has found so far: plain numbers, also where it has met no pixel, since every record that a caller can make is read.
#[derive(Clone, Copy)]
pub struct RunRecord {
    // rows that were accepted
    pub rows: u64,
    // their pixels
    pub pixels: u64,
    // where there are any: the position of the brightest code
    pub position: Position,
    // its row and its pixel in the row, both from 0
    pub row: u64,
    pub pixel: u64,
}

// A measured peak: the light in whole cd/m2, the row and the pixel in the row, both from 0.
#[derive(Clone, Copy)]
pub struct Peak {
    pub cd: u64,
    pub row: u64,
    pub pixel: u64,
}

#[tactic(auto, unfolding(crate::specs::Run::record_answer, crate::specs::Peak::row_test, crate::specs::Peak::most_rows, rows::specs::Answer::count_refused))]
impl RunRecord {
    // The record of a run that has met no row.
    pub fn fresh() -> RunRecord
        ensures { result ≡ fresh_record }
    {
        RunRecord {
            rows: 0,
            pixels: 0,
            position: Position(0),
            row: 0,
            pixel: 0,
        }
    }

    // The record with a row's pixels in it, whose samples are coded in this format. Refuses 13, then 6, then 9.
    pub fn measure_row(self, format: SampleFormat, row: &[u8]) -> Result<RunRecord, Refusal>
        ensures { result ≡ record_answer self (row_in format row.now) }
    {
        if MOST_ROWS <= self.rows {
            return Err(Refusal::RowCount);
        }
        if refuses_count(row.len(), 6) {
            return Err(Refusal::RowLength);
        }
        let row = BoundedRow::of(format, row);
        if let Some(i) = row.first_untaken() {
            return Err(Refusal::Sample(i as u64));
        }
        Ok(self.read().with_row(&row))
    }

    // The peak that a record has measured, rounded up so that no pixel lies above it. Refuses 12.
    #[tactic(auto, unfolding(crate::specs::Run::peak_answer, crate::specs::Run::held, crate::specs::Peak::peak_of))]
    pub fn measured_peak(self) -> Result<Peak, Refusal>
        ensures { result ≡ peak_answer self }
    {
        let read = self.read();
        if read.pixels == 0 {
            return Err(Refusal::NoPixel);
        }
        Ok(Peak {
            cd: round_up(light_at(read.position).0),
            row: read.row,
            pixel: read.pixel,
        })
    }

    // A record as it is read.
    #[tactic(auto, unfolding(crate::specs::Peak::most_rows, crate::specs::Run::most_pixels, quantity::specs::Units::last_position))]
    fn read(self) -> RunRecord
        ensures { result ≡ record_read self }
    {
        RunRecord {
            rows: self.rows.min(MOST_ROWS),
            pixels: self.pixels.min(MOST_PIXELS),
            position: Position(self.position.0.min(LAST_POSITION)),
            row: self.row.min(LAST_ROW),
            pixel: self.pixel.min(LAST_PIXEL),
        }
    }
}

// A light in whole cd/m2, rounded up.
#[tactic(auto, unfolding(crate::specs::Peak::rounded_up, quantity::specs::Units::units))]
fn round_up(light: u64) -> u64
    ensures { result ≡ rounded_up light }
{
    light.div_ceil(UNITS)
}
