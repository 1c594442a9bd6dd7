// A row's pixels counted into a record: most rows have no pixel that outshines the record's, as their bounds show. In the others the last pixel that
// reaches the bound becomes the record's, and is searched for from the row's end.
ghost use Rattle.std.specs.Prelude.{◌≡◌, ◌/◌, ◌≤◌, ◌<◌, length};
ghost use Rattle.quantity.specs.Units.{last_position};
ghost use Rattle.content_light.specs.Peak.{row_in, most_rows};
ghost use Rattle.content_light.specs.Run.{most_pixels, takes_over, with_pixels, with_row};

use crate::row::{BoundedRow, outshines};
use crate::{MOST_PIXELS, RunRecord};
use position::code::code_position;
use quantity::Position;

impl RunRecord {
    // The record with a row counted.
    #[tactic(auto, unfolding(crate::specs::Run::with_row, crate::specs::Peak::most_rows), using(crate::proofs::RecordLaws::rows_kept))]
    pub(crate) fn with_row(self, row: &BoundedRow) -> RunRecord
        requires { (self.rows < most_rows) × (self.pixels ≤ most_pixels) × (self.position.0 ≤ last_position) × (length row.now.bytes.now ≤ 49152) }
        ensures { result ≡ with_row self (row_in row.now.format row.now.bytes.now) }
    {
        RunRecord {
            rows: self.rows + 1,
            ..self.with_pixels(row)
        }
    }

    // The same before the row itself is counted. Where a pixel as bright as the bound takes over, it is the last such pixel; a row of no pixel has none.
    fn with_pixels(self, row: &BoundedRow) -> RunRecord
        requires { (self.pixels ≤ most_pixels) × (self.position.0 ≤ last_position) × (length row.now.bytes.now ≤ 49152) }
        ensures { result ≡ with_pixels self (row_in row.now.format row.now.bytes.now) (length row.now.bytes.now / 6) }
    {
        let m = code_position(row.format, row.most);
        let pixels = (self.pixels + (row.bytes.len() / 6) as u64).min(MOST_PIXELS);
        if !self.takes_over(m) {
            return RunRecord { pixels, ..self };
        }
        match row.last_reaching(m) {
            Some(j) => RunRecord {
                pixels,
                position: row.position_of(j),
                row: self.rows,
                pixel: j as u64,
                ..self
            },
            None => self,
        }
    }

    // Whether a pixel whose brightest code has the position m becomes the record's.
    #[tactic(auto, unfolding(crate::specs::Run::takes_over))]
    fn takes_over(self, m: Position) -> bool
        requires { self.position.0 ≤ last_position }
        ensures { result ≡ takes_over self m.0 }
    {
        self.pixels == 0 || outshines(m, self.position)
    }
}
