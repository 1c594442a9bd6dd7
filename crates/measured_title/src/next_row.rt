// A title's rows, one after another, counted into the record of a run, and the line of its result.
ghost use Rattle.std.specs.Prelude.{◌≡◌, length};
ghost use Rattle.content_light.specs.Run.{peak_answer};
ghost use Rattle.listing.specs.Text.{opened};
ghost use Rattle.measured_title.specs.NextRow.{next_row, peak_line_within};

use content_light::RunRecord;
use listing::{list_line, list_refusal};
use quantity::sample_format::SampleFormat;
use refusal::Refusal;
use title::row_bytes::{RowBytes, test_row_bytes};

// What the bytes that came for a row make of a run's record: it with the row in it, or nothing where the title has no further row. Refuses 11 before what
// the run refuses. It takes format and width and no `Layout`: of what a card declares the peak is not used.
#[tactic(auto, unfolding(crate::specs::NextRow::next_row))]
pub fn measure_next_row(
    run: RunRecord,
    format: SampleFormat,
    width: usize,
    row: &[u8],
) -> Result<Option<RunRecord>, Refusal>
    ensures { result ≡ next_row run format width row.now }
{
    match test_row_bytes(width, row)? {
        RowBytes::Whole => {
            let longer = run.measure_row(format, row)?;
            Ok(Some(longer))
        }
        RowBytes::End => Ok(None),
    }
}

// The line of a run's result at the start of a buffer: peak, row and pixel, or the refusal; its length. The buffer needs 63 bytes, for a refusal 29.
pub fn list_peak(run: RunRecord, text: &mut [u8]) -> usize
    ensures { (result ≡ length (peak_line_within (peak_answer run) (length text.old)))
        × (text.new ≡ opened (peak_line_within (peak_answer run) (length text.old)) text.old) }
{
    match run.measured_peak() {
        Ok(peak) => list_line(peak.cd, peak.row, peak.pixel, text),
        Err(refusal) => list_refusal(refusal.number(), text),
    }
}
