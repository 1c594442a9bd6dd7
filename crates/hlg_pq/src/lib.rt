// The return path's calls: one pixel, a span of a row, and what `hlg_pq_c` exports to a host in C. Samples are HLG code values in and PQ ones out, both of
// ten bits and narrow range, at 1,000 cd/m2.
#![tactic(auto)]

ghost use Rattle.std.specs.Prelude.{◌≡◌, length};
ghost use Rattle.quantity.specs.Component.{components};
ghost use Rattle.rows.specs.Answer.{host_number};
ghost use Rattle.hlg_pq.specs.Pixel.{pixel_answer};
ghost use Rattle.hlg_pq.specs.Row.{row_answer, destination_after};

use quantity::Rgb;
use refusal::Refusal;
use return_span::{convert_span, pixel_codes};
use rows::{Taken, host_number, test_pixel, test_span};

const TAKEN: Taken = Taken {
    least: 4,
    most: 1019,
};

// The PQ codes of one pixel. Refuses 9; its place is 0 for red, 1 for green, 2 for blue.
#[tactic(auto, unfolding(crate::specs::Pixel::pixel_answer))]
pub fn convert_pixel(p: Rgb<u64>) -> Result<Rgb<u64>, Refusal>
    ensures { result ≡ pixel_answer (components p) }
{
    test_pixel(p, TAKEN)?;
    Ok(pixel_codes(p))
}

// The pixels first to end - 1 of a row, converted into the same places of a destination, whose other bytes remain. Refuses 6 to 9 and then
// leaves every byte. First and end stand apart, as the call for a host in C has them.
pub fn convert_row(row: &[u8], dst: &mut [u8], first: usize, end: usize) -> Result<(), Refusal>
    ensures { (result ≡ row_answer row.now (length dst.old) first end)
        × (dst.new ≡ destination_after row.now dst.old first end) }
{
    test_span(row, dst.len(), first..end, TAKEN)?;
    convert_span(&row[6 * first..], &mut dst[6 * first..6 * end]);
    Ok(())
}

// What the row call for a host in C answers: 0, or the refusal plus 256 times its place. `hlg_pq_c` exports it under this name.
pub fn hlg_pq_convert_row(row: &[u8], dst: &mut [u8], first: usize, end: usize) -> u64
    ensures { (result ≡ host_number (row_answer row.now (length dst.old) first end))
        × (dst.new ≡ destination_after row.now dst.old first end) }
{
    host_number(convert_row(row, dst, first, end))
}
