// The calls on display light in floats: a linear pixel, a span of a row of them, and the row call for a host in C. Values are in cd/m2; HLG codes of ten
// bits and narrow range come out.
ghost use Rattle.std.specs.Prelude.{◌≡◌, length};
ghost use Rattle.rows.specs.Answer.{host_number};
ghost use Rattle.linear_light.specs.Conversion.{values};
ghost use Rattle.pq_hlg.specs.Linear.{values_answer, linear_pixel_answer, VotedLinearWhere, linear_row_answer, linear_after};

use crate::test_peak;
use linear_light::{LinearPixel, is_finite, test_linear_span};
use quantity::Rgb;
use refusal::Refusal;
use rows::host_number;
use span::linear::{convert_linear_span, linear_codes};

// The HLG codes of one linear pixel. Refuses 5, then 16; its place is 0 for red, 1 for green, 2 for blue.
#[tactic(auto, unfolding(crate::specs::Linear::linear_pixel_answer, crate::specs::Linear::VotedLinearWhere))]
pub fn convert_linear_pixel(peak: u64, p: LinearPixel) -> Result<Rgb<u64>, Refusal>
    ensures answer { result ≡ linear_pixel_answer peak (values p.red p.green p.blue) }
    ensures voted { VotedLinearWhere result peak (values p.red p.green p.blue) }
{
    test_peak(peak)?;
    test_values(p)?;
    Ok(linear_codes(peak, p))
}

// The pixels first to end - 1 of a row of floats, three to a pixel, converted into the same places of a destination of two bytes to each, whose other bytes
// remain. Refuses 5, 15, 7, 8, 16 and then leaves every byte.
#[tactic(auto, unfolding(crate::specs::Linear::linear_row_answer, crate::specs::Linear::linear_after))]
pub fn convert_linear_row(
    peak: u64,
    row: &[f32],
    dst: &mut [u8],
    first: usize,
    end: usize,
) -> Result<(), Refusal>
    ensures { (result ≡ linear_row_answer peak row.now (length dst.old) first end)
        × (dst.new ≡ linear_after peak row.now dst.old first end) }
{
    test_peak(peak)?;
    test_linear_span(row, dst.len(), first..end)?;
    convert_linear_span(peak, &row[3 * first..], &mut dst[6 * first..6 * end]);
    Ok(())
}

// The row call for a host in C, whose number is made as that of the other calls. The row's length is counted in floats.
pub fn pq_hlg_convert_row_linear(
    peak: u64,
    row: &[f32],
    dst: &mut [u8],
    first: usize,
    end: usize,
) -> u64
    ensures { (result ≡ host_number (linear_row_answer peak row.now (length dst.old) first end))
        × (dst.new ≡ linear_after peak row.now dst.old first end) }
{
    host_number(convert_linear_row(peak, row, dst, first, end))
}

// Test 16 of a pixel.
fn test_values(p: LinearPixel) -> Result<(), Refusal>
    ensures { result ≡ values_answer (values p.red p.green p.blue) }
{
    match [p.red, p.green, p.blue].iter().position(|x| !is_finite(*x)) {
        Some(place) => Err(Refusal::NotFinite(place as u64)),
        None => Ok(()),
    }
}
