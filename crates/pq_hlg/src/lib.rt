// The engine's calls: one pixel, its Y'CbCr, a span of a row as RGB or as Y'CbCr, and the row calls for a host in C. Samples are PQ code values of the
// source's depth and range in, and HLG ones of ten bits and narrow range out; a peak is in whole cd/m2. `linear` has the calls on floats.
#![tactic(auto)]

pub mod linear;

ghost use Rattle.std.specs.Prelude.{◌≡◌, length};
ghost use Rattle.quantity.specs.Component.{components};
ghost use Rattle.rows.specs.Answer.{host_number};
ghost use Rattle.ycbcr.specs.declared.SignalFormat.TheVariants.{YCbCr};
ghost use Rattle.pq_hlg.specs.Pixel.{peak_answer, pixel_answer, ycbcr_answer, VotedWhere};
ghost use Rattle.pq_hlg.specs.Row.{row_answer, delivered_after, destination_after, source_of};

use quantity::sample_format::SampleFormat;
use quantity::{Rgb, Source};
use refusal::Refusal;
use rows::{Taken, host_number, test_pixel, test_span};
use span::{convert_span, pixel_codes, ycbcr_codes};
use ycbcr::SignalFormat;

// The codes that HLG has.
const HLG_CODES: Taken = Taken {
    least: 64,
    most: 1019,
};

// The HLG codes of one pixel. Refuses 5, then 9; its place is 0 for red, 1 for green, 2 for blue.
#[tactic(auto, unfolding(crate::specs::Pixel::pixel_answer, crate::specs::Pixel::VotedWhere))]
pub fn convert_pixel(source: Source, p: Rgb<u64>) -> Result<Rgb<u64>, Refusal>
    ensures answer { result ≡ pixel_answer source (components p) }
    ensures voted { VotedWhere result source (components p) }
{
    test_peak(source.peak)?;
    test_pixel(p, Taken::of(source.format))?;
    let codes = pixel_codes(source, p);
    Ok(codes)
}

// Luma, Cb and Cr of three RGB codes, in the places of red, green and blue as in a row. Refuses 14: a code that HLG does not have.
#[tactic(auto, unfolding(crate::specs::Pixel::ycbcr_answer))]
pub fn convert_codes(p: Rgb<u64>) -> Result<Rgb<u64>, Refusal>
    ensures { result ≡ ycbcr_answer (components p) }
{
    if HLG_CODES.refuses(p.red) || HLG_CODES.refuses(p.green) || HLG_CODES.refuses(p.blue) {
        return Err(Refusal::Code);
    }
    Ok(ycbcr_codes(p))
}

// The pixels first to end - 1 of a row, converted into the same places of a destination, whose other bytes remain. Refuses 5 to 9 and then
// leaves every byte. First and end stand apart, as the call for a host in C has them.
#[tactic(auto, unfolding(crate::specs::Row::destination_after))]
pub fn convert_row(
    source: Source,
    row: &[u8],
    dst: &mut [u8],
    first: usize,
    end: usize,
) -> Result<(), Refusal>
    ensures { (result ≡ row_answer source row.now (length dst.old) first end)
        × (dst.new ≡ destination_after source row.now dst.old first end) }
{
    deliver_row(source, SignalFormat::Rgb, row, dst, first, end)
}

// The same pixels as luma, Cb and Cr of their HLG codes, in this order, where that call writes red, green and blue.
pub fn convert_row_ycbcr(
    source: Source,
    row: &[u8],
    dst: &mut [u8],
    first: usize,
    end: usize,
) -> Result<(), Refusal>
    ensures { (result ≡ row_answer source row.now (length dst.old) first end)
        × (dst.new ≡ delivered_after YCbCr source row.now dst.old first end) }
{
    deliver_row(source, SignalFormat::YCbCr, row, dst, first, end)
}

// The row call for a host in C, exported by `pq_hlg_c`: 0, or the refusal plus 256 times its place. Bits 3 and 4 of the format mean twelve bits and full
// range.
pub fn pq_hlg_convert_row(
    peak: u64,
    format: u64,
    row: &[u8],
    dst: &mut [u8],
    first: usize,
    end: usize,
) -> u64
    ensures { (result ≡ host_number (row_answer (source_of peak format) row.now (length dst.old) first end))
        × (dst.new ≡ destination_after (source_of peak format) row.now dst.old first end) }
{
    host_number(convert_row(host_source(peak, format), row, dst, first, end))
}

// The Y'CbCr row call for a host in C: the same number. A call of its own, since the C interface has one for each signal format.
pub fn pq_hlg_convert_row_ycbcr(
    peak: u64,
    format: u64,
    row: &[u8],
    dst: &mut [u8],
    first: usize,
    end: usize,
) -> u64
    ensures { (result ≡ host_number (row_answer (source_of peak format) row.now (length dst.old) first end))
        × (dst.new ≡ delivered_after YCbCr (source_of peak format) row.now dst.old first end) }
{
    host_number(convert_row_ycbcr(host_source(peak, format), row, dst, first, end))
}

// What a host declares by two numbers.
fn host_source(peak: u64, format: u64) -> Source
    ensures { result ≡ source_of peak format }
{
    Source {
        peak,
        format: SampleFormat::by_bits(format),
    }
}

// A row call in a signal format: the tests, then the span.
#[tactic(auto, unfolding(crate::specs::Row::row_answer))]
fn deliver_row(
    source: Source,
    format: SignalFormat,
    row: &[u8],
    dst: &mut [u8],
    first: usize,
    end: usize,
) -> Result<(), Refusal>
    ensures { (result ≡ row_answer source row.now (length dst.old) first end)
        × (dst.new ≡ delivered_after format source row.now dst.old first end) }
{
    test_peak(source.peak)?;
    test_span(row, dst.len(), first..end, Taken::of(source.format))?;
    convert_span(
        source,
        format,
        &row[6 * first..],
        &mut dst[6 * first..6 * end],
    );
    Ok(())
}

// Test 5 of a peak, in whole cd/m2.
#[tactic(auto, unfolding(crate::specs::Pixel::peak_refused))]
fn test_peak(peak: u64) -> Result<(), Refusal>
    ensures { result ≡ peak_answer peak }
{
    if peak == 0 || 10000 < peak {
        return Err(Refusal::Peak);
    }
    Ok(())
}
