// Captions from sRGB: one pixel, a span of a row, and what `srgb_hlg_c` exports to a host in C. Eight-bit sRGB values in, HLG codes of ten bits and narrow
// range out; white is three quarters of the HLG signal.
#![tactic(auto)]

mod code;
mod hint_table;
mod hints;
mod scene;
mod span;

ghost use Rattle.std.specs.Prelude.{◌≡◌, length};
ghost use Rattle.rows.specs.Answer.{host_number};
ghost use Rattle.srgb_hlg.specs.Codes.{HasCodes};
ghost use Rattle.srgb_hlg.specs.Row.{row_answer, destination_after};

use quantity::Rgb;
use refusal::Refusal;
use rows::elements::test_elements;
use rows::host_number;
use span::{codes_of, convert_span};

// The HLG codes of one pixel. Every value is taken.
pub fn convert_pixel(p: Rgb<u8>) -> Rgb<u64>
    ensures { HasCodes p.red p.green p.blue result.red result.green result.blue }
{
    codes_of(Rgb {
        red: u64::from(p.red),
        green: u64::from(p.green),
        blue: u64::from(p.blue),
    })
}

// The pixels first to end - 1 of a row of bytes, three to a pixel, converted into the same places of a destination of two bytes to each, whose other bytes
// remain. Refuses 18, 7, 8 and then leaves every byte. First and end stand apart, as the call for a host in C has them.
pub fn convert_row(row: &[u8], dst: &mut [u8], first: usize, end: usize) -> Result<(), Refusal>
    ensures { (result ≡ row_answer row.now (length dst.old) first end)
        × (dst.new ≡ destination_after row.now dst.old first end) }
{
    test_elements(Refusal::ElementCount, row.len(), dst.len(), first..end)?;
    convert_span(&row[3 * first..], &mut dst[6 * first..6 * end]);
    Ok(())
}

// What the row call for a host in C answers: 0, or the refusal; its place is always 0. `srgb_hlg_c` exports it under this name.
pub fn srgb_hlg_convert_row(row: &[u8], dst: &mut [u8], first: usize, end: usize) -> u64
    ensures { (result ≡ host_number (row_answer row.now (length dst.old) first end))
        × (dst.new ≡ destination_after row.now dst.old first end) }
{
    host_number(convert_row(row, dst, first, end))
}
