// The row calls as a host in C links them: `pq_hlg`'s functions of the same names and clauses, exported. `include/pq_hlg.h` declares them.
#![tactic(auto)]

ghost use Rattle.std.specs.Prelude.{◌≡◌, length};
ghost use Rattle.rows.specs.Answer.{host_number};
ghost use Rattle.ycbcr.specs.declared.SignalFormat.TheVariants.{YCbCr};
ghost use Rattle.pq_hlg.specs.Row.{row_answer, delivered_after, destination_after, source_of};
ghost use Rattle.pq_hlg.specs.Linear.{linear_row_answer, linear_after};

// A span of a row of codes, as RGB: 0, or the refusal plus 256 times its place. Bits 3 and 4 of the format mean twelve bits and full range.
#[unsafe(no_mangle)]
pub extern "C" fn pq_hlg_convert_row(
    peak: u64,
    format: u64,
    row: &[u8],
    dst: &mut [u8],
    first: usize,
    end: usize,
) -> u64
    ensures { (result ≡ host_number (row_answer (source_of peak format) row.now (length dst.old) first end))
        × (dst.new ≡ destination_after (source_of peak format) row.now dst.old first end) }
{
    pq_hlg::pq_hlg_convert_row(peak, format, row, dst, first, end)
}

// The same span as Y'CbCr: the same number.
#[unsafe(no_mangle)]
pub extern "C" fn pq_hlg_convert_row_ycbcr(
    peak: u64,
    format: u64,
    row: &[u8],
    dst: &mut [u8],
    first: usize,
    end: usize,
) -> u64
    ensures { (result ≡ host_number (row_answer (source_of peak format) row.now (length dst.old) first end))
        × (dst.new ≡ delivered_after YCbCr (source_of peak format) row.now dst.old first end) }
{
    pq_hlg::pq_hlg_convert_row_ycbcr(peak, format, row, dst, first, end)
}

// A span of a row of linear floats, as RGB: a number that is made as that of the other calls. The row's length is counted in floats.
#[unsafe(no_mangle)]
pub extern "C" fn pq_hlg_convert_row_linear(
    peak: u64,
    row: &[f32],
    dst: &mut [u8],
    first: usize,
    end: usize,
) -> u64
    ensures { (result ≡ host_number (linear_row_answer peak row.now (length dst.old) first end))
        × (dst.new ≡ linear_after peak row.now dst.old first end) }
{
    pq_hlg::linear::pq_hlg_convert_row_linear(peak, row, dst, first, end)
}
