// Captions from sRGB for a host in C: the row call of `srgb_hlg`, exported with its clauses.
#![tactic(auto)]

ghost use Rattle.std.specs.Prelude.{◌≡◌, length};
ghost use Rattle.rows.specs.Answer.{host_number};
ghost use Rattle.srgb_hlg.specs.Row.{row_answer, destination_after};

// The row call for a host in C: 0, or the refusal; its place is always 0.
#[unsafe(no_mangle)]
pub extern "C" fn srgb_hlg_convert_row(row: &[u8], dst: &mut [u8], first: usize, end: usize) -> u64
    ensures { (result ≡ host_number (row_answer row.now (length dst.old) first end))
        × (dst.new ≡ destination_after row.now dst.old first end) }
{
    srgb_hlg::srgb_hlg_convert_row(row, dst, first, end)
}
