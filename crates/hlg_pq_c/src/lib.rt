// The return path for a host in C: the row call of `hlg_pq`, exported with its clauses.
#![tactic(auto)]

ghost use Rattle.std.specs.Prelude.{◌≡◌, length};
ghost use Rattle.rows.specs.Answer.{host_number};
ghost use Rattle.hlg_pq.specs.Row.{row_answer, destination_after};

// The row call for a host in C: 0, or the refusal plus 256 times its place.
#[unsafe(no_mangle)]
pub extern "C" fn hlg_pq_convert_row(row: &[u8], dst: &mut [u8], first: usize, end: usize) -> u64
    ensures { (result ≡ host_number (row_answer row.now (length dst.old) first end))
        × (dst.new ≡ destination_after row.now dst.old first end) }
{
    hlg_pq::hlg_pq_convert_row(row, dst, first, end)
}
