// The bytes that came for a row of a title: a whole row, one that is cut short, or the title's end.
ghost use Rattle.std.specs.Prelude.{◌≡◌};
ghost use Rattle.title.specs.Rows.{row_bytes};

use refusal::Refusal;

#[derive(Clone, Copy, PartialEq, Eq)]
pub enum RowBytes {
    // all bytes of a row
    Whole,
    // the title has no further row
    End,
}

// What the bytes that came for a row of so many pixels are, or refusal 11.
#[tactic(auto, unfolding(crate::specs::Rows::row_bytes))]
pub fn test_row_bytes(width: usize, row: &[u8]) -> Result<RowBytes, Refusal>
    ensures { result ≡ row_bytes width row.now }
{
    if row.is_empty() {
        return Ok(RowBytes::End);
    }
    if row.len() / 6 < width {
        return Err(Refusal::RowCut);
    }
    Ok(RowBytes::Whole)
}
