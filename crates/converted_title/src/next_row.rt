// A title's rows, one after another: each is converted and listed, or ends the title.
ghost use Rattle.std.specs.Prelude.{◌≡◌, length};
ghost use Rattle.converted_title.specs.NextRow.{next_row, codes_after, NextPiece};

use listing::{list_refusal, list_row};
use pq_hlg::convert_row;
use refusal::Refusal;
use title::opening::Layout;
use title::row_bytes::{RowBytes, test_row_bytes};

// A piece of a title's text.
#[derive(Clone, Copy)]
pub struct Piece {
    // its length
    pub bytes: usize,
    // how many rows are still to be read
    pub left: u64,
}

// The piece of text that the next row gives, where `left` rows are still to be read, at the start of a buffer: a line for each pixel, 18 bytes at
// most, or the line of a refusal, 29 at most. `row` is what was read of the row's bytes, and `codes` has room for as many.
pub fn list_next_row(
    layout: Layout,
    left: u64,
    row: &[u8],
    codes: &mut [u8],
    text: &mut [u8],
) -> Piece
    ensures { NextPiece (next_row layout.source layout.width row.now (length codes.old)) layout.source left row.now
        codes.old text.old result codes.new text.new }
{
    match convert_next_row(layout, row, codes) {
        Ok(RowBytes::Whole) => Piece {
            bytes: list_row(codes, text),
            left: left.saturating_sub(1),
        },
        Ok(RowBytes::End) => Piece { bytes: 0, left: 0 },
        Err(refusal) => Piece {
            bytes: list_refusal(refusal.number(), text),
            left: 0,
        },
    }
}

// What the bytes that came for a row make of it, and its codes. Refuses 11 before what the row call refuses; a refusal, or the end, leaves the buffer
// as it was.
#[tactic(auto, using(crate::proofs::NextRowLaws::whole_destination, crate::proofs::NextRowLaws::destination_left), unfolding(crate::specs::NextRow::next_row))]
fn convert_next_row(layout: Layout, row: &[u8], codes: &mut [u8]) -> Result<RowBytes, Refusal>
    ensures { (result ≡ next_row layout.source layout.width row.now (length codes.old))
        × (codes.new
        ≡ codes_after (next_row layout.source layout.width row.now (length codes.old)) layout.source row.now codes.old) }
{
    match test_row_bytes(layout.width, row)? {
        RowBytes::Whole => {
            convert_row(layout.source, row, codes, 0, row.len() / 6)?;
            Ok(RowBytes::Whole)
        }
        RowBytes::End => Ok(RowBytes::End),
    }
}
