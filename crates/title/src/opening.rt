// How a title opens: its card, and then the width of its rows in pixels.
ghost use Rattle.std.specs.Prelude.{◌≡◌, ◌≤◌, IfOk};
ghost use Rattle.title.specs.Opening.{opening_answer, bytes_asked};

use big_endian::number_at;
use metadata::{after_metadata, bytes_wanted, source_of_metadata};
use quantity::Source;
use refusal::Refusal;

// What is declared of the picture, and the pixels of each row.
#[derive(Clone, Copy)]
pub struct Layout {
    pub source: Source,
    pub width: usize,
}

// What the bytes of an opening declare, or the refusal, 1 to 4 and 17, then 10.
#[tactic(auto, unfolding(crate::specs::Opening::opening_answer, crate::specs::Opening::width_answer, crate::specs::Opening::width_refused))]
pub fn read_opening(opening: &[u8]) -> Result<Layout, Refusal>
    ensures answer { result ≡ opening_answer opening.now }
    ensures width { IfOk result (λ layout. layout.width ≤ 8192) }
{
    let source = source_of_metadata(opening)?;
    let rest = after_metadata(opening);
    let width = number_at(rest, 0) as usize;
    if rest.len() < 2 || width == 0 || 8192 < width {
        return Err(Refusal::Width);
    }
    Ok(Layout { source, width })
}

// How many bytes to read next, after those of the opening that were read. 0 where it is whole or refused.
#[tactic(auto, unfolding(crate::specs::Opening::bytes_asked))]
pub fn bytes_asked(opening: &[u8]) -> usize
    ensures { result ≡ bytes_asked opening.now }
{
    match source_of_metadata(opening) {
        Ok(_) => 2usize.saturating_sub(after_metadata(opening).len()),
        Err(_) => bytes_wanted(opening),
    }
}
