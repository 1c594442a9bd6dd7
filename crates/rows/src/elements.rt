// The tests of a span of a row whose samples each come from one element, three to a pixel, that look at no element.
ghost use Rattle.std.specs.Prelude.{◌≡◌};
ghost use Rattle.rows.specs.Element.{elements_answer};

use crate::{refuses_count, refuses_span};
use refusal::Refusal;
use std::ops::Range;

// The test of the elements, which has a refusal of its own in each call, then 7 and 8, for the pixels of a span of a row of so many elements and a
// destination of so many bytes.
#[tactic(auto, unfolding(crate::specs::Element::elements_answer, crate::specs::Answer::destination_refused))]
pub fn test_elements(
    refusal: Refusal,
    elements: usize,
    bytes: usize,
    span: Range<usize>,
) -> Result<(), Refusal>
    ensures { result ≡ elements_answer refusal elements bytes span.start span.end }
{
    if refuses_count(elements, 3) {
        return Err(refusal);
    }
    if bytes != 2 * elements {
        return Err(Refusal::DestinationLength);
    }
    if refuses_span(elements / 3, &span) {
        return Err(Refusal::Span);
    }
    Ok(())
}
