// Rows of 16-bit samples, three to a pixel, high byte first: the tests 6 to 9 of a span, the samples that they read, and the bytes of a pixel. A call tests
// what else it refuses and converts what these accept.
#![tactic(auto)]

pub mod elements;
pub mod host;

ghost use Rattle.std.specs.Prelude.{◌≡◌, ◌-◌, ◌/◌, ◌<◌, min, length};
ghost use Rattle.quantity.specs.Component.{components};
ghost use Rattle.quantity.specs.SampleFormat.{least_taken, most_taken};
ghost use Rattle.rows.specs.Row.{sample_at, pixel_bytes};
ghost use Rattle.rows.specs.Answer.{outside, first_refused, before, count_refused, span_refused, span_answer, samples_answer};

use big_endian::number_at;
pub use host::host_number;
use quantity::Rgb;
use quantity::sample_format::SampleFormat;
use refusal::Refusal;
use std::ops::Range;

// The samples that are taken, from the least to the most.
#[derive(Clone, Copy)]
pub struct Taken {
    pub least: u64,
    pub most: u64,
}

impl Taken {
    pub fn of(format: SampleFormat) -> Taken
        ensures { (result.least ≡ least_taken format) × (result.most ≡ most_taken format) }
    {
        Taken {
            least: format.least_taken(),
            most: format.most_taken(),
        }
    }

    // Test 9 of one sample. A difference that wraps round is past every range: two comparisons, or a range's `contains`, took a search 1.3 ns a sample, this
    // one 0.65.
    #[tactic(auto, using(std::proofs::lemmas::Bool::Decides::nat_tests), unfolding(crate::specs::Answer::outside))]
    pub fn refuses(self, sample: u64) -> bool
        ensures { result ≡ outside self.least self.most sample }
    {
        self.most < self.least || self.most - self.least < sample.wrapping_sub(self.least)
    }
}

// Tests 6 to 9 in their order, for the pixels of a span of a row and a destination of so many bytes.
#[tactic(auto, unfolding(crate::specs::Answer::span_answer, crate::specs::Answer::destination_refused))]
pub fn test_span(row: &[u8], bytes: usize, span: Range<usize>, taken: Taken) -> Result<(), Refusal>
    ensures { result ≡ span_answer (outside taken.least taken.most) row.now bytes span.start span.end }
{
    if refuses_count(row.len(), 6) {
        return Err(Refusal::RowLength);
    }
    if bytes != row.len() {
        return Err(Refusal::DestinationLength);
    }
    if refuses_span(row.len() / 6, &span) {
        return Err(Refusal::Span);
    }
    if let Some(i) = first_refused(row, 3 * span.start..3 * span.end, taken) {
        return Err(Refusal::Sample(i as u64));
    }
    Ok(())
}

// Test 9 of a pixel, whose place is 0 for red, 1 for green, 2 for blue.
pub fn test_pixel(p: Rgb<u64>, taken: Taken) -> Result<(), Refusal>
    ensures { result ≡ samples_answer (outside taken.least taken.most) (components p) }
{
    match [p.red, p.green, p.blue]
        .iter()
        .position(|sample| taken.refuses(*sample))
    {
        Some(place) => Err(Refusal::Sample(place as u64)),
        None => Ok(()),
    }
}

// Tests 6, 15 and 18: so many to a pixel, a row has whole pixels, and no more than 8,192.
#[tactic(auto, unfolding(crate::specs::Answer::count_refused))]
pub fn refuses_count(count: usize, to_a_pixel: u8) -> bool
    ensures { result ≡ count_refused to_a_pixel count }
{
    let to_a_pixel = to_a_pixel as usize;
    !count.is_multiple_of(to_a_pixel) || 8192 * to_a_pixel < count
}

// Test 8.
#[tactic(auto, unfolding(crate::specs::Answer::span_refused))]
pub fn refuses_span(pixels: usize, span: &Range<usize>) -> bool
    ensures { result ≡ span_refused pixels span.now.start span.now.end }
{
    span.end < span.start || pixels < span.end
}

// The first sample of a part of a row that is not taken. A call of its own: in the midst of a row call the compiler carries the place's number for a host
// along from sample to sample, which took the return path's rows 1.3 ns a sample for 0.65.
#[inline(never)]
pub fn first_refused(row: &[u8], samples: Range<usize>, taken: Taken) -> Option<usize>
    ensures { let end = min samples.end (length row.now / 2) in
        result ≡ before end (first_refused (outside taken.least taken.most) row.now samples.start (end - samples.start)) }
{
    for i in samples.start..samples.end.min(row.len() / 2) {
        // read from a part of two bytes, whose length needs no test
        if taken.refuses(sample_at(&row[2 * i..2 * i + 2], 0)) {
            return Some(i);
        }
    }
    None
}

// The three samples at the start of the bytes.
pub fn pixel_of(bytes: &[u8]) -> Rgb<u64>
    ensures samples { (result.red ≡ sample_at bytes.now 0) × (result.green ≡ sample_at bytes.now 1) × (result.blue ≡ sample_at bytes.now 2) }
    ensures bounds { (result.red < 65536) × (result.green < 65536) × (result.blue < 65536) }
{
    Rgb {
        red: sample_at(bytes, 0),
        green: sample_at(bytes, 1),
        blue: sample_at(bytes, 2),
    }
}

// The bytes of a pixel of codes.
#[tactic(auto, unfolding(crate::specs::Row::pixel_bytes))]
pub fn pixel_bytes(p: Rgb<u16>) -> [u8; 6]
    ensures { result ≡ pixel_bytes (components p) }
{
    let red = p.red.to_be_bytes();
    let green = p.green.to_be_bytes();
    let blue = p.blue.to_be_bytes();
    [red[0], red[1], green[0], green[1], blue[0], blue[1]]
}

// Sample i of a row; a byte past the end counts as 0.
#[tactic(auto, unfolding(crate::specs::Row::sample_at, big_endian::specs::BigEndian::number_at))]
pub fn sample_at(row: &[u8], i: usize) -> u64
    ensures { (result ≡ sample_at row.now i) × (result < 65536) }
{
    if row.len() / 2 < i {
        return 0;
    }
    number_at(row, 2 * i)
}
