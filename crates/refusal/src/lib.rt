// What stops a call: each refusal with its number, and with the place of what is refused where it has one.
#![tactic(auto)]

ghost use Rattle.std.specs.Prelude.{◌≡◌};
ghost use Rattle.refusal.specs.Number.{number, place};

#[derive(Clone, Copy, PartialEq, Eq, Debug)]
pub enum Refusal {
    // a card: it has no byte, a bit that has no meaning, no end within the bytes, a field out of range; or it names no peak
    CardEmpty,
    UnknownBit,
    CardCut,
    FieldOutOfRange,
    NoPeak,
    // a peak of 0 or above 10,000 cd/m2
    Peak,
    // a span of a row: the length of the row in bytes, floats or captions' bytes, that of the destination, the span
    RowLength,
    ValueCount,
    ElementCount,
    DestinationLength,
    Span,
    // a sample that is not taken, or a value that is infinite or no number, by its place in the row or the pixel
    Sample(u64),
    NotFinite(u64),
    // a code that HLG does not have
    Code,
    // a title: the width of its rows, a row that is cut short
    Width,
    RowCut,
    // a measuring run: no pixel, or more rows than it counts
    NoPixel,
    RowCount,
    // a refusal of a caller's own, by its number and place: the tests of rows serve calls with refusals that are not listed here
    Own(u64, u64),
}

impl Refusal {
    // The number, as a host in C gets it and a program prints it.
    pub fn number(self) -> u64
        ensures { result ≡ number self }
    {
        match self {
            Refusal::CardEmpty => 1,
            Refusal::UnknownBit => 2,
            Refusal::CardCut => 3,
            Refusal::FieldOutOfRange => 4,
            Refusal::Peak => 5,
            Refusal::RowLength => 6,
            Refusal::DestinationLength => 7,
            Refusal::Span => 8,
            Refusal::Sample(_) => 9,
            Refusal::Width => 10,
            Refusal::RowCut => 11,
            Refusal::NoPixel => 12,
            Refusal::RowCount => 13,
            Refusal::Code => 14,
            Refusal::ValueCount => 15,
            Refusal::NotFinite(_) => 16,
            Refusal::NoPeak => 17,
            Refusal::ElementCount => 18,
            Refusal::Own(number, _) => number,
        }
    }

    // The place, counted from 0 at the start of the row or at the pixel's red, a caller's own as it gave it; 0 where there is none.
    pub fn place(self) -> u64
        ensures { result ≡ place self }
    {
        match self {
            Refusal::Sample(place) => place,
            Refusal::NotFinite(place) => place,
            Refusal::Own(_, place) => place,
            _ => 0,
        }
    }
}
