// The card that precedes a picture: what it declares of the picture, or its refusal, and the bytes that follow it.
// Each call takes the caller's bytes from the card's first on, with whatever comes after it.
#![tactic(auto)]

pub mod rewriting;

ghost use Rattle.std.specs.Prelude.{◌≡◌, ◌<◌, ◌≤◌, not, length};
ghost use Rattle.std.specs.Bool.{then_some};
ghost use Rattle.metadata.specs.Card.{stands, max_cll, mastering_peak, card_bytes, unknown_bit, field_out_of_range};
ghost use Rattle.metadata.specs.Card.{names_no_peak, peak, format, card_answer, end_after, following, card_wants};

use big_endian::{byte_at, number_at};
use quantity::Source;
use quantity::sample_format::SampleFormat;
use refusal::Refusal;

// What the card declares of its picture, or its refusal, 1 to 4 and then 17. Every field that stands is tested, also one that does not decide the peak.
#[tactic(auto, unfolding(crate::specs::Card::card_answer))]
pub fn source_of_metadata(card: &[u8]) -> Result<Source, Refusal>
    ensures { result ≡ card_answer card.now }
{
    let fields = Card(card);
    if card.is_empty() {
        return Err(Refusal::CardEmpty);
    }
    if fields.has_unknown_bit() {
        return Err(Refusal::UnknownBit);
    }
    if card.len() < fields.length() {
        return Err(Refusal::CardCut);
    }
    if fields.has_field_out_of_range() {
        return Err(Refusal::FieldOutOfRange);
    }
    let peak = fields.peak().ok_or(Refusal::NoPeak)?;
    Ok(Source {
        peak,
        format: fields.format(),
    })
}

// The bytes after the card, also where it is refused for want of a peak; none where 1 to 4 refuse it.
#[tactic(auto, unfolding(crate::specs::Card::following))]
pub fn after_metadata(card: &[u8]) -> &[u8]
    ensures { result.now ≡ following card.now }
{
    let end = end_of_metadata(card);
    &card[end..]
}

// How many bytes the card still wants before it can be answered: its bit map, then its fields.
#[tactic(auto, unfolding(crate::specs::Card::card_wants))]
pub fn bytes_wanted(card: &[u8]) -> usize
    ensures { result ≡ card_wants card.now }
{
    let fields = Card(card);
    if card.is_empty() {
        return 1;
    }
    if fields.has_unknown_bit() {
        return 0;
    }
    fields.length().saturating_sub(card.len())
}

// Where the bytes begin that follow the card: at its end, or at the end of all bytes where 1 to 4 refuse it. `Ok(_) | Err(NoPeak)` in one arm was tried, and
// the proof did not close: no fact tells there which of the two it is.
#[tactic(auto, using(crate::proofs::CardLaws::accepted, crate::proofs::CardLaws::no_peak_named))]
fn end_of_metadata(card: &[u8]) -> usize
    ensures { (result ≡ end_after (card_answer card.now) card.now) × (result ≤ length card.now) }
{
    match source_of_metadata(card) {
        Ok(_) => Card(card).length(),
        Err(Refusal::NoPeak) => Card(card).length(),
        Err(_) => card.len(),
    }
}

// The bytes of a card, whatever comes after it; a byte past their end counts as 0.
#[derive(Clone, Copy)]
struct Card<'a>(&'a [u8]);

impl Card<'_> {
    // Whether a bit of the bit map is set; bit 0 is the lowest.
    fn stands(self, bit: u32) -> bool
        requires { bit < 8 }
        ensures { result ≡ stands bit self.entry.0.now }
    {
        byte_at(self.0, 0) >> bit & 1 == 1
    }

    // Length in bytes of the bit map and of the fields that stand.
    #[tactic(auto, unfolding(crate::specs::Card::card_bytes))]
    fn length(self) -> usize
        ensures { result ≡ card_bytes self.entry.0.now }
    {
        1 + 2 * (self.stands(0) as usize + self.stands(1) as usize)
    }

    #[tactic(auto, using(crate::proofs::CardLaws::unknown_bit_lem))]
    fn has_unknown_bit(self) -> bool
        ensures { result ≡ unknown_bit self.entry.0.now }
    {
        31 < byte_at(self.0, 0)
    }

    #[tactic(auto, unfolding(crate::specs::Card::field_out_of_range, crate::specs::Card::out_of_range))]
    fn has_field_out_of_range(self) -> bool
        ensures { result ≡ field_out_of_range self.entry.0.now }
    {
        let out_of_range = |value: u64| 10000 < value;
        self.max_cll().is_some_and(out_of_range) || self.mastering_peak().is_some_and(out_of_range)
    }

    // The field of bit 0, in cd/m2, where it stands.
    fn max_cll(self) -> Option<u64>
        ensures { result ≡ then_some (stands 0 self.entry.0.now) (max_cll self.entry.0.now) }
    {
        self.stands(0).then_some(number_at(self.0, 1))
    }

    // The field of bit 1, in cd/m2, where it stands: MaxCLL precedes it where bit 0 stands.
    fn mastering_peak(self) -> Option<u64>
        ensures { result ≡ then_some (stands 1 self.entry.0.now) (mastering_peak self.entry.0.now) }
    {
        self.stands(1)
            .then_some(number_at(self.0, 1 + 2 * self.stands(0) as usize))
    }

    // The peak that the card names. A field of 0 is a value that nobody measured.
    #[tactic(auto, unfolding(crate::specs::Card::peak, crate::specs::Card::names_no_peak, crate::specs::Card::known))]
    fn peak(self) -> Option<u64>
        ensures { result ≡ then_some (not (names_no_peak self.entry.0.now)) (peak self.entry.0.now) }
    {
        let known = |value: &u64| *value != 0;
        let unconstrained = self.stands(2).then_some(10000);
        self.max_cll()
            .filter(known)
            .or(unconstrained)
            .or(self.mastering_peak().filter(known))
    }

    // Depth and range, by bits 3 and 4.
    #[tactic(auto, unfolding(crate::specs::Card::format))]
    fn format(self) -> SampleFormat
        ensures { result ≡ format self.entry.0.now }
    {
        SampleFormat::by_bits(byte_at(self.0, 0))
    }
}
