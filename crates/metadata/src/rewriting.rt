// The rewriting of a stored card that names no peak.
ghost use Rattle.std.specs.Prelude.{◌≡◌};
ghost use Rattle.metadata.specs.Rewriting.{rewriting, rewritten_bits};

use crate::{Card, source_of_metadata};
use refusal::Refusal;

// The mastering peak of a rewritten card, in cd/m2.
const REWRITTEN_PEAK: u16 = 4000;

// What the card is rewritten to: the three bytes of one that names the mastering peak that it was taken to have; nothing where it names a peak, and of its
// refusals 1 to 4.
#[tactic(auto, unfolding(crate::specs::Rewriting::rewriting))]
pub fn rewrite_metadata(card: &[u8]) -> Result<Option<[u8; 3]>, Refusal>
    ensures { result ≡ rewriting card.now }
{
    match source_of_metadata(card) {
        Ok(_) => Ok(None),
        Err(Refusal::NoPeak) => {
            let [high, low] = REWRITTEN_PEAK.to_be_bytes();
            Ok(Some([Card(card).rewritten_bits(), high, low]))
        }
        Err(refusal) => Err(refusal),
    }
}

impl Card<'_> {
    // Depth and range stay as they are declared; no field but the mastering peak's stands.
    #[tactic(auto, unfolding(crate::specs::Rewriting::rewritten_bits))]
    fn rewritten_bits(self) -> u8
        ensures { result ≡ rewritten_bits self.entry.0.now }
    {
        2 + 8 * self.stands(3) as u8 + 16 * self.stands(4) as u8
    }
}
