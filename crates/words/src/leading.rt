// How far up a word its first one stands.
ghost use Rattle.std.specs.Prelude.{◌*◌, ◌^◌, ◌<◌, ◌≤◌};

// The zeros before the first one of a word: moved up by them, a word that is not 0 fills all 64 digits. No other number meets this
// (`LeadingLaws.zeros_unique`).
pub fn leading_zeros(x: u64) -> u64
    ensures { (result ≤ 64) × (x * 2 ^ result < 2 ^ 64) × (result < 64 → 2 ^ 63 ≤ x * 2 ^ result) }
{
    u64::from(x.leading_zeros())
}
