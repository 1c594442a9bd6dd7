// 16-bit numbers in bytes, high byte first: how cards, widths and rows hold theirs. A byte past the end counts as 0.
#![tactic(auto)]

ghost use Rattle.std.specs.Prelude.{◌≡◌, ◌<◌, get_or};
ghost use Rattle.big_endian.specs.BigEndian.{number_at};

// The number whose high byte is at place i.
#[tactic(auto, unfolding(crate::specs::BigEndian::number_at))]
pub fn number_at(bytes: &[u8], i: usize) -> u64
    ensures { (result ≡ number_at bytes.now i) × (result < 65536) }
{
    256 * byte_at(bytes, i) + byte_at(bytes, i.saturating_add(1))
}

// The byte at place i.
pub fn byte_at(bytes: &[u8], i: usize) -> u64
    ensures { (result ≡ get_or bytes.now i 0) × (result < 256) }
{
    u64::from(bytes.get(i).copied().unwrap_or(0))
}
