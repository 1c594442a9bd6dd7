// What a host in C gets of an answer.
ghost use Rattle.std.specs.Prelude.{◌≡◌, ◌%◌, ◌^◌};
ghost use Rattle.rows.specs.Answer.{host_number};

use refusal::Refusal;

// The number for a host in C: 0, or the refusal plus 256 times its place, wrapped where a word does not hold it. No call refuses so far up.
pub fn host_number(answer: Result<(), Refusal>) -> u64
    ensures { result ≡ host_number answer % 2 ^ 64 }
{
    match answer {
        Ok(()) => 0,
        Err(refusal) => refusal
            .place()
            .wrapping_mul(256)
            .wrapping_add(refusal.number()),
    }
}
