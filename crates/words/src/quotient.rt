// A quotient that is tested, not computed.
ghost use Rattle.std.specs.Prelude.{◌≡◌, ◌*◌};
ghost use Rattle.words.specs.Quotient.{is_quotient};

use crate::product::multiply_add;

// Whether q is c m2 / m1 rounded down: q m1 and a rest below m1 make c m2. Where q m1 is more, the difference wraps to one that is not below a word.
#[tactic(auto, using(crate::proofs::QuotientLaws::difference_decides))]
pub fn is_quotient(q: u64, c: u64, m1: u64, m2: u64) -> bool
    ensures { result ≡ is_quotient q (c * m2) m1 }
{
    let rest = multiply_add(c, m2, 0).wrapping_sub(multiply_add(q, m1, 0));
    rest < u128::from(m1)
}
