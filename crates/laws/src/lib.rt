// Laws of arithmetic that every other crate cites: definitions in specs/, laws in proofs/; and the search that they speak of.
#![tactic(auto)]

ghost use Rattle.std.specs.Prelude.{◌≡◌, ℕ, ◌-◌, ◌<◌, ◌≤◌, Bool};
ghost use Rattle.laws.specs.Largest.{largest, Falling};

// The largest of the numbers from + 1 .. last that passes a test, else from, by halving what is left: of a test that fails from where it fails once.
pub fn largest<F: Fn(u64) -> bool>(passes: &F, from: u64, last: u64) -> u64
    requires { (d : ℕ) → from < d → d ≤ last → F.pre passes.now d }
    ensures { (test : ℕ → Bool) → Falling test
        → ((d : ℕ) (b : Bool) → from < d → d ≤ last → F.post passes.now d b → b ≡ test d) → result ≡ largest test from (last - from) }
{
    if last <= from {
        return from;
    }
    let middle = last - (last - from) / 2;
    if passes(middle) {
        largest(passes, middle, last)
    } else {
        largest(passes, from, middle - 1)
    }
}
