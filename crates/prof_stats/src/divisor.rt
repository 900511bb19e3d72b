//! The greatest common divisor of two numbers.
ghost use Rattle.std.specs.Prelude.{◌≡◌, ◌<◌};
ghost use Rattle.std.specs.Int.{IsGcd};
ghost use Rattle.prof_stats.specs.StatsTable.{greatest_divisor};

/// By Euclid's steps: that of a number and 0 is the number, and any other that of the second and the remainder.
#[tactic(auto, using(crate::proofs::Divisors::euclid_steps))]
fn euclid(a: u64, b: u64) -> u64
    ensures { IsGcd a b result }
{
    if b == 0 { a } else { euclid(b, a % b) }
}

/// The greatest number that divides both, where the second is not 0.
#[tactic(auto, using(crate::proofs::Divisors::divisor_steps))]
pub fn divisor_of(a: u64, b: u64) -> u64
    requires { 0 < b }
    ensures divisor { result ≡ greatest_divisor a b }
    ensures some { 0 < result }
{
    euclid(a, b)
}
