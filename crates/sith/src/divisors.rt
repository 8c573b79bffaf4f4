//! Greatest common divisors and least common multiples.
ghost use Rattle.std.specs.Prelude.{◌<◌, ◌≤◌, ◌*◌, ◌≡◌, ◌^◌, ℕ};
ghost use Rattle.sith.specs.Divisors.{IsGreatestDivisor, IsMultipleOfBoth};

/// The greatest common divisor, by Euclid's algorithm.
fn greatest_divisor(one: u128, other: u128) -> u128
    ensures { IsGreatestDivisor one other result }
{
    let mut larger = one;
    let mut smaller = other;
    while smaller != 0 {
        let rest = larger % smaller;
        larger = smaller;
        smaller = rest;
    }
    larger
}

/// The least common multiple of two numbers.
pub(crate) fn least_multiple(one: u128, other: u128) -> u128
    requires one { (0 < one) × (one ≤ 2 ^ 64) }
    requires other { (0 < other) × (other < 2 ^ 32) }
    ensures multiple { IsMultipleOfBoth one other result }
    ensures range { (0 < result) × (result < 2 ^ 96) }
{
    let divisor = greatest_divisor(one, other);
    one * (other / divisor)
}
