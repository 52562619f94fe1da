// Definitions and laws of lists, sums and tests, and three small functions.
#![tactic(auto)]

ghost use Rattle.std.specs.Prelude.{◌≡◌, if◌then◌else◌};
ghost use Rattle.lists.specs.Tests.{within};

// The number where its test holds, else what the later tests gave: so the lowest number that applies is returned.
pub fn first(test: bool, number: u32, later: u32) -> u32
    ensures { result ≡ (if test then number else later) }
{
    if test { number } else { later }
}

// x where the test holds, else 0.
pub fn only_if(test: bool, x: u64) -> u64
    ensures { result ≡ (if test then x else 0) }
{
    if test { x } else { 0 }
}

pub fn in_range(low: u64, high: u64, n: u64) -> bool
    ensures { result ≡ within low high n }
{
    (low <= n) & (n <= high)
}
