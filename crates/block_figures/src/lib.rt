// Rule 1 of a block for one generator and rule 4 for one pair, on numbers, and a generator's kind as the rules go by it.
#![tactic(auto)]

ghost use Rattle.std.specs.Prelude.{◌≡◌, ◌≤◌, ℕ};
ghost use Rattle.lists.specs.Sums.{sum};
ghost use Rattle.lists.specs.Pairs.{place};
ghost use Rattle.energy.specs.Limits.{most_capacity, most_loss};
ghost use Rattle.block_rules.specs.Delivery.{counted_of};
ghost use Rattle.energy.specs.Energy.{after_loss};
ghost use Rattle.block_figures.specs.Laws.Kinds.{kind_of};
ghost use Rattle.block_figures.specs.Laws.Gap.{gap_of};

use energy::{BlockWh, Kw};

// A generator's kind as the rules go by it. The record holds a number: 0 is scheduled; 1 to 3, wind, mini-hydel and solar, are deemed, that is,
// scheduled at what they inject; and so is any number beyond, which no sound record holds.
#[derive(Clone, Copy, Debug, PartialEq, Eq)]
pub enum Kind {
    Scheduled,
    Deemed,
}

impl From<u64> for Kind {
    ghost from_gives = { λ number kind. kind ≡ kind_of number };

    fn from(number: u64) -> Kind {
        if number == 0 {
            Kind::Scheduled
        } else {
            Kind::Deemed
        }
    }
}

// All the kW of a generator, added up.
pub fn scheduled_kw(row: [u32; 16]) -> Kw
    requires { sum 16 (place 16 row) ≤ most_capacity }
    ensures { result.0 ≡ sum 16 (place 16 row) }
{
    let mut sum: u32 = 0;
    for c in 0..16 {
        sum += row[c];
    }
    Kw(sum)
}

// Rule 1: what counts of the entry reading. Nothing where nothing is scheduled; all of it for a deemed kind, which is scheduled at what it
// delivers; else at most what is scheduled.
#[tactic(auto, unfolding(block_rules::specs::Delivery::counted_of))]
pub fn counted(kind: Kind, scheduled: Kw, entry: u32) -> u32
    requires { scheduled.0 ≤ most_capacity }
    ensures { (k : ℕ) → kind ≡ kind_of k → result ≡ counted_of k scheduled.0 entry }
{
    if scheduled.0 == 0 {
        return 0;
    }
    match kind {
        Kind::Scheduled => entry.min(scheduled.quarter_hour().0),
        Kind::Deemed => entry,
    }
}

// Rule 4, less what is delivered: a deemed kind is scheduled at what it delivers.
#[tactic(auto, using(energy::specs::Laws::EnergyLaws::loss_le), unfolding(crate::specs::Laws::Gap::gap_of))]
pub fn gap(kind: Kind, scheduled: BlockWh, rate: u32, delivered: u32) -> u32
    requires { (rate ≤ most_loss) × (kind ≡ Kind.Scheduled → delivered ≤ after_loss scheduled.0 rate) }
    ensures { (k : ℕ) → kind ≡ kind_of k → result ≡ gap_of k scheduled.0 rate delivered }
{
    match kind {
        Kind::Scheduled => scheduled.0 - energy::loss(scheduled, rate).0 - delivered,
        Kind::Deemed => 0,
    }
}
