// Capacity and energy, the loss of a pair and the bank's charge.
#![tactic(auto)]

ghost use Rattle.std.specs.Prelude.{◌≡◌, ◌≤◌, ◌/◌, ◌%◌};
ghost use Rattle.energy.specs.Energy.{quarter_hour, portion_up, loss_on};
ghost use Rattle.energy.specs.Laws.Portionable.{Portionable};
ghost use Rattle.energy.specs.Limits.{most_capacity, most_loss};

// Wh in one reading.
pub const MOST_READING: u64 = 200_000_000;

// kW installed or contracted, and so the kW of one row of the schedule.
pub const MOST_CAPACITY: u64 = 400_000;

// Capacity in kW and energy in whole watt-hours are types of their own: they are never added to each other.
#[derive(Clone, Copy)]
pub struct Kw(pub u32);

// An energy of the account, as what is pending: summed up over many blocks.
#[derive(Clone, Copy)]
pub struct Wh(pub u64);

// An energy of one block: a reading, a part of it, a loss, or a quarter hour of a capacity. It fits 32 bits.
#[derive(Clone, Copy)]
pub struct BlockWh(pub u32);

impl Kw {
    // The quarter-hour rule, the only place that multiplies by 250.
    pub fn quarter_hour(self) -> BlockWh
        requires { self.0 ≤ most_capacity }
        ensures { result.0 ≡ quarter_hour self.0 }
    {
        BlockWh(250 * self.0)
    }
}

// The bank's charge: hundredths of a percent of x, rounded up.
pub fn portion_up(x: Wh, rate: u64) -> Wh
    requires { Portionable x.0 rate }
    ensures { result.0 ≡ portion_up x.0 rate }
{
    Wh((x.0 * rate + 9_999) / 10_000)
}

// An energy as whole ten-thousands of watt-hours and a remainder.
#[derive(Clone, Copy)]
struct TenThousands {
    whole: u32,
    rest: u32,
}

fn in_ten_thousands(x: u32) -> TenThousands
    ensures { (result.whole ≡ x / 10_000) × (result.rest ≡ x % 10_000) }
{
    TenThousands {
        whole: x / 10_000,
        rest: x % 10_000,
    }
}

// Rule 3 of a block: hundredths of a percent of x, to the nearest, halves up. Of whole ten-thousands that is a whole number, so that only the
// remainder's is rounded; and neither product leaves 32 bits, as that of x itself could. Callers show that the rate is that of a sound record.
pub fn loss(x: BlockWh, rate: u32) -> BlockWh
    requires { rate ≤ most_loss }
    ensures { result.0 ≡ loss_on x.0 rate }
{
    let part = x.0;
    let TenThousands { whole, rest } = in_ten_thousands(part);
    BlockWh(whole * rate + (rest * rate + 5_000) / 10_000)
}
