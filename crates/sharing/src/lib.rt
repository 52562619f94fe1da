// The row-sharing step: one generator's energy shared over its consumers' kW.
#![tactic(auto)]

ghost use Rattle.std.specs.Prelude.{◌≡◌};
ghost use Rattle.lists.specs.Sums.{sum};
ghost use Rattle.lists.specs.Tables.{table};
ghost use Rattle.lists.specs.Pairs.{place};
ghost use Rattle.energy.specs.Limits.{most_consumers};
ghost use Rattle.sharing.specs.Laws.Shareable.{Shareable};
ghost use Rattle.sharing.specs.Share.{part, shared};

// Sixteen figures of 32 bits add up to more than 32 bits.
fn total(kw: [u32; 16]) -> u64
    ensures { result ≡ sum most_consumers (place most_consumers kw) }
{
    let mut sum: u64 = 0;
    for c in 0..16 {
        sum += kw[c] as u64;
    }
    sum
}

// A part is the difference of two running shares, each rounded down: so the parts add up to k. A place with no kW,
// whose part is 0, costs no division.
fn parts(k: u64, all: u64, kw: [u32; 16]) -> [u32; 16]
    requires { Shareable k all kw }
    ensures { result ≡ table most_consumers (part most_consumers (place most_consumers kw) k) }
{
    let mut out = [0u32; 16];
    let mut sum: u64 = 0;
    let mut last: u64 = 0;
    for c in 0..16 {
        if kw[c] > 0 {
            sum += kw[c] as u64;
            let share = k * sum / all;
            out[c] = (share - last) as u32;
            last = share;
        }
    }
    out
}

// Rule 2 of a block: k shared over sixteen kW figures, zeros where k or the figures' sum is over its limit.
pub fn share(k: u32, kw: [u32; 16]) -> [u32; 16]
    ensures { result ≡ shared k kw }
{
    let all = total(kw);
    if u64::from(k) > energy::MOST_READING {
        return [0u32; 16];
    }
    if all > energy::MOST_CAPACITY {
        return [0u32; 16];
    }
    if all == 0 {
        return [0u32; 16];
    }
    parts(k as u64, all, kw)
}
