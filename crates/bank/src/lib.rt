// A bank of N balances with its own calls and limits (steps 1, 2 and 4 of a closing): one balance a generator before the switch month, one a
// generator and class of hours from it on. Step 2 by classes is in crate class_bank.
#![tactic(auto)]

ghost use Rattle.std.specs.Prelude.{◌≡◌, ◌+◌, leb, replicate, if◌then◌else◌};
ghost use Rattle.energy.specs.Limits.{most_figure};
ghost use Rattle.closing_rules.specs.Closing.{cycle_ends, lapse_due};
ghost use Rattle.bank.specs.Laws.CreditLaws.{creditable};
ghost use Rattle.bank.specs.Laws.BankSteps.{Credited, givers, Drew};

use energy::Wh;
use record::{Counts, Switch, Terms};

#[derive(Clone, Copy)]
pub struct Bank<const N: usize> {
    pub balance: [u64; N],
}

// the bank after a credit, and the charge on it
#[derive(Clone, Copy)]
pub struct Credit<const N: usize> {
    pub bank: Bank<N>,
    pub charge: [u64; N],
}

// the bank after one consumer has drawn, what it drew on each generator, and what it lacks
#[derive(Clone, Copy)]
pub struct Draw {
    pub bank: Bank<8>,
    pub drawn: [u64; 8],
    pub left: u64,
}

// the bank after the month's end, and what lapsed
#[derive(Clone, Copy)]
pub struct Lapse<const N: usize> {
    pub bank: Bank<N>,
    pub lapsed: [u64; N],
}

// Whether a balance and what is pending together are within the bank's limit, tested without adding: a sum could wrap.
pub fn within(balance: u64, pending: u64) -> bool
    ensures { result ≡ leb (balance + pending) most_figure }
{
    if pending <= Bank::<8>::MOST_ENERGY {
        return balance <= Bank::<8>::MOST_ENERGY - pending;
    }
    false
}

// Whether the month that closes is the last of its cycle, of which so many months were gone before.
fn cycle_ends(gone: u64, cycle: u64) -> bool
    ensures { result ≡ cycle_ends gone cycle }
{
    cycle > 0 && gone == cycle - 1
}

// Whether every balance lapses in the closing that comes, by the counts before it.
pub fn lapse_due(terms: Terms, counts: Counts, switch: Switch) -> bool
    ensures { result ≡ lapse_due switch.month switch.closings counts.gone terms.cycle }
{
    hours::apply(switch) | hours::before_switch(switch) | cycle_ends(counts.gone, terms.cycle)
}

impl<const N: usize> Bank<N> {
    // Whether the bank takes what is pending of its first `count` balances at this rate: it has so many, the rate is within its limit, and so is
    // each balance with what is pending.
    fn takes(&self, count: usize, pending: &[u64; N], rate: u64) -> bool
        ensures { result ≡ creditable N self.now.balance count pending.now rate }
    {
        if count > N {
            return false;
        }
        let mut ok = true;
        for s in 0..count {
            ok = ok & within(self.balance[s], pending[s]);
        }
        (rate <= Bank::<8>::MOST_RATE) & ok
    }

    // Step 1 for the first `count` balances, in place: what is pending is credited, less the charge on it, which is the result. What the bank held
    // before is not charged again. Beyond the bank's limits it stays as it was, and nothing is charged.
    pub fn credit(&mut self, count: usize, pending: &[u64; N], rate: u64) -> [u64; N]
        ensures { Credited N self.old.balance count pending.now rate self.new.balance result }
    {
        let mut charge = [0; N];
        if !self.takes(count, pending, rate) {
            return charge;
        }
        for s in 0..count {
            let fresh = Wh(pending[s]);
            let due = energy::portion_up(fresh, rate);
            self.balance[s] += pending[s] - due.0;
            charge[s] = due.0;
        }
        charge
    }

    // The same by value, as the closings take it. A caller of banks of every width has only the one in place: two arrays of N numbers in one value
    // do not fit the memory for every N.
    pub fn credited(self, count: usize, pending: &[u64; N], rate: u64) -> Credit<N>
        ensures { Credited N self.entry.balance count pending.now rate result.bank.balance result.charge }
    {
        let mut balance = self.balance;
        let mut charge = [0; N];
        if self.takes(count, pending, rate) {
            for s in 0..count {
                let due = energy::portion_up(Wh(pending[s]), rate);
                balance[s] += pending[s] - due.0;
                charge[s] = due.0;
            }
        }
        let bank = Bank { balance };
        Credit { bank, charge }
    }

    // Step 4 in place: where a lapse is due nothing stays, otherwise all does. The result is what lapsed.
    pub fn lapse(&mut self, due: bool) -> [u64; N]
        ensures balance { self.new.balance ≡ (if due then replicate N 0 else self.old.balance) }
        ensures lapsed { result ≡ (if due then self.old.balance else replicate N 0) }
    {
        if due {
            return std::mem::replace(&mut self.balance, [0; N]);
        }
        [0; N]
    }

    // The same by value, as the closings take it; a caller of banks of every width has only the one in place, as above.
    pub fn lapsed(self, due: bool) -> Lapse<N>
        ensures balance { result.bank.balance ≡ (if due then replicate N 0 else self.entry.balance) }
        ensures lapsed { result.lapsed ≡ (if due then self.entry.balance else replicate N 0) }
    {
        let none = [0; N];
        if due {
            let lapsed = self.balance;
            let bank = Bank { balance: none };
            return Lapse { bank, lapsed };
        }
        Lapse {
            bank: self,
            lapsed: none,
        }
    }
}

impl Bank<8> {
    // The most that a balance, or a month's pending, comes to: what one place meters in the life of a unit. A bank of any width tests it.
    pub const MOST_ENERGY: u64 = record::MOST_UNIT_BLOCKS * energy::MOST_READING;

    // The highest charge rate, in hundredths of a percent. A bank of any width tests it too.
    pub const MOST_RATE: u64 = record::MOST_RATE;

    // The most generators that it holds balances of.
    pub const MOST_GENERATORS: usize = record::MOST_GENERATORS as usize;

    // Step 2 for one consumer, whose suppliers are known by their keys, the first to give in the last place: they give in their order. Of more
    // than the bank has balances of nobody gives, and all that was wanted is lacking.
    pub fn draw(self, keys: &[usize], want: u64) -> Draw
        ensures { Drew (givers keys.now) want self.balance result.bank.balance result.drawn result.left }
    {
        let mut balance = self.balance;
        let mut drawn = [0u64; 8];
        let mut left = want;
        if keys.len() <= Self::MOST_GENERATORS {
            left = order::settle(keys, &mut balance, 1, 0, &mut drawn, want);
        }
        let bank = Bank { balance };
        Draw { bank, drawn, left }
    }
}

impl Bank<24> {
    // The most generators that a bank by hours holds balances of.
    pub const MOST_GENERATORS: usize = Bank::<8>::MOST_GENERATORS;

    // Its balances: one a generator and class of hours.
    pub const MOST_BALANCES: usize = 3 * Bank::<24>::MOST_GENERATORS;
}

#[cfg(test)]
mod tests {
    use super::*;

    // A caller of banks of every width has credit and lapse in place.
    fn credit_of_any_width<const N: usize>(
        bank: &mut Bank<N>,
        pending: &[u64; N],
        rate: u64,
    ) -> [u64; N]
        ensures { Credited N bank.old.balance N pending.now rate bank.new.balance result }
    {
        bank.credit(N, pending, rate)
    }

    fn lapse_of_any_width<const N: usize>(bank: &mut Bank<N>) -> [u64; N]
        ensures balance { bank.new.balance ≡ replicate N 0 }
        ensures lapsed { result ≡ bank.old.balance }
    {
        bank.lapse(true)
    }

    // At 5 % of 1,001 Wh, 50.05, the charge is 51 Wh; what the bank held is not charged.
    #[test]
    fn credits_and_lapses_in_place(rt: HostRuntime) {
        let mut bank = Bank::<3> {
            balance: [40, 7, 0],
        };
        let charge = credit_of_any_width(&mut bank, &[1_001, 0, 20], 500);
        assert_eq!(rt; charge, [51, 0, 1]);
        assert_eq!(rt; bank.balance, [990, 7, 19]);

        let charge = bank.credit(1, &[100, 100, 100], 5_000);
        assert_eq!(rt; charge, [50, 0, 0]);
        assert_eq!(rt; bank.balance, [1_040, 7, 19]);

        let kept = bank.lapse(false);
        assert_eq!(rt; kept, [0, 0, 0]);
        assert_eq!(rt; bank.balance, [1_040, 7, 19]);

        let lapsed = lapse_of_any_width(&mut bank);
        assert_eq!(rt; lapsed, [1_040, 7, 19]);
        assert_eq!(rt; bank.balance, [0, 0, 0]);
    }

    // The first balance comes to 2 x 10^15 with what is pending. The third is beyond any limit, and is not one of the two.
    #[test]
    fn credits_up_to_the_limits(rt: HostRuntime) {
        let mut bank = Bank::<3> {
            balance: [1_999_999_999_999_980, 7, 18_446_744_073_709_551_615],
        };
        let charge = bank.credit(2, &[20, 1_000, 1], 5_000);
        assert_eq!(rt; charge, [10, 500, 0]);
        assert_eq!(rt;
            bank.balance,
            [1_999_999_999_999_990, 507, 18_446_744_073_709_551_615]
        );
    }

    // A rate of 5,001; a fourth balance of three.
    #[test]
    fn credits_nothing_beyond_rate_and_count(rt: HostRuntime) {
        let mut bank = Bank::<3> {
            balance: [40, 7, 0],
        };
        let charge = bank.credit(3, &[1_001, 0, 20], 5_001);
        assert_eq!(rt; charge, [0, 0, 0]);
        let charge = bank.credit(4, &[1_001, 0, 20], 5_000);
        assert_eq!(rt; charge, [0, 0, 0]);
        assert_eq!(rt; bank.balance, [40, 7, 0]);
    }

    // The first balance 1 Wh over 2 x 10^15 with what is pending; a sum that wraps in 64 bits.
    #[test]
    fn credits_nothing_beyond_the_energy(rt: HostRuntime) {
        let balance = [1_999_999_999_999_980, 7, 18_446_744_073_709_551_615];
        let mut bank = Bank::<3> { balance };
        let charge = bank.credit(2, &[21, 1_000, 20], 500);
        assert_eq!(rt; charge, [0, 0, 0]);
        let charge = bank.credit(3, &[20, 1_000, 20], 500);
        assert_eq!(rt; charge, [0, 0, 0]);
        assert_eq!(rt;
            bank.balance,
            [1_999_999_999_999_980, 7, 18_446_744_073_709_551_615]
        );
    }
}
