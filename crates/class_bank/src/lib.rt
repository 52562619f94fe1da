// The bank by hours: each generator's energy by class of hours, and how a consumer draws on it (step 2 of a closing from the switch month on).
// Steps 1 and 4 are crate bank's.
#![tactic(auto)]

ghost use Rattle.std.specs.Prelude.{◌<◌};
ghost use Rattle.order.specs.Laws.KeptOrder.{from_back, turns_in};
ghost use Rattle.bank.specs.Laws.BankSteps.{givers};
ghost use Rattle.class_bank.specs.Laws.Serving.{Gave, GaveBoth, Served, ClassesDrew};

use bank::Bank;

// One balance a generator and class. Off-peak is class 0, normal 1, peak 2, and generator g's energy of class k is number g * 3 + k.
pub type ClassBank = Bank<{ Bank::<24>::MOST_BALANCES }>;

// the bank after one consumer has drawn, and what it lacks of each class
#[derive(Clone, Copy)]
pub struct ClassDraw {
    pub bank: ClassBank,
    pub left: [u64; 3],
}

// One balance gives the smaller of what it has and what is wanted; the result is what is still wanted.
fn give(has: &mut [u64; 24], s: usize, want: u64) -> u64
    requires { s < 24 }
    ensures { Gave s want has.old has.new result }
{
    let h = has[s];
    let x = h.min(want);
    has[s] = h - x;
    want - x
}

// A generator gives first its energy of the class, then its peak energy: of peak it has no other.
fn give_both(has: &mut [u64; 24], g: usize, k: usize, want: u64) -> u64
    requires { (g < 8) × (k < 3) }
    ensures { GaveBoth g k want has.old has.new result }
{
    let left = give(has, g * 3 + k, want);
    if k == 2 {
        return left;
    }
    give(has, g * 3 + 2, left)
}

// Suppliers, known by their keys, give to one who wants so much of class k until nothing more is wanted: the one whose key stands last gives first.
pub fn serve(keys: &[usize], k: usize, has: &mut [u64; 24], want: u64) -> u64
    requires { k < 3 }
    ensures { Served k (turns_in (from_back keys.now)) want has.old has.new result }
{
    let mut left = want;
    for i in (0..keys.len()).rev() {
        if left == 0 {
            break;
        }
        left = give_both(has, keys[i] % 8, k, left);
    }
    left
}

// Step 2 for one consumer, whose suppliers are known by their keys: it settles off-peak, normal, peak, one class after another, and they give. Of
// more than the bank has balances of nobody gives, and all that was wanted is lacking.
pub fn draw(mut bank: ClassBank, keys: &[usize], want: [u64; 3]) -> ClassDraw
    ensures { ClassesDrew (givers keys.now) want bank.balance result.bank.balance result.left }
{
    let mut left = want;
    if keys.len() <= ClassBank::MOST_GENERATORS {
        for k in 0..3 {
            left[k] = serve(keys, k, &mut bank.balance, left[k]);
        }
    }
    ClassDraw { bank, left }
}
