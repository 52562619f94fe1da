// The refusals of the call `close` on a sound record.
#![tactic(auto)]

ghost use Rattle.std.specs.Prelude.{◌≡◌, ◌≤◌};
ghost use Rattle.refusal.specs.Numbers.{shown};
ghost use Rattle.closing_rules.specs.Closing.{closing_number};

use refusal::Refusal;

// Whether a closing is refused on a sound record with n generators and m consumers, whose month holds so many blocks: the lowest number
// first.
#[tactic(auto, unfolding(lists::specs::Refusals::first_of, closing_rules::specs::Closing::closing_number, closing_rules::specs::Closing::closing_length))]
pub fn check(n: usize, m: usize, month: u64, size: usize) -> Result<(), Refusal>
    requires { (n ≤ 8) × (m ≤ 16) }
    ensures { shown result ≡ closing_number n m month size }
{
    if size != n * m + 3 * n + 2 * m {
        return Err(Refusal::WrongSize);
    }
    if month == 0 {
        return Err(Refusal::MonthEmpty);
    }
    Ok(())
}
