// The refusals of the call `block` on a sound record.
#![tactic(auto)]

ghost use Rattle.std.specs.Prelude.{◌≡◌, ◌≤◌};
ghost use Rattle.refusal.specs.Numbers.{shown};
ghost use Rattle.block_rules.specs.Block.{block_number};
ghost use Rattle.block_rules.specs.Laws.BlockRefusals.{over_limit};

use record::Counts;
use refusal::Refusal;

// Whether a reading is over the limit.
fn any_over(readings: &[u32]) -> bool
    ensures { result ≡ over_limit readings.now }
{
    let mut found = false;
    for i in 0..readings.len() {
        found = found | (energy::MOST_READING < u64::from(readings[i]));
    }
    found
}

// Whether a block on a sound record with n generators and m consumers is refused, the lowest number first: readings are tested where the
// lists have the length that is read.
#[tactic(auto, using(block_rules::specs::Laws::BlockRefusals::number_tested), unfolding(lists::specs::Refusals::first_of, block_rules::specs::Block::block_length))]
pub fn check(
    n: usize,
    m: usize,
    counts: Counts,
    entry: &[u32],
    exit: &[u32],
    size: usize,
) -> Result<(), Refusal>
    requires { (n ≤ 8) × (m ≤ 16) }
    ensures { shown result ≡ block_number entry.now exit.now n m counts.monthblocks counts.unitblocks size }
{
    let sized = entry.len() == n && exit.len() == m && size == 4 * (n * m) + n + m;
    if !sized {
        return Err(Refusal::WrongSize);
    }
    if any_over(entry) || any_over(exit) {
        return Err(Refusal::ReadingTooHigh);
    }
    if record::MOST_MONTH_BLOCKS <= counts.monthblocks {
        return Err(Refusal::MonthFull);
    }
    if record::MOST_UNIT_BLOCKS <= counts.unitblocks {
        return Err(Refusal::UnitFull);
    }
    Ok(())
}
