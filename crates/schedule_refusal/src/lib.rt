// The refusals of the call `schedule` on a sound record.
#![tactic(auto)]

ghost use Rattle.std.specs.Prelude.{◌≡◌, ◌&&◌, ◌+◌, ◌*◌, ◌<◌, ◌≤◌, eqb, ltb, get_or};
ghost use Rattle.lists.specs.Tests.{some};
ghost use Rattle.energy.specs.Limits.{most_generators, most_consumers};
ghost use Rattle.refusal.specs.Numbers.{shown};
ghost use Rattle.agreement_rules.specs.Laws.AgreedReading.{RowAt, RowsAt};
ghost use Rattle.agreement_rules.specs.Laws.AgreedRefusals.{off_link, over_capacity, refusal_on};

use refusal::Refusal;

// Whether generator g has kW for a consumer that it is not linked to; its m figures start at place `from`.
fn row_off_link(link: &[u64; 128], g: usize, kws: &[u32], from: usize, m: usize) -> bool
    requires { (g < 8) × RowAt kws.now from m }
    ensures { result ≡ some m (λ c. eqb (get_or link.now (g * 16 + c) 0) 0 && ltb 0 (get_or kws.now (from + c) 0)) }
{
    let mut found = false;
    for c in 0..m {
        found = found | ((link[g * 16 + c] == 0) & (0 < kws[from + c]));
    }
    found
}

fn off_link(link: &[u64; 128], n: usize, m: usize, kws: &[u32]) -> bool
    requires { RowsAt kws.now 0 n m }
    ensures { result ≡ off_link link.now n m kws.now }
{
    let mut found = false;
    for g in 0..n {
        found = found | row_off_link(link, g, kws, g * m, m);
    }
    found
}

// Over the lower of two capacities is over either of them.
fn over_capacity(agreed: record::Agreed, n: usize, m: usize, kws: &[u32]) -> bool
    requires { RowsAt kws.now 0 n m }
    ensures { result ≡ over_capacity agreed n m kws.now }
{
    let mut found = false;
    for g in 0..n {
        let total = agreed_lists::row_total(kws, g * m, m);
        found = found | ((agreed.installed[g] < total) | (agreed.contracted[g] < total));
    }
    found
}

// Whether a schedule is refused on a sound record, the lowest number first: 7 to 9 are tested where the lists have the length that is read.
#[tactic(auto, using(agreement_rules::specs::Laws::AgreedRefusalsLaws::schedule_tested, agreement_rules::specs::Laws::AgreedRefusalsLaws::schedule_rows), unfolding(lists::specs::Refusals::first_of))]
pub fn check(
    agreed: record::Agreed,
    link: &[u64; 128],
    n: usize,
    m: usize,
    kws: &[u32],
    ranks: &[u32],
) -> Result<(), Refusal>
    requires { (n ≤ most_generators) × (m ≤ most_consumers) }
    ensures { shown result ≡ refusal_on agreed link.now n m kws.now ranks.now }
{
    let count = n * m;
    let sized = kws.len() == count && ranks.len() == count;
    if !sized {
        return Err(Refusal::WrongSize);
    }
    if off_link(link, n, m, kws) {
        return Err(Refusal::NotLinked);
    }
    if over_capacity(agreed, n, m, kws) {
        return Err(Refusal::OverCapacity);
    }
    if agreed_lists::any_outside(ranks, 0, count, 1, record::MOST_RANK) {
        return Err(Refusal::WrongRank);
    }
    Ok(())
}
