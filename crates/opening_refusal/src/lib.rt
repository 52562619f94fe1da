// The refusals of the call `opening`.
#![tactic(auto)]

ghost use Rattle.std.specs.Prelude.{◌≡◌};
ghost use Rattle.refusal.specs.Numbers.{shown};
ghost use Rattle.agreement_rules.specs.Opening.{sizes_fit, terms_fit, opening_refusal};
ghost use Rattle.opening_refusal.specs.Laws.OpeningAsked.{opening_asked};

use refusal::Refusal;

// What an opening is asked for.
#[derive(Clone, Copy)]
pub struct Asked<'a> {
    pub generators: usize,
    pub consumers: usize,
    pub rate: u32,
    pub cycle: u32,
    pub gone: u32,
    // The switch month.
    pub switch: u32,
    // Kind, installed, contracted for each generator.
    pub generator_list: &'a [u32],
    // All links, then all losses.
    pub pair_list: &'a [u32],
}

#[tactic(auto, unfolding(agreement_rules::specs::Opening::sizes_fit, lists::specs::Tests::within))]
fn sizes_fit(n: usize, m: usize, generator_list: &[u32], pair_list: &[u32]) -> bool
    ensures { result ≡ sizes_fit n m generator_list.now pair_list.now }
{
    (1..=8).contains(&n)
        && (1..=16).contains(&m)
        && generator_list.len() == 3 * n
        && pair_list.len() == 2 * (n * m)
}

#[tactic(auto, unfolding(agreement_rules::specs::Opening::terms_fit, lists::specs::Tests::within))]
fn terms_fit(rate: u32, cycle: u32, gone: u32) -> bool
    ensures { result ≡ terms_fit rate cycle gone }
{
    u64::from(rate) <= record::MOST_RATE
        && (1..=record::MOST_CYCLE).contains(&u64::from(cycle))
        && gone < cycle
}

// Whether an opening is refused, the lowest number first: 3 to 6 and 19 are tested where the lists have the lengths that are read.
#[tactic(auto, using(agreement_rules::specs::Laws::AgreedRefusalsLaws::opening_tested, agreement_rules::specs::Laws::AgreedRefusalsLaws::sizes_fitting), unfolding(lists::specs::Refusals::first_of))]
pub fn check(asked: Asked) -> Result<(), Refusal>
    ensures { shown result ≡ opening_refusal (opening_asked asked.entry) }
{
    let n = asked.generators;
    let m = asked.consumers;
    let list = asked.generator_list;
    if !sizes_fit(n, m, list, asked.pair_list) {
        return Err(Refusal::WrongSize);
    }
    if agreed_lists::column_over(list, n, 0, record::LAST_KIND) {
        return Err(Refusal::WrongKind);
    }
    if agreed_lists::column_over(list, n, 1, energy::MOST_CAPACITY)
        || agreed_lists::column_over(list, n, 2, energy::MOST_CAPACITY)
    {
        return Err(Refusal::WrongCapacity);
    }
    let count = n * m;
    if agreed_lists::any_outside(asked.pair_list, 0, count, 0, 1)
        || agreed_lists::any_outside(asked.pair_list, count, count, 0, record::MOST_LOSS)
    {
        return Err(Refusal::WrongLink);
    }
    if !terms_fit(asked.rate, asked.cycle, asked.gone) {
        return Err(Refusal::WrongTerms);
    }
    if u64::from(asked.switch) > record::MOST_SWITCH {
        return Err(Refusal::WrongSwitchMonth);
    }
    Ok(())
}
