// The tests of soundness at one place: of what is agreed and scheduled, of the counts, of a generator's and a consumer's totals, of the switch and
// the classes of hours. Every number of the record is arbitrary, so a term is capped before it is added, or the sum is tested for having wrapped;
// tests are joined by & and |, which do not branch.
#![tactic(auto)]

ghost use Rattle.std.specs.Prelude.{◌≡◌, ◌+◌, ◌≤◌, true};
ghost use Rattle.record.specs.Sound.{agreed_sound, pair_sound, generator_sound, consumer_sound, switch_sound, classes_sound};
ghost use Rattle.sound_items.specs.Laws.SoundTests.{counts_test};
ghost use Rattle.energy.specs.Limits.{most_unit_blocks};
ghost use Rattle.sound_items.specs.Laws.Capped.{Clipped};

use record::{ConsumerTerms, Counts, GeneratorTerms, Switch, Terms};

pub fn counts_sound(t: Terms, n: Counts) -> bool
    ensures { result ≡ counts_test t n }
{
    lists::in_range(1, record::MOST_GENERATORS, t.generators)
        & lists::in_range(1, record::MOST_CONSUMERS, t.consumers)
        & (t.rate <= record::MOST_RATE)
        & lists::in_range(1, record::MOST_CYCLE, t.cycle)
        & (n.gone < t.cycle)
        & (n.unitblocks <= record::MOST_UNIT_BLOCKS)
        & (n.monthblocks <= record::MOST_MONTH_BLOCKS)
        & (n.monthblocks <= n.unitblocks)
}

// Beyond the agreement only 0 is sound. Within the lower of two capacities is within both.
pub fn agreed_sound(inside: bool, kind: u64, installed: u64, contracted: u64, total: u64) -> bool
    ensures { result ≡ agreed_sound inside kind installed contracted total }
{
    (kind <= lists::only_if(inside, record::LAST_KIND))
        & (installed <= lists::only_if(inside, energy::MOST_CAPACITY))
        & (contracted <= lists::only_if(inside, energy::MOST_CAPACITY))
        & ((total <= installed) & (total <= contracted))
}

pub fn pair_sound(inside: bool, link: u64, loss: u64, kw: u64, rank: u64) -> bool
    ensures { result ≡ pair_sound inside link loss kw rank }
{
    (link <= lists::only_if(inside, 1))
        & (loss <= lists::only_if(inside, record::MOST_LOSS))
        & ((link == 1) | (kw == 0))
        & (lists::only_if(inside, 1) <= rank)
        & (rank <= lists::only_if(inside, record::MOST_RANK))
}

// larger than any sound figure, and 16 of these can be added
const CAP: u64 = 1_000_000_000_000_000_000;

pub fn capped(x: u64) -> u64
    ensures { Clipped x result }
{
    if x < CAP { x } else { CAP }
}

// beyond the agreement every total is 0
pub fn generator_sound(blocks: u64, inside: bool, x: GeneratorTerms) -> bool
    requires { blocks ≤ most_unit_blocks }
    ensures { result ≡ generator_sound blocks inside x }
{
    if inside {
        let most = energy::MOST_READING * blocks;
        let split = capped(x.unaccounted)
            + capped(x.lost)
            + capped(x.setoff)
            + capped(x.inadvertent)
            + capped(x.charge)
            + capped(x.drawn)
            + capped(x.lapsed)
            + capped(x.bank)
            + capped(x.pending);
        (x.injected <= most) & (x.injected == split)
    } else {
        let given = x.injected | x.unaccounted | x.lost | x.setoff | x.inadvertent;
        let banked = x.charge | x.drawn | x.lapsed | x.bank | x.pending;
        (given | banked) == 0
    }
}

pub fn consumer_sound(blocks: u64, inside: bool, x: ConsumerTerms) -> bool
    requires { blocks ≤ most_unit_blocks }
    ensures { result ≡ consumer_sound blocks inside x }
{
    if inside {
        let most = energy::MOST_READING * blocks;
        let split = capped(x.setoff)
            + capped(x.shortfall)
            + capped(x.drawn)
            + capped(x.supplied)
            + capped(x.outstanding);
        (x.metered <= most) & (x.metered == split)
    } else {
        (x.metered | x.setoff | x.shortfall | x.drawn | x.supplied | x.outstanding) == 0
    }
}

// The closings done may be any number: a sum that wraps is below its first term.
pub fn switch_sound(hours: bool, t: Switch, n: Counts) -> bool
    ensures { result ≡ switch_sound hours t.month t.closings n.gone n.unitblocks n.monthblocks }
{
    let sum = std::num::wrapping_add_u64(t.closings, n.monthblocks);
    (t.month <= record::MOST_SWITCH)
        & ((t.closings <= sum) & (sum <= n.unitblocks))
        & (!hours | (n.gone == 0))
}

// By hours: whether a place is the sum of its three classes, which may be any numbers.
pub fn classes_sound(whole: u64, offpeak: u64, normal: u64, peak: u64) -> bool
    ensures { result ≡ classes_sound true whole (offpeak + normal + peak) }
{
    let two = std::num::wrapping_add_u64(offpeak, normal);
    let three = std::num::wrapping_add_u64(two, peak);
    (offpeak <= two) & (two <= three) & (three == whole)
}
