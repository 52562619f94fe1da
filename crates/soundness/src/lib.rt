// The test of soundness on the record's bytes, each number read where it stands; crate sound_items tests what was read.
// Tests are joined by & and |, which do not branch.
#![tactic(auto)]

ghost use Rattle.std.specs.Prelude.{◌≡◌, true, false, ◌+◌, ◌*◌, ◌<◌, ◌≤◌, ltb, length};
ghost use Rattle.lists.specs.Tests.{all};
ghost use Rattle.energy.specs.Limits.{most_generators, most_consumers, most_unit_blocks};
ghost use Rattle.record.specs.Stored.{figures};
ghost use Rattle.record.specs.Sound.{limit, sound};
ghost use Rattle.sound_items.specs.Laws.Capped.{RowTotal};
ghost use Rattle.sound_items.specs.Laws.SoundTests.{agreed_test, pair_test, generator_read, generator_test, consumer_read, consumer_test, hours_test};
ghost use Rattle.record_layout.specs.OnBytes.{record_in, book_in};
ghost use Rattle.record_layout.specs.Laws.RecordHead.{HeadRead};
ghost use Rattle.soundness.specs.Laws.PairHeld.{pair_held};
ghost use Rattle.soundness.specs.Laws.ClassesHeld.{list_held, classes_held};
ghost use Rattle.record_places.specs.RecordSize.{record_numbers, record_bytes};

use record::{ConsumerTerms, Counts, GeneratorTerms, Record, Switch, Terms};

// The kW of generator g for the first n consumers, each capped.
fn row_total(s: &[u8], g: usize, n: usize) -> u64
    requires { (length s.now ≡ record_bytes) × ((g < 8) × (n ≤ 16)) }
    ensures { RowTotal (record_in s.now).schedule.kw g n result }
{
    let mut total: u64 = 0;
    for c in 0..n {
        total = total
            + sound_items::capped(record_numbers::number_at(s, record_places::KW + (g * 16 + c)));
    }
    total
}

fn columns_within(inside: bool, m: usize) -> usize
    ensures { result ≡ limit inside m }
{
    if inside { m } else { 0 }
}

// n generators and m consumers, here and below. The row of a generator beyond the agreement is not added up: pairs_sound finds it to be zeros.
fn agreed_at(s: &[u8], g: usize, n: usize, m: usize) -> bool
    requires { (length s.now ≡ record_bytes) × ((g < 8) × (m ≤ most_consumers)) }
    ensures { result ≡ agreed_test (record_in s.now).agreed (record_in s.now).schedule.kw n (limit (ltb g n) m) g }
{
    let columns = columns_within(g < n, m);
    let total = row_total(s, g, columns);
    let k = record_places::AGREED + g * 3;
    sound_items::agreed_sound(
        g < n,
        record_numbers::number_at(s, k),
        record_numbers::number_at(s, k + 1),
        record_numbers::number_at(s, k + 2),
        total,
    )
}

fn agreed_all_sound(s: &[u8], n: usize, m: usize) -> bool
    requires { (length s.now ≡ record_bytes) × (m ≤ most_consumers) }
    ensures { result ≡ all 8 (λ g. agreed_test (record_in s.now).agreed (record_in s.now).schedule.kw n (limit (ltb g n) m) g) }
{
    let mut ok = true;
    for g in 0..8 {
        ok = ok & agreed_at(s, g, n, m);
    }
    ok
}

// Place k of the pair lists, within the agreement.
fn pair_within(s: &[u8], k: usize) -> bool
    requires { (length s.now ≡ record_bytes) × (k < 128) }
    ensures { result ≡ pair_held s.now true k }
{
    sound_items::pair_sound(
        true,
        record_numbers::number_at(s, record_places::LINK + k),
        record_numbers::number_at(s, record_places::LOSS + k),
        record_numbers::number_at(s, record_places::KW + k),
        record_numbers::number_at(s, record_places::RANK + k),
    )
}

// n places of the pair lists beyond the agreement: all 0. The numbers are joined by |, which goes through several at a time.
fn beyond_sound(s: &[u8], from: usize, n: usize) -> bool
    requires { (length s.now ≡ record_bytes) × (from + n ≤ 128) }
    ensures { result ≡ all n (λ i. pair_held s.now false (from + i)) }
{
    let mut bits: u64 = 0;
    for i in 0..n {
        let k = from + i;
        bits = bits
            | record_numbers::number_at(s, record_places::LINK + k)
            | record_numbers::number_at(s, record_places::LOSS + k)
            | record_numbers::number_at(s, record_places::KW + k)
            | record_numbers::number_at(s, record_places::RANK + k);
    }
    bits == 0
}

// Row g within the agreement, 16 places of which m are within it.
fn row_sound(s: &[u8], g: usize, m: usize) -> bool
    requires { (length s.now ≡ record_bytes) × ((g < 8) × (m ≤ 16)) }
    ensures { result ≡ all 16 (λ c. pair_held s.now (ltb c m) (g * 16 + c)) }
{
    let start = g * 16;
    let mut ok = true;
    for c in 0..m {
        ok = ok & pair_within(s, start + c);
    }
    ok & beyond_sound(s, start + m, 16 - m)
}

fn pairs_sound(s: &[u8], n: usize, m: usize) -> bool
    requires { (length s.now ≡ record_bytes) × ((n ≤ most_generators) × (m ≤ most_consumers)) }
    ensures { result ≡ all 8 (λ g. all 16 (pair_test (record_in s.now).links.link (record_in s.now).links.loss (record_in s.now).schedule.kw (record_in s.now).schedule.rank n m g)) }
{
    let mut ok = true;
    for g in 0..n {
        ok = ok & row_sound(s, g, m);
    }
    ok & beyond_sound(s, n * 16, 128 - n * 16)
}

fn generator_terms(s: &[u8], g: usize) -> GeneratorTerms
    requires { (length s.now ≡ record_bytes) × (g < 8) }
    ensures { result ≡ generator_read (record_in s.now).generators g }
{
    let k = record_places::INJECTED + g;
    GeneratorTerms {
        injected: record_numbers::number_at(s, k),
        unaccounted: record_numbers::number_at(s, k + 8),
        lost: record_numbers::number_at(s, k + 16),
        setoff: record_numbers::number_at(s, k + 24),
        inadvertent: record_numbers::number_at(s, k + 32),
        charge: record_numbers::number_at(s, k + 40),
        drawn: record_numbers::number_at(s, k + 48),
        lapsed: record_numbers::number_at(s, k + 56),
        bank: record_numbers::number_at(s, k + 64),
        pending: record_numbers::number_at(s, k + 72),
    }
}

fn generators_sound(s: &[u8], n: usize, blocks: u64) -> bool
    requires { (length s.now ≡ record_bytes) × (blocks ≤ most_unit_blocks) }
    ensures { result ≡ all 8 (generator_test (record_in s.now).generators n blocks) }
{
    let mut ok = true;
    for g in 0..8 {
        ok = ok & sound_items::generator_sound(blocks, g < n, generator_terms(s, g));
    }
    ok
}

fn consumer_terms(s: &[u8], c: usize) -> ConsumerTerms
    requires { (length s.now ≡ record_bytes) × (c < 16) }
    ensures { result ≡ consumer_read (record_in s.now).consumers c }
{
    let k = record_places::METERED + c;
    ConsumerTerms {
        metered: record_numbers::number_at(s, k),
        setoff: record_numbers::number_at(s, k + 16),
        shortfall: record_numbers::number_at(s, k + 32),
        drawn: record_numbers::number_at(s, k + 48),
        supplied: record_numbers::number_at(s, k + 64),
        outstanding: record_numbers::number_at(s, k + 80),
    }
}

fn consumers_sound(s: &[u8], m: usize, blocks: u64) -> bool
    requires { (length s.now ≡ record_bytes) × (blocks ≤ most_unit_blocks) }
    ensures { result ≡ all 16 (consumer_test (record_in s.now).consumers m blocks) }
{
    let mut ok = true;
    for c in 0..16 {
        ok = ok & sound_items::consumer_sound(blocks, c < m, consumer_terms(s, c));
    }
    ok
}

// Before the switch the classes hold nothing: all 0, joined by | as above.
fn classes_empty(s: &[u8]) -> bool
    requires { length s.now ≡ record_bytes }
    ensures { result ≡ classes_held false s.now }
{
    let mut bits: u64 = 0;
    for j in 0..record_places::CLASS_NUMBERS {
        bits = bits
            | record_numbers::number_at(s, record_places::OFF_PEAK + j)
            | record_numbers::number_at(s, record_places::NORMAL + j)
            | record_numbers::number_at(s, record_places::PEAK + j);
    }
    bits == 0
}

// By hours: each of the n places from `at` on is the sum of its classes, which are numbers `first` and up of each class.
fn list_added_up(s: &[u8], at: usize, first: usize, n: usize) -> bool
    requires { (length s.now ≡ record_bytes) × ((at + n ≤ record_numbers) × (first + n ≤ 32)) }
    ensures { result ≡ list_held true s.now at first n }
{
    let mut ok = true;
    for i in 0..n {
        let k = first + i;
        ok = ok
            & sound_items::classes_sound(
                record_numbers::number_at(s, at + i),
                record_numbers::number_at(s, record_places::OFF_PEAK + k),
                record_numbers::number_at(s, record_places::NORMAL + k),
                record_numbers::number_at(s, record_places::PEAK + k),
            );
    }
    ok
}

fn classes_all_sound(s: &[u8], hours: bool) -> bool
    requires { length s.now ≡ record_bytes }
    ensures { result ≡ classes_held hours s.now }
{
    if hours {
        list_added_up(s, record_places::BANK, 0, 8)
            & list_added_up(s, record_places::PENDING, record_places::CLASS_PENDING, 8)
            & list_added_up(
                s,
                record_places::OUTSTANDING,
                record_places::CLASS_OUTSTANDING,
                16,
            )
    } else {
        classes_empty(s)
    }
}

// The switch and the classes of hours: which test of the classes applies, the record itself tells.
fn hours_sound(s: &[u8], counts: Counts) -> bool
    requires { (length s.now ≡ record_bytes) × (counts ≡ (record_in s.now).counts) }
    ensures { result ≡ hours_test (book_in s.now) }
{
    let switch = Switch {
        month: record_numbers::number_at(s, record_places::SWITCH_MONTH),
        closings: record_numbers::number_at(s, record_places::CLOSINGS),
    };
    let hours = hours::apply(switch);
    sound_items::switch_sound(hours, switch, counts) & classes_all_sound(s, hours)
}

// The test of the record that the bytes hold, with its terms and counts.
pub fn is_sound(s: &[u8], terms: Terms, counts: Counts) -> bool
    requires { HeadRead s.now terms counts }
    ensures { result ≡ sound (book_in s.now) }
{
    if sound_items::counts_sound(terms, counts) {
        let n = terms.generators as usize;
        let m = terms.consumers as usize;
        let blocks = counts.unitblocks;
        agreed_all_sound(s, n, m)
            & pairs_sound(s, n, m)
            & generators_sound(s, n, blocks)
            & consumers_sound(s, m, blocks)
            & hours_sound(s, counts)
    } else {
        false
    }
}

// The same of a struct, through its bytes.
pub fn is_sound_record(r: Record) -> bool
    ensures { result ≡ sound (figures r) }
{
    let mut bytes = [0u8; record_places::RECORD_BYTES];
    record_bytes::storing::store(r, &mut bytes);
    is_sound(&bytes, r.terms, r.counts)
}
