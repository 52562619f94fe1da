// Rules 1 to 4 of a block on the record's bytes: what the entry reading of each generator delivers to each consumer. The parts of all
// generators are gathered first, a row for each; then each list of the output is filled by a function that is lent this list's own stretch
// and nothing else of the output. Throughout, `s` is the record's bytes, `n` and `m` are its generators and consumers, `g` and `c` one of each.
#![tactic(auto)]

ghost use Rattle.std.specs.Prelude.{◌≡◌, ℕ, ◌+◌, ◌*◌, ◌<◌, ◌≤◌, length, get_or};
ghost use Rattle.lists.specs.Sums.{sum};
ghost use Rattle.lists.specs.Tables.{table};
ghost use Rattle.lists.specs.Laws.TablesLaws.{filled};
ghost use Rattle.lists.specs.Pairs.{place, pairs};
ghost use Rattle.energy.specs.Energy.{loss_on, after_loss};
ghost use Rattle.energy.specs.Limits.{most_capacity, most_loss};
ghost use Rattle.block_rules.specs.Delivery.{counted_of, unaccounted, scheduled_at_exit};
ghost use Rattle.block_rules.specs.Laws.DeliveredIn.{DeliveredIn};
ghost use Rattle.record_layout.specs.OnBytes.{plan_in};
ghost use Rattle.record_places.specs.RecordSize.{record_bytes};
ghost use Rattle.block_figures.specs.Laws.Kinds.{kind_of};
ghost use Rattle.block_delivery.specs.Laws.DeliveryLent.{entries_in, Ready};
ghost use Rattle.block_delivery.specs.Laws.DeliveryRows.{figure, gap_at, Limited, Shared, Rows, Lessened};

use block_figures::Kind;
use energy::{BlockWh, Kw};

// Three figures of the agreement and the schedule, each read where the record has it: a generator's kind, a pair's kW and its loss rate.
fn kind_at(s: &[u8], g: usize) -> Kind
    requires { (length s.now ≡ record_bytes) × (g < 8) }
    ensures { result ≡ kind_of ((plan_in s.now).kind g) }
{
    Kind::from(record_numbers::number_at(s, record_places::AGREED + g * 3))
}

fn kw_at(s: &[u8], g: usize, c: usize) -> Kw
    requires { (length s.now ≡ record_bytes) × ((g < 8) × ((c < 16) × ((plan_in s.now).kw g c ≤ most_capacity))) }
    ensures { result.0 ≡ (plan_in s.now).kw g c }
{
    Kw(record_numbers::number_at(s, record_places::KW + g * 16 + c) as u32)
}

fn rate_at(s: &[u8], g: usize, c: usize) -> u32
    requires { (length s.now ≡ record_bytes) × ((g < 8) × ((c < 16) × ((i j : ℕ) → (plan_in s.now).loss i j ≤ most_loss))) }
    ensures { result ≡ (plan_in s.now).loss g c }
{
    record_numbers::number_at(s, record_places::LOSS + g * 16 + c) as u32
}

// The kW of generator g for each consumer, as the share step takes them.
fn kw_row(s: &[u8], g: usize) -> [u32; 16]
    requires { (length s.now ≡ record_bytes) × ((g < 8) × ((c : ℕ) → (plan_in s.now).kw g c ≤ most_capacity)) }
    ensures { result ≡ table 16 ((plan_in s.now).kw g) }
{
    let mut row = [0u32; 16];
    for c in 0..16 {
        row[c] = kw_at(s, g, c).0;
    }
    row
}

// Rule 1 for generator g, whose kW are `row`: what counts of its reading.
fn counted_at(s: &[u8], g: usize, row: [u32; 16], reading: u32) -> u32
    requires { (length s.now ≡ record_bytes) × ((g < 8) × (sum 16 (place 16 row) ≤ most_capacity)) }
    ensures { result ≡ counted_of ((plan_in s.now).kind g) (sum 16 (place 16 row)) reading }
{
    let kind = kind_at(s, g);
    let scheduled = block_figures::scheduled_kw(row);
    block_figures::counted(kind, scheduled, reading)
}

// Rules 1 and 2: in `parts` what the share step hands back for each generator, a row each, and in `out` the list of what does not count.
// The rows are lent and not returned, so that they are not copied; those from n on stay as they were.
fn share_rows(s: &[u8], n: usize, entry: &[u32], parts: &mut [[u32; 16]; 8], out: &mut [u64])
    requires { Ready s.now n (plan_in s.now).C entry.now × ((length parts.old ≡ 8) × (length out.old ≡ n)) }
    ensures { (out.new ≡ table n (λ g. unaccounted (plan_in s.now) g (entries_in s.now entry.now g))) × Shared (plan_in s.now) (entries_in s.now entry.now) n parts.new }
{
    for g in 0..n {
        let row = kw_row(s, g);
        let reading = entry[g];
        let counts = counted_at(s, g, row, reading);
        parts[g] = sharing::share(counts, row);
        out[g] = u64::from(reading - counts);
    }
}

// The energy that the loss of a pair is taken on, and the rate.
#[derive(Clone, Copy)]
struct Lossy {
    energy: BlockWh,
    rate: u32,
}

// The loss is taken on the pair's own part of this block. Taken on a sum of several, and so rounded once for all, it would be another.
fn lossy_at(s: &[u8], g: usize, c: usize, part: u32) -> Lossy
    requires { (length s.now ≡ record_bytes) × ((g < 8) × ((c < 16) × ((i j : ℕ) → (plan_in s.now).loss i j ≤ most_loss))) }
    ensures { (result.energy.0 ≡ part) × (result.rate ≡ (plan_in s.now).loss g c) }
{
    Lossy {
        energy: BlockWh(part),
        rate: rate_at(s, g, c),
    }
}

// Rule 3 for generator g: in `out` its row of the losses. What they leave of its parts, and so what is delivered, stays in `parts`.
fn loss_row(s: &[u8], g: usize, m: usize, parts: &mut [u32; 16], out: &mut [u64])
    requires { Limited s.now m × ((g < 8) × ((length parts.old ≡ 16) × (length out.old ≡ m))) }
    ensures { (out.new ≡ table m (λ c. loss_on (get_or parts.old c 0) ((plan_in s.now).loss g c))) × (parts.new ≡ filled parts.old m (λ c. after_loss (get_or parts.old c 0) ((plan_in s.now).loss g c))) }
{
    for c in 0..m {
        let part = parts[c];
        let lossy = lossy_at(s, g, c, part);
        let less = energy::loss(lossy.energy, lossy.rate);
        parts[c] = part - less.0;
        out[c] = u64::from(less.0);
    }
}

// Rule 3: the list of losses, row after row. What is delivered stays in `parts`.
fn fill_loss(s: &[u8], n: usize, m: usize, parts: &mut [[u32; 16]; 8], out: &mut [u64])
    requires { Limited s.now m × ((n ≤ 8) × (Rows n parts.old × (length out.old ≡ n * m))) }
    ensures { (out.new ≡ pairs n m (λ g c. loss_on (figure parts.old g c) ((plan_in s.now).loss g c))) × Lessened (plan_in s.now) n m parts.old parts.new }
{
    let mut at: usize = 0;
    for g in 0..n {
        let end = at + m;
        loss_row(s, g, m, &mut parts[g], &mut out[at..end]);
        at = end;
    }
}

// One generator's row of what is delivered, as numbers of the output.
fn delivered_row(m: usize, delivered: &[u32; 16], out: &mut [u64])
    requires { (m ≤ 16) × (length out.old ≡ m) }
    ensures { out.new ≡ table m (λ c. get_or delivered.now c 0) }
{
    for c in 0..m {
        out[c] = u64::from(delivered[c]);
    }
}

// The list of what is delivered, row after row.
fn fill_delivered(n: usize, m: usize, delivered: &[[u32; 16]; 8], out: &mut [u64])
    requires { (n ≤ 8) × ((m ≤ 16) × (length out.old ≡ n * m)) }
    ensures { out.new ≡ pairs n m (figure delivered.now) }
{
    let mut at: usize = 0;
    for g in 0..n {
        let end = at + m;
        delivered_row(m, &delivered[g], &mut out[at..end]);
        at = end;
    }
}

// Rule 4 for generator g: its row of how much less is delivered than is scheduled at exit. The settling wants this difference only.
fn gap_row(s: &[u8], g: usize, m: usize, delivered: &[u32; 16], out: &mut [u64])
    requires { Limited s.now m × ((g < 8) × (((c : ℕ) → c < m → (plan_in s.now).kind g ≡ 0 → get_or delivered.now c 0 ≤ scheduled_at_exit (plan_in s.now) g c) × (length out.old ≡ m))) }
    ensures { out.new ≡ table m (λ c. gap_at (plan_in s.now) g c (get_or delivered.now c 0)) }
{
    let kind = kind_at(s, g);
    for c in 0..m {
        let scheduled = kw_at(s, g, c).quarter_hour();
        let rate = rate_at(s, g, c);
        out[c] = u64::from(block_figures::gap(kind, scheduled, rate, delivered[c]));
    }
}

// Rule 4: the list of these gaps, row after row.
fn fill_gap(s: &[u8], n: usize, m: usize, delivered: &[[u32; 16]; 8], out: &mut [u64])
    requires { Limited s.now m × ((n ≤ 8) × (((g c : ℕ) → g < n → c < m → (plan_in s.now).kind g ≡ 0 → figure delivered.now g c ≤ scheduled_at_exit (plan_in s.now) g c) × (length out.old ≡ n * m))) }
    ensures { out.new ≡ pairs n m (λ g c. gap_at (plan_in s.now) g c (figure delivered.now g c)) }
{
    let mut at: usize = 0;
    for g in 0..n {
        let end = at + m;
        gap_row(s, g, m, &delivered[g], &mut out[at..end]);
        at = end;
    }
}

// By pair, in the stretches of loss, underdrawn and shortfall: the loss, what is delivered, and how much less that is than what is
// scheduled at exit. By generator: what does not count. Set off's stretch and the remainder's are left to the settling.
pub fn deliver(s: &[u8], n: usize, m: usize, entry: &[u32], out: &mut [u64])
    requires { Ready s.now n m entry.now × (length out.old ≡ 4 * (n * m) + n + m) }
    ensures { DeliveredIn (plan_in s.now) (entries_in s.now entry.now) out.new }
{
    // where the lists start
    let size = n * m;
    let underdrawn = 2 * size;
    let shortfall = 3 * size;
    let unaccounted = 4 * size;
    let remainder = unaccounted + n;
    let mut parts = [[0u32; 16]; 8];
    share_rows(s, n, entry, &mut parts, &mut out[unaccounted..remainder]);
    fill_loss(s, n, m, &mut parts, &mut out[0..size]);
    fill_delivered(n, m, &parts, &mut out[underdrawn..shortfall]);
    fill_gap(s, n, m, &parts, &mut out[shortfall..unaccounted]);
}
