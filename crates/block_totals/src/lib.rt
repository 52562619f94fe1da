// Rule 8 of a block: the counts, the totals and by hours the class of a record are raised where they stand in its bytes.
#![tactic(auto)]

ghost use Rattle.std.specs.Prelude.{ℕ, ◌≡◌, ◌+◌, ◌*◌, ◌≤◌, ◌<◌, length, get_or};
ghost use Rattle.energy.specs.Limits.{most_figure};
ghost use Rattle.output_lists.specs.Laws.Bounds.{Moderate};
ghost use Rattle.codec.specs.Bytes.{encode};
ghost use Rattle.record.specs.Stored.{stored};
ghost use Rattle.record.specs.RecordWords.{words};
ghost use Rattle.block_rules.specs.Block.{entry_of, exit_of, after_block};
ghost use Rattle.hours.specs.Laws.Classes.{class_numbers};
ghost use Rattle.record_layout.specs.OnBytes.{book_in};
ghost use Rattle.record_layout.specs.Laws.NumbersRaised.{from};
ghost use Rattle.record_runs.specs.Laws.Raise.{row_sum, Raised, most_raised, Raisable};
ghost use Rattle.block_totals.specs.Laws.BlockTotals.{by_kind, row_by_kind, generators_raised, consumers_raised, stocks_raised, hours_raised, BlockLists, Settled};
ghost use Rattle.record_places.specs.RecordSize.{record_bytes, words_in};
ghost use Rattle.record_places.specs.Laws.Places.{agreed_at, injected_at, metered_at, off_peak_at};

use record::Counts;
use record_runs::{column_sum, row_sum};
use std::array;

// What generator g, of this kind, has underdrawn, where its kind is deemed or where it is not, as asked; else 0.
fn underdrawn_by_kind(kind: u64, deemed: bool, xs: &[u64], first: usize, m: usize, g: usize) -> u64
    requires { (first + (g * m + m) ≤ length xs.now) × ((m ≤ 16) × Moderate xs.now) }
    ensures sum { result ≡ by_kind deemed kind (row_sum m xs.now first g) }
    ensures moderate { result ≤ most_raised }
{
    let banked = kind != 0;
    if banked == deemed {
        row_sum(xs, first, m, g)
    } else {
        0
    }
}

// The kind of each generator, read before the totals behind it are raised.
fn kinds(s: &[u8]) -> [u64; 8]
    requires { length s.now ≡ record_bytes }
    ensures { (g : ℕ) → g < 8 → get_or result g 0 ≡ get_or (words_in s.now) (agreed_at + g * 3) 0 }
{
    array::from_fn(|g| record_numbers::number_at(s, record_places::AGREED + g * 3))
}

fn raise_generators(s: &mut [u8], entry: &[u32], out: &[u64], n: usize, m: usize)
    requires { Raisable injected_at 80 most_figure s.old × ((length entry.now ≡ n) × BlockLists n m out.now) }
    ensures { words_in s.new ≡ generators_raised n m entry.now out.now (words_in s.old) }
{
    let size = n * m;
    record_runs::raise(s, record_places::INJECTED, n, |g| u64::from(entry[g]));
    record_runs::raise(s, record_places::UNACCOUNTED, n, |g| out[4 * size + g]);
    record_runs::raise(s, record_places::LOST, n, |g| row_sum(out, 0, m, g));
    record_runs::raise(s, record_places::GENERATOR_SET_OFF, n, |g| {
        row_sum(out, size, m, g)
    });
    let underdrawn = 2 * size;
    let kinds = kinds(s);
    record_runs::raise(s, record_places::INADVERTENT, n, |g| {
        underdrawn_by_kind(kinds[g], false, out, underdrawn, m, g)
    });
    record_runs::raise(s, record_places::PENDING, n, |g| {
        underdrawn_by_kind(kinds[g], true, out, underdrawn, m, g)
    });
}

fn raise_consumers(s: &mut [u8], exit: &[u32], out: &[u64], n: usize, m: usize)
    requires { Raisable metered_at 96 most_figure s.old × ((length exit.now ≡ m) × BlockLists n m out.now) }
    ensures { words_in s.new ≡ consumers_raised n m exit.now out.now (words_in s.old) }
{
    let size = n * m;
    record_runs::raise(s, record_places::METERED, m, |c| u64::from(exit[c]));
    record_runs::raise(s, record_places::CONSUMER_SET_OFF, m, |c| {
        column_sum(out, size, n, m, c)
    });
    record_runs::raise(s, record_places::SHORTFALL, m, |c| {
        column_sum(out, 3 * size, n, m, c)
    });
    record_runs::raise(s, record_places::OUTSTANDING, m, |c| out[4 * size + n + c]);
}

// Pending and open of the class of hours whose bank starts at `start`.
fn raise_class(s: &mut [u8], start: usize, out: &[u64], n: usize, m: usize)
    requires { Raisable start class_numbers most_figure s.old × ((injected_at ≤ start) × BlockLists n m out.now) }
    ensures { words_in s.new ≡ stocks_raised n m out.now (words_in s.old) start }
{
    let size = n * m;
    let pending = start + record_places::CLASS_PENDING;
    let remaining = start + record_places::CLASS_OUTSTANDING;
    let kinds = kinds(s);
    record_runs::raise(s, pending, n, |g| {
        underdrawn_by_kind(kinds[g], true, out, 2 * size, m, g)
    });
    record_runs::raise(s, remaining, m, |c| out[4 * size + n + c]);
}

// By hours the class of the block's slot is raised too, which the blocks that its month has before it tell.
fn raise_hours(s: &mut [u8], month: u64, out: &[u64], n: usize, m: usize)
    requires { Raisable off_peak_at 96 most_figure s.old × BlockLists n m out.now }
    ensures { words_in s.new ≡ hours_raised n m out.now (words_in s.old) month }
{
    let switch = record_bytes::loading::load_switch(s);
    if hours::apply(switch) {
        let class = hours::class_after(month);
        raise_class(s, class.start(), out, n, m);
    }
}

// The record after a block whose lists stand in `out`, by the counts that it had before.
pub fn raise(
    s: &mut [u8],
    n: usize,
    m: usize,
    counts: Counts,
    entry: &[u32],
    exit: &[u32],
    out: &[u64],
)
    requires { Settled s.old n m counts entry.now exit.now out.now }
    ensures { s.new ≡ encode 8 (words (stored (after_block (book_in s.old) (entry_of entry.now exit.now (book_in s.old)) (exit_of entry.now exit.now (book_in s.old))))) }
{
    raise_generators(s, entry, out, n, m);
    raise_consumers(s, exit, out, n, m);
    record_numbers::put_at(s, record_places::UNIT_BLOCKS, counts.unitblocks + 1);
    record_numbers::put_at(s, record_places::MONTH_BLOCKS, counts.monthblocks + 1);
    raise_hours(s, counts.monthblocks, out, n, m);
}
