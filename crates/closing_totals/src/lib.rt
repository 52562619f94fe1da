// A closing's totals and the start of the next month: the record after it is made where it stands in the bytes, from the closing's lists.
#![tactic(auto)]

ghost use Rattle.std.specs.Prelude.{◌≡◌, ◌+◌, ◌≤◌, length, if◌then◌else◌};
ghost use Rattle.energy.specs.Limits.{most_cycle, most_unit_blocks, most_figure};
ghost use Rattle.codec.specs.Bytes.{encode};
ghost use Rattle.record.specs.Stored.{stored};
ghost use Rattle.record.specs.RecordWords.{words};
ghost use Rattle.record.specs.Hours.{hours_apply};
ghost use Rattle.record_layout.specs.OnBytes.{record_in, book_in};
ghost use Rattle.record_layout.specs.Laws.RecordHead.{HeadRead};
ghost use Rattle.record_runs.specs.Laws.Raise.{Raisable, Replaceable};
ghost use Rattle.closing_rules.specs.Closing.{lapse_due, after_closing};
ghost use Rattle.closing_totals.specs.Laws.ClosingTotals.{counts_after, totals_raised, stocks_replaced, class_cleared, classes_after, ClosingLists, Listed};
ghost use Rattle.record_places.specs.RecordSize.{record_bytes, words_in};
ghost use Rattle.record_places.specs.Laws.Places.{charge_at};

use record::{Counts, Switch, Terms};
use record_runs::{column_sum, row_sum};

// Months gone after the closing; with a lapse a new cycle starts at 0.
fn months_gone(terms: Terms, counts: Counts, switch: Switch) -> u64
    requires { counts.gone ≤ most_cycle }
    ensures { result ≡ (if lapse_due switch.month switch.closings counts.gone terms.cycle then 0 else counts.gone + 1) }
{
    let due = bank::lapse_due(terms, counts, switch);
    if due { 0 } else { counts.gone + 1 }
}

// One closing more is done, and the next month has no block yet.
fn start_month(s: &mut [u8], terms: Terms, counts: Counts, switch: Switch)
    requires { HeadRead s.old terms counts × ((switch ≡ (record_in s.old).switch) × ((counts.gone ≤ most_cycle) × (switch.closings ≤ most_unit_blocks))) }
    ensures { words_in s.new ≡ counts_after (words_in s.old) }
{
    let gone = months_gone(terms, counts, switch);
    record_numbers::put_at(s, record_places::GONE, gone);
    record_numbers::put_at(s, record_places::MONTH_BLOCKS, 0);
    record_numbers::put_at(s, record_places::CLOSINGS, switch.closings + 1);
}

fn raise_totals(s: &mut [u8], out: &[u64], n: usize, m: usize)
    requires { Raisable charge_at 136 most_figure s.old × ClosingLists n m out.now }
    ensures { words_in s.new ≡ totals_raised n m out.now (words_in s.old) }
{
    let size = n * m;
    let lapsed = size + n;
    record_runs::raise(s, record_places::CHARGE, n, |g| out[size + g]);
    record_runs::raise(
        s,
        record_places::GENERATOR_DRAWN,
        n,
        |g| row_sum(out, 0, m, g),
    );
    record_runs::raise(s, record_places::LAPSED, n, |g| out[lapsed + g]);
    record_runs::raise(
        s,
        record_places::CONSUMER_DRAWN,
        m,
        |c| column_sum(out, 0, n, m, c),
    );
    record_runs::raise(s, record_places::SUPPLIED, m, |c| out[size + 3 * n + m + c]);
}

// The bank that is left, and nothing pending or open.
fn replace_stocks(s: &mut [u8], out: &[u64], n: usize, m: usize)
    requires { (length s.old ≡ record_bytes) × ClosingLists n m out.now }
    ensures { words_in s.new ≡ stocks_replaced n m out.now (words_in s.old) }
{
    record_runs::replace(s, record_places::BANK, n, |g| out[n * m + 2 * n + g]);
    record_runs::clear(s, record_places::PENDING, n);
    record_runs::clear(s, record_places::OUTSTANDING, m);
}

// Nothing in the bank, pending or open of the class of hours that starts there.
fn clear_class(s: &mut [u8], start: usize, n: usize, m: usize)
    requires { Replaceable start 32 s.old × ((n ≤ 8) × (m ≤ 16)) }
    ensures { words_in s.new ≡ class_cleared n m start (words_in s.old) }
{
    record_runs::clear(s, start, n);
    record_runs::clear(s, start + record_places::CLASS_PENDING, n);
    record_runs::clear(s, start + record_places::CLASS_OUTSTANDING, m);
}

// After a closing by hours no class holds anything; before the switch month none ever does.
fn clear_classes(s: &mut [u8], switch: Switch, n: usize, m: usize)
    requires { (length s.old ≡ record_bytes) × ((n ≤ 8) × (m ≤ 16)) }
    ensures { words_in s.new ≡ classes_after (hours_apply switch.month switch.closings) n m (words_in s.old) }
{
    if hours::apply(switch) {
        clear_class(s, record_places::OFF_PEAK, n, m);
        clear_class(s, record_places::NORMAL, n, m);
        clear_class(s, record_places::PEAK, n, m);
    }
}

// The record after a closing whose lists stand in `out`.
pub fn enter(s: &mut [u8], terms: Terms, counts: Counts, switch: Switch, out: &[u64])
    requires { Listed s.old terms counts switch out.now }
    ensures { s.new ≡ encode 8 (words (stored (after_closing (book_in s.old)))) }
{
    let n = terms.generators as usize;
    let m = terms.consumers as usize;
    start_month(s, terms, counts, switch);
    raise_totals(s, out, n, m);
    replace_stocks(s, out, n, m);
    clear_classes(s, switch, n, m);
}
