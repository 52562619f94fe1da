// Stores the record's parts into its bytes.
ghost use Rattle.std.specs.Prelude.{◌≡◌, ◌+◌, ◌≤◌, length};
ghost use Rattle.codec.specs.Bytes.{encode};
ghost use Rattle.record.specs.RecordWords.{words};
ghost use Rattle.record_layout.specs.Laws.Layout.{Laid, terms_run, counts_run, agreed_run, links_run, schedule_run, generators_run, consumers_run, switch_run, stocks_run};
ghost use Rattle.record_places.specs.RecordSize.{record_numbers, record_bytes};
ghost use Rattle.record_places.specs.Laws.Places.{generator_count_at, gone_at, agreed_at, link_at, kw_at, injected_at, metered_at, switch_month_at, off_peak_at};
ghost use Rattle.record_layout.specs.OnBytes.{record_in};

use crate::agreed_rows;

// A list of the record, from place `at` on.
fn store_run(run: &[u64], s: &mut [u8], at: usize)
    requires { (length s.old ≡ record_bytes) × (at + length run.now ≤ record_numbers) }
    ensures { Laid at (at + length run.now) run.now s.old s.new }
{
    codec::put8s(run, s, at);
}

pub fn store_terms(t: record::Terms, s: &mut [u8])
    requires { length s.old ≡ record_bytes }
    ensures { Laid generator_count_at gone_at (terms_run t) s.old s.new }
{
    let run = [t.generators, t.consumers, t.rate, t.cycle];
    store_run(&run, s, record_places::GENERATOR_COUNT);
}

pub fn store_counts(t: record::Counts, s: &mut [u8])
    requires { length s.old ≡ record_bytes }
    ensures { Laid gone_at agreed_at (counts_run t) s.old s.new }
{
    let run = [t.gone, t.unitblocks, t.monthblocks];
    store_run(&run, s, record_places::GONE);
}

pub fn store_agreed(t: record::Agreed, s: &mut [u8])
    requires { length s.old ≡ record_bytes }
    ensures { Laid agreed_at link_at (agreed_run t) s.old s.new }
{
    let run = agreed_rows::rows(t);
    store_run(&run, s, record_places::AGREED);
}

pub fn store_links(t: record::Links, s: &mut [u8])
    requires { length s.old ≡ record_bytes }
    ensures { Laid link_at kw_at (links_run t) s.old s.new }
{
    store_run(&t.link, s, record_places::LINK);
    store_run(&t.loss, s, record_places::LOSS);
}

pub fn store_schedule(t: record::Schedule, s: &mut [u8])
    requires { length s.old ≡ record_bytes }
    ensures { Laid kw_at injected_at (schedule_run t) s.old s.new }
{
    store_run(&t.kw, s, record_places::KW);
    store_run(&t.rank, s, record_places::RANK);
}

pub fn store_generators(t: record::Generators, s: &mut [u8])
    requires { length s.old ≡ record_bytes }
    ensures { Laid injected_at metered_at (generators_run t) s.old s.new }
{
    store_run(&t.injected, s, record_places::INJECTED);
    store_run(&t.unaccounted, s, record_places::UNACCOUNTED);
    store_run(&t.lost, s, record_places::LOST);
    store_run(&t.setoff, s, record_places::GENERATOR_SET_OFF);
    store_run(&t.inadvertent, s, record_places::INADVERTENT);
    store_run(&t.charge, s, record_places::CHARGE);
    store_run(&t.drawn, s, record_places::GENERATOR_DRAWN);
    store_run(&t.lapsed, s, record_places::LAPSED);
    store_run(&t.bank, s, record_places::BANK);
    store_run(&t.pending, s, record_places::PENDING);
}

pub fn store_consumers(t: record::Consumers, s: &mut [u8])
    requires { length s.old ≡ record_bytes }
    ensures { Laid metered_at switch_month_at (consumers_run t) s.old s.new }
{
    store_run(&t.metered, s, record_places::METERED);
    store_run(&t.setoff, s, record_places::CONSUMER_SET_OFF);
    store_run(&t.shortfall, s, record_places::SHORTFALL);
    store_run(&t.drawn, s, record_places::CONSUMER_DRAWN);
    store_run(&t.supplied, s, record_places::SUPPLIED);
    store_run(&t.outstanding, s, record_places::OUTSTANDING);
}

pub fn store_switch(t: record::Switch, s: &mut [u8])
    requires { length s.old ≡ record_bytes }
    ensures { Laid switch_month_at off_peak_at (switch_run t) s.old s.new }
{
    let run = [t.month, t.closings];
    store_run(&run, s, record_places::SWITCH_MONTH);
}

// Bank, pending and open of a class, whose bank starts at place `at`.
pub fn store_stocks(t: record::Stocks, s: &mut [u8], at: usize)
    requires { (length s.old ≡ record_bytes) × (at + 32 ≤ record_numbers) }
    ensures { Laid at (at + 32) (stocks_run t) s.old s.new }
{
    store_run(&t.bank, s, at);
    store_run(&t.pending, s, at + record_places::CLASS_PENDING);
    store_run(&t.outstanding, s, at + record_places::CLASS_OUTSTANDING);
}

pub fn store(r: record::Record, s: &mut [u8])
    requires { length s.old ≡ record_bytes }
    ensures { (s.new ≡ encode 8 (words r)) × (record_in s.new ≡ r) }
{
    store_terms(r.terms, s);
    store_counts(r.counts, s);
    store_agreed(r.agreed, s);
    store_links(r.links, s);
    store_schedule(r.schedule, s);
    store_generators(r.generators, s);
    store_consumers(r.consumers, s);
    store_switch(r.switch, s);
    store_stocks(r.offpeak, s, record_places::OFF_PEAK);
    store_stocks(r.normal, s, record_places::NORMAL);
    store_stocks(r.peak, s, record_places::PEAK);
}
