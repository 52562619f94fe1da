// Opening a unit: the call's number on the display, and the first record.
#![tactic(auto)]

ghost use Rattle.std.specs.Prelude.{◌≡◌, ◌*◌, ◌≤◌, length};
ghost use Rattle.codec.specs.Bytes.{encode};
ghost use Rattle.energy.specs.Limits.{most_generators, most_consumers};
ghost use Rattle.refusal.specs.Numbers.{shown};
ghost use Rattle.record.specs.Book.{no_injection, no_consumption, no_stocks};
ghost use Rattle.record.specs.Stored.{stored_generators, stored_consumers, stored_stocks, stored, zeros};
ghost use Rattle.record.specs.RecordWords.{words};
ghost use Rattle.agreement_rules.specs.Opening.{asked, opened, Opened, Permitted};
ghost use Rattle.agreement_rules.specs.Laws.AgreedReading.{Threes};
ghost use Rattle.agreement_rules.specs.Laws.AgreedParts.{terms_from, first_counts, first_switch, agreed_from, links_from, first_schedule};
ghost use Rattle.agreement_rules.specs.OpenedOn.{OpenedOn};
ghost use Rattle.opening_refusal.specs.Laws.OpeningAsked.{opening_asked};
ghost use Rattle.record_places.specs.RecordSize.{record_bytes};

use opening_refusal::Asked;
use record::Answer;
use refusal::Refusal;

fn terms_from(n: usize, m: usize, rate: u32, cycle: u32) -> record::Terms
    ensures { result ≡ terms_from n m rate cycle }
{
    record::Terms {
        generators: n as u64,
        consumers: m as u64,
        rate: u64::from(rate),
        cycle: u64::from(cycle),
    }
}

// No blocks yet. Months gone are those given, or 0 where the first closing goes by hours.
#[tactic(auto, unfolding(agreement_rules::specs::Laws::AgreedParts::first_counts, agreement_rules::specs::Opening::first_gone))]
fn first_counts(gone: u32, switch: u32) -> record::Counts
    ensures { result ≡ first_counts gone switch }
{
    let first = if switch == 1 { 0 } else { gone };
    record::Counts {
        gone: u64::from(first),
        unitblocks: 0,
        monthblocks: 0,
    }
}

fn first_switch(switch: u32) -> record::Switch
    ensures { result ≡ first_switch switch }
{
    let month = u64::from(switch);
    record::Switch { month, closings: 0 }
}

fn agreed_from(n: usize, list: &[u32]) -> record::Agreed
    requires { Threes list.now n 0 }
    ensures { result ≡ agreed_from n list.now }
{
    let kind = agreed_lists::column(list, n, 0);
    let installed = agreed_lists::column(list, n, 1);
    let contracted = agreed_lists::column(list, n, 2);
    record::Agreed {
        kind,
        installed,
        contracted,
    }
}

// All links, then all losses.
fn links_from(n: usize, m: usize, list: &[u32]) -> record::Links
    requires { (length list.now ≡ 2 * (n * m)) × ((n ≤ most_generators) × (m ≤ most_consumers)) }
    ensures { result ≡ links_from n m list.now }
{
    let link = agreed_lists::spread(list, 0, n, m);
    let loss = agreed_lists::spread(list, n * m, n, m);
    record::Links { link, loss }
}

fn first_schedule(n: usize, m: usize) -> record::Schedule
    requires { (n ≤ most_generators) × (m ≤ most_consumers) }
    ensures { result ≡ first_schedule n m }
{
    let kw = [0u64; 128];
    let ones = [1u32; 128];
    let rank = agreed_lists::spread(&ones, 0, n, m);
    record::Schedule { kw, rank }
}

fn no_injection() -> record::Generators
    ensures { result ≡ stored_generators (λ g. no_injection) }
{
    let none = [0u64; 8];
    record::Generators {
        injected: none,
        unaccounted: none,
        lost: none,
        setoff: none,
        inadvertent: none,
        charge: none,
        drawn: none,
        lapsed: none,
        bank: none,
        pending: none,
    }
}

fn no_consumption() -> record::Consumers
    ensures { result ≡ stored_consumers (λ c. no_consumption) }
{
    let none = [0u64; 16];
    record::Consumers {
        metered: none,
        setoff: none,
        shortfall: none,
        drawn: none,
        supplied: none,
        outstanding: none,
    }
}

fn no_stocks() -> record::Stocks
    ensures { result ≡ stored_stocks no_stocks }
{
    let none = [0u64; 8];
    record::Stocks {
        bank: none,
        pending: none,
        outstanding: [0u64; 16],
    }
}

fn zero_record() -> record::Record
    ensures { result ≡ zeros }
{
    let none = [0u64; 8];
    let link = [0u64; 128];
    let loss = [0u64; 128];
    let kw = [0u64; 128];
    let rank = [0u64; 128];
    let terms = terms_from(0, 0, 0, 0);
    let counts = first_counts(0, 0);
    let agreed = record::Agreed {
        kind: none,
        installed: none,
        contracted: none,
    };
    let links = record::Links { link, loss };
    let schedule = record::Schedule { kw, rank };
    let generators = no_injection();
    let consumers = no_consumption();
    let switch = first_switch(0);
    let stocks = no_stocks();
    record::Record {
        terms,
        counts,
        agreed,
        links,
        schedule,
        generators,
        consumers,
        switch,
        offpeak: stocks,
        normal: stocks,
        peak: stocks,
    }
}

// Stores the record of a permitted opening, each part made just before it is stored: no whole record is built.
fn store_opened(asked: Asked, s: &mut [u8])
    requires { Permitted (opening_asked asked) × (length s.old ≡ record_bytes) }
    ensures { s.new ≡ encode 8 (words (stored (opened (opening_asked asked.entry)))) }
{
    let n = asked.generators;
    let m = asked.consumers;
    let terms = terms_from(n, m, asked.rate, asked.cycle);
    record_bytes::storing::store_terms(terms, s);
    let counts = first_counts(asked.gone, asked.switch);
    record_bytes::storing::store_counts(counts, s);
    let agreed = agreed_from(n, asked.generator_list);
    record_bytes::storing::store_agreed(agreed, s);
    let links = links_from(n, m, asked.pair_list);
    record_bytes::storing::store_links(links, s);
    let schedule = first_schedule(n, m);
    record_bytes::storing::store_schedule(schedule, s);
    let generators = no_injection();
    record_bytes::storing::store_generators(generators, s);
    let consumers = no_consumption();
    record_bytes::storing::store_consumers(consumers, s);
    let first = first_switch(asked.switch);
    record_bytes::storing::store_switch(first, s);
    let stocks = no_stocks();
    record_bytes::storing::store_stocks(stocks, s, record_places::OFF_PEAK);
    record_bytes::storing::store_stocks(stocks, s, record_places::NORMAL);
    record_bytes::storing::store_stocks(stocks, s, record_places::PEAK);
}

// Opens a unit in a record's bytes, whatever they hold; a refused opening leaves them as they were.
#[tactic(auto, unfolding(record_layout::specs::OnBytes::bytes_after))]
pub fn opening_on(asked: Asked, s: &mut [u8]) -> Result<(), Refusal>
    requires { length s.old ≡ record_bytes }
    ensures { OpenedOn (opening_asked asked.entry) s.old (shown result) s.new }
{
    opening_refusal::check(asked)?;
    store_opened(asked, s);
    Ok(())
}

// Opens a unit; a refused opening returns zeros.
#[tactic(auto, using(crate::specs::Laws::OpenedOnLaws::opened_back))]
pub fn opening(
    generators: u32,
    consumers: u32,
    rate: u32,
    cycle: u32,
    gone: u32,
    switch: u32,
    generator_list: &[u32],
    pair_list: &[u32],
) -> Answer
    ensures { Opened (asked generators consumers rate cycle gone switch generator_list.now pair_list.now) result.number result.after }
{
    let asked = Asked {
        generators: generators as usize,
        consumers: consumers as usize,
        rate,
        cycle,
        gone,
        switch,
        generator_list,
        pair_list,
    };
    let mut s = [0u8; record_places::RECORD_BYTES];
    match opening_on(asked, &mut s) {
        Ok(()) => {
            let after = record_bytes::loading::load(&s);
            Answer { number: 0, after }
        }
        Err(refusal) => {
            let number = refusal.number();
            let after = zero_record();
            Answer { number, after }
        }
    }
}
