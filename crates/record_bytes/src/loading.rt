// Reads the record's parts from its bytes.
ghost use Rattle.std.specs.Prelude.{◌≡◌, ◌+◌, ◌≤◌, length};
ghost use Rattle.record_layout.specs.Laws.Layout.{run, stocks_read};
ghost use Rattle.record_places.specs.RecordSize.{record_numbers, record_bytes, words_in};
ghost use Rattle.record_layout.specs.OnBytes.{record_in};

use crate::agreed_rows;

// The N numbers from place `at` on.
pub fn load_list<const N: usize>(s: &[u8], at: usize) -> [u64; N]
    requires { (length s.now ≡ record_bytes) × (at + N ≤ record_numbers) }
    ensures { result ≡ run (words_in s.now) N at }
{
    let mut out = [0u64; N];
    codec::read(&s[at * 8..(at + N) * 8], &mut out);
    out
}

pub fn load_terms(s: &[u8]) -> record::Terms
    requires { length s.now ≡ record_bytes }
    ensures { result ≡ (record_in s.now).terms }
{
    let [generators, consumers, rate, cycle] = load_list::<4>(s, record_places::GENERATOR_COUNT);
    record::Terms {
        generators,
        consumers,
        rate,
        cycle,
    }
}

pub fn load_counts(s: &[u8]) -> record::Counts
    requires { length s.now ≡ record_bytes }
    ensures { result ≡ (record_in s.now).counts }
{
    let [gone, unitblocks, monthblocks] = load_list::<3>(s, record_places::GONE);
    record::Counts {
        gone,
        unitblocks,
        monthblocks,
    }
}

pub fn load_agreed(s: &[u8]) -> record::Agreed
    requires { length s.now ≡ record_bytes }
    ensures { result ≡ (record_in s.now).agreed }
{
    let rows = load_list(s, record_places::AGREED);
    record::Agreed {
        kind: agreed_rows::column(rows, 0),
        installed: agreed_rows::column(rows, 1),
        contracted: agreed_rows::column(rows, 2),
    }
}

fn load_links(s: &[u8]) -> record::Links
    requires { length s.now ≡ record_bytes }
    ensures { result ≡ (record_in s.now).links }
{
    record::Links {
        link: load_list(s, record_places::LINK),
        loss: load_list(s, record_places::LOSS),
    }
}

fn load_schedule(s: &[u8]) -> record::Schedule
    requires { length s.now ≡ record_bytes }
    ensures { result ≡ (record_in s.now).schedule }
{
    record::Schedule {
        kw: load_list(s, record_places::KW),
        rank: load_list(s, record_places::RANK),
    }
}

fn load_generators(s: &[u8]) -> record::Generators
    requires { length s.now ≡ record_bytes }
    ensures { result ≡ (record_in s.now).generators }
{
    record::Generators {
        injected: load_list(s, record_places::INJECTED),
        unaccounted: load_list(s, record_places::UNACCOUNTED),
        lost: load_list(s, record_places::LOST),
        setoff: load_list(s, record_places::GENERATOR_SET_OFF),
        inadvertent: load_list(s, record_places::INADVERTENT),
        charge: load_list(s, record_places::CHARGE),
        drawn: load_list(s, record_places::GENERATOR_DRAWN),
        lapsed: load_list(s, record_places::LAPSED),
        bank: load_list(s, record_places::BANK),
        pending: load_list(s, record_places::PENDING),
    }
}

fn load_consumers(s: &[u8]) -> record::Consumers
    requires { length s.now ≡ record_bytes }
    ensures { result ≡ (record_in s.now).consumers }
{
    record::Consumers {
        metered: load_list(s, record_places::METERED),
        setoff: load_list(s, record_places::CONSUMER_SET_OFF),
        shortfall: load_list(s, record_places::SHORTFALL),
        drawn: load_list(s, record_places::CONSUMER_DRAWN),
        supplied: load_list(s, record_places::SUPPLIED),
        outstanding: load_list(s, record_places::OUTSTANDING),
    }
}

pub fn load_switch(s: &[u8]) -> record::Switch
    requires { length s.now ≡ record_bytes }
    ensures { result ≡ (record_in s.now).switch }
{
    let [month, closings] = load_list::<2>(s, record_places::SWITCH_MONTH);
    record::Switch { month, closings }
}

// Bank, pending and open of the class whose bank starts at place `at`.
pub fn load_stocks(s: &[u8], at: usize) -> record::Stocks
    requires { (length s.now ≡ record_bytes) × (at + 32 ≤ record_numbers) }
    ensures { result ≡ stocks_read (words_in s.now) at }
{
    record::Stocks {
        bank: load_list(s, at),
        pending: load_list(s, at + record_places::CLASS_PENDING),
        outstanding: load_list(s, at + record_places::CLASS_OUTSTANDING),
    }
}

pub fn load(s: &[u8]) -> record::Record
    requires { length s.now ≡ record_bytes }
    ensures { result ≡ record_in s.now }
{
    record::Record {
        terms: load_terms(s),
        counts: load_counts(s),
        agreed: load_agreed(s),
        links: load_links(s),
        schedule: load_schedule(s),
        generators: load_generators(s),
        consumers: load_consumers(s),
        switch: load_switch(s),
        offpeak: load_stocks(s, record_places::OFF_PEAK),
        normal: load_stocks(s, record_places::NORMAL),
        peak: load_stocks(s, record_places::PEAK),
    }
}
