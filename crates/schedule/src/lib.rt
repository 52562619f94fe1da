// Giving a unit a schedule: the call's number on the display, and the new schedule in the record's bytes.
#![tactic(auto)]

ghost use Rattle.std.specs.Prelude.{◌≡◌, [], length, get_or};
ghost use Rattle.lists.specs.Pairs.{cell, pairs};
ghost use Rattle.codec.specs.Bytes.{encode};
ghost use Rattle.refusal.specs.Numbers.{shown};
ghost use Rattle.record.specs.Called.{number_on};
ghost use Rattle.record.specs.Stored.{stored};
ghost use Rattle.record.specs.RecordWords.{words};
ghost use Rattle.record_layout.specs.OnBytes.{CalledOn, book_in, record_in};
ghost use Rattle.record_layout.specs.Laws.RecordHead.{HeadRead};
ghost use Rattle.record_layout.specs.Laws.NumbersRaised.{from};
ghost use Rattle.agreement_rules.specs.Laws.AgreedReading.{RowsAt};
ghost use Rattle.agreement_rules.specs.Schedule.{after_schedule, schedule_rule, Scheduled};
ghost use Rattle.record_runs.specs.Laws.Raise.{Replaced, Replaceable};
ghost use Rattle.schedule.specs.Laws.ScheduleAccepted.{Accepted};
ghost use Rattle.record_places.specs.RecordSize.{record_bytes};

use record::{Counts, Terms};
use refusal::Refusal;

// Whether a schedule is refused on the record that the bytes hold, with its terms and counts.
#[tactic(auto, using(record::specs::Laws::CalledLaws::number_unsound, record::specs::Laws::CalledLaws::terms_few, crate::specs::Laws::ScheduleEntered::number_read))]
fn check_on(
    s: &[u8],
    terms: Terms,
    counts: Counts,
    kws: &[u32],
    ranks: &[u32],
) -> Result<(), Refusal>
    requires { HeadRead s.now terms counts }
    ensures { shown result ≡ number_on (schedule_rule kws.now ranks.now) (record_in s.now) }
{
    if !soundness::is_sound(s, terms, counts) {
        return Err(Refusal::NotSound);
    }
    let agreed = record_bytes::loading::load_agreed(s);
    let link = record_bytes::loading::load_list(s, record_places::LINK);
    let n = terms.generators as usize;
    let m = terms.consumers as usize;
    schedule_refusal::check(agreed, &link, n, m, kws, ranks)
}

// Puts a list of n rows of m numbers into the record's pair list that starts at place `at`.
fn put_list(s: &mut [u8], at: usize, list: &[u32], n: usize, m: usize)
    requires { Replaceable at 128 s.old × RowsAt list.now 0 n m }
    ensures { Replaced (from at) 128 (λ i. get_or (pairs 8 16 (cell n m list.now)) i 0) s.old s.new }
{
    let rows = agreed_lists::spread(list, 0, n, m);
    record_runs::replace(s, at, 128, |i| rows[i]);
}

// Puts an accepted schedule in the former one's place.
fn replace_schedule(s: &mut [u8], n: usize, m: usize, kws: &[u32], ranks: &[u32])
    requires { Accepted s.old n m kws.now ranks.now }
    ensures { s.new ≡ encode 8 (words (stored (after_schedule kws.now ranks.now (book_in s.old)))) }
{
    put_list(s, record_places::KW, kws, n, m);
    put_list(s, record_places::RANK, ranks, n, m);
}

// A schedule on the record that the bytes hold.
#[tactic(auto, using(crate::specs::Laws::ScheduleEntered::accepted_here, crate::specs::Laws::ScheduleEntered::schedule_accepted))]
pub fn schedule_on(s: &mut [u8], kws: &[u32], ranks: &[u32]) -> Result<(), Refusal>
    requires { length s.old ≡ record_bytes }
    ensures { CalledOn (schedule_rule kws.now ranks.now) s.old [] (shown result) s.new [] }
{
    let terms = record_bytes::loading::load_terms(s);
    let counts = record_bytes::loading::load_counts(s);
    check_on(s, terms, counts, kws, ranks)?;
    let n = terms.generators as usize;
    let m = terms.consumers as usize;
    replace_schedule(s, n, m, kws, ranks);
    Ok(())
}

// Gives a unit a schedule: a kW figure and a rank a pair, which replace the former ones whole.
pub fn schedule(r: record::Record, kws: &[u32], ranks: &[u32]) -> record::Answer
    ensures { Scheduled r kws.now ranks.now result }
{
    let mut s = [0u8; record_places::RECORD_BYTES];
    record_bytes::storing::store(r, &mut s);
    let outcome = schedule_on(&mut s, kws, ranks);
    let number = refusal::shown(outcome);
    let after = record_bytes::loading::load(&s);
    record::Answer { number, after }
}
