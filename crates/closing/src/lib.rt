// The call `close`: steps 1 to 4 of closing a month, on a record.
#![tactic(auto)]

ghost use Rattle.std.specs.Prelude.{◌≡◌, length};
ghost use Rattle.refusal.specs.Numbers.{shown};
ghost use Rattle.record.specs.Called.{number_on};
ghost use Rattle.record_layout.specs.OnBytes.{CalledOn, book_in, record_in};
ghost use Rattle.record_layout.specs.Laws.RecordHead.{HeadRead};
ghost use Rattle.closing_rules.specs.Closing.{closing_output, closing_rule, Closed};
ghost use Rattle.record_places.specs.RecordSize.{record_bytes};

use record::{Answer, Counts, Record, Switch, Terms};
use refusal::Refusal;

// Whether a closing is refused on the record that the bytes hold, with its terms and counts.
#[tactic(auto, using(record::specs::Laws::CalledLaws::number_unsound, record::specs::Laws::CalledLaws::terms_few, closing_rules::proofs::ClosingRefusals::record_refusal))]
fn check_on(s: &[u8], terms: Terms, counts: Counts, size: usize) -> Result<(), Refusal>
    requires { HeadRead s.now terms counts }
    ensures { shown result ≡ number_on (closing_rule size) (record_in s.now) }
{
    if !soundness::is_sound(s, terms, counts) {
        return Err(Refusal::NotSound);
    }
    let n = terms.generators as usize;
    let m = terms.consumers as usize;
    closing_refusal::check(n, m, counts.monthblocks, size)
}

// The lists of an accepted closing, by hours or before the switch month.
fn make_lists(s: &[u8], terms: Terms, counts: Counts, switch: Switch, out: &mut [u64])
    requires { HeadRead s.now terms counts × ((switch ≡ (record_in s.now).switch) × (number_on (closing_rule (length out.old)) (record_in s.now) ≡ 0)) }
    ensures { out.new ≡ closing_output (book_in s.now) }
{
    if hours::apply(switch) {
        closing_by_hours::make(s, terms, out);
    } else {
        closing_lists::make(s, terms, counts, switch, out);
    }
}

// Closes a month of the record that the bytes hold. The lists are made in the slice of the output, and the totals are entered in the bytes
// from there.
#[tactic(auto, using(crate::specs::Laws::ClosingReady::closing_accepted))]
pub fn close_on(s: &mut [u8], out: &mut [u64]) -> Result<(), Refusal>
    requires { length s.old ≡ record_bytes }
    ensures { CalledOn (closing_rule (length out.old)) s.old out.old (shown result) s.new out.new }
{
    let terms = record_bytes::loading::load_terms(s);
    let counts = record_bytes::loading::load_counts(s);
    check_on(s, terms, counts, out.len())?;
    let switch = record_bytes::loading::load_switch(s);
    make_lists(s, terms, counts, switch, out);
    closing_totals::enter(s, terms, counts, switch, out);
    Ok(())
}

// Closes a month, with the slice for its lists.
pub fn close(r: Record, out: &mut [u64]) -> Answer
    ensures { Closed r out.old result out.new }
{
    let mut s = [0u8; record_places::RECORD_BYTES];
    record_bytes::storing::store(r, &mut s);
    let outcome = close_on(&mut s, out);
    let number = refusal::shown(outcome);
    let after = record_bytes::loading::load(&s);
    Answer { number, after }
}
