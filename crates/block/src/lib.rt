// The call `block`: rules 1 to 8 on a record.
#![tactic(auto)]

ghost use Rattle.std.specs.Prelude.{◌≡◌, length};
ghost use Rattle.refusal.specs.Numbers.{shown};
ghost use Rattle.record.specs.Called.{number_on};
ghost use Rattle.record_layout.specs.OnBytes.{CalledOn, record_in};
ghost use Rattle.record_layout.specs.Laws.RecordHead.{HeadRead};
ghost use Rattle.block_rules.specs.Block.{block_rule, Blocked};
ghost use Rattle.record_places.specs.RecordSize.{record_bytes};

use record::{Answer, Counts, Record, Terms};
use refusal::Refusal;

// Whether a block is refused on the record that the bytes hold, with its terms and counts.
#[tactic(auto, using(record::specs::Laws::CalledLaws::number_unsound, record::specs::Laws::CalledLaws::terms_few, block_rules::specs::Laws::BlockRefusals::record_refusal))]
fn check_on(
    s: &[u8],
    terms: Terms,
    counts: Counts,
    entry: &[u32],
    exit: &[u32],
    size: usize,
) -> Result<(), Refusal>
    requires { HeadRead s.now terms counts }
    ensures { shown result ≡ number_on (block_rule entry.now exit.now size) (record_in s.now) }
{
    if !soundness::is_sound(s, terms, counts) {
        return Err(Refusal::NotSound);
    }
    let n = terms.generators as usize;
    let m = terms.consumers as usize;
    block_refusal::check(n, m, counts, entry, exit, size)
}

// Rules 1 to 8 of a block that is not refused. The lists are made in the slice of the output, and the totals are raised in the bytes:
// nothing is copied on the way.
fn settle(s: &mut [u8], terms: Terms, counts: Counts, entry: &[u32], exit: &[u32], out: &mut [u64])
    requires { HeadRead s.old terms counts × (number_on (block_rule entry.now exit.now (length out.old)) (record_in s.old) ≡ 0) }
    ensures { CalledOn (block_rule entry.now exit.now (length out.old)) s.old out.old 0 s.new out.new }
{
    let n = terms.generators as usize;
    let m = terms.consumers as usize;
    block_delivery::deliver(s, n, m, entry, out);
    block_settlement::settle_all(s, n, m, exit, out);
    block_totals::raise(s, n, m, counts, entry, exit, out);
}

// One block on the record that the bytes hold.
pub fn block_on(s: &mut [u8], entry: &[u32], exit: &[u32], out: &mut [u64]) -> Result<(), Refusal>
    requires { length s.old ≡ record_bytes }
    ensures { CalledOn (block_rule entry.now exit.now (length out.old)) s.old out.old (shown result) s.new out.new }
{
    let terms = record_bytes::loading::load_terms(s);
    let counts = record_bytes::loading::load_counts(s);
    check_on(s, terms, counts, entry, exit, out.len())?;
    settle(s, terms, counts, entry, exit, out);
    Ok(())
}

// One block: an entry reading a generator, an exit reading a consumer, and the slice for its lists.
pub fn block(r: Record, entry: &[u32], exit: &[u32], out: &mut [u64]) -> Answer
    ensures { Blocked r entry.now exit.now out.old result out.new }
{
    let mut s = [0u8; record_places::RECORD_BYTES];
    record_bytes::storing::store(r, &mut s);
    let outcome = block_on(&mut s, entry, exit, out);
    let number = refusal::shown(outcome);
    let after = record_bytes::loading::load(&s);
    Answer { number, after }
}
