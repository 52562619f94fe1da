// The lists of a closing before the switch month, made in the slice of its output.
#![tactic(auto)]

ghost use Rattle.std.specs.Prelude.{◌≡◌, false, ◌*◌, length};
ghost use Rattle.lists.specs.Pairs.{place};
ghost use Rattle.record.specs.Plan.{suppliers};
ghost use Rattle.record.specs.Hours.{hours_apply};
ghost use Rattle.record.specs.Called.{number_on};
ghost use Rattle.record_places.specs.RecordSize.{record_bytes};
ghost use Rattle.record_layout.specs.OnBytes.{plan_in, book_in, record_in};
ghost use Rattle.record_layout.specs.Laws.RecordHead.{HeadRead};
ghost use Rattle.closing_rules.specs.Closing.{closing_output, closing_rule};
ghost use Rattle.closing_lists.specs.Laws.Drawable.{Drawable};
ghost use Rattle.closing_lists.specs.Laws.DrawingSteps.{Drawn};
ghost use Rattle.closing_lists.specs.Laws.ClosingWritten.{OutputRoom, five_lists};

use bank::Bank;
use record::{Counts, Switch, Terms};

// Steps 2 and 3: consumers 1 to m draw one after the other, each on its suppliers as they stand in the record's bytes. What each
// draws goes into its column of drawn's stretch; the result is what each lacks.
fn draw_all(
    s: &[u8],
    bank: &mut Bank<8>,
    n: usize,
    m: usize,
    outstanding: &[u64; 16],
    drawn: &mut [u64],
) -> [u64; 16]
    requires { (length s.now ≡ record_bytes) × (Drawable (plan_in s.now) n m × ((length bank.old.balance ≡ 8) × (length drawn.old ≡ n * m))) }
    ensures { Drawn (suppliers (plan_in s.now)) (place 8 bank.old.balance) (place 16 outstanding.now) n m m bank.new.balance drawn.new result }
{
    let mut supplied = [0u64; 16];
    for c in 0..m {
        let suppliers = record_order::suppliers_at(s, n, c);
        let turn = bank.draw(suppliers.keys(), outstanding[c]);
        *bank = turn.bank;
        output_lists::put_column(drawn, n, m, c, &turn.drawn);
        supplied[c] = turn.left;
    }
    supplied
}

// The five lists after drawn's, each into its own stretch.
pub fn write_lists(
    out: &mut [u64],
    charge: &[u64; 8],
    lapsed: &[u64; 8],
    balance: &[u64; 8],
    outstanding: &[u64; 16],
    supplied: &[u64; 16],
    n: usize,
    m: usize,
)
    requires { OutputRoom out.old n m }
    ensures { out.new ≡ five_lists charge.now lapsed.now balance.now outstanding.now supplied.now n m }
{
    let bank_at = n + n;
    let open_at = bank_at + n;
    let supplied_at = open_at + m;
    output_lists::put_list(out, 0, charge, n);
    output_lists::put_list(out, n, lapsed, n);
    output_lists::put_list(out, bank_at, balance, n);
    output_lists::put_list(out, open_at, outstanding, m);
    output_lists::put_list(out, supplied_at, supplied, m);
}

// Steps 1 to 4 on what the record holds for them, and their lists into the slice.
pub fn make(s: &[u8], terms: Terms, counts: Counts, switch: Switch, out: &mut [u64])
    requires { HeadRead s.now terms counts × ((switch ≡ (record_in s.now).switch) × ((hours_apply switch.month switch.closings ≡ false) × (number_on (closing_rule (length out.old)) (record_in s.now) ≡ 0))) }
    ensures { out.new ≡ closing_output (book_in s.now) }
{
    let n = terms.generators as usize;
    let m = terms.consumers as usize;
    let held = record_bytes::loading::load_list(s, record_places::BANK);
    let pending = record_bytes::loading::load_list(s, record_places::PENDING);
    let outstanding = record_bytes::loading::load_list(s, record_places::OUTSTANDING);
    let credit = Bank { balance: held }.credited(Bank::<8>::MOST_GENERATORS, &pending, terms.rate);
    let mut bank = credit.bank;
    let (drawn, lists) = out.split_at_mut(n * m);
    let supplied = draw_all(s, &mut bank, n, m, &outstanding, drawn);
    let lapse = bank.lapsed(bank::lapse_due(terms, counts, switch));
    write_lists(
        lists,
        &credit.charge,
        &lapse.lapsed,
        &lapse.bank.balance,
        &outstanding,
        &supplied,
        n,
        m,
    );
}
