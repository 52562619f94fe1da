// The lists of a closing by hours, made in the slice of its output.
#![tactic(auto)]

ghost use Rattle.std.specs.Prelude.{◌≡◌, true, ◌*◌, ◌<◌, ◌≤◌, length, replicate};
ghost use Rattle.lists.specs.Tables.{table};
ghost use Rattle.lists.specs.Laws.TablesLaws.{filled};
ghost use Rattle.record.specs.Book.{by_hours};
ghost use Rattle.record.specs.Called.{number_on};
ghost use Rattle.record_places.specs.RecordSize.{record_bytes, words_in};
ghost use Rattle.record_layout.specs.OnBytes.{book_in, record_in};
ghost use Rattle.closing_rules.specs.Closing.{closing_output, closing_rule};
ghost use Rattle.closing_by_hours.specs.Laws.ClassesRead.{class_number, wanted_at};
ghost use Rattle.closing_by_hours.specs.Laws.ByGenerator.{Exceeds, excess, summed};
ghost use Rattle.closing_by_hours.specs.Laws.HoursDrawing.{Drawable, Drawn};
ghost use Rattle.closing_lists.specs.Laws.ClosingWritten.{OutputRoom, five_lists};

use class_bank::ClassBank;
use record::Terms;

// The first `count` numbers of a list by generator that stands `at` places after the start of each class: generator g's number of class k is
// number g * 3 + k.
fn of_classes(s: &[u8], at: usize, count: usize) -> [u64; 24]
    requires { (length s.now ≡ record_bytes) × ((at ≤ 8) × (count ≤ 24)) }
    ensures { result ≡ filled (replicate 24 0) count (class_number (words_in s.now) at) }
{
    let mut out = [0u64; 24];
    for i in 0..count {
        let class = record_places::OFF_PEAK + i % 3 * record_places::CLASS_NUMBERS;
        out[i] = record_numbers::number_at(s, class + i / 3 + at);
    }
    out
}

// What consumer c has open of each class.
fn wanted_at(s: &[u8], c: usize) -> [u64; 3]
    requires { (length s.now ≡ record_bytes) × (c < 16) }
    ensures { result ≡ table 3 (wanted_at (words_in s.now) c) }
{
    let at = record_places::CLASS_OUTSTANDING + c;
    let offpeak = record_numbers::number_at(s, record_places::OFF_PEAK + at);
    let normal = record_numbers::number_at(s, record_places::NORMAL + at);
    let peak = record_numbers::number_at(s, record_places::PEAK + at);
    [offpeak, normal, peak]
}

// By generator, over its three classes: how much more the first list has than the second.
fn by_generator(more: &[u64; 24], less: &[u64; 24], n: usize) -> [u64; 8]
    requires { (n ≤ 8) × Exceeds more.now less.now n }
    ensures { result ≡ filled (replicate 8 0) n (excess more.now less.now) }
{
    let mut out = [0u64; 8];
    for g in 0..n {
        let k = g * 3;
        out[g] = (more[k] - less[k]) + (more[k + 1] - less[k + 1]) + (more[k + 2] - less[k + 2]);
    }
    out
}

// Steps 2 and 3: consumers 1 to m draw one after the other, each on its suppliers as they stand in the record's bytes. What each
// draws goes into its column of drawn's stretch; the result is what each lacks.
fn draw_all(s: &[u8], bank: &mut ClassBank, n: usize, m: usize, drawn: &mut [u64]) -> [u64; 16]
    requires { Drawable s.now bank.old.balance n m × (length drawn.old ≡ n * m) }
    ensures { Drawn (book_in s.now) n m m bank.new.balance drawn.new result }
{
    let mut supplied = [0u64; 16];
    for c in 0..m {
        let suppliers = record_order::suppliers_at(s, n, c);
        let turn = class_bank::draw(*bank, suppliers.keys(), wanted_at(s, c));
        let lacking = turn.left;
        let column = by_generator(&bank.balance, &turn.bank.balance, n);
        *bank = turn.bank;
        output_lists::put_column(drawn, n, m, c, &column);
        supplied[c] = lacking[0] + lacking[1] + lacking[2];
    }
    supplied
}

// The five lists after drawn's: figures by generator and class are added up by generator, and nothing stays in the bank.
fn write_sums(
    out: &mut [u64],
    charge: &[u64; 24],
    lapsed: &[u64; 24],
    outstanding: &[u64; 16],
    supplied: &[u64; 16],
    n: usize,
    m: usize,
)
    requires { OutputRoom out.old n m × (Exceeds charge.now (replicate 24 0) n × Exceeds lapsed.now (replicate 24 0) n) }
    ensures { out.new ≡ five_lists (summed charge.now n) (summed lapsed.now n) (replicate 8 0) outstanding.now supplied.now n m }
{
    let none = [0u64; 24];
    let charges = by_generator(charge, &none, n);
    let lapses = by_generator(lapsed, &none, n);
    let stays = [0u64; 8];
    closing_lists::write_lists(out, &charges, &lapses, &stays, outstanding, supplied, n, m);
}

// Steps 1 to 4 by hours on what the record holds for them, and their lists into the slice.
pub fn make(s: &[u8], terms: Terms, out: &mut [u64])
    requires { (length s.now ≡ record_bytes) × ((terms ≡ (record_in s.now).terms) × ((by_hours (book_in s.now) ≡ true) × (number_on (closing_rule (length out.old)) (record_in s.now) ≡ 0))) }
    ensures { out.new ≡ closing_output (book_in s.now) }
{
    let n = terms.generators as usize;
    let m = terms.consumers as usize;
    let count = 3 * n;
    let held = of_classes(s, 0, count);
    let pending = of_classes(s, record_places::CLASS_PENDING, count);
    let outstanding = record_bytes::loading::load_list(s, record_places::OUTSTANDING);
    let credit = ClassBank { balance: held }.credited(count, &pending, terms.rate);
    let mut bank = credit.bank;
    let (drawn, lists) = out.split_at_mut(n * m);
    let supplied = draw_all(s, &mut bank, n, m, drawn);
    // by hours every closing ends with a lapse
    let lapse = bank.lapsed(true);
    write_sums(
        lists,
        &credit.charge,
        &lapse.lapsed,
        &outstanding,
        &supplied,
        n,
        m,
    );
}
