// The lists of an opening and of a schedule: their tests, and how they are read into a record's places.
#![tactic(auto)]

ghost use Rattle.std.specs.Prelude.{◌≡◌, ◌+◌, ◌<◌, ◌≤◌, length, get_or, drop};
ghost use Rattle.lists.specs.Sums.{sum};
ghost use Rattle.lists.specs.Tables.{table};
ghost use Rattle.lists.specs.Pairs.{cell, pairs};
ghost use Rattle.agreement_rules.specs.Laws.AgreedReading.{Threes, RowAt, RowsAt, row_put};
ghost use Rattle.agreement_rules.specs.Laws.AgreedRefusals.{outside, column_over};

// ---- tests of the lists of a call; they are joined by & and |, which do not branch

// Whether one of `count` numbers, from place `from` on, is not in the range.
pub fn any_outside(list: &[u32], from: usize, count: usize, low: u64, high: u64) -> bool
    requires { from + count ≤ length list.now }
    ensures { result ≡ outside list.now from count low high }
{
    let mut found = false;
    for k in 0..count {
        let x = u64::from(list[from + k]);
        found = found | !((low <= x) & (x <= high));
    }
    found
}

// Whether number k of one generator's three is over the limit.
pub fn column_over(list: &[u32], n: usize, k: usize, most: u64) -> bool
    requires { Threes list.now n k }
    ensures { result ≡ column_over list.now n k most }
{
    let mut found = false;
    for g in 0..n {
        let x = u64::from(list[g * 3 + k]);
        found = found | (most < x);
    }
    found
}

// ---- lists read into a record's places, 0 beyond them

// Number k of each generator's three.
pub fn column(list: &[u32], n: usize, k: usize) -> [u64; 8]
    requires { Threes list.now n k }
    ensures { result ≡ table 8 (λ g. cell n 3 list.now g k) }
{
    let mut out = [0u64; 8];
    for g in 0..n {
        out[g] = u64::from(list[g * 3 + k]);
    }
    out
}

// Puts m numbers, from place `from` on, into row g of 16 places.
fn put_row(out: &mut [u64; 128], g: usize, list: &[u32], from: usize, m: usize)
    requires { (g < 8) × ((length out.old ≡ 128) × RowAt list.now from m) }
    ensures { out.new ≡ row_put out.old g m (λ c. get_or list.now (from + c) 0) }
{
    for c in 0..m {
        out[g * 16 + c] = u64::from(list[from + c]);
    }
}

// A list of n rows of m numbers, from place `from` on, with 16 places a row.
pub fn spread(list: &[u32], from: usize, n: usize, m: usize) -> [u64; 128]
    requires { RowsAt list.now from n m }
    ensures { result ≡ pairs 8 16 (cell n m (drop from list.now)) }
{
    let mut out = [0u64; 128];
    for g in 0..n {
        put_row(&mut out, g, list, from + g * m, m);
    }
    out
}

// The sum of m numbers, from place `from` on.
pub fn row_total(list: &[u32], from: usize, m: usize) -> u64
    requires { RowAt list.now from m }
    ensures { result ≡ sum m (λ c. get_or list.now (from + c) 0) }
{
    let mut total: u64 = 0;
    for c in 0..m {
        total += u64::from(list[from + c]);
    }
    total
}
