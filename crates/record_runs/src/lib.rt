// Numbers of a record's bytes raised or replaced where they stand, and the sums of rows and columns by which some are raised.
#![tactic(auto)]

ghost use Rattle.std.specs.Prelude.{ℕ, ◌≡◌, ◌+◌, ◌*◌, ◌≤◌, ◌<◌, length, get_or};
ghost use Rattle.output_lists.specs.Laws.Bounds.{Moderate};
ghost use Rattle.record_layout.specs.Laws.NumbersRaised.{from};
ghost use Rattle.record_runs.specs.Laws.Raise.{row_sum, column_sum, RaisedBy, most_raised, Raisable, Replaced, ReplacedBy, Replaceable};

// The sum of row g of the rows of m numbers that start at `first`.
pub fn row_sum(xs: &[u64], first: usize, m: usize, g: usize) -> u64
    requires { (first + (g * m + m) ≤ length xs.now) × ((m ≤ 16) × Moderate xs.now) }
    ensures sum { result ≡ row_sum m xs.now first g }
    ensures moderate { result ≤ most_raised }
{
    (0..m).map(|c| xs[first + (g * m + c)]).sum()
}

// The sum of column c of the n rows of m numbers that start at `first`.
pub fn column_sum(xs: &[u64], first: usize, n: usize, m: usize, c: usize) -> u64
    requires { (first + n * m ≤ length xs.now) × ((c < m) × ((n ≤ 8) × Moderate xs.now)) }
    ensures sum { result ≡ column_sum n m xs.now first c }
    ensures moderate { result ≤ most_raised }
{
    (0..n).map(|g| xs[first + (g * m + c)]).sum()
}

// Adds to each of the n numbers of the record from place `at` on what `added` gives for its index.
pub fn raise<F: Fn(usize) -> u64>(s: &mut [u8], at: usize, n: usize, added: F)
    requires placed { Raisable at n most_raised s.old }
    requires callable { (i : ℕ) → i < n → F.pre added i }
    requires moderate { (i r : ℕ) → i < n → F.post added i r → r ≤ most_raised }
    ensures { RaisedBy (F.post added) (from at) n s.old s.new }
{
    for i in 0..n {
        record_numbers::add_at(s, at + i, added(i));
    }
}

// Puts in place of each of the n numbers of the record from place `at` on what `number` gives for its index.
pub fn replace<F: Fn(usize) -> u64>(s: &mut [u8], at: usize, n: usize, number: F)
    requires placed { Replaceable at n s.old }
    requires callable { (i : ℕ) → i < n → F.pre number i }
    ensures { ReplacedBy (F.post number) (from at) n s.old s.new }
{
    for i in 0..n {
        record_numbers::put_at(s, at + i, number(i));
    }
}

// Puts 0 in place of each of the n numbers of the record from place `at` on.
pub fn clear(s: &mut [u8], at: usize, n: usize)
    requires { Replaceable at n s.old }
    ensures { Replaced (from at) n (λ i. 0) s.old s.new }
{
    replace(s, at, n, |_| 0);
}
