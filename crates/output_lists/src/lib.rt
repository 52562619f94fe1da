// Lists of a call's output, each put into its own stretch of the slice, whole or by column. The numbers are put one by one: the kit's copy of a slice
// would ask a C host for `memmove`, which nothing else here needs.
#![tactic(auto)]

ghost use Rattle.std.specs.Prelude.{◌≡◌, ◌+◌, ◌*◌, ◌<◌, ◌≤◌, length, get_or};
ghost use Rattle.lists.specs.Tables.{table};
ghost use Rattle.output_lists.specs.Laws.ListPut.{Put};
ghost use Rattle.output_lists.specs.Laws.Columns.{ColumnPut};

// Fills `out` with the first numbers of `xs`.
pub fn write_list(out: &mut [u64], xs: &[u64])
    requires { length out.old ≤ length xs.now }
    ensures { out.new ≡ table (length out.old) (λ i. get_or xs.now i 0) }
{
    for i in 0..out.len() {
        out[i] = xs[i];
    }
}

// Writes the first n numbers of `xs` into `out` from place `at` on; what stands before and after them stays.
pub fn put_list(out: &mut [u64], at: usize, xs: &[u64], n: usize)
    requires { (at + n ≤ length out.old) × (n ≤ length xs.now) }
    ensures { Put at n (table n (λ i. get_or xs.now i 0)) out.old out.new }
{
    write_list(&mut out[at..at + n], xs);
}

// Puts a number for each of the n rows into column c.
pub fn put_column(list: &mut [u64], n: usize, m: usize, c: usize, xs: &[u64; 8])
    requires { (length list.old ≡ n * m) × ((n ≤ 8) × ((m ≤ 16) × (c < m))) }
    ensures { ColumnPut n m list.old c xs.now n list.new }
{
    for g in 0..n {
        list[g * m + c] = xs[g];
    }
}
