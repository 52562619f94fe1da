// Kind, installed and contracted of each generator: three lists in a record by value, 8 rows of 3 in its bytes.
ghost use Rattle.std.specs.Prelude.{◌≡◌, ◌<◌};
ghost use Rattle.record_layout.specs.Laws.Layout.{agreed_run, column_of};

use std::array;

// The lists as rows.
pub fn rows(t: record::Agreed) -> [u64; 24]
    ensures { result ≡ agreed_run t }
{
    let mut out = [0u64; 24];
    for g in 0..8 {
        out[g * 3] = t.kind[g];
        out[g * 3 + 1] = t.installed[g];
        out[g * 3 + 2] = t.contracted[g];
    }
    out
}

// Number `k` of each row.
pub fn column(rows: [u64; 24], k: usize) -> [u64; 8]
    requires { k < 3 }
    ensures { result ≡ column_of rows k }
{
    array::from_fn(|g| rows[g * 3 + k])
}
