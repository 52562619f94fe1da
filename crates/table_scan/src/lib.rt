// The reader's steps over the value lines, one byte after the other.
#![tactic(auto, unfolding(crate::specs::Laws::Scan::values_ended, crate::specs::Values::is_digit, lists::specs::Tests::within))]

ghost use Rattle.std.specs.Prelude.{◌≡◌, ◌<◌};
ghost use Rattle.table_scan.specs.Laws.Scan.{add_digit, first_byte, later_byte, next_byte, values_ended, whole_lines, value_so_far};

// How far the reading of one value has come: not begun, some digits, or a byte that cannot stand there.
#[derive(Clone, Copy)]
pub enum Progress {
    Start,
    Digits(u32),
    Malformed,
}

// The digit d after digits that make n: a value has no leading zero, and fits 32 bits.
fn add_digit(n: u32, d: u32) -> Progress
    requires { d < 10 }
    ensures { result ≡ add_digit n d }
{
    if n == 0 {
        return Progress::Malformed;
    }
    let m = u64::from(n) * 10 + u64::from(d);
    if m <= 4_294_967_295 {
        Progress::Digits(m as u32)
    } else {
        Progress::Malformed
    }
}

// The byte b where a value begins.
fn first_byte(b: u8) -> Progress
    ensures { result ≡ first_byte b }
{
    if b.is_ascii_digit() {
        return Progress::Digits(u32::from(b - b'0'));
    }
    Progress::Malformed
}

// The byte b after digits that make n, where sep is the separator that may end the value.
fn later_byte(n: u32, b: u8, sep: u8) -> Progress
    ensures { result ≡ later_byte n b sep }
{
    if b.is_ascii_digit() {
        return add_digit(n, u32::from(b - b'0'));
    }
    if b == sep {
        return Progress::Start;
    }
    Progress::Malformed
}

pub fn next_byte(at: Progress, b: u8, sep: u8) -> Progress
    ensures { result ≡ next_byte at b sep }
{
    match at {
        Progress::Start => first_byte(b),
        Progress::Digits(n) => later_byte(n, b, sep),
        Progress::Malformed => Progress::Malformed,
    }
}

// How many values the byte b ends: one, unless it is a digit.
pub fn values_ended(b: u8) -> usize
    ensures { result ≡ values_ended b }
{
    usize::from(!b.is_ascii_digit())
}

// Whether a text may end here, after k values.
pub fn whole_lines(w: usize, k: usize, at: Progress) -> bool
    requires { 0 < w }
    ensures { result ≡ whole_lines w k at }
{
    matches!(at, Progress::Start) && k % w == 0
}

pub fn value_so_far(at: Progress) -> u32
    ensures { result ≡ value_so_far at }
{
    match at {
        Progress::Start | Progress::Malformed => 0,
        Progress::Digits(n) => n,
    }
}
