// The reader of the readings table: names line, value lines, and the values laid into the caller's output.
#![tactic(auto)]

ghost use Rattle.std.specs.Prelude.{◌≡◌, true, false, ◌<◌, length, MatchOption};
ghost use Rattle.table.specs.Table.{numbers, well_formed, in_range, starts_with_names, later_lines, from_start, ReadMeets};
ghost use Rattle.table.specs.Laws.ReaderParts.{Writable, LinesMeet};

use refusal::Refusal;
use table_scan::Progress;
use table_text::{names_line, separator_after};

// Whether s is lines of w values.
fn well_formed(w: usize, s: &[u8]) -> bool
    requires { 0 < w }
    ensures { result ≡ well_formed w s.now }
{
    let mut at = Progress::Start;
    let mut k: usize = 0;
    for &b in s {
        let sep = separator_after(w, k);
        at = table_scan::next_byte(at, b, sep);
        k += table_scan::values_ended(b);
    }
    table_scan::whole_lines(w, k, at)
}

// Each byte that is no digit ends a value.
fn count_values(s: &[u8]) -> usize
    ensures { result ≡ length (numbers 0 s.now) }
{
    s.iter().filter(|b| !b.is_ascii_digit()).count()
}

// Lays the values of s at the start of out. Only a text that is wholly checked gets here, so no value can overflow.
fn write_values(w: usize, s: &[u8], out: &mut [u32])
    requires { Writable w s.now out.old }
    ensures { out.new ≡ from_start (numbers 0 s.now) out.old }
{
    let mut at = Progress::Start;
    let mut k: usize = 0;
    for &b in s {
        if !b.is_ascii_digit() {
            out[k] = table_scan::value_so_far(at);
        }
        let sep = separator_after(w, k);
        at = table_scan::next_byte(at, b, sep);
        k += table_scan::values_ended(b);
    }
}

#[tactic(auto, using(std::proofs::lemmas::Bool::Decides::nat_tests), unfolding(crate::specs::Table::in_range, lists::specs::Tests::within))]
fn in_range(g: u32, c: u32) -> bool
    ensures { result ≡ in_range g c }
{
    (1..=8).contains(&g) && (1..=16).contains(&c)
}

// What stands after the names line, where text starts with it.
fn later_lines(g: u32, c: u32, text: &[u8]) -> Option<&[u8]>
    requires { in_range g c ≡ true }
    ensures { MatchOption result (starts_with_names g c text.now ≡ false) (λ lines. (starts_with_names g c text.now ≡ true) × (lines.now ≡ later_lines g c text.now)) }
{
    text.strip_prefix(names_line(g, c).as_slice())
}

// Reads the value lines s, of w values each: all of s is checked before the first value is laid.
fn read_lines(w: usize, s: &[u8], out: &mut [u32]) -> Result<usize, Refusal>
    requires { 0 < w }
    ensures { LinesMeet w s.now out.old result out.new }
{
    if !well_formed(w, s) {
        return Err(Refusal::WrongLine);
    }
    let k = count_values(s);
    if out.len() < k {
        return Err(Refusal::NoRoom);
    }
    write_values(w, s, out);
    Ok(k / w)
}

// Reads a table of g generators and c consumers: its values stand from the start of out, the rest of out is left.
// What is given is the number of value lines. A refused text leaves out as it was.
pub fn read_table(g: u32, c: u32, text: &[u8], out: &mut [u32]) -> Result<usize, Refusal>
    ensures { ReadMeets g c text.now out.old result out.new }
{
    if !in_range(g, c) {
        return Err(Refusal::WrongSize);
    }
    let Some(lines) = later_lines(g, c, text) else {
        return Err(Refusal::WrongNames);
    };
    read_lines((g + c) as usize, lines, out)
}
