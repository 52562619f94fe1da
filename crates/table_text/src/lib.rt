// How a readings table is written, byte after byte: decimal values, separators and the names line.
#![tactic(auto)]

ghost use Rattle.std.specs.Prelude.{◌≡◌, ◌+◌, ◌*◌, ◌<◌, ◌≤◌, ◌++◌, length};
ghost use Rattle.arrayvec.specs.ArrayVec.{array_vec_len};
ghost use Rattle.table_text.specs.TableText.{decimal, separator_after, printed, name, names_line};

use arrayvec::ArrayVec;

// A text as it is written: a names line has at most 79 bytes, what program `wheel` prints at most 320.
pub type Text = ArrayVec<u8, 320>;

// The byte after place i of a line of w places, the places counted on through all lines.
#[tactic(auto, unfolding(crate::specs::TableText::separator_after))]
pub fn separator_after(w: usize, i: usize) -> u8
    requires { (0 < w) × (i < 18446744073709551615) }
    ensures { result ≡ separator_after w i }
{
    if (i + 1) % w == 0 {
        return b'\n';
    }
    b','
}

// Writes the digits of n, of which there are at most 20.
fn push_digits(n: u64, digits: &mut ArrayVec<u8, 20>)
    requires { array_vec_len digits.old + length (decimal n) ≤ 20 }
    ensures { digits.new.items ≡ digits.old.items ++ decimal n }
{
    if 10 <= n {
        push_digits(n / 10, digits);
    }
    digits.push(b'0' + (n % 10) as u8);
}

// Writes the digits of n into a text of any size. The recursion is on a text of one size, since one over every size gets no proof.
pub fn push_decimal<const N: usize>(n: u64, text: &mut ArrayVec<u8, N>)
    requires { array_vec_len text.old + length (decimal n) ≤ N }
    ensures { text.new.items ≡ text.old.items ++ decimal n }
{
    let mut digits = ArrayVec::new();
    push_digits(n, &mut digits);
    text.try_extend_from_slice(digits.as_slice()).unwrap();
}

// Writes the name of place j, E1 to EG and then R1 to RC.
// The bound on j is no limit of the table: it keeps the number of the name within 32 bits.
fn push_name<const N: usize>(g: u32, j: u32, text: &mut ArrayVec<u8, N>)
    requires { (j < 1000) × (array_vec_len text.old + length (name g j) ≤ N) }
    ensures { text.new.items ≡ text.old.items ++ name g j }
{
    if j < g {
        text.push(b'E');
        push_decimal(u64::from(j + 1), text);
    } else {
        text.push(b'R');
        push_decimal(u64::from(j - g + 1), text);
    }
}

// The names line: the longest has 79 bytes.
pub fn names_line(g: u32, c: u32) -> Text
    requires { (g ≤ 8) × (c ≤ 16) }
    ensures { result.items ≡ names_line g c }
{
    let w = g + c;
    let mut line = ArrayVec::new();
    for j in 0..w {
        push_name(g, j, &mut line);
        line.push(separator_after(w as usize, j as usize));
    }
    line
}

// Writes one line of values. No value with its separator has more than 21 bytes.
pub fn push_line<const N: usize>(values: &[u64], text: &mut ArrayVec<u8, N>)
    requires { array_vec_len text.old + 21 * length values.now ≤ N }
    ensures { text.new.items ≡ text.old.items ++ printed (length values.now) 0 values.now }
{
    for (j, &value) in values.iter().enumerate() {
        push_decimal(value, text);
        text.push(separator_after(values.len(), j));
    }
}
