// Numbers as bytes, low byte first: 4 bytes a number in the inputs, 8 in the outputs and in the record.
#![tactic(auto)]

ghost use Rattle.std.specs.Prelude.{ℕ, List, ◌≡◌, [], ◌∷◌, ◌+◌, ◌*◌, ◌≤◌, length, take};
ghost use Rattle.std.proofs.lemmas.List.Edits.{sets};
ghost use Rattle.codec.specs.Bytes.{number, bytes, encode, decode_as};
ghost use Rattle.codec.specs.Laws.BytesPut.{Put};

// A number of the lists: u32 in the inputs, u64 in the outputs and in the record.
pub trait Number: Copy {
    // How many bytes it has, and which number they are.
    ghost WIDTH: { ℕ };

    ghost of_bytes: { List ℕ → Self };

    const WIDTH: usize;

    // The number whose bytes `s` begins with.
    fn read_first(s: &[u8]) -> Self
        requires { WIDTH ≤ length s.now }
        ensures { result ≡ of_bytes (take WIDTH s.now) };
}

impl Number for u32 {
    ghost WIDTH = { 4 };

    ghost of_bytes = { number };

    const WIDTH: usize = 4;

    fn read_first(s: &[u8]) -> u32 {
        u32::from_le_bytes([s[0], s[1], s[2], s[3]])
    }
}

impl Number for u64 {
    ghost WIDTH = { 8 };

    ghost of_bytes = { number };

    const WIDTH: usize = 8;

    fn read_first(s: &[u8]) -> u64 {
        u64::from_le_bytes([s[0], s[1], s[2], s[3], s[4], s[5], s[6], s[7]])
    }
}

// Reads as many numbers as `out` has.
pub fn read<N: Number>(s: &[u8], out: &mut [N])
    requires { length s.now ≡ N.WIDTH * length out.old }
    ensures { out.new ≡ decode_as N.of_bytes N.WIDTH (length out.old) s.now }
{
    for (i, number) in out.iter_mut().enumerate() {
        *number = N::read_first(&s[i * N::WIDTH..]);
    }
}

// Writes one number; `at` counts numbers, not bytes.
pub fn put8(w: u64, s: &mut [u8], at: usize)
    requires { (at + 1) * 8 ≤ length s.old }
    ensures { s.new ≡ sets s.old (at * 8) (bytes 8 w) }
{
    let start = at * 8;
    s[start..start + 8].copy_from_slice(&w.to_le_bytes());
}

// Writes numbers from place `at` on: what stands before them stays.
pub fn put8s(ws: &[u64], s: &mut [u8], at: usize)
    requires { (at + length ws.now) * 8 ≤ length s.old }
    ensures { Put 8 at (at + length ws.now) ws.now s.old s.new }
{
    for (i, w) in ws.iter().enumerate() {
        put8(*w, s, at + i);
    }
}

pub fn write8(ws: &[u64], s: &mut [u8])
    requires { length s.old ≡ 8 * length ws.now }
    ensures { s.new ≡ encode 8 ws.now }
{
    put8s(ws, s, 0);
}
