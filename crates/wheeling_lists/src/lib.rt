// What a C call is handed and hands back: lists as bytes, low byte first, 4 a number in the inputs and 8 in the outputs.
#![tactic(auto)]

ghost use Rattle.std.specs.Prelude.{◌≡◌, ◌*◌, ◌≤◌, length, take};
ghost use Rattle.wheeling_rules.specs.Wheeling.{numbers_in};
ghost use Rattle.wheeling_rules.specs.Laws.BytesRead.{Taken, Room, Written};

// Reads the numbers of an input into the front of `out`, and returns how many there are. Bytes that are no whole count of numbers, or
// too many for `out`, count as all of `out`: it has more places than any agreement takes, so the call refuses them as a wrong length.
pub fn read_input(bytes: &[u8], out: &mut [u32]) -> usize
    requires { length out.old ≤ 1000 }
    ensures { Taken (numbers_in 4 bytes.now) (length out.old) result out.new }
{
    let n = bytes.len() / 4;
    if bytes.len() % 4 == 0 && n < out.len() {
        codec::read(bytes, &mut out[..n]);
        return n;
    }
    out.len()
}

// How many numbers an output has room for, likewise: `most` where the bytes are no whole count of them, or too many.
pub fn room(bytes: &[u8], most: usize) -> usize
    requires { most ≤ 1000 }
    ensures { Room bytes.now most result }
{
    let n = bytes.len() / 8;
    if bytes.len() % 8 == 0 && n < most {
        return n;
    }
    most
}

// Writes the output of an accepted call, the first n numbers of `out`; returns the call's number.
#[tactic(auto, using(wheeling_rules::specs::Laws::BytesReadLaws::written_accepted, wheeling_rules::specs::Laws::BytesReadLaws::written_refused))]
pub fn give(refusal: u32, out: &[u64], n: usize, output: &mut [u8]) -> u32
    requires { (n ≤ length out.now) × (refusal ≡ 0 → length output.old ≡ 8 * n) }
    ensures { Written refusal (take n out.now) output.old result output.new }
{
    if refusal == 0 {
        codec::write8(&out[..n], output);
        return 0;
    }
    refusal
}
