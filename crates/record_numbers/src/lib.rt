// One number of the record, read, written or raised where it stands in the bytes.
#![tactic(auto)]

ghost use Rattle.std.specs.Prelude.{◌≡◌, ◌+◌, ◌<◌, length, get_or, set};
ghost use Rattle.record_places.specs.RecordSize.{record_numbers, record_bytes, words_in};

use codec::Number;

// Number `k` of the record, read where it stands.
pub fn number_at(s: &[u8], k: usize) -> u64
    requires { (length s.now ≡ record_bytes) × (k < record_numbers) }
    ensures { result ≡ get_or (words_in s.now) k 0 }
{
    u64::read_first(&s[k * 8..])
}

// Writes number `k` of the record where it stands; the others stay.
pub fn put_at(s: &mut [u8], k: usize, w: u64)
    requires { (length s.old ≡ record_bytes) × (k < record_numbers) }
    ensures { (words_in s.new ≡ set (words_in s.old) k w) × (length s.new ≡ record_bytes) }
{
    codec::put8(w, s, k);
}

// Number `k` of the record raised by w.
fn sum_at(s: &[u8], k: usize, w: u64) -> u64
    requires { (length s.now ≡ record_bytes) × ((k < record_numbers) × (get_or (words_in s.now) k 0 + w < 18_446_744_073_709_551_616)) }
    ensures { result ≡ get_or (words_in s.now) k 0 + w }
{
    number_at(s, k) + w
}

// Adds to number `k` of the record where it stands.
pub fn add_at(s: &mut [u8], k: usize, w: u64)
    requires { (length s.old ≡ record_bytes) × ((k < record_numbers) × (get_or (words_in s.old) k 0 + w < 18_446_744_073_709_551_616)) }
    ensures { words_in s.new ≡ set (words_in s.old) k (get_or (words_in s.old) k 0 + w) }
{
    let sum = sum_at(s, k, w);
    put_at(s, k, sum);
}
