// Numbers and floats as bytes, low byte first, and back. Where the bytes do not all lie within a list, reading gives 0 and
// writing changes nothing.
#![tactic(auto)]

ghost use Rattle.std.specs.Prelude.{◌≡◌, ◌+◌, nat_le, if◌then◌else◌, false, true, length, take, drop, MatchOption};
ghost use Rattle.std.specs.Float.{binary64};
ghost use Rattle.std.specs.Float.Ieee.{to_bits, of_bits};
ghost use Rattle.octets.specs.Octets.{overwritten, lies, number_at, with_number};

pub mod float;

// Whether n bytes lie within a list of `len` from a place on. (`s.get(at..)?.first_chunk()` reads with two tests in place of this one, and the
// scan of a log then takes 33 instructions a record for 20.)
fn lies_within(len: usize, at: usize, n: usize) -> bool
    ensures { result ≡ nat_le (at + n) len }
{
    n <= len && at <= len - n
}

// The N bytes from a place on, where they all lie within the list.
fn bytes_at<const N: usize>(s: &[u8], at: usize) -> Option<&[u8; N]>
    ensures { MatchOption result (lies N at s.now ≡ false) (λ b. (lies N at s.now ≡ true) × (b.now ≡ take N (drop at s.now))) }
{
    if lies_within(s.len(), at, N) {
        s[at..at + N].as_array()
    } else {
        None
    }
}

// Bytes from a place on, where they all lie within the list.
fn put_bytes(s: &mut [u8], at: usize, bytes: &[u8])
    ensures { s.new ≡ (if lies (length bytes.now) at s.old then overwritten at bytes.now s.old else s.old) }
{
    if lies_within(s.len(), at, bytes.len()) {
        s[at..at + bytes.len()].copy_from_slice(bytes);
    }
}

// A number of four bytes. (That and eight stay two lines each, over the same two functions: a trait of widths, with laws that tie it to
// `number_of` and `bytes_of`, would be longer than what it joins.)
pub fn u32_at(s: &[u8], at: usize) -> u32
    ensures { result ≡ number_at 4 at s.now }
{
    match bytes_at(s, at) {
        Some(bytes) => u32::from_le_bytes(*bytes),
        None => 0,
    }
}

pub fn put_u32(s: &mut [u8], at: usize, x: u32)
    ensures { s.new ≡ with_number 4 at x s.old }
{
    put_bytes(s, at, &u32::to_le_bytes(x));
}

// A number of eight bytes.
pub fn u64_at(s: &[u8], at: usize) -> u64
    ensures { result ≡ number_at 8 at s.now }
{
    match bytes_at(s, at) {
        Some(bytes) => u64::from_le_bytes(*bytes),
        None => 0,
    }
}

pub fn put_u64(s: &mut [u8], at: usize, x: u64)
    ensures { s.new ≡ with_number 8 at x s.old }
{
    put_bytes(s, at, &u64::to_le_bytes(x));
}

// A float of eight bytes, by its bits.
pub fn f64_at(s: &[u8], at: usize) -> f64
    ensures { result ≡ of_bits binary64 (number_at 8 at s.now) }
{
    float::of_bits(u64_at(s, at))
}

pub fn put_f64(s: &mut [u8], at: usize, x: f64)
    ensures { s.new ≡ with_number 8 at (to_bits binary64 x) s.old }
{
    put_u64(s, at, float::bits_of(x));
}
