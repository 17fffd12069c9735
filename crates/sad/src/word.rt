// Rows of words of 16 bits. A row is looked at for refusal 16 while it is summed, so that each sample is read once.
ghost use Rattle.std.specs.Prelude.{◌≡◌, ℕ, ◌+◌, ◌*◌, ◌^◌, ◌≤◌, leb, length};
ghost use Rattle.sums.specs.Any.{any_below};
ghost use Rattle.sums.specs.Sums.{sum_below};
ghost use Rattle.sad.specs.Needs.{gap_at, large_from};

use crate::{Row, RowSad};
use sums::Sample;

// A row is taken in chunks of this many samples. The low and the high bytes of a chunk's distances are summed in 16 bits
// each: so one vector instruction adds eight of them, and no distance is widened.
const CHUNK: usize = 256;

// Of a chunk: the sum of the distances' low bytes, that of their high bytes, and the bits that some sample has.
#[derive(Clone, Copy)]
struct Chunk {
    low: u16,
    high: u16,
    bits: u16,
}

// Of two chunks of one length.
fn chunk_sad(a: &[u16], b: &[u16]) -> Chunk
    requires lengths { length a.now ≡ length b.now }
    requires short { length a.now ≤ 256 }
    ensures high_value { result.low + 256 * result.high ≡ sum_below (length a.now) (gap_at a.now b.now) }
    ensures by_index { (m : ℕ) → leb (2 ^ m) result.bits ≡ any_below (length a.now) (large_from a.now b.now 0 m) }
{
    let mut low: u16 = 0;
    let mut high: u16 = 0;
    let mut bits: u16 = 0;
    for (x, y) in a.iter().zip(b) {
        let d = x.distance(*y);
        low += d % 256;
        high += d / 256;
        bits = bits | *x | *y;
    }
    Chunk { low, high, bits }
}

impl RowSad for u16 {
    fn row_sad(a: &[u16], b: &[u16]) -> Row {
        let mut sum: u32 = 0;
        let mut bits: u16 = 0;
        for (x, y) in a.chunks(CHUNK).zip(b.chunks(CHUNK)) {
            let chunk = chunk_sad(x, y);
            sum += (chunk.low as u32) + 256 * (chunk.high as u32);
            bits |= chunk.bits;
        }
        Row { sum, bits }
    }
}
