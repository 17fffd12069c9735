// Rows of bytes. No byte is too large for its depth, so none is looked at.
ghost use Rattle.std.specs.Prelude.{◌≡◌, ◌*◌, ◌^◌, ◌%◌, ◌≤◌, ◌<◌, length};
ghost use Rattle.plane.specs.Planes.{max_side};
ghost use Rattle.sums.specs.Needs.{byte_most};
ghost use Rattle.sums.specs.Sums.{sum_below};
ghost use Rattle.sad.specs.Needs.{gap_at};

use crate::{Row, RowSad};
use sums::Sample;

// A row is taken in chunks of CHUNK samples, what is left of it in chunks of SMALL_CHUNK, then FEW samples at once, and the last ones by themselves.
const CHUNK: usize = 32;

const SMALL_CHUNK: usize = 8;

const FEW: usize = 4;

// The sum over two chunks of one length. With a length that is constant where this is inlined, the compiler takes 16 samples
// in one vector instruction; a sum of 16 bits spares it the widening of every distance.
fn chunk_sad(a: &[u8], b: &[u8]) -> u16
    requires lengths { length a.now ≡ length b.now }
    requires byte_most_bound { length a.now * byte_most < 2 ^ 16 }
    ensures { result ≡ sum_below (length a.now) (gap_at a.now b.now) }
{
    let mut sum: u16 = 0;
    for (x, y) in a.iter().zip(b) {
        sum += x.distance(*y);
    }
    sum
}

// The sum over two lists that are whole chunks of n samples each.
fn chunks_sad(a: &[u8], b: &[u8], n: usize) -> u32
    requires lengths { length a.now ≡ length b.now }
    requires n_bound { 0 < n }
    requires whole { length a.now % n ≡ 0 }
    requires byte_most_bound { n * byte_most < 2 ^ 16 }
    requires a_len_bound { length a.now ≤ max_side }
    ensures { result ≡ sum_below (length a.now) (gap_at a.now b.now) }
{
    let mut sum: u32 = 0;
    for (x, y) in a.chunks_exact(n).zip(b.chunks_exact(n)) {
        sum += chunk_sad(x, y) as u32;
    }
    sum
}

// The sum over what is left of a row behind its chunks. (All of it one by one took a quarter longer or more where five samples or more were
// left, in planes of up to 127 columns.)
fn rest_sad(a: &[u8], b: &[u8]) -> u32
    requires lengths { length a.now ≡ length b.now }
    requires a_len_bound { length a.now ≤ max_side }
    ensures { result ≡ sum_below (length a.now) (gap_at a.now b.now) }
{
    let few = a.len() / FEW * FEW;
    chunks_sad(&a[..few], &b[..few], FEW) + chunks_sad(&a[few..], &b[few..], 1)
}

impl RowSad for u8 {
    fn row_sad(a: &[u8], b: &[u8]) -> Row {
        let from = a.len() / CHUNK * CHUNK;
        let last = a.len() / SMALL_CHUNK * SMALL_CHUNK;
        let sum = chunks_sad(&a[..from], &b[..from], CHUNK)
            + chunks_sad(&a[from..last], &b[from..last], SMALL_CHUNK);
        Row {
            sum: sum + rest_sad(&a[last..], &b[last..]),
            bits: 0,
        }
    }
}
