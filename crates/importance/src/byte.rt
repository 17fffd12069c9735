// Blocks of bytes.
ghost use Rattle.std.specs.Prelude.{◌≡◌, ℕ, ◌+◌, ◌*◌, ◌≤◌, length, get_or};
ghost use Rattle.plane.specs.Blocks.{block_side};
ghost use Rattle.plane.specs.Needs.{square_from};
ghost use Rattle.sums.specs.Needs.{byte_most};
ghost use Rattle.sums.specs.Sums.{sum_below};

use crate::BlockMean;
use plane::BLOCK_SIDE;

// The sum of a part's first eight samples. The sums of a block are kept in 16 bits, so that one vector instruction adds
// eight of them; in 32 bits it adds four, and every sample is widened twice.
fn sum_row(s: &[u8]) -> u16
    requires { block_side ≤ length s.now }
    ensures is { result ≡ sum_below block_side (λ (i : ℕ). get_or s.now i 0) }
    ensures at_most { result ≤ 8 * byte_most }
{
    let mut sum: u16 = 0;
    for x in &s[..BLOCK_SIDE] {
        sum += *x as u16;
    }
    sum
}

// The sum of the block that starts at a place. Row by row from their starts: `inside` of `block_mean` allows every stride, also 0, at which
// `chunks(stride)` may not be called, and one below eight, at which a chunk is no row.
#[tactic(auto, using(crate::proofs::BlockSums::row_in))]
fn sum_8x8_block(s: &[u8], start: usize, stride: usize) -> u16
    requires { start + 7 * stride + block_side ≤ length s.now }
    ensures is { result ≡ square_from block_side s.now start stride }
    ensures at_most { result ≤ 64 * byte_most }
{
    let mut sum: u16 = 0;
    for j in 0..BLOCK_SIDE {
        let i = start + j * stride;
        sum += sum_row(&s[i..]);
    }
    sum
}

impl BlockMean for u8 {
    fn block_mean(s: &[u8], start: usize, stride: usize) -> u16 {
        (sum_8x8_block(s, start, stride) + 32) / 64
    }
}
