// Blocks of words of 16 bits.
ghost use Rattle.std.specs.Prelude.{◌≡◌, ◌+◌, ◌*◌, ◌≤◌, length};
ghost use Rattle.plane.specs.Blocks.{block_side};
ghost use Rattle.plane.specs.Needs.{row_from, square_from};
ghost use Rattle.sums.specs.Sums.{sum_below};
ghost use Rattle.importance.specs.Needs.{deep_most, SmallRows};

use crate::BlockMean;
use plane::BLOCK_SIDE;

// The sum of four rows of eight samples, a stride apart from a place on. Four samples are added in 16 bits, as long as none has
// more than 12: so one vector instruction adds eight, and they are widened once. By index: `for (((a, b), c), d) in` a zip of zips
// over four parts of the list is no plainer.
#[tactic(auto, using(crate::proofs::FourRows::four_small))]
fn sum_rows(s: &[u16], at: usize, stride: usize) -> u32
    requires inside { at + 3 * stride + block_side ≤ length s.now }
    requires small_rows { SmallRows s.now at stride 4 }
    ensures { result ≡ sum_below 4 (row_from block_side s.now at stride) }
{
    let second = at + stride;
    let third = second + stride;
    let last = third + stride;
    let mut sum: u32 = 0;
    for i in 0..BLOCK_SIDE {
        sum += (s[at + i] + s[second + i] + s[third + i] + s[last + i]) as u32;
    }
    sum
}

// The sum of the block that starts at a place.
fn sum_8x8_block(s: &[u16], start: usize, stride: usize) -> u32
    requires inside { start + 7 * stride + block_side ≤ length s.now }
    requires small_rows { SmallRows s.now start stride block_side }
    ensures is { result ≡ square_from block_side s.now start stride }
    ensures at_most { result ≤ 64 * deep_most }
{
    sum_rows(s, start, stride) + sum_rows(s, start + 4 * stride, stride)
}

impl BlockMean for u16 {
    fn block_mean(s: &[u16], start: usize, stride: usize) -> u16 {
        ((sum_8x8_block(s, start, stride) + 32) / 64) as u16
    }
}
