// Importance: `estimate_importance_block_difference` of analyze/importance.rs, before the division and after it. The samples are looked at for
// refusal 16 one row of blocks at a time, just before it is summed: so the sum finds them in the cache, and knows that they are small.
#![tactic(auto)]

ghost use Rattle.std.specs.Prelude.{true, ◌||◌, ◌≡◌, ◌*◌, ◌^◌, ◌≤◌, ◌<◌, length};
ghost use Rattle.answer.specs.Answer.{answered, answer_of};
ghost use Rattle.answer.specs.Refusal.{refusal};
ghost use Rattle.plane.specs.Blocks.{blocks_down};
ghost use Rattle.plane.specs.Planes.{suits, rows_large, too_large};
ghost use Rattle.importance.specs.Needs.{SmallBlocks};
ghost use Rattle.importance.specs.Importance.{blocks_difference, importance_total, total_of, importance_of};

use answer::Refusal;
use plane::{BLOCK_SIDE, Pair, Plane};

mod block;
mod byte;
mod word;

pub use block::BlockMean;

// The differences of row y of blocks. Each mean is rounded by itself: the mean of the differences is another number. (By number: a block starts at
// one place of each list.)
fn blocks_difference<S: BlockMean>(pair: &Pair<S>, y: usize) -> u64
    requires y_bound { y < blocks_down pair.now.p }
    requires small_blocks { SmallBlocks pair.now.p (S.Sample.values pair.now.a.now) y × SmallBlocks pair.now.q (S.Sample.values pair.now.b.now) y }
    ensures is { result ≡ blocks_difference pair.now.p (S.Sample.values pair.now.a.now) pair.now.q (S.Sample.values pair.now.b.now) y }
    ensures at_most { result ≤ 2 ^ 26 }
{
    let step = pair.p.stride;
    let step2 = pair.q.stride;
    let start = pair.p.block_row(pair.a.len(), y);
    let start2 = pair.q.block_row(pair.b.len(), y);
    let mut total: u64 = 0;
    for x in 0..pair.p.width / BLOCK_SIDE {
        let org = S::block_mean(pair.a, start + x * BLOCK_SIDE, step);
        let other = S::block_mean(pair.b, start2 + x * BLOCK_SIDE, step2);
        total += org.abs_diff(other) as u64;
    }
    total
}

// Whether one of the rows from one up to another, of either plane, has a sample that reaches 2 to the depth.
fn any_large<S: BlockMean>(depth: u64, pair: &Pair<S>, from: usize, to: usize) -> bool
    ensures { result ≡ rows_large depth pair.now.p (S.Sample.values pair.now.a.now) from to || rows_large depth pair.now.q (S.Sample.values pair.now.b.now) from to }
{
    plane::rows_large(depth, pair.p, pair.a, from, to)
        | plane::rows_large(depth, pair.q, pair.b, from, to)
}

// The differences of all whole blocks of two planes of one size, or 16 where a sample is too large. The samples of a row of
// blocks are looked at just before they are summed; those below the last whole block come last. (By number: rows of blocks lie strides apart. It
// looks like `sad_plane`, and is another measure with another definition: of rows there, of blocks here.)
fn all_differences<S: BlockMean>(depth: u64, pair: &Pair<S>) -> Result<u64, Refusal>
    requires { suits S.Depths.word depth ≡ true }
    ensures { answer_of result ≡ answered (refusal 16 (too_large depth pair.now.p (S.Sample.values pair.now.a.now) || too_large depth pair.now.q (S.Sample.values pair.now.b.now))) (importance_total pair.now.p (S.Sample.values pair.now.a.now) pair.now.q (S.Sample.values pair.now.b.now)) }
{
    let height = pair.p.height;
    let mut total: u64 = 0;
    for y in 0..height / BLOCK_SIDE {
        let from = y * BLOCK_SIDE;
        if any_large(depth, pair, from, from + BLOCK_SIDE) {
            return Err(Refusal::TooLarge);
        }
        total += blocks_difference(pair, y);
    }
    let done = (height / BLOCK_SIDE) * BLOCK_SIDE;
    if any_large(depth, pair, done, height) {
        return Err(Refusal::TooLarge);
    }
    Ok(total)
}

// The importance total of two planes, before the division. Shapes and blocks are asked for one after the other. `blocks_fault` does both, but
// the compiler keeps it apart, and two planes as its arguments take 112 bytes of stack.
pub fn importance_total<S: BlockMean>(
    depth: u64,
    p: Plane,
    a: &[S],
    q: Plane,
    b: &[S],
) -> Result<u64, Refusal>
    ensures { answer_of result ≡ total_of S.Depths.word depth p (S.Sample.values a.now) q (S.Sample.values b.now) }
{
    plane::shapes_fault::<S>(depth, p, a.len(), q, b.len())?;
    plane::block_fault((p.height / BLOCK_SIDE) * (p.width / BLOCK_SIDE))?;
    all_differences(depth, &Pair { p, a, q, b })
}

// The importance of two planes: the total over the number of blocks. It asks for the total as a caller does: so the compiler has one
// place for the loops, and their stack is small.
pub fn importance<S: BlockMean>(
    depth: u64,
    p: Plane,
    a: &[S],
    q: Plane,
    b: &[S],
) -> Result<f64, Refusal>
    ensures { answer_of result ≡ importance_of S.Depths.word depth p (S.Sample.values a.now) q (S.Sample.values b.now) }
{
    let total = importance_total(depth, p, a, q, b)?;
    let count = (p.height / BLOCK_SIDE) * (p.width / BLOCK_SIDE);
    Ok(sums::quotient(total, count as u64))
}
