// A plane, as v_frame's Plane: a plain record beside a lent slice of samples, and when it is refused.
#![tactic(auto)]

ghost use Rattle.std.specs.Prelude.{◌≡◌, ◌*◌, leb};
ghost use Rattle.answer.specs.Answer.{fault_in};
ghost use Rattle.plane.specs.Blocks.{block_row, block_fault, blocks_fault};
ghost use Rattle.plane.specs.Needs.{SpanOf};
ghost use Rattle.plane.specs.Planes.{bad_side, bad_plane, row_end, row_of, plane_fault, sizes_fault, depth_fault, word_fault, shapes_fault};

use answer::Refusal;
use sums::Sample;

mod depths;
mod pair;
mod samples;
mod view;

pub use depths::Depths;
pub use pair::Pair;
pub use samples::{pair_fault, reaches, rows_large, sample_fault};
pub use view::View;

// The largest side, of a plane as of a resolution.
const MAX_SIDE: usize = 8192;

// The side of a block.
pub const BLOCK_SIDE: usize = 8;

// A plane over lent samples: sample (x, y) is at origin + y * stride + x.
#[derive(Clone, Copy, Debug, PartialEq, Eq)]
pub struct Plane {
    pub width: usize,
    pub height: usize,
    pub stride: usize,
    pub origin: usize,
}

// Where a row's visible samples stand among the lent ones.
#[derive(Clone, Copy)]
struct Span {
    start: usize,
    end: usize,
}

// Whether a side is 0 or above the largest.
#[tactic(auto, unfolding(crate::specs::Planes::bad_side))]
pub fn bad_side(n: usize) -> bool
    ensures { result ≡ bad_side n }
{
    n == 0 || MAX_SIDE < n
}

// Whether y strides fit into a room: by the product where it cannot overflow, which is quick, and else by a division.
fn strides_fit(y: usize, stride: usize, room: usize) -> bool
    ensures { result ≡ leb (y * stride) room }
{
    if y < 65536 && stride < 0x1_0000_0000_0000 {
        return y * stride <= room;
    }
    if y == 0 {
        return true;
    }
    stride <= room / y
}

impl Plane {
    // Whether row y ends within n samples. The sum itself may pass 2^64, so the room that is left is counted down.
    fn row_lies(self, n: usize, y: usize) -> bool
        ensures { result ≡ leb (row_end self y) n }
    {
        let width = self.width;
        let origin = self.origin;
        if n < width {
            return false;
        }
        let before = n - width;
        if before < origin {
            return false;
        }
        strides_fit(y, self.stride, before - origin)
    }

    // Whether a side is bad, or the stride is below the width.
    #[tactic(auto, unfolding(crate::specs::Planes::bad_plane))]
    fn is_bad(self) -> bool
        ensures { result ≡ bad_plane self }
    {
        bad_side(self.width) || bad_side(self.height) || self.stride < self.width
    }

    // Refusal 1 or 2 of the plane over n samples.
    #[tactic(auto, using(answer::proofs::Laws::refusals), unfolding(crate::specs::Planes::plane_fault, crate::specs::Planes::past_samples))]
    pub fn fault(self, n: usize) -> Result<(), Refusal>
        ensures { fault_in result ≡ plane_fault self n }
    {
        if self.is_bad() {
            return Err(Refusal::BadPlane);
        }
        if !self.row_lies(n, self.height - 1) {
            return Err(Refusal::PastSamples);
        }
        Ok(())
    }

    // Where row y stands over n samples; nowhere, if it does not lie within them. (No Option: `row_of` gives an empty row.)
    fn span(self, n: usize, y: usize) -> Span
        ensures { SpanOf self n y result.start result.end }
    {
        let width = self.width;
        let stride = self.stride;
        let origin = self.origin;
        if self.row_lies(n, y) {
            let start = origin + y * stride;
            return Span {
                start,
                end: start + width,
            };
        }
        Span { start: 0, end: 0 }
    }

    // Row y of the plane: its visible samples as a part of the lent ones, or none where they do not lie within.
    pub fn row<S: Sample>(self, s: &[S], y: usize) -> &[S]
        ensures { S.values result.now ≡ row_of self (S.values s.now) y }
    {
        let part = self.span(s.len(), y);
        let start = part.start;
        let end = part.end;
        &s[start..end]
    }

    // Where row y of blocks starts over n samples, or n where there is no such row. Block x starts x * BLOCK_SIDE further on. (No Option: the
    // definition of the same name gives n.)
    pub fn block_row(self, n: usize, y: usize) -> usize
        ensures { result ≡ block_row self n y }
    {
        let stride = self.stride;
        let origin = self.origin;
        if y < self.height / BLOCK_SIDE {
            let row = y * BLOCK_SIDE;
            if self.row_lies(n, row) {
                return origin + row * stride;
            }
        }
        n
    }
}

// Refusal 5 of a detector's depth, for which no word is given.
#[tactic(auto, unfolding(crate::specs::Planes::depth_fault))]
pub fn depth_fault(depth: u64) -> Result<(), Refusal>
    ensures { fault_in result ≡ depth_fault depth }
{
    if u8::suits(depth) || u16::suits(depth) {
        Ok(())
    } else {
        Err(Refusal::BadDepth)
    }
}

// Refusal 5 of a depth that the samples' word does not have.
#[tactic(auto, unfolding(crate::specs::Planes::word_fault))]
pub fn word_fault<S: Depths>(depth: u64) -> Result<(), Refusal>
    ensures { fault_in result ≡ word_fault S.word depth }
{
    if S::suits(depth) {
        Ok(())
    } else {
        Err(Refusal::BadDepth)
    }
}

// The refusal of two planes over n and m samples: 1 and 2 of the first, 1 and 2 of the second, and 3 where their sizes differ. (Sizes, not
// planes, are held against each other: strides and origins may differ.)
#[tactic(auto, using(answer::proofs::Laws::refusals), unfolding(crate::specs::Planes::sizes_fault, crate::specs::Planes::sizes_differ))]
fn sizes_fault(p: Plane, n: usize, q: Plane, m: usize) -> Result<(), Refusal>
    ensures { fault_in result ≡ sizes_fault p n q m }
{
    p.fault(n)?;
    q.fault(m)?;
    if p.width != q.width || p.height != q.height {
        return Err(Refusal::SizesDiffer);
    }
    Ok(())
}

// The refusal of two planes by their shapes: of the depth first, then of the planes. It is made a part of its callers: two planes as its
// arguments take 112 bytes of stack.
#[inline]
#[tactic(auto, using(answer::proofs::Laws::refusals), unfolding(crate::specs::Planes::shapes_fault))]
pub fn shapes_fault<S: Depths>(
    depth: u64,
    p: Plane,
    n: usize,
    q: Plane,
    m: usize,
) -> Result<(), Refusal>
    ensures { fault_in result ≡ shapes_fault S.word depth p n q m }
{
    word_fault::<S>(depth)?;
    sizes_fault(p, n, q, m)
}

// Refusal 19 where there is no whole block.
#[tactic(auto, unfolding(crate::specs::Blocks::block_fault))]
pub fn block_fault(count: usize) -> Result<(), Refusal>
    ensures { fault_in result ≡ block_fault count }
{
    if count == 0 {
        Err(Refusal::NoBlock)
    } else {
        Ok(())
    }
}

// The refusal of two planes that are measured by their whole blocks: by their shapes, and 19 where they have none.
#[tactic(auto, using(answer::proofs::Laws::refusals), unfolding(crate::specs::Blocks::blocks_fault))]
pub fn blocks_fault<S: Depths>(
    depth: u64,
    p: Plane,
    n: usize,
    q: Plane,
    m: usize,
) -> Result<(), Refusal>
    ensures { fault_in result ≡ blocks_fault S.word depth p n q m }
{
    shapes_fault::<S>(depth, p, n, q, m)?;
    block_fault((p.height / BLOCK_SIDE) * (p.width / BLOCK_SIDE))
}
