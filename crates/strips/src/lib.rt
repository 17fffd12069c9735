// Frames that come a few rows at a time: start, strip after strip, and the end. What is kept between calls is the carry, six numbers, the lent
// room with the rows of the row of blocks that is not finished, and the costs.
#![tactic(auto)]

ghost use Rattle.std.specs.Prelude.{◌||◌, ◌≡◌, ℕ, ◌+◌, ◌*◌, ◌≤◌, ◌<◌, ◌^◌, length, get_or};
ghost use Rattle.answer.specs.Answer.{answer_of, answered};
ghost use Rattle.answer.specs.Refusal.{refusal};
ghost use Rattle.plane.specs.Planes.{max_side, shapes_fault, too_large};
ghost use Rattle.sad.specs.Difference.{plane_sad};
ghost use Rattle.strips.specs.Carry.{blocks_along};
ghost use Rattle.strips.specs.Needs.{Sound, Taken, held};
ghost use Rattle.strips.specs.Rows.{laid, room_long, rows_laid, blocks_rise, blocks_costs, held_row, held_rows};
ghost use Rattle.strips.specs.Strips.{kept, strip, start_of, start_after, add_of, add_after, end_of};

use answer::Refusal;
use carry::Carry;
use plane::{BLOCK_SIDE, Plane};
use sums::Sample;

mod carry;
mod measured;
mod shape;

pub use measured::Measured;

// What the end gives: the number of whole blocks, the difference and the importance total.
#[derive(Clone, Copy)]
pub struct Totals {
    pub blocks: u64,
    pub difference: u64,
    pub importance: u64,
}

// ---- the start

// Begins a pair of frames of a whole size: 0 (`start_of` says so, as C's answer), and the carry. A refused call writes nothing.
pub fn start(depth: u64, width: usize, height: usize, carry: &mut [u64]) -> Result<u64, Refusal>
    ensures result_value { answer_of result ≡ start_of depth width height carry.old }
    ensures carry_after { carry.new ≡ start_after depth width height carry.old }
{
    if carry.len() != carry::CARRY {
        return Err(Refusal::BadState);
    }
    plane::depth_fault(depth)?;
    if plane::bad_side(width) | plane::bad_side(height) {
        return Err(Refusal::BadPlane);
    }
    let begun = Carry {
        width,
        height,
        depth,
        rows: 0,
        difference: 0,
        importance: 0,
    };
    carry::put_carry(carry, begun);
    Ok(0)
}

// ---- the rows

// A row from a place of the room on.
fn lay_row<S: Sample>(room: &mut [S], at: usize, row: &[S])
    requires { at + length (S.values row.now) ≤ length (S.values room.old) }
    ensures { S.values room.new ≡ laid at (length (S.values row.now)) (λ (k : ℕ). get_or (S.values row.now) k 0) (S.values room.old) }
{
    sums::copy(&mut room[at..], row);
}

// A row of each frame to its place in the room.
fn hold_row<S: Sample>(c: Carry, y: usize, first: &[S], second: &[S], room: &mut [S])
    requires width_le_max_side { c.width ≤ max_side }
    requires c_in_bounds { room_long c ≤ length (S.values room.old) }
    requires first_len { (length (S.values first.now) ≡ c.width) × (length (S.values second.now) ≡ c.width) }
    ensures { S.values room.new ≡ rows_laid c y (λ (k : ℕ). get_or (S.values first.now) k 0) (λ (k : ℕ). get_or (S.values second.now) k 0) (S.values room.old) }
{
    let slot = y % BLOCK_SIDE;
    lay_row(room, slot * c.width, first);
    lay_row(room, (BLOCK_SIDE + slot) * c.width, second);
}

// A row of blocks whose eighth row has come: its costs go to the list, and what the importance total rises by comes back. Only rubbish in the
// room can be refused, and then nothing is written and nothing rises.
fn finish<S: Measured>(c: Carry, y: usize, room: &[S], costs: &mut [u32]) -> u64
    requires sound { Sound S.Depths.word c }
    requires c_in_bounds { room_long c ≤ length (S.Sample.values room.now) }
    requires y_lt_max_side { y < max_side }
    requires c_in_bounds_2 { y * blocks_along c + blocks_along c ≤ length costs.old }
    ensures value { result ≡ blocks_rise S.Depths.word c (S.Sample.values room.now) }
    ensures upper_bound { result < 2 ^ 42 }
    ensures costs_after { costs.new ≡ blocks_costs S.Depths.word c y (S.Sample.values room.now) costs.old }
{
    // No sample is above the largest, so the rise is small.
    S::bounded(room);
    let p = shape::held_plane(c, 0);
    let q = shape::held_plane(c, BLOCK_SIDE * c.width);
    let at = y * (c.width / BLOCK_SIDE);
    let _ = intra::plane_costs(c.depth, q, room, &mut costs[at..]);
    importance::importance_total(c.depth, p, room, q, room).unwrap_or(0)
}

// Row j of the strips: to the room, and where it is a row of blocks' eighth, the row of blocks is finished. What the importance total
// rises by comes back.
fn add_row<S: Measured>(
    c: Carry,
    p: Plane,
    a: &[S],
    q: Plane,
    b: &[S],
    j: usize,
    room: &mut [S],
    costs: &mut [u32],
) -> u64
    requires taken { Taken S.Depths.word c p (length (S.Sample.values a.now)) q (length (S.Sample.values b.now)) (length (S.Sample.values room.old)) (length costs.old) }
    requires j_lt_height { j < p.height }
    ensures by_index { (t : ℕ) → held (t + result) (S.Sample.values room.new) costs.new ≡ held_row S.Depths.word c (strip p (S.Sample.values a.now) q (S.Sample.values b.now)) j (held t (S.Sample.values room.old) costs.old) }
    ensures upper_bound { result < 2 ^ 42 }
{
    let y = c.rows + j;
    hold_row(c, y, p.row(a, j), q.row(b, j), room);
    if y % BLOCK_SIDE == BLOCK_SIDE - 1 {
        return finish(c, y / BLOCK_SIDE, room, costs);
    }
    0
}

// All rows of the strips, by number. What the importance total is then comes back.
fn add_rows<S: Measured>(
    c: Carry,
    p: Plane,
    a: &[S],
    q: Plane,
    b: &[S],
    room: &mut [S],
    costs: &mut [u32],
) -> u64
    requires { Taken S.Depths.word c p (length (S.Sample.values a.now)) q (length (S.Sample.values b.now)) (length (S.Sample.values room.old)) (length costs.old) }
    ensures { held result (S.Sample.values room.new) costs.new ≡ held_rows S.Depths.word c (strip p (S.Sample.values a.now) q (S.Sample.values b.now)) p.height (held c.importance (S.Sample.values room.old) costs.old) }
{
    let mut total = c.importance;
    for j in 0..p.height {
        total += add_row(c, p, a, q, b, j, room, costs);
    }
    total
}

// ---- a strip

// The difference of strips whose shapes are not refused, or 16, its only refusal, where a sample is too large. Without a row there is none.
fn strip_difference<S: Measured>(
    depth: u64,
    p: Plane,
    a: &[S],
    q: Plane,
    b: &[S],
) -> Result<u64, Refusal>
    requires b_value { 0 < p.height → shapes_fault S.Depths.word depth p (length (S.Sample.values a.now)) q (length (S.Sample.values b.now)) ≡ 0 }
    requires height_value { p.height ≡ q.height }
    ensures { answer_of result ≡ answered (refusal 16 (too_large depth p (S.Sample.values a.now) || too_large depth q (S.Sample.values b.now))) (plane_sad p (S.Sample.values a.now) q (S.Sample.values b.now)) }
{
    if p.height == 0 {
        return Ok(0);
    }
    sad::plane_difference(depth, p, a, q, b)
}

// Takes matching strips of both frames: the rows that have come. A refused call writes nothing.
pub fn add<S: Measured>(
    carry: &mut [u64],
    p: Plane,
    a: &[S],
    q: Plane,
    b: &[S],
    room: &mut [S],
    costs: &mut [u32],
) -> Result<u64, Refusal>
    ensures result_value { answer_of result ≡ add_of S.Depths.word (kept carry.old (S.Sample.values room.old) costs.old) (strip p (S.Sample.values a.now) q (S.Sample.values b.now)) }
    ensures costs_after { kept carry.new (S.Sample.values room.new) costs.new ≡ add_after S.Depths.word (kept carry.old (S.Sample.values room.old) costs.old) (strip p (S.Sample.values a.now) q (S.Sample.values b.now)) }
{
    let c = carry::fit_carry(carry)?;
    shape::shape_fault::<S>(c, p, a.len(), q, b.len(), room.len(), costs.len())?;
    let more = strip_difference(c.depth, p, a, q, b)?;
    // No sample is above the largest, so the difference is small.
    S::bounded(a);
    S::bounded(b);
    let importance = add_rows(c, p, a, q, b, room, costs);
    let next = carry::came(c, p, more, importance);
    carry::put_carry(carry, next);
    Ok(next.rows as u64)
}

// ---- the end

// The number of blocks, the difference and the importance total, once all rows have come. Without a block it is refused from the first row on.
pub fn end(carry: &[u64]) -> Result<Totals, Refusal>
    ensures { answer_of result ≡ end_of carry.now }
{
    let c = carry::fit_carry(carry)?;
    plane::depth_fault(c.depth)?;
    let blocks = carry::blocks(c);
    plane::block_fault(blocks)?;
    if c.rows < c.height {
        return Err(Refusal::RowsLeft);
    }
    Ok(Totals {
        blocks: blocks as u64,
        difference: c.difference,
        importance: c.importance,
    })
}
