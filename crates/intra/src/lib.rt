// Intra costs: `estimate_intra_costs` of analyze/intra.rs, with the flat prediction of intra/rust.rs. Each function is over both words that
// samples stand in.
#![tactic(auto)]

ghost use Rattle.std.specs.Prelude.{true, ◌≡◌, ◌*◌, ◌≤◌, ◌<◌, length};
ghost use Rattle.answer.specs.Answer.{answer_of, fault_in};
ghost use Rattle.plane.specs.Blocks.{block_side, blocks_across, blocks_down, block_count, blocks_start};
ghost use Rattle.plane.specs.Planes.{suits, plane_fault};
ghost use Rattle.sums.specs.Places.{in_run};
ghost use Rattle.sums.specs.Written.{written};
ghost use Rattle.intra.specs.Fill.{flat_sample, filled, work_after};
ghost use Rattle.intra.specs.Costs.{cost_at, costs_after, intra_fault, intra_of, work_of, costs_of, costs_fault, plane_count_of, plane_costs_of};
ghost use Rattle.intra.specs.Needs.{SquareIn, square_of, square_cost};

use answer::Refusal;
use plane::{BLOCK_SIDE, Depths, Plane};
use satd::SAMPLES;
use sums::Sample;

pub mod standard;

// The flat prediction: 128 of 8 bits, and four times that of each two bits more.
fn flat_sample<S: Depths>(depth: u64) -> S
    requires { suits S.word depth ≡ true }
    ensures { S.Sample.value result ≡ flat_sample depth }
{
    S::narrowed(128 << (depth - 8))
}

// The eight rows of a block that starts at a place of the work plane, each from the block's own column onward: eight samples of a flat row,
// `pred_dc_128`. (By number, as below: a block's rows lie a stride apart, and no method cuts a list into them.)
fn fill_block<S: Sample>(work: &mut [S], start: usize, stride: usize, flat: S)
    requires { SquareIn start stride (length work.old) }
    ensures { S.values work.new ≡ filled (S.value flat) start stride block_side block_side (S.values work.old) }
{
    let row = [flat; BLOCK_SIDE];
    for y in 0..BLOCK_SIDE {
        let i = start + y * stride;
        sums::copy(&mut work[i..i + BLOCK_SIDE], &row);
    }
}

// Row y of blocks of the work plane, by number, as the rows of a block are.
fn fill_row<S: Sample>(w: Plane, work: &mut [S], y: usize, flat: S)
    requires work_value { plane_fault w (length work.old) ≡ 0 }
    requires y_bound { y < blocks_down w }
    ensures { S.values work.new ≡ filled (S.value flat) (blocks_start w y) w.stride block_side (blocks_across w * block_side) (S.values work.old) }
{
    let start = w.block_row(work.len(), y);
    for x in 0..w.width / BLOCK_SIDE {
        fill_block(work, start + x * BLOCK_SIDE, w.stride, flat);
    }
}

// All whole blocks of a work plane that is not refused.
fn fill_blocks<S: Sample>(w: Plane, work: &mut [S], flat: S)
    requires { plane_fault w (length work.old) ≡ 0 }
    ensures { S.values work.new ≡ work_after (S.value flat) w (S.values work.old) }
{
    for y in 0..w.height / BLOCK_SIDE {
        fill_row(w, work, y, flat);
    }
}

// The samples of the block that starts at a place, row by row.
fn load_block<S: Sample>(block: &mut [S; SAMPLES], s: &[S], start: usize, stride: usize)
    requires { SquareIn start stride (length s.now) }
    ensures { S.values block.new ≡ square_of (S.values s.now) start stride }
{
    let rows = &mut block[..];
    for j in 0..BLOCK_SIDE {
        let at = j * BLOCK_SIDE;
        let i = start + j * stride;
        sums::copy(&mut rows[at..at + BLOCK_SIDE], &s[i..i + BLOCK_SIDE]);
    }
}

// The SATD of the block that starts at a place against the flat prediction. The samples are lent on as a part: so the compiler knows
// that the block lies elsewhere, and loads a row at once (docs/SPEED.md). It is no part of its caller, whose stack is the less for it.
#[inline(never)]
fn block_cost<S: Sample>(s: &[S], start: usize, stride: usize, flat: S) -> u32
    requires { SquareIn start stride (length s.now) }
    ensures { result ≡ square_cost (S.value flat) (S.values s.now) start stride }
{
    let mut block = [flat; SAMPLES];
    load_block(&mut block, &s[..], start, stride);
    satd::whole_satd(&block, &[flat; SAMPLES])
}

// Row y of blocks: each block's cost goes to its place in the list. (By index: the block's number is its place in both.)
fn blocks_row<S: Sample>(p: Plane, s: &[S], costs: &mut [u32], y: usize, flat: S)
    requires s_value { plane_fault p (length s.now) ≡ 0 }
    requires p_in_bounds { block_count p ≤ length costs.old }
    requires y_bound { y < blocks_down p }
    ensures { costs.new ≡ written (in_run (y * blocks_across p) (blocks_across p)) (cost_at (S.value flat) p (S.values s.now)) costs.old }
{
    let stride = p.stride;
    let across = p.width / BLOCK_SIDE;
    let start = p.block_row(s.len(), y);
    let first = y * across;
    for x in 0..across {
        costs[first + x] = block_cost(s, start + x * BLOCK_SIDE, stride, flat);
    }
}

// All whole blocks of a plane that is not refused: how many there are. (The plane and its samples, and no View: with one, and strips' `finish` kept
// apart, adding strips took 1,096 bytes of stack, where 1,024 are its bar.) It is made a part of its callers, for the same stack.
#[inline(always)]
fn all_blocks<S: Sample>(p: Plane, s: &[S], costs: &mut [u32], flat: S) -> u64
    requires s_value { plane_fault p (length s.now) ≡ 0 }
    requires p_in_bounds { block_count p ≤ length costs.old }
    ensures count { result ≡ block_count p }
    ensures costs_after { costs.new ≡ costs_after (S.value flat) p (S.values s.now) costs.old }
{
    let down = p.height / BLOCK_SIDE;
    for y in 0..down {
        blocks_row(p, s, costs, y, flat);
    }
    (down * (p.width / BLOCK_SIDE)) as u64
}

// The refusal of intra costs: of the depth and the two planes' shapes, 19 where they have no whole block, 4 for a list with no room for the
// costs, and 16 for a sample that is too large. The work plane's samples are not looked at.
#[tactic(auto, using(answer::proofs::Laws::refusals))]
fn intra_fault<S: Depths>(
    depth: u64,
    p: Plane,
    s: &[S],
    w: Plane,
    work: &[S],
    room: usize,
) -> Result<(), Refusal>
    ensures { fault_in result ≡ intra_fault S.word depth p (S.Sample.values s.now) w (S.Sample.values work.now) room }
{
    plane::blocks_fault::<S>(depth, p, s.len(), w, work.len())?;
    if room < (p.height / BLOCK_SIDE) * (p.width / BLOCK_SIDE) {
        return Err(Refusal::NoRoom);
    }
    plane::sample_fault(depth, p, s)
}

// The same without a work plane. A plane is refused as its own work plane just where it is refused alone.
fn costs_fault<S: Depths>(depth: u64, p: Plane, s: &[S], room: usize) -> Result<(), Refusal>
    ensures { fault_in result ≡ costs_fault S.word depth p (S.Sample.values s.now) room }
{
    intra_fault(depth, p, s, p, s, room)
}

// The intra costs of a plane: the number of its whole blocks. Each block of the lent work plane is filled with the
// prediction, and each block's cost goes to the lent list, in row order. A refused call writes nothing.
#[tactic(auto, using(answer::proofs::Laws::answers, answer::proofs::Laws::lents))]
pub fn estimate_intra_costs<S: Depths>(
    depth: u64,
    p: Plane,
    s: &[S],
    w: Plane,
    work: &mut [S],
    costs: &mut [u32],
) -> Result<u64, Refusal>
    ensures result_value { answer_of result ≡ intra_of S.word depth p (S.Sample.values s.now) w (S.Sample.values work.old) costs.old }
    ensures work_after { S.Sample.values work.new ≡ work_of S.word depth p (S.Sample.values s.now) w (S.Sample.values work.old) costs.old }
    ensures costs_after { costs.new ≡ costs_of S.word depth p (S.Sample.values s.now) w (S.Sample.values work.old) costs.old }
{
    intra_fault(depth, p, s, w, work, costs.len())?;
    let flat = flat_sample(depth);
    fill_blocks(w, work, flat);
    Ok(all_blocks(p, s, costs, flat))
}

// The same without a work plane: the costs alone.
#[tactic(auto, using(answer::proofs::Laws::answers, answer::proofs::Laws::lents))]
pub fn plane_costs<S: Depths>(
    depth: u64,
    p: Plane,
    s: &[S],
    costs: &mut [u32],
) -> Result<u64, Refusal>
    ensures result_value { answer_of result ≡ plane_count_of S.word depth p (S.Sample.values s.now) costs.old }
    ensures costs_after { costs.new ≡ plane_costs_of S.word depth p (S.Sample.values s.now) costs.old }
{
    costs_fault(depth, p, s, costs.len())?;
    Ok(all_blocks(p, s, costs, flat_sample(depth)))
}
