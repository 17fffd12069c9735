// Frames that a sensor delivers strip by strip, for C.
ghost use Rattle.std.specs.Prelude.{◌≡◌};
ghost use Rattle.strips.specs.Strips.{kept, strip, start_of, start_after, add_of, add_after, end_of};
ghost use Rattle.brinepulley.specs.Coded.{coded, plane_by, blocks_given, difference_after, importance_after};

use crate::code;
use strips::Measured;

// Begins a pair of frames: 0, and the carry.
pub fn brine_strips_start(depth: u32, width: usize, height: usize, carry: &mut [u64]) -> i64
    ensures value { result ≡ coded (start_of depth width height carry.old) }
    ensures carry_after { carry.new ≡ start_after depth width height carry.old }
{
    code::whole(strips::start(depth as u64, width, height, carry))
}

// Takes matching strips of both frames: the rows that have come.
pub fn brine_strips_add<S: Measured>(
    carry: &mut [u64],
    first: &[S],
    width: usize,
    height: usize,
    stride: usize,
    origin: usize,
    second: &[S],
    width2: usize,
    height2: usize,
    stride2: usize,
    origin2: usize,
    room: &mut [S],
    costs: &mut [u32],
) -> i64
    ensures value { result ≡ coded (add_of S.Depths.word (kept carry.old (S.Sample.values room.old) costs.old) (strip (plane_by width height stride origin) (S.Sample.values first.now) (plane_by width2 height2 stride2 origin2) (S.Sample.values second.now))) }
    ensures costs_after { kept carry.new (S.Sample.values room.new) costs.new ≡ add_after S.Depths.word (kept carry.old (S.Sample.values room.old) costs.old) (strip (plane_by width height stride origin) (S.Sample.values first.now) (plane_by width2 height2 stride2 origin2) (S.Sample.values second.now)) }
{
    let p = code::plane_by(width, height, stride, origin);
    let q = code::plane_by(width2, height2, stride2, origin2);
    code::whole(strips::add(carry, p, first, q, second, room, costs))
}

// Ends a pair of frames: the number of whole blocks, and the two totals in their places.
pub fn brine_strips_end(carry: &[u64], difference: &mut u64, importance_total: &mut u64) -> i64
    ensures value { result ≡ coded (blocks_given (end_of carry.now)) }
    ensures difference_after { difference.new ≡ difference_after (end_of carry.now) difference.old }
    ensures importance_total_after { importance_total.new ≡ importance_after (end_of carry.now) importance_total.old }
{
    match strips::end(carry) {
        Ok(t) => {
            *difference = t.difference;
            *importance_total = t.importance;
            t.blocks as i64
        }
        Err(refusal) => code::negated(refusal),
    }
}
