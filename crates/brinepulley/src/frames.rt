// What Fast mode does to a frame before frames are compared, for C.
ghost use Rattle.std.specs.Prelude.{◌≡◌};
ghost use Rattle.reduce.specs.Reduce.{reduce_fault, reduced_of};
ghost use Rattle.brinepulley.specs.Coded.{coded, done, plane_by};

use crate::code;
use reduce::ReduceRow;

// A plane reduced by a factor, into a lent plane of the reduced sides: 0.
pub fn brine_reduce<S: ReduceRow>(
    depth: u32,
    factor: usize,
    samples: &[S],
    width: usize,
    height: usize,
    stride: usize,
    origin: usize,
    reduced: &mut [S],
    width2: usize,
    height2: usize,
    stride2: usize,
    origin2: usize,
) -> i64
    ensures value { result ≡ coded (done (reduce_fault S.Depths.word depth factor (plane_by width height stride origin) (S.Sample.values samples.now) (plane_by width2 height2 stride2 origin2) (S.Sample.values reduced.old))) }
    ensures reduced_after { S.Sample.values reduced.new ≡ reduced_of S.Depths.word depth factor (plane_by width height stride origin) (S.Sample.values samples.now) (plane_by width2 height2 stride2 origin2) (S.Sample.values reduced.old) }
{
    let p = code::plane_by(width, height, stride, origin);
    let q = code::plane_by(width2, height2, stride2, origin2);
    code::done(reduce::reduce(depth as u64, factor, p, samples, q, reduced))
}
