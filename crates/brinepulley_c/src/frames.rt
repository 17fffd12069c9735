// What Fast mode does to a frame before frames are compared, as C calls it.

ghost use Rattle.std.specs.Prelude.{◌≡◌};
ghost use Rattle.plane.specs.Planes.{byte};
ghost use Rattle.reduce.specs.Reduce.{reduce_fault, reduced_of};
ghost use Rattle.brinepulley.specs.Coded.{coded, done, plane_by};

// A plane reduced by a factor, into a lent plane of the reduced sides: 0.
#[unsafe(no_mangle)]
pub extern "C" fn brine_reduce(
    depth: u32,
    factor: usize,
    samples: &[u8],
    width: usize,
    height: usize,
    stride: usize,
    origin: usize,
    reduced: &mut [u8],
    width2: usize,
    height2: usize,
    stride2: usize,
    origin2: usize,
) -> i64
    ensures value { result ≡ coded (done (reduce_fault byte depth factor (plane_by width height stride origin) samples.now (plane_by width2 height2 stride2 origin2) reduced.old)) }
    ensures reduced_after { reduced.new ≡ reduced_of byte depth factor (plane_by width height stride origin) samples.now (plane_by width2 height2 stride2 origin2) reduced.old }
{
    brinepulley::frames::brine_reduce(
        depth, factor, samples, width, height, stride, origin, reduced, width2, height2, stride2,
        origin2,
    )
}
