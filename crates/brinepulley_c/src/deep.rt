// The measures of samples of 10 and 12 bits, as C calls them.

ghost use Rattle.std.specs.Prelude.{◌≡◌};
ghost use Rattle.importance.specs.Importance.{total_of, importance_of};
ghost use Rattle.intra.specs.Costs.{intra_of, work_of, costs_of};
ghost use Rattle.plane.specs.Planes.{deep};
ghost use Rattle.reduce.specs.Reduce.{reduce_fault, reduced_of};
ghost use Rattle.sad.specs.Difference.{difference_of, delta_of};
ghost use Rattle.satd.specs.Satd.{satd_of};
ghost use Rattle.brinepulley.specs.Coded.{coded, done, status, held_after, plane_by};

// A plane reduced by a factor, into a lent plane of the reduced sides: 0.
#[unsafe(no_mangle)]
pub extern "C" fn brine_reduce16(
    depth: u32,
    factor: usize,
    samples: &[u16],
    width: usize,
    height: usize,
    stride: usize,
    origin: usize,
    reduced: &mut [u16],
    width2: usize,
    height2: usize,
    stride2: usize,
    origin2: usize,
) -> i64
    ensures value { result ≡ coded (done (reduce_fault deep depth factor (plane_by width height stride origin) samples.now (plane_by width2 height2 stride2 origin2) reduced.old)) }
    ensures reduced_after { reduced.new ≡ reduced_of deep depth factor (plane_by width height stride origin) samples.now (plane_by width2 height2 stride2 origin2) reduced.old }
{
    brinepulley::frames::brine_reduce(
        depth, factor, samples, width, height, stride, origin, reduced, width2, height2, stride2,
        origin2,
    )
}

// The sum of absolute differences of two planes.
#[unsafe(no_mangle)]
pub extern "C" fn brine_plane_difference16(
    depth: u32,
    first: &[u16],
    width: usize,
    height: usize,
    stride: usize,
    origin: usize,
    second: &[u16],
    width2: usize,
    height2: usize,
    stride2: usize,
    origin2: usize,
) -> i64
    ensures { result ≡ coded (difference_of deep depth (plane_by width height stride origin) first.now (plane_by width2 height2 stride2 origin2) second.now) }
{
    brinepulley::brine_plane_difference(
        depth, first, width, height, stride, origin, second, width2, height2, stride2, origin2,
    )
}

// The importance total of two planes, before the division.
#[unsafe(no_mangle)]
pub extern "C" fn brine_importance_total16(
    depth: u32,
    first: &[u16],
    width: usize,
    height: usize,
    stride: usize,
    origin: usize,
    second: &[u16],
    width2: usize,
    height2: usize,
    stride2: usize,
    origin2: usize,
) -> i64
    ensures { result ≡ coded (total_of deep depth (plane_by width height stride origin) first.now (plane_by width2 height2 stride2 origin2) second.now) }
{
    brinepulley::brine_importance_total(
        depth, first, width, height, stride, origin, second, width2, height2, stride2, origin2,
    )
}

// The plane difference over width × height: 0, and the quotient in `delta`.
#[unsafe(no_mangle)]
pub extern "C" fn brine_delta16(
    depth: u32,
    first: &[u16],
    width: usize,
    height: usize,
    stride: usize,
    origin: usize,
    second: &[u16],
    width2: usize,
    height2: usize,
    stride2: usize,
    origin2: usize,
    delta: &mut f64,
) -> i64
    ensures value { result ≡ coded (status (delta_of deep depth (plane_by width height stride origin) first.now (plane_by width2 height2 stride2 origin2) second.now)) }
    ensures delta_after { delta.new ≡ held_after (delta_of deep depth (plane_by width height stride origin) first.now (plane_by width2 height2 stride2 origin2) second.now) delta.old }
{
    brinepulley::brine_delta(
        depth, first, width, height, stride, origin, second, width2, height2, stride2, origin2,
        delta,
    )
}

// The importance of two planes: 0, and the quotient in `importance`.
#[unsafe(no_mangle)]
pub extern "C" fn brine_importance16(
    depth: u32,
    first: &[u16],
    width: usize,
    height: usize,
    stride: usize,
    origin: usize,
    second: &[u16],
    width2: usize,
    height2: usize,
    stride2: usize,
    origin2: usize,
    importance: &mut f64,
) -> i64
    ensures value { result ≡ coded (status (importance_of deep depth (plane_by width height stride origin) first.now (plane_by width2 height2 stride2 origin2) second.now)) }
    ensures importance_after { importance.new ≡ held_after (importance_of deep depth (plane_by width height stride origin) first.now (plane_by width2 height2 stride2 origin2) second.now) importance.old }
{
    brinepulley::brine_importance(
        depth, first, width, height, stride, origin, second, width2, height2, stride2, origin2,
        importance,
    )
}

// The intra costs of a plane: the number of its whole blocks. The work plane and the cost list are written.
#[unsafe(no_mangle)]
pub extern "C" fn brine_intra_costs16(
    depth: u32,
    samples: &[u16],
    width: usize,
    height: usize,
    stride: usize,
    origin: usize,
    work: &mut [u16],
    width2: usize,
    height2: usize,
    stride2: usize,
    origin2: usize,
    costs: &mut [u32],
) -> i64
    ensures value { result ≡ coded (intra_of deep depth (plane_by width height stride origin) samples.now (plane_by width2 height2 stride2 origin2) work.old costs.old) }
    ensures work_after { work.new ≡ work_of deep depth (plane_by width height stride origin) samples.now (plane_by width2 height2 stride2 origin2) work.old costs.old }
    ensures costs_after { costs.new ≡ costs_of deep depth (plane_by width height stride origin) samples.now (plane_by width2 height2 stride2 origin2) work.old costs.old }
{
    brinepulley::brine_intra_costs(
        depth, samples, width, height, stride, origin, work, width2, height2, stride2, origin2,
        costs,
    )
}

// The SATD of two blocks of 64 samples.
#[unsafe(no_mangle)]
pub extern "C" fn brine_satd8x8_16(first: &[u16], second: &[u16]) -> i64
    ensures { result ≡ coded (satd_of first.now second.now) }
{
    brinepulley::brine_satd8x8(first, second)
}
