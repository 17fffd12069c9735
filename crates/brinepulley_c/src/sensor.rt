// Frames that come a few rows at a time, as C calls them.

ghost use Rattle.std.specs.Prelude.{◌≡◌};
ghost use Rattle.plane.specs.Planes.{byte, deep};
ghost use Rattle.strips.specs.Strips.{kept, strip, start_of, start_after, add_of, add_after, end_of};
ghost use Rattle.brinepulley.specs.Coded.{coded, plane_by, blocks_given, difference_after, importance_after};

// Begins a pair of frames: 0, and the carry.
#[unsafe(no_mangle)]
pub extern "C" fn brine_strips_start(
    depth: u32,
    width: usize,
    height: usize,
    carry: &mut [u64],
) -> i64
    ensures value { result ≡ coded (start_of depth width height carry.old) }
    ensures carry_after { carry.new ≡ start_after depth width height carry.old }
{
    brinepulley::sensor::brine_strips_start(depth, width, height, carry)
}

// Takes matching strips of both frames: the rows that have come.
#[unsafe(no_mangle)]
pub extern "C" fn brine_strips_add(
    carry: &mut [u64],
    first: &[u8],
    width: usize,
    height: usize,
    stride: usize,
    origin: usize,
    second: &[u8],
    width2: usize,
    height2: usize,
    stride2: usize,
    origin2: usize,
    room: &mut [u8],
    costs: &mut [u32],
) -> i64
    ensures value { result ≡ coded (add_of byte (kept carry.old room.old costs.old) (strip (plane_by width height stride origin) first.now (plane_by width2 height2 stride2 origin2) second.now)) }
    ensures costs_after { kept carry.new room.new costs.new ≡ add_after byte (kept carry.old room.old costs.old) (strip (plane_by width height stride origin) first.now (plane_by width2 height2 stride2 origin2) second.now) }
{
    brinepulley::sensor::brine_strips_add(
        carry, first, width, height, stride, origin, second, width2, height2, stride2, origin2,
        room, costs,
    )
}

// The same of samples in words of 16 bits.
#[unsafe(no_mangle)]
pub extern "C" fn brine_strips_add16(
    carry: &mut [u64],
    first: &[u16],
    width: usize,
    height: usize,
    stride: usize,
    origin: usize,
    second: &[u16],
    width2: usize,
    height2: usize,
    stride2: usize,
    origin2: usize,
    room: &mut [u16],
    costs: &mut [u32],
) -> i64
    ensures value { result ≡ coded (add_of deep (kept carry.old room.old costs.old) (strip (plane_by width height stride origin) first.now (plane_by width2 height2 stride2 origin2) second.now)) }
    ensures costs_after { kept carry.new room.new costs.new ≡ add_after deep (kept carry.old room.old costs.old) (strip (plane_by width height stride origin) first.now (plane_by width2 height2 stride2 origin2) second.now) }
{
    brinepulley::sensor::brine_strips_add(
        carry, first, width, height, stride, origin, second, width2, height2, stride2, origin2,
        room, costs,
    )
}

// Ends a pair of frames: the number of whole blocks, and the two totals in their places.
#[unsafe(no_mangle)]
pub extern "C" fn brine_strips_end(
    carry: &[u64],
    difference: &mut u64,
    importance_total: &mut u64,
) -> i64
    ensures value { result ≡ coded (blocks_given (end_of carry.now)) }
    ensures difference_after { difference.new ≡ difference_after (end_of carry.now) difference.old }
    ensures importance_total_after { importance_total.new ≡ importance_after (end_of carry.now) importance_total.old }
{
    brinepulley::sensor::brine_strips_end(carry, difference, importance_total)
}
