// The shapes of strips: when they are refused, and the planes that the room holds.
ghost use Rattle.std.specs.Prelude.{false, ◌≡◌, ◌≤◌};
ghost use Rattle.answer.specs.Answer.{fault_in};
ghost use Rattle.plane.specs.Planes.{max_side, word_fault};
ghost use Rattle.strips.specs.Carry.{carry_unfit};
ghost use Rattle.strips.specs.Rows.{held_plane};
ghost use Rattle.strips.specs.Strips.{too_many_rows, strip_fault, match_fault, shape_fault};

use crate::carry::Carry;
use answer::Refusal;
use plane::{BLOCK_SIDE, Depths, Plane};

// A strip has at most this many rows.
const MOST_ROWS: usize = 64;

// Whether a strip has more rows than a call takes, or than are left. The rows that are left are counted, so that no sum overflows.
fn too_many_rows(c: Carry, p: Plane) -> bool
    requires { c.rows ≤ c.height }
    ensures { result ≡ too_many_rows c p }
{
    let height = p.height;
    let left = c.height - c.rows;
    (MOST_ROWS < height) | (left < height)
}

// Refusal 1 or 2 of a strip over n samples. One without a row shows no sample, so none has to lie within.
#[tactic(auto, using(answer::proofs::Laws::refusals), unfolding(crate::specs::Strips::strip_fault))]
fn strip_fault(p: Plane, n: usize) -> Result<(), Refusal>
    ensures { fault_in result ≡ strip_fault p n }
{
    if p.height != 0 {
        return p.fault(n);
    }
    if plane::bad_side(p.width) | (p.stride < p.width) {
        return Err(Refusal::BadPlane);
    }
    Ok(())
}

// Refusal 3, 19 or 4. (The two planes' sides are held against each other and the carry's: planes that are equal have one stride too.) 19 is by
// the whole size, so a strip without a row gets it too.
#[tactic(auto, using(answer::proofs::Laws::refusals), unfolding(crate::specs::Strips::match_fault))]
fn match_fault(c: Carry, p: Plane, q: Plane, room: usize, costs: usize) -> Result<(), Refusal>
    requires { (c.width ≤ max_side) × (c.height ≤ max_side) }
    ensures { fault_in result ≡ match_fault c p q room costs }
{
    let width = p.width;
    let own = c.width;
    if (width != q.width) | (p.height != q.height) | (width != own) {
        return Err(Refusal::SizesDiffer);
    }
    let blocks = crate::carry::blocks(c);
    plane::block_fault(blocks)?;
    if (costs < blocks) | (room < 2 * BLOCK_SIDE * own) {
        return Err(Refusal::NoRoom);
    }
    Ok(())
}

// The refusal of strips by their shapes, 5 where the carry's depth does not suit the samples' word among them.
#[tactic(auto, using(answer::proofs::Laws::refusals), unfolding(crate::specs::Strips::shape_fault))]
pub fn shape_fault<S: Depths>(
    c: Carry,
    p: Plane,
    n: usize,
    q: Plane,
    m: usize,
    room: usize,
    costs: usize,
) -> Result<(), Refusal>
    requires { carry_unfit c ≡ false }
    ensures { fault_in result ≡ shape_fault (word_fault S.word c.depth) c p n q m room costs }
{
    if too_many_rows(c, p) | too_many_rows(c, q) {
        return Err(Refusal::TooManyRows);
    }
    plane::word_fault::<S>(c.depth)?;
    strip_fault(p, n)?;
    strip_fault(q, m)?;
    match_fault(c, p, q, room, costs)
}

// The eight rows of a frame that the room holds from a place on, as a plane.
pub fn held_plane(c: Carry, at: usize) -> Plane
    ensures { result ≡ held_plane c at }
{
    Plane {
        width: c.width,
        height: BLOCK_SIDE,
        stride: c.width,
        origin: at,
    }
}
