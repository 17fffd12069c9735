// A plane reduced by a factor: each square of factor × factor samples becomes its mean. v_frame's `downscale` is known to be
// such a mean too; its text is missing.
#![tactic(auto)]

ghost use Rattle.std.specs.Prelude.{false, ◌≡◌, length};
ghost use Rattle.answer.specs.Answer.{fault_in};
ghost use Rattle.plane.specs.Planes.{plane_fault};
ghost use Rattle.reduce.specs.Reduce.{bad_factor, too_small, not_reduced, sides_fault, reduce_fault, reduced_after, reduced_of};

use answer::Refusal;
use plane::{Depths, Plane, View};

mod byte;
mod row;
mod squares;
mod word;

pub use row::ReduceRow;

// All rows of squares of a plane and a lent one that are not refused. (By number: rows lie a stride apart from an origin on. The lent plane has
// no type as the other has: its clause stands here alone.)
fn reduce_plane<S: ReduceRow>(factor: usize, view: &View<S>, q: Plane, reduced: &mut [S])
    requires factor_value { bad_factor factor ≡ false }
    requires reduced_value { plane_fault q (length reduced.old) ≡ 0 }
    requires q_value { not_reduced factor view.now.plane q ≡ false }
    ensures { S.Sample.values reduced.new ≡ reduced_after factor view.now.plane (S.Sample.values view.now.samples.now) q (S.Sample.values reduced.old) }
{
    let s = view.samples;
    let stride = view.plane.stride;
    let origin = view.plane.origin;
    let stride2 = q.stride;
    let origin2 = q.origin;
    let width = q.width;
    for y in 0..q.height {
        let at = origin2 + y * stride2;
        row::reduce_row(
            &mut reduced[at..at + width],
            s,
            origin + y * factor * stride,
            stride,
            factor,
        );
    }
}

// Whether a factor is none of the six. (A number and no enum: 6 answers every other factor of a caller, and what comes behind divides by it.)
#[tactic(auto, unfolding(crate::specs::Reduce::bad_factor))]
fn bad_factor(factor: usize) -> bool
    ensures { result ≡ bad_factor factor }
{
    !matches!(factor, 1 | 2 | 4 | 8 | 16 | 32)
}

// Whether a side of the plane is below the factor.
#[tactic(auto, unfolding(crate::specs::Reduce::too_small))]
fn too_small(factor: usize, p: Plane) -> bool
    ensures { result ≡ too_small factor p }
{
    p.width < factor || p.height < factor
}

// Whether the lent sides are not the reduced ones.
#[tactic(auto, using(crate::proofs::ReduceLaws::factor_small), unfolding(crate::specs::Reduce::not_reduced))]
fn not_reduced(factor: usize, p: Plane, q: Plane) -> bool
    requires { bad_factor factor ≡ false }
    ensures { result ≡ not_reduced factor p q }
{
    q.width != p.width / factor || q.height != p.height / factor
}

// The refusal of a reduction by its sides: 6 of the factor, 5 of the depth, then those of the plane, of the lent one, and 3 where the lent
// sides are not the reduced ones. No sample is looked at.
#[tactic(auto, using(answer::proofs::Laws::refusals), unfolding(crate::specs::Reduce::sides_fault))]
fn sides_fault<S: Depths>(
    depth: u64,
    factor: usize,
    p: Plane,
    n: usize,
    q: Plane,
    m: usize,
) -> Result<(), Refusal>
    ensures { fault_in result ≡ sides_fault S.word depth factor p n q m }
{
    if bad_factor(factor) {
        return Err(Refusal::BadSize);
    }
    plane::word_fault::<S>(depth)?;
    if too_small(factor, p) {
        return Err(Refusal::BadPlane);
    }
    p.fault(n)?;
    q.fault(m)?;
    if not_reduced(factor, p, q) {
        return Err(Refusal::SizesDiffer);
    }
    Ok(())
}

// The refusal of a reduction: of the sides first, and then of the samples of the plane that is reduced.
#[tactic(auto, using(answer::proofs::Laws::refusals), unfolding(crate::specs::Reduce::reduce_fault))]
fn reduce_fault<S: Depths>(
    depth: u64,
    factor: usize,
    p: Plane,
    s: &[S],
    q: Plane,
    reduced: &[S],
) -> Result<(), Refusal>
    ensures { fault_in result ≡ reduce_fault S.word depth factor p (S.Sample.values s.now) q (S.Sample.values reduced.now) }
{
    sides_fault::<S>(depth, factor, p, s.len(), q, reduced.len())?;
    plane::sample_fault(depth, p, s)
}

// A plane reduced by a factor into a lent plane of the reduced sides, or the refusal. Each visible sample of the lent plane becomes the
// mean of its square, rounded to the nearest, a half up. A refused call writes nothing.
pub fn reduce<S: ReduceRow>(
    depth: u64,
    factor: usize,
    p: Plane,
    s: &[S],
    q: Plane,
    reduced: &mut [S],
) -> Result<(), Refusal>
    ensures value { fault_in result ≡ reduce_fault S.Depths.word depth factor p (S.Sample.values s.now) q (S.Sample.values reduced.old) }
    ensures reduced_after { S.Sample.values reduced.new ≡ reduced_of S.Depths.word depth factor p (S.Sample.values s.now) q (S.Sample.values reduced.old) }
{
    reduce_fault(depth, factor, p, s, q, reduced)?;
    let view = View {
        plane: p,
        samples: s,
    };
    reduce_plane(factor, &view, q, reduced);
    Ok(())
}
