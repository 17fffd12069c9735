// The plane difference: `sad_plane` of data/sad/rust.rs, and delta, as `delta_in_planes` of analyze/fast.rs has it.
#![tactic(auto)]

ghost use Rattle.std.specs.Prelude.{true, ◌||◌, ◌≡◌};
ghost use Rattle.answer.specs.Answer.{answered, answer_of};
ghost use Rattle.answer.specs.Refusal.{refusal};
ghost use Rattle.plane.specs.Planes.{suits, too_large};
ghost use Rattle.sad.specs.Difference.{plane_sad, difference_of, delta_of};

use answer::Refusal;
use plane::{Pair, Plane};

mod byte;
mod row;
mod word;

pub use row::{Row, RowSad};

// The sum over the visible samples of two planes, or 16 where a sample is too large. (Row by row by number: rows lie a stride apart.)
fn sad_plane<S: RowSad>(depth: u64, pair: &Pair<S>) -> Result<u64, Refusal>
    requires { suits S.Depths.word depth ≡ true }
    ensures { answer_of result ≡ answered (refusal 16 (too_large depth pair.now.p (S.Sample.values pair.now.a.now) || too_large depth pair.now.q (S.Sample.values pair.now.b.now))) (plane_sad pair.now.p (S.Sample.values pair.now.a.now) pair.now.q (S.Sample.values pair.now.b.now)) }
{
    let mut total: u64 = 0;
    let mut bits: u16 = 0;
    for y in 0..pair.p.height {
        let row = S::row_sad(pair.p.row(pair.a, y), pair.q.row(pair.b, y));
        total += row.sum as u64;
        bits |= row.bits;
    }
    if plane::reaches(bits, depth) {
        return Err(Refusal::TooLarge);
    }
    Ok(total)
}

// The sum of absolute differences of two planes over their visible samples.
pub fn plane_difference<S: RowSad>(
    depth: u64,
    p: Plane,
    a: &[S],
    q: Plane,
    b: &[S],
) -> Result<u64, Refusal>
    ensures { answer_of result ≡ difference_of S.Depths.word depth p (S.Sample.values a.now) q (S.Sample.values b.now) }
{
    plane::shapes_fault::<S>(depth, p, a.len(), q, b.len())?;
    sad_plane(depth, &Pair { p, a, q, b })
}

// The plane difference over width × height, in a float.
pub fn delta_in_planes<S: RowSad>(
    depth: u64,
    p: Plane,
    a: &[S],
    q: Plane,
    b: &[S],
) -> Result<f64, Refusal>
    ensures { answer_of result ≡ delta_of S.Depths.word depth p (S.Sample.values a.now) q (S.Sample.values b.now) }
{
    let total = plane_difference(depth, p, a, q, b)?;
    Ok(sums::quotient(total, (p.width * p.height) as u64))
}
