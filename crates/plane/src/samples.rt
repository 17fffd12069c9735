// A look at samples, which a word of 16 bits needs: whether one reaches 2 to the depth. No byte does at its depth, and none is looked at.
ghost use Rattle.std.specs.Prelude.{◌||◌, ◌≡◌, ℕ, ◌^◌, leb, length, get_or};
ghost use Rattle.answer.specs.Answer.{fault_in};
ghost use Rattle.sums.specs.Any.{any_below};
ghost use Rattle.plane.specs.Planes.{too_large, rows_large, sample_fault, pair_fault};

use crate::{Depths, Plane, View};
use answer::Refusal;

// Whether a sample reaches 2 to the depth.
pub fn reaches<S: Depths>(x: S, depth: u64) -> bool
    ensures { result ≡ leb (2 ^ depth) (S.Sample.value x) }
{
    let v = x.widened();
    if depth < S::BITS {
        return (v >> depth) != 0;
    }
    false
}

// The bits that some sample of a row has. It reaches a power of two where a sample does: one instruction looks at eight.
fn bits_of<S: Depths>(row: &[S]) -> S
    ensures { (n : ℕ) → leb (2 ^ n) (S.Sample.value result) ≡ any_below (length (S.Sample.values row.now)) (λ (x : ℕ). leb (2 ^ n) (get_or (S.Sample.values row.now) x 0)) }
{
    let mut bits = S::narrowed(0);
    for x in row {
        bits = bits.or(*x);
    }
    bits
}

// Whether one of the rows from one up to another has a sample that reaches 2 to the depth. (By number: rows lie a stride apart.)
#[inline(never)]
fn looked_rows<S: Depths>(depth: u64, p: Plane, s: &[S], from: usize, to: usize) -> bool
    ensures { result ≡ rows_large depth p (S.Sample.values s.now) from to }
{
    let mut bits = S::narrowed(0);
    for y in from..to {
        bits = bits.or(bits_of(p.row(s, y)));
    }
    reaches(bits, depth)
}

// The same where a word may hold no such sample, and then none is looked at. It is made a part of its callers: so the compiler sees that bytes
// need no look, and what measures bytes has no stack for it.
#[inline(always)]
pub fn rows_large<S: Depths>(depth: u64, p: Plane, s: &[S], from: usize, to: usize) -> bool
    ensures { result ≡ rows_large depth p (S.Sample.values s.now) from to }
{
    if S::BITS <= depth {
        S::bounded(s);
        return false;
    }
    looked_rows(depth, p, s, from, to)
}

// Whether a plane that is not refused has a visible sample that reaches 2 to the depth.
fn too_large<S: Depths>(depth: u64, view: &View<S>) -> bool
    ensures { result ≡ too_large depth view.now.plane (S.Sample.values view.now.samples.now) }
{
    rows_large(depth, view.plane, view.samples, 0, view.plane.height)
}

// The refusal of a plane over its lent samples: of the depth, of its shape, and 16 for a sample that is too large.
#[tactic(auto, using(answer::proofs::Laws::refusals), unfolding(crate::specs::Planes::sample_fault))]
pub fn sample_fault<S: Depths>(depth: u64, p: Plane, s: &[S]) -> Result<(), Refusal>
    ensures { fault_in result ≡ sample_fault S.word depth p (S.Sample.values s.now) }
{
    crate::word_fault::<S>(depth)?;
    p.fault(s.len())?;
    let view = View {
        plane: p,
        samples: s,
    };
    if too_large(depth, &view) {
        return Err(Refusal::TooLarge);
    }
    Ok(())
}

// Whether one of two planes that are not refused has a visible sample that reaches 2 to the depth.
fn any_large<S: Depths>(depth: u64, first: &View<S>, second: &View<S>) -> bool
    ensures { result ≡ too_large depth first.now.plane (S.Sample.values first.now.samples.now) || too_large depth second.now.plane (S.Sample.values second.now.samples.now) }
{
    too_large(depth, first) || too_large(depth, second)
}

// The refusal of the difference and of delta, of two planes over their lent samples: by their shapes, and 16 for a sample that is too large.
#[tactic(auto, using(answer::proofs::Laws::refusals), unfolding(crate::specs::Planes::pair_fault))]
pub fn pair_fault<S: Depths>(
    depth: u64,
    p: Plane,
    a: &[S],
    q: Plane,
    b: &[S],
) -> Result<(), Refusal>
    ensures { fault_in result ≡ pair_fault S.word depth p (S.Sample.values a.now) q (S.Sample.values b.now) }
{
    crate::shapes_fault::<S>(depth, p, a.len(), q, b.len())?;
    let first = View {
        plane: p,
        samples: a,
    };
    let second = View {
        plane: q,
        samples: b,
    };
    if any_large(depth, &first, &second) {
        return Err(Refusal::TooLarge);
    }
    Ok(())
}
