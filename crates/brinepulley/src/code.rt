// The i64 that a C function returns: a number at or above 0, or a refusal's number negated. (Functions and no `From`: a number must fit, which is a
// `requires`, and a float goes to a lent place.)
ghost use Rattle.std.specs.Prelude.{◌≡◌, pos, neg_ℤ};
ghost use Rattle.answer.specs.Answer.{answer_of, fault_in};
ghost use Rattle.answer.specs.Refusal.{number_of};
ghost use Rattle.detector.specs.Step.{step_answer};
ghost use Rattle.brinepulley.specs.Coded.{coded, done, status, held_after, decided, plane_by};
ghost use Rattle.brinepulley.specs.Needs.{Codable};

use answer::Refusal;
use detector::Decision;
use plane::Plane;

// A refusal's number, negated.
pub fn negated(refusal: Refusal) -> i64
    ensures { result ≡ neg_ℤ (pos (number_of refusal)) }
{
    0 - (refusal.number() as i64)
}

// 0, or the refusal negated.
#[tactic(auto, using(crate::proofs::Numbers::dones))]
pub fn done(outcome: Result<(), Refusal>) -> i64
    ensures { result ≡ coded (done (fault_in outcome)) }
{
    match outcome {
        Ok(()) => 0,
        Err(refusal) => negated(refusal),
    }
}

// A whole number as it is, or the refusal negated.
pub fn whole(answer: Result<u64, Refusal>) -> i64
    requires { Codable (answer_of answer) }
    ensures { result ≡ coded (answer_of answer) }
{
    match answer {
        Ok(n) => n as i64,
        Err(refusal) => negated(refusal),
    }
}

// A float to its lent place, and 0; or the refusal negated, and the place as it was.
pub fn put(answer: Result<f64, Refusal>, place: &mut f64) -> i64
    ensures value { result ≡ coded (status (answer_of answer)) }
    ensures place_after { place.new ≡ held_after (answer_of answer) place.old }
{
    match answer {
        Ok(x) => {
            *place = x;
            0
        }
        Err(refused) => negated(refused),
    }
}

// A decision by its number, or the refusal negated.
pub fn decision(answer: Result<Decision, Refusal>) -> i64
    ensures { result ≡ coded (decided (step_answer answer)) }
{
    match answer {
        Ok(d) => match d.score {
            None => if d.cut { 1 } else { 0 },
            Some(_) => if d.cut { 3 } else { 2 },
        },
        Err(refusal) => negated(refusal),
    }
}

// A plane by its four numbers, in the order of the parameters.
pub fn plane_by(width: usize, height: usize, stride: usize, origin: usize) -> Plane
    ensures { result ≡ plane_by width height stride origin }
{
    Plane {
        width,
        height,
        stride,
        origin,
    }
}
