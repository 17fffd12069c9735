// The scale rule of Fast mode: `detect_scale_factor` of analyze/fast.rs, and the sides that it reduces a frame to.
#![tactic(auto)]

ghost use Rattle.std.specs.Prelude.{◌≡◌};
ghost use Rattle.answer.specs.Answer.{answer_of, fault_in};
ghost use Rattle.scale.specs.Scale.{factor_by, scale_of, size_fault, factor_answer, sides_answer, reduced_sides};

use answer::Refusal;

// The modes (SceneDetectionSpeed) by their numbers: 0 is None. They stay numbers, since 6 answers every other one (`size_fault`), so an enum would
// ask more of callers.
pub const FAST: u64 = 1;

pub const STANDARD: u64 = 2;

// The sides of a frame as Fast mode compares it.
#[derive(Clone, Copy, Debug, PartialEq, Eq)]
pub struct Sides {
    pub width: usize,
    pub height: usize,
}

// The factor by the smaller side, 1 for none.
fn factor_by(small_edge: usize) -> usize
    ensures { result ≡ factor_by small_edge }
{
    match small_edge {
        0..=240 => 1,
        241..=480 => 2,
        481..=720 => 4,
        721..=1080 => 8,
        1081..=1600 => 16,
        _ => 32,
    }
}

// The factor of a size and a mode that are not refused: Fast mode alone scales. (One test of a number: the mode is one, as above.)
fn factor(width: usize, height: usize, mode: u64) -> usize
    ensures { result ≡ scale_of width height mode }
{
    if mode != FAST {
        return 1;
    }
    factor_by(width.min(height))
}

// Refusal 6 of a resolution and a mode.
#[tactic(auto, unfolding(crate::specs::Scale::size_fault))]
pub fn size_fault(width: usize, height: usize, mode: u64) -> Result<(), Refusal>
    ensures { fault_in result ≡ size_fault width height mode }
{
    if plane::bad_side(width) || plane::bad_side(height) || STANDARD < mode {
        return Err(Refusal::BadSize);
    }
    Ok(())
}

// The factor that Fast mode scales a frame by, 1 for none.
#[tactic(auto, using(answer::proofs::Laws::answers))]
pub fn detect_scale_factor(width: usize, height: usize, mode: u64) -> Result<u64, Refusal>
    ensures { answer_of result ≡ factor_answer width height mode }
{
    size_fault(width, height, mode)?;
    Ok(factor(width, height, mode) as u64)
}

// The sides divided by the factor, rounded down.
#[tactic(auto, using(answer::proofs::Laws::answers))]
pub fn reduced_sides(width: usize, height: usize, mode: u64) -> Result<Sides, Refusal>
    ensures { sides_answer result ≡ reduced_sides width height mode }
{
    size_fault(width, height, mode)?;
    let by = factor(width, height, mode);
    Ok(Sides {
        width: width / by,
        height: height / by,
    })
}
