// The sum of absolute transformed differences of two blocks of eight rows of eight samples.
#![tactic(auto)]

ghost use Rattle.std.specs.Prelude.{◌≡◌, ◌*◌, ◌<◌, ◌^◌, nat_abs, pos, ◌-ℤ◌, IfOk};
ghost use Rattle.answer.specs.Answer.{answer_of, fault_in};
ghost use Rattle.hadamard.specs.Transform.{entry_most};
ghost use Rattle.hadamard.specs.Steps.{AllWithin};
ghost use Rattle.plane.specs.Blocks.{block_side};
ghost use Rattle.satd.specs.Satd.{differences, abs_sum, satd_value, block_fault, satd_of};

use answer::Refusal;
use sums::Sample;

// How many samples a block has.
pub const SAMPLES: usize = 64;

// The first sample less the second.
fn gap<S: Sample>(x: S, y: S) -> i32
    ensures { result ≡ pos (S.value x) -ℤ pos (S.value y) }
{
    x.widened() as i32 - y.widened() as i32
}

// The first block's samples less the second's. (By one index: what is written through `iter_mut().zip(..)` a proof does not know.)
fn subtract<S: Sample>(first: &[S; SAMPLES], second: &[S; SAMPLES], block: &mut [i32; SAMPLES])
    ensures { block.new ≡ differences (S.values first.now) (S.values second.now) }
{
    for (i, d) in block.iter_mut().enumerate() {
        *d = gap(first[i], second[i]);
    }
}

// The sum of the absolute values.
fn total(block: &[i32; SAMPLES]) -> u32
    requires { AllWithin (block_side * (block_side * entry_most)) block.now }
    ensures { result ≡ abs_sum block.now }
{
    let mut sum = 0;
    for v in block {
        sum += v.unsigned_abs();
    }
    sum
}

// The SATD of two whole blocks: the differences are transformed, their absolute values added, and the sum over 8 is taken to the
// nearest. Differences of samples are never out of the transform's range.
pub fn whole_satd<S: Sample>(first: &[S; SAMPLES], second: &[S; SAMPLES]) -> u32
    ensures { result ≡ satd_value (S.values first.now) (S.values second.now) }
{
    S::bounded(first);
    S::bounded(second);
    let mut block = [0i32; SAMPLES];
    subtract(first, second, &mut block);
    hadamard::hadamard8x8(&mut block).unwrap();
    let sum = total(&block);
    (sum + 4) / 8
}

// A list as a whole block: refused where it has not its 64 samples.
fn whole<S: Sample>(s: &[S]) -> Result<&[S; SAMPLES], Refusal>
    ensures fault { fault_in result ≡ block_fault (S.values s.now) }
    ensures samples { IfOk result (λ r. r.now ≡ s.now) }
{
    s.try_into().map_err(|_| Refusal::PastSamples)
}

// The SATD of two lists as blocks.
#[tactic(auto, using(answer::proofs::Laws::answers, answer::proofs::Laws::refusals))]
pub fn satd8x8<S: Sample>(first: &[S], second: &[S]) -> Result<u64, Refusal>
    ensures { answer_of result ≡ satd_of (S.values first.now) (S.values second.now) }
{
    let first = whole(first)?;
    let second = whole(second)?;
    Ok(u64::from(whole_satd(first, second)))
}
