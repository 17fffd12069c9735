// `run_comparison` of analyze.rs: a pair is scored, and its score is put in front of the deque.
ghost use Rattle.std.specs.Prelude.{◌≡◌, take};
ghost use Rattle.settings.specs.Settings.{room};
ghost use Rattle.score.specs.Deque.{content, held, holding};
ghost use Rattle.score.specs.Scores.{fast_score, standard_score, backward_of, back_of, clamp_of, forward_of, with_forward, updated_of, score_of};

use super::{Measure, ScenecutResult, ScoreDeque};

// The backward cost of a pair whose inter cost is `own`: a walk over the first o entries, front first. (The lesser of two floats by a test, as the
// crate has it; see `clamped`.)
fn backward_cost(scores: &[ScenecutResult], o: usize, own: f64) -> f64
    ensures { result ≡ backward_of o own scores.now }
{
    let mut least = f64::MAX;
    for e in &scores[..o.min(scores.len())] {
        let difference = own - e.inter_cost;
        if difference < 0.0 {
            return 0.0;
        }
        if difference < least {
            least = difference;
        }
    }
    least
}

// The backward cost, which pair 1 does not have: the first frame of a film is a keyframe anyway.
fn back_cost(o: usize, pair: u64, own: f64, scores: &[ScenecutResult]) -> f64
    ensures { result ≡ back_of o pair own scores.now }
{
    if o == 0 || pair == 1 {
        0.0
    } else {
        backward_cost(scores, o, own)
    }
}

// (`x.max(0.0)` of the library promises neither a NaN's nor a zero's sign, which `clamp_of` does. So it is with `min`.)
fn clamped(x: f64) -> f64
    ensures { result ≡ clamp_of x }
{
    if x < 0.0 { 0.0 } else { x }
}

// An entry's forward cost once a pair stands in front of it. (`first` is a truth about its place, as `forward_of` has it.)
fn forward_cost(first: bool, new: f64, own: f64, forward: f64) -> f64
    ensures { result ≡ forward_of first new own forward }
{
    let difference = own - new;
    clamped(if first || difference < forward {
        difference
    } else {
        forward
    })
}

// (Through `new`, where every score is made, so that a further field has one place to go.)
fn with_forward(first: bool, new: f64, e: ScenecutResult) -> ScenecutResult
    ensures { result ≡ with_forward first new e }
{
    let forward = forward_cost(first, new, e.inter_cost, e.forward_adjusted_cost);
    ScenecutResult::new(
        e.pair_number,
        e.inter_cost,
        e.imp_block_cost,
        e.backward_adjusted_cost,
        forward,
        e.threshold,
    )
}

// The forward costs of the first o entries are updated. Slots past the count, where o reaches these, are no part of the deque.
fn update(entries: &mut [ScenecutResult], o: usize, new: f64)
    ensures { entries.new ≡ updated_of o new entries.old }
{
    let n = o.min(entries.len());
    let first = &mut entries[..n];
    for (i, e) in first.iter_mut().enumerate() {
        *e = with_forward(i == 0, new, *e);
    }
}

fn fast_score(level: f64, pair: u64, delta: f64) -> ScenecutResult
    ensures { result ≡ fast_score level pair delta }
{
    ScenecutResult::new(pair, delta, delta, delta, delta, level)
}

fn standard_score(pair: u64, m: Measure, back: f64) -> ScenecutResult
    ensures { result ≡ standard_score pair m back }
{
    ScenecutResult::new(pair, m.inter, m.importance, back, 0.0, m.threshold)
}

// The deque with a pair scored. `level` is the threshold of Fast mode. (`fast` is a truth of the settings, as `score_of` has it.) It is made a
// part of its callers: called, it would take a deque more of the stack.
#[inline(always)]
pub fn run_comparison(
    fast: bool,
    level: f64,
    o: usize,
    pair: u64,
    m: Measure,
    d: ScoreDeque,
) -> ScoreDeque
    ensures { held result ≡ holding (take room (score_of fast level o pair m (content d))) }
{
    let mut out = d;
    if fast {
        out.push_front(fast_score(level, pair, m.inter));
    } else {
        let back = back_cost(o, pair, m.inter, out.scores());
        update(&mut out.entries, o, m.inter);
        out.push_front(standard_score(pair, m, back));
    }
    out
}
