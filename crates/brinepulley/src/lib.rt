// The library for C, whose parameters these are: numbers for depth and mode, and four for a plane. Each function answers a number at or above 0, or
// a refusal's number negated. What it writes to lent places is in its contract, whole.
#![tactic(auto)]

ghost use Rattle.std.specs.Prelude.{◌≡◌};
ghost use Rattle.hadamard.specs.Transform.{transform_fault, after_transform};
ghost use Rattle.importance.specs.Importance.{total_of, importance_of};
ghost use Rattle.intra.specs.Costs.{intra_of, work_of, costs_of};
ghost use Rattle.intra.specs.Threshold.{threshold_of};
ghost use Rattle.lent.specs.Lent.{fresh_fault, fresh_numbers, lent_step, numbers_after, scores_after};
ghost use Rattle.lent.specs.Places.{settings_by};
ghost use Rattle.state.specs.State.{call};
ghost use Rattle.sad.specs.Difference.{difference_of, delta_of};
ghost use Rattle.satd.specs.Satd.{satd_of};
ghost use Rattle.scale.specs.Scale.{factor_answer};
ghost use Rattle.brinepulley.specs.Coded.{coded, done, status, held_after, decided, plane_by};

use importance::BlockMean;
use plane::Depths;
use sad::RowSad;
use settings::Settings;
use state::Call;
use sums::Sample;

pub mod card;
mod code;
pub mod frames;
pub mod sensor;

// The factor that Fast mode scales a frame by, 1 for none.
pub fn brine_scale_factor(width: usize, height: usize, mode: u32) -> i64
    ensures { result ≡ coded (factor_answer width height mode) }
{
    code::whole(scale::detect_scale_factor(width, height, mode as u64))
}

// The sum of absolute differences of two planes. (This and the three below look alike but for the measure: one function over a closure would take
// the eleven parameters a second time.)
pub fn brine_plane_difference<S: RowSad>(
    depth: u32,
    first: &[S],
    width: usize,
    height: usize,
    stride: usize,
    origin: usize,
    second: &[S],
    width2: usize,
    height2: usize,
    stride2: usize,
    origin2: usize,
) -> i64
    ensures { result ≡ coded (difference_of S.Depths.word depth (plane_by width height stride origin) (S.Sample.values first.now) (plane_by width2 height2 stride2 origin2) (S.Sample.values second.now)) }
{
    let p = code::plane_by(width, height, stride, origin);
    let q = code::plane_by(width2, height2, stride2, origin2);
    // No sample is above the largest, so the sum fits the answer.
    S::bounded(first);
    S::bounded(second);
    code::whole(sad::plane_difference(depth as u64, p, first, q, second))
}

// The importance total of two planes, before the division.
pub fn brine_importance_total<S: BlockMean>(
    depth: u32,
    first: &[S],
    width: usize,
    height: usize,
    stride: usize,
    origin: usize,
    second: &[S],
    width2: usize,
    height2: usize,
    stride2: usize,
    origin2: usize,
) -> i64
    ensures { result ≡ coded (total_of S.Depths.word depth (plane_by width height stride origin) (S.Sample.values first.now) (plane_by width2 height2 stride2 origin2) (S.Sample.values second.now)) }
{
    let p = code::plane_by(width, height, stride, origin);
    let q = code::plane_by(width2, height2, stride2, origin2);
    // No sample is above the largest, so the sum fits the answer.
    S::bounded(first);
    S::bounded(second);
    code::whole(importance::importance_total(depth as u64, p, first, q, second))
}

// The plane difference over width × height: 0, and the quotient in `delta`.
pub fn brine_delta<S: RowSad>(
    depth: u32,
    first: &[S],
    width: usize,
    height: usize,
    stride: usize,
    origin: usize,
    second: &[S],
    width2: usize,
    height2: usize,
    stride2: usize,
    origin2: usize,
    delta: &mut f64,
) -> i64
    ensures value { result ≡ coded (status (delta_of S.Depths.word depth (plane_by width height stride origin) (S.Sample.values first.now) (plane_by width2 height2 stride2 origin2) (S.Sample.values second.now))) }
    ensures delta_after { delta.new ≡ held_after (delta_of S.Depths.word depth (plane_by width height stride origin) (S.Sample.values first.now) (plane_by width2 height2 stride2 origin2) (S.Sample.values second.now)) delta.old }
{
    let p = code::plane_by(width, height, stride, origin);
    let q = code::plane_by(width2, height2, stride2, origin2);
    code::put(
        sad::delta_in_planes(depth as u64, p, first, q, second),
        delta,
    )
}

// The importance of two planes: 0, and the quotient in `importance`.
pub fn brine_importance<S: BlockMean>(
    depth: u32,
    first: &[S],
    width: usize,
    height: usize,
    stride: usize,
    origin: usize,
    second: &[S],
    width2: usize,
    height2: usize,
    stride2: usize,
    origin2: usize,
    importance: &mut f64,
) -> i64
    ensures value { result ≡ coded (status (importance_of S.Depths.word depth (plane_by width height stride origin) (S.Sample.values first.now) (plane_by width2 height2 stride2 origin2) (S.Sample.values second.now))) }
    ensures importance_after { importance.new ≡ held_after (importance_of S.Depths.word depth (plane_by width height stride origin) (S.Sample.values first.now) (plane_by width2 height2 stride2 origin2) (S.Sample.values second.now)) importance.old }
{
    let p = code::plane_by(width, height, stride, origin);
    let q = code::plane_by(width2, height2, stride2, origin2);
    code::put(
        importance::importance(depth as u64, p, first, q, second),
        importance,
    )
}

// The intra costs of a plane: the number of its whole blocks. The work plane and the cost list are written.
pub fn brine_intra_costs<S: Depths>(
    depth: u32,
    samples: &[S],
    width: usize,
    height: usize,
    stride: usize,
    origin: usize,
    work: &mut [S],
    width2: usize,
    height2: usize,
    stride2: usize,
    origin2: usize,
    costs: &mut [u32],
) -> i64
    ensures value { result ≡ coded (intra_of S.word depth (plane_by width height stride origin) (S.Sample.values samples.now) (plane_by width2 height2 stride2 origin2) (S.Sample.values work.old) costs.old) }
    ensures work_after { S.Sample.values work.new ≡ work_of S.word depth (plane_by width height stride origin) (S.Sample.values samples.now) (plane_by width2 height2 stride2 origin2) (S.Sample.values work.old) costs.old }
    ensures costs_after { costs.new ≡ costs_of S.word depth (plane_by width height stride origin) (S.Sample.values samples.now) (plane_by width2 height2 stride2 origin2) (S.Sample.values work.old) costs.old }
{
    let p = code::plane_by(width, height, stride, origin);
    let w = code::plane_by(width2, height2, stride2, origin2);
    code::whole(intra::estimate_intra_costs(depth as u64, p, samples, w, work, costs))
}

// The threshold of the first `count` costs: 0, and the threshold in its place.
pub fn brine_threshold(costs: &[u32], count: usize, threshold: &mut f64) -> i64
    ensures value { result ≡ coded (status (threshold_of costs.now count)) }
    ensures threshold_after { threshold.new ≡ held_after (threshold_of costs.now count) threshold.old }
{
    code::put(intra::standard::threshold(costs, count), threshold)
}

// The transform of four rows of four entries, in their place: 0.
pub fn brine_hadamard4x4(list: &mut [i32]) -> i64
    ensures value { result ≡ coded (done (transform_fault 4 list.old)) }
    ensures list_after { list.new ≡ after_transform 4 list.old }
{
    code::done(hadamard::hadamard4x4(list))
}

// The transform of eight rows of eight entries, in their place: 0.
pub fn brine_hadamard8x8(list: &mut [i32]) -> i64
    ensures value { result ≡ coded (done (transform_fault 8 list.old)) }
    ensures list_after { list.new ≡ after_transform 8 list.old }
{
    code::done(hadamard::hadamard8x8(list))
}

// The SATD of two blocks of 64 samples.
pub fn brine_satd8x8<S: Sample>(first: &[S], second: &[S]) -> i64
    ensures { result ≡ coded (satd_of (S.values first.now) (S.values second.now)) }
{
    // No sample is above the largest, so the sum fits the answer.
    S::bounded(first);
    S::bounded(second);
    code::whole(satd::satd8x8(first, second))
}

// A fresh detector in its lent places: 0, and its first thirteen numbers. It has no entry, so neither a score nor a pair number is
// written.
pub fn brine_detector_fresh(
    width: usize,
    height: usize,
    depth: u32,
    lookahead: usize,
    mode: u32,
    min: u64,
    max: u64,
    numbers: &mut [u64],
    scores: &mut [f64],
) -> i64
    ensures value { result ≡ coded (done (fresh_fault numbers.old scores.old (settings_by width height depth lookahead mode min max))) }
    ensures numbers_after { numbers.new ≡ fresh_numbers numbers.old scores.old (settings_by width height depth lookahead mode min max) }
    ensures scores_unchanged { scores.new ≡ scores.old }
{
    let g = Settings {
        width,
        height,
        bit_depth: depth as u64,
        lookahead_distance: lookahead,
        mode: mode as u64,
        min_key_frame_interval: min,
        max_key_frame_interval: max,
    };
    code::done(lent::fresh(g, numbers, scores))
}

// The step of a detector in its lent places: what was decided, by its number. The places are as the decision leaves them.
pub fn brine_detector_step(
    numbers: &mut [u64],
    scores: &mut [f64],
    set_len: usize,
    frame: u64,
    previous_keyframe: u64,
    inter: &[f64],
    importance: &[f64],
    threshold: &[f64],
) -> i64
    ensures value { result ≡ coded (decided (lent_step numbers.old scores.old (call set_len frame previous_keyframe inter.now importance.now threshold.now)).answer) }
    ensures numbers_after { numbers.new ≡ numbers_after (lent_step numbers.old scores.old (call set_len frame previous_keyframe inter.now importance.now threshold.now)) numbers.old }
    ensures scores_after { scores.new ≡ scores_after (lent_step numbers.old scores.old (call set_len frame previous_keyframe inter.now importance.now threshold.now)) scores.old }
{
    let c = Call {
        length: set_len,
        number: frame,
        keyframe: previous_keyframe,
        inter,
        importance,
        threshold,
    };
    code::decision(lent::step(numbers, scores, &c))
}
