// `adaptive_scenecut` of analyze.rs: whether the pair of an entry is a cut; and the costs that a state may not hold.
ghost use Rattle.std.specs.Prelude.{◌≡◌, true, false};
ghost use Rattle.score.specs.Search.{any_of};
ghost use Rattle.score.specs.Deque.{content};
ghost use Rattle.score.specs.Cut.{over, required_of, no_flash, cut_of};
ghost use Rattle.score.specs.Costs.{forbidden, forbidden_entry};

use super::{ScenecutResult, ScoreDeque};

// Whether a number is one that refusal 10 forbids. A NaN fails both tests.
pub fn is_forbidden(x: f64) -> bool
    ensures { result ≡ forbidden x }
{
    !((x >= 0.0) & (x <= f64::MAX))
}

// Whether some entry has an inter cost that is forbidden.
pub fn any_forbidden_entry(d: ScoreDeque) -> bool
    ensures { result ≡ any_of forbidden_entry (content d) }
{
    d.scores().iter().any(|e| is_forbidden(e.inter_cost))
}

impl ScenecutResult {
    // Whether the forward cost is at or above the threshold. A NaN is not.
    fn is_over_forward(&self) -> bool
        ensures { result ≡ over true self.now }
    {
        self.forward_adjusted_cost >= self.threshold
    }

    // The same of the backward cost. (Two fields of a score: a closure that picks the field would be longer than either.)
    fn is_over_backward(&self) -> bool
        ensures { result ≡ over false self.now }
    {
        self.backward_adjusted_cost >= self.threshold
    }
}

// Fast mode wants more evidence of a flash. (`fast`: see `adaptive_scenecut`.)
fn required(fast: bool) -> usize
    ensures { result ≡ required_of fast }
{
    if fast { 2 } else { 1 }
}

// Whether the entries that are over before and after entry o do not make it a flash.
fn no_flash(fast: bool, before: usize, after: usize, first: bool) -> bool
    ensures { result ≡ no_flash fast before after first }
{
    match (before, after) {
        (0, 0) => true,
        (0, _) => required(fast) <= after,
        (1, 0) => first,
        _ => false,
    }
}

// Whether the pair of entry o is a cut, for the importance threshold t. Without an entry o it is none. (`fast` is a truth of the settings, as
// `cut_of` has it: both values are promised.)
pub fn adaptive_scenecut(fast: bool, t: f64, d: ScoreDeque, o: usize) -> bool
    ensures { result ≡ cut_of fast t o (content d) }
{
    let scores = d.scores();
    if scores.len() <= o {
        return false;
    }
    if !scores[o..].iter().any(|e| e.imp_block_cost >= t) {
        return false;
    }
    if !scores[o].is_over_forward() {
        return false;
    }
    let before = scores[..o].iter().filter(|e| e.is_over_forward()).count();
    let after = scores[o + 1..]
        .iter()
        .filter(|e| e.is_over_backward())
        .count();
    no_flash(fast, before, after, scores[0].is_over_forward())
}
