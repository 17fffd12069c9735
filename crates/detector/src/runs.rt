// Steps one after the other. A caller takes the decision apart, and hands a refusal on.
ghost use Rattle.std.specs.Prelude.{◌≡◌, take, drop};
ghost use Rattle.state.specs.State.{call_of};
ghost use Rattle.detector.specs.Step.{outcome, HandsBack};
ghost use Rattle.detector.specs.Runs.{then_step, calls_of, run_of};

use super::Stepped;
use state::Call;

// A step from where the one before ended; the refusal of that one is handed on, with its state.
pub fn then_step(before: Stepped, c: &Call) -> Stepped
    ensures result_value { outcome result ≡ then_step (outcome before) (call_of c.now) }
    ensures hands_back { HandsBack result before.state }
{
    match before.answer {
        Ok(_) => super::step(before.state, c),
        Err(_) => before,
    }
}

// At most `items` numbers of a list, from a place on.
fn window(list: &[f64], from: usize, items: usize) -> &[f64]
    ensures { result.now ≡ take items (drop from list.now) }
{
    let start = from.min(list.len());
    let end = start + items.min(list.len() - start);
    &list[start..end]
}

// A run of calls over a film. Call j has the number, the length and the previous keyframe at place j, and item k of its lists stands
// at place j + k of the film's. The answer is that of the last call, or the first refusal. Of a refused state
// the contract says the view, with the count in it: most often it is one that the run itself made, of which no more can be said. (Six lists: each may have another length, as
// `calls_of` says.)
pub fn run(
    before: Stepped,
    numbers: &[u64],
    lengths: &[usize],
    keyframes: &[u64],
    inter: &[f64],
    importance: &[f64],
    threshold: &[f64],
) -> Stepped
    ensures { outcome result ≡ run_of (outcome before) (calls_of numbers.now lengths.now keyframes.now inter.now importance.now threshold.now) }
{
    let mut last = before;
    for (j, ((number, length), keyframe)) in numbers
        .iter()
        .zip(lengths)
        .zip(keyframes)
        .enumerate()
    {
        let items = state::items_of(*length);
        let c = Call {
            length: *length,
            number: *number,
            keyframe: *keyframe,
            inter: window(inter, j, items),
            importance: window(importance, j, items),
            threshold: window(threshold, j, items),
        };
        last = then_step(last, &c);
    }
    last
}
