// The detector: `SceneChangeDetector` of analyze.rs, with its `analyze_next_frame` as a step that takes a state and gives the next.
#![tactic(auto)]

ghost use Rattle.std.specs.Prelude.{◌≡◌, length};
ghost use Rattle.score.specs.Deque.{content};
ghost use Rattle.state.specs.State.{view, call_of};
ghost use Rattle.state.specs.Refusals.{step_fault};
ghost use Rattle.detector.specs.Rules.{releases, next_of};
ghost use Rattle.detector.specs.Step.{outcome, HandsBack, bare_of, accepted_of, step_of};
ghost use Rattle.detector.specs.Fresh.{fresh_view, opened, opened_of};

use answer::Refusal;
use score::{ScenecutResult, ScoreDeque};
use settings::Settings;
use state::{Call, State};

mod rules;
pub mod runs;

use rules::Reading;

// Whether a pair is a cut, and its score if there is one.
#[derive(Clone, Copy)]
pub struct Decision {
    pub cut: bool,
    pub score: Option<ScenecutResult>,
}

// The set length from which a call moves the release number, and how many calls before that call the first one lies that a restart needs.
const RELEASE_LENGTH: usize = 7;

const RELEASE_REACH: u64 = 9;

// How far a pair's first frame lies behind the pair's number.
const LEFT_FRAME: u64 = 1;

// What the step answers, with the next state beside it: where the call is refused, it is the one that was given (`HandsBack`).
#[derive(Clone, Copy)]
pub struct Stepped {
    pub answer: Result<Decision, Refusal>,
    pub state: State,
}

// A fresh detector, or the refusal of its settings. Every step of a refused one's state is refused too. (No Result alone: `opened_of` promises the
// state of a refused one as well.)
#[derive(Clone, Copy)]
pub struct Opened {
    pub answer: Result<(), Refusal>,
    pub state: State,
}

// The state before any call.
fn fresh_state(g: Settings) -> State
    ensures { view result ≡ fresh_view g }
{
    let a = g.lookahead_offset();
    let empty = ScoreDeque::empty();
    State {
        settings: g,
        deque: empty,
        offset: a,
        last_number: 0,
        last_length: 0,
        first_number: 0,
        release_number: 0,
    }
}

// A fresh detector of the settings, and their refusal.
pub fn fresh(g: Settings) -> Opened
    ensures { opened result ≡ opened_of g }
{
    let answer = g.fault();
    let state = fresh_state(g);
    Opened { answer, state }
}

// Whether a call moves the release number.
fn moves_release(g: Settings, length: usize) -> bool
    ensures { result ≡ releases g length }
{
    RELEASE_LENGTH <= length
        && g.lookahead_offset() == Settings::NORMAL_LOOKAHEAD
        && g.mode != Settings::NONE
}

// The state after an accepted call, from one that has the deque and the offset which the call leaves.
fn called(s: State, c: &Call) -> State
    requires { s.deque.count ≡ length (content s.deque) }
    ensures { view result ≡ next_of (view s) c.now.length c.now.number (content s.deque) s.offset }
{
    let n = c.number;
    let mut first = s.first_number;
    let mut release = s.release_number;
    if s.last_number == 0 {
        first = n;
        release = n.saturating_sub(LEFT_FRAME);
    }
    if moves_release(s.settings, c.length) {
        let needed = first.max(n.saturating_sub(RELEASE_REACH));
        release = needed.saturating_sub(LEFT_FRAME);
    }
    State {
        last_number: n,
        last_length: c.length,
        first_number: first,
        release_number: release,
        ..s
    }
}

// A decision without a score: the deque and the offset stay.
fn bare(s: State, c: &Call, cut: bool) -> Stepped
    requires { s.deque.count ≡ length (content s.deque) }
    ensures { outcome result ≡ bare_of (view s) c.now.length c.now.number cut }
{
    let state = called(s, c);
    let answer = Ok(Decision { cut, score: None });
    Stepped { answer, state }
}

// Rules 2 to 7, for a call that is not refused.
fn accepted(s: State, c: &Call) -> Stepped
    requires { step_fault (view s) (call_of c.now) ≡ 0 }
    ensures { outcome result ≡ accepted_of (view s) (call_of c.now) }
{
    let g = s.settings;
    let a = g.lookahead_offset();
    if c.length <= a {
        return bare(s, c, false);
    }
    let distance = c.number - c.keyframe;
    if g.mode == Settings::NONE {
        let cut = rules::none_cut(g, distance);
        return bare(s, c, cut);
    }
    let reading = Reading {
        settings: g,
        call: *c,
    };
    let begun = reading.initialized(s.offset, s.deque);
    let q = reading.advanced(begun);
    let cut = q.decided(g, distance);
    let score = q.deque.entry(q.offset);
    let kept = q.deque.trimmed(Settings::NORMAL_LOOKAHEAD + a);
    let left = State {
        deque: kept,
        offset: q.offset,
        ..s
    };
    let state = called(left, c);
    let answer = Ok(Decision {
        cut,
        score: Some(score),
    });
    Stepped { answer, state }
}

// The step: a refusal that leaves the state, or a decision with the next state.
pub fn step(s: State, c: &Call) -> Stepped
    ensures result_value { outcome result ≡ step_of (view s) (call_of c.now) }
    ensures hands_back { HandsBack result s }
{
    match state::step_fault(s, c) {
        Ok(()) => accepted(s, c),
        Err(refusal) => Stepped {
            answer: Err(refusal),
            state: s,
        },
    }
}
