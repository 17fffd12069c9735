// The detector over lent places: its state in numbers, and doubles for each score that it has room for, as a recorder keeps it.
#![tactic(auto)]

ghost use Rattle.std.specs.Prelude.{◌≡◌, ◌++◌, ◌≤◌, length, take, drop};
ghost use Rattle.answer.specs.Answer.{fault_in};
ghost use Rattle.score.specs.Deque.{content};
ghost use Rattle.state.specs.State.{view, call_of};
ghost use Rattle.detector.specs.Step.{step_answer, outcome};
ghost use Rattle.lent.specs.Places.{numbers_long, settings_long, pairs_place, score_long, scores_long, is_state, settings_of, front_score, entries_of, state_of, setting_numbers, call_numbers, pairs_placed, doubles, placed};
ghost use Rattle.lent.specs.Lent.{fresh_fault, fresh_numbers, lent_step, numbers_after, scores_after};

use answer::Refusal;
use detector::{Decision, Stepped};
use score::{ScenecutResult, ScoreDeque};
use settings::Settings;
use state::{Call, State};

// The settings stand first among the numbers, and behind them what a call may change, each in its place.
const SETTINGS: usize = 7;

const OFFSET: usize = SETTINGS;

const LAST_NUMBER: usize = SETTINGS + 1;

const LAST_LENGTH: usize = SETTINGS + 2;

const FIRST_NUMBER: usize = SETTINGS + 3;

const RELEASE_NUMBER: usize = SETTINGS + 4;

const COUNT: usize = SETTINGS + 5;

// From here on there is a pair number for each score: a double cannot hold each of them.
const PAIRS: usize = COUNT + 1;

// How many numbers a call may change.
const CALL: usize = PAIRS - SETTINGS;

// How many numbers a state has, how many doubles a score, and how many doubles all scores.
const NUMBERS: usize = PAIRS + Settings::ROOM;

const DOUBLES: usize = 5;

const SCORES: usize = Settings::ROOM * DOUBLES;

// Whether two lists have the lengths of a state's places.
fn is_state(numbers: &[u64], scores: &[f64]) -> bool
    ensures { result ≡ is_state numbers.now scores.now }
{
    numbers.len() == NUMBERS && scores.len() == SCORES
}

// The score of a pair that the first five doubles of a part are.
fn front_score(pair: u64, s: &[f64]) -> ScenecutResult
    requires { score_long ≤ length s.now }
    ensures { result ≡ front_score pair s.now }
{
    ScenecutResult::new(pair, s[0], s[1], s[2], s[3], s[4])
}

// The deque whose entries are the first `count` scores: no place past them is read. By index: with `zip` and `chunks_exact` a step
// takes a quarter longer.
fn lent_deque(numbers: &[u64; NUMBERS], scores: &[f64; SCORES], count: usize) -> ScoreDeque
    ensures result_value { content result ≡ entries_of count (drop pairs_place numbers.now) scores.now }
    ensures count_value { result.count ≡ count }
{
    let none = ScenecutResult::new(0, 0.0, 0.0, 0.0, 0.0, 0.0);
    let entries = [none; Settings::ROOM];
    let mut out = ScoreDeque { entries, count };
    for i in 0..count.min(Settings::ROOM) {
        let at = i * DOUBLES;
        out.entries[i] = front_score(numbers[PAIRS + i], &scores[at..]);
    }
    out
}

// (Place by place, by name, as in the three functions from `lent_state` on: the header names each place, and `From` would only wrap this.)
fn lent_settings(numbers: &[u64; NUMBERS]) -> Settings
    ensures { result ≡ settings_of numbers.now }
{
    Settings {
        width: numbers[0] as usize,
        height: numbers[1] as usize,
        bit_depth: numbers[2],
        lookahead_distance: numbers[3] as usize,
        mode: numbers[4],
        min_key_frame_interval: numbers[5],
        max_key_frame_interval: numbers[6],
    }
}

fn lent_state(numbers: &[u64; NUMBERS], scores: &[f64; SCORES]) -> State
    ensures { view result ≡ state_of numbers.now scores.now }
{
    State {
        settings: lent_settings(numbers),
        deque: lent_deque(numbers, scores, numbers[COUNT] as usize),
        offset: numbers[OFFSET] as usize,
        last_number: numbers[LAST_NUMBER],
        last_length: numbers[LAST_LENGTH] as usize,
        first_number: numbers[FIRST_NUMBER],
        release_number: numbers[RELEASE_NUMBER],
    }
}

// A score's doubles. (Field by field, here and below: no derive gives an array.)
fn doubles(e: ScenecutResult) -> [f64; DOUBLES]
    ensures { result ≡ doubles e }
{
    [
        e.inter_cost,
        e.imp_block_cost,
        e.backward_adjusted_cost,
        e.forward_adjusted_cost,
        e.threshold,
    ]
}

// The numbers of settings.
fn setting_numbers(g: Settings) -> [u64; SETTINGS]
    ensures { result ≡ setting_numbers g }
{
    [
        g.width as u64,
        g.height as u64,
        g.bit_depth,
        g.lookahead_distance as u64,
        g.mode,
        g.min_key_frame_interval,
        g.max_key_frame_interval,
    ]
}

// What a call changes of the numbers.
fn call_numbers(s: State) -> [u64; CALL]
    ensures { result ≡ call_numbers (view s) }
{
    let count = s.deque.count.min(Settings::ROOM);
    [
        s.offset as u64,
        s.last_number,
        s.last_length as u64,
        s.first_number,
        s.release_number,
        count as u64,
    ]
}

// The entries of a deque, each in its place. By index: of what `chunks_exact_mut` lends a proof knows no element afterwards.
fn put_deque(scores: &mut [f64], d: ScoreDeque)
    requires { length scores.old ≡ scores_long }
    ensures { scores.new ≡ placed (content d) scores.old }
{
    let entries = &d.entries[..d.count.min(Settings::ROOM)];
    for (i, e) in entries.iter().enumerate() {
        let at = i * DOUBLES;
        scores[at..at + DOUBLES].copy_from_slice(&doubles(*e));
    }
}

// The entries' pair numbers, each in its place. By index: of what `iter_mut().zip` lends a proof knows no element afterwards, and `enumerate`
// would count all the places and ask of each whether it has an entry.
fn put_pairs(numbers: &mut [u64], d: ScoreDeque)
    requires { length numbers.old ≡ numbers_long }
    ensures { numbers.new ≡ take pairs_place numbers.old ++ pairs_placed (content d) (drop pairs_place numbers.old) }
{
    let entries = &d.entries[..d.count.min(Settings::ROOM)];
    for (i, e) in entries.iter().enumerate() {
        numbers[PAIRS + i] = e.pair_number;
    }
}

// A fresh detector in its lent places, or its refusal, and then nothing is written. It has no entry, so no score is written, and no
// pair number.
pub fn fresh(g: Settings, numbers: &mut [u64], scores: &[f64]) -> Result<(), Refusal>
    ensures value { fault_in result ≡ fresh_fault numbers.old scores.now g }
    ensures numbers_after { numbers.new ≡ fresh_numbers numbers.old scores.now g }
{
    if !is_state(numbers, scores) {
        return Err(Refusal::BadState);
    }
    let opened = detector::fresh(g);
    opened.answer?;
    numbers[..SETTINGS].copy_from_slice(&setting_numbers(g));
    numbers[OFFSET..PAIRS].copy_from_slice(&call_numbers(opened.state));
    Ok(())
}

// What a step changed, back in its places: nothing where it was refused, and neither scores nor pair numbers where it has no score.
fn put_stepped(numbers: &mut [u64], scores: &mut [f64], r: Stepped) -> Result<Decision, Refusal>
    requires numbers_len { length numbers.old ≡ numbers_long }
    requires scores_len { length scores.old ≡ scores_long }
    ensures result_value { step_answer result ≡ (outcome r).answer }
    ensures numbers_after { numbers.new ≡ numbers_after (outcome r) numbers.old }
    ensures scores_after { scores.new ≡ scores_after (outcome r) scores.old }
{
    let decision = r.answer?;
    numbers[OFFSET..PAIRS].copy_from_slice(&call_numbers(r.state));
    if decision.score.is_some() {
        put_pairs(numbers, r.state.deque);
        put_deque(scores, r.state.deque);
    }
    Ok(decision)
}

// The step of a detector in its lent places. A refused call writes nothing, and a decision without a score neither scores nor pair
// numbers.
pub fn step(numbers: &mut [u64], scores: &mut [f64], c: &Call) -> Result<Decision, Refusal>
    ensures result_value { step_answer result ≡ (lent_step numbers.old scores.old (call_of c.now)).answer }
    ensures numbers_after { numbers.new ≡ numbers_after (lent_step numbers.old scores.old (call_of c.now)) numbers.old }
    ensures scores_after { scores.new ≡ scores_after (lent_step numbers.old scores.old (call_of c.now)) scores.old }
{
    let lent_numbers: &[u64; NUMBERS] = numbers.as_array().ok_or(Refusal::BadState)?;
    let lent_scores: &[f64; SCORES] = scores.as_array().ok_or(Refusal::BadState)?;
    let s = lent_state(lent_numbers, lent_scores);
    let r = detector::step(s, c);
    put_stepped(numbers, scores, r)
}
