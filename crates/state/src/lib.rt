// The state of a detector (`SceneChangeDetector` of analyze.rs), and when document 01 refuses a call.
#![tactic(auto)]

ghost use Rattle.std.specs.Prelude.{◌≡◌, ◌-◌};
ghost use Rattle.answer.specs.Answer.{fault_in};
ghost use Rattle.score.specs.Search.{any_of};
ghost use Rattle.score.specs.Costs.{forbidden};
ghost use Rattle.score.specs.Deque.{content};
ghost use Rattle.state.specs.State.{view, call_of};
ghost use Rattle.state.specs.Refusals.{unfit, front_astray, state_fault, number_fault, length_fault, stop_fault, bad_list, lists_fault, step_fault};

use answer::Refusal;
use score::{ScoreDeque, decision, numbers};
use settings::Settings;

// What a detector keeps between calls. A last number of 0 says that no call was accepted yet: it is the number that C's places hold (`State`
// of the definitions, `call_numbers`), so no Option.
#[derive(Clone, Copy)]
pub struct State {
    pub settings: Settings,
    pub deque: ScoreDeque,
    pub offset: usize,
    pub last_number: u64,
    pub last_length: usize,
    pub first_number: u64,
    pub release_number: u64,
}

// What a call of the step is given beside the state: the set's length, its frame number, the previous keyframe, and the lists.
#[derive(Clone, Copy)]
pub struct Call<'a> {
    pub length: usize,
    pub number: u64,
    pub keyframe: u64,
    pub inter: &'a [f64],
    pub importance: &'a [f64],
    pub threshold: &'a [f64],
}

// Frame numbers lie below this.
const NUMBER_LIMIT: u64 = 0x1_0000_0000;

// Whether a list holds a number that 10 forbids.
fn any_forbidden(list: &[f64]) -> bool
    ensures { result ≡ any_of forbidden list.now }
{
    list.iter().any(|x| decision::is_forbidden(*x))
}

// Whether a list that is read has another length, or a forbidden number. (`items` is what its length must be: 10 answers another.)
fn bad_list(items: usize, list: &[f64]) -> bool
    ensures { result ≡ bad_list items list.now }
{
    list.len() != items || any_forbidden(list)
}

// The items of a set: a frame less, and none of an empty set.
pub fn items_of(length: usize) -> usize
    ensures { result ≡ length - 1 }
{
    length.saturating_sub(1)
}

impl State {
    // Whether settings, count, offset and last number are what no state has. The count is looked at before any slot is read.
    fn is_unfit(&self) -> bool
        ensures { result ≡ unfit self.now.settings self.now.deque.count self.now.offset self.now.last_number }
    {
        let g = self.settings;
        let a = g.lookahead_offset();
        let count = self.deque.count;
        let window = Settings::NORMAL_LOOKAHEAD + Settings::NORMAL_LOOKAHEAD;
        let forbidden = g.fault().is_err();
        let over_room = Settings::ROOM - 1 < count;
        let over_window = a == Settings::NORMAL_LOOKAHEAD && window < count;
        let past = count != 0 && count <= self.offset;
        let astray = count == 0 && self.offset != a;
        let in_none = count != 0 && g.mode == Settings::NONE;
        let before_call = count != 0 && self.last_number == 0;
        forbidden || over_room || over_window || past || astray || in_none || before_call
    }

    // Whether the front's number is another than last + o, which may be larger than any number. After a call with L up to A the front
    // is free, and an empty deque has none.
    fn is_front_astray(self) -> bool
        ensures { result ≡ front_astray self.settings self.last_number self.last_length self.offset (content self.deque) }
    {
        let a = self.settings.lookahead_offset();
        if self.last_length <= a || self.deque.count == 0 {
            return false;
        }
        let front = self.deque.entry(0);
        let due = self.last_number.checked_add(self.offset as u64);
        due.is_none_or(|n| n != front.pair_number)
    }

    // Refusal 11 of a state.
    #[tactic(auto, using(crate::proofs::Room::by_count))]
    fn fault(self) -> Result<(), Refusal>
        ensures { fault_in result ≡ state_fault (view self) }
    {
        if self.is_unfit()
            || decision::any_forbidden_entry(self.deque)
            || numbers::is_misnumbered(self.deque)
            || self.is_front_astray()
        {
            return Err(Refusal::BadState);
        }
        Ok(())
    }
}

// Refusal 7 of a frame number and a previous keyframe. (This and the two below take what they read, as their definitions do, which name it.)
#[tactic(auto, unfolding(crate::specs::Refusals::number_fault))]
fn number_fault(last: u64, n: u64, p: u64) -> Result<(), Refusal>
    ensures { fault_in result ≡ number_fault last n p }
{
    if n == 0 || NUMBER_LIMIT <= n || n < p || last != 0 && n - 1 != last {
        return Err(Refusal::BadNumber);
    }
    Ok(())
}

// Refusal 8 of a set length.
#[tactic(auto, unfolding(crate::specs::Refusals::length_fault))]
fn length_fault(last: u64, last_length: usize, length: usize) -> Result<(), Refusal>
    ensures { fault_in result ≡ length_fault last last_length length }
{
    if Settings::SET_LIMIT < length || last != 0 && last_length < length {
        return Err(Refusal::BadLength);
    }
    Ok(())
}

// Refusal 9, where the crate stops.
#[tactic(auto, unfolding(crate::specs::Refusals::stop_fault))]
fn stop_fault(g: Settings, o: usize, length: usize) -> Result<(), Refusal>
    ensures { fault_in result ≡ stop_fault g o length }
{
    if length == 1 && g.lookahead_offset() == 0 && o == 0 && g.mode != Settings::NONE {
        return Err(Refusal::Stop);
    }
    Ok(())
}

impl Call<'_> {
    // Refusal 10 of the lists. A list that the mode does not read is not looked at. (Two tests of a mode that is a number: 6 and 11 answer the others.)
    #[tactic(auto, unfolding(crate::specs::Refusals::lists_fault))]
    fn lists_fault(&self, g: Settings) -> Result<(), Refusal>
        ensures { fault_in result ≡ lists_fault g (self.now.length - 1) self.now.inter.now self.now.importance.now self.now.threshold.now }
    {
        if g.mode == Settings::NONE {
            return Ok(());
        }
        let items = items_of(self.length);
        if bad_list(items, self.inter) {
            return Err(Refusal::BadList);
        }
        if g.mode != Settings::FAST
            && (bad_list(items, self.importance) || bad_list(items, self.threshold))
        {
            return Err(Refusal::BadList);
        }
        Ok(())
    }
}

// The refusal of a call: the first that applies of 11, 7, 8, 9 and 10.
#[tactic(auto, using(answer::proofs::Laws::refusals), unfolding(crate::specs::Refusals::step_fault))]
pub fn step_fault(s: State, c: &Call) -> Result<(), Refusal>
    ensures { fault_in result ≡ step_fault (view s) (call_of c.now) }
{
    s.fault()?;
    number_fault(s.last_number, c.number, c.keyframe)?;
    length_fault(s.last_number, s.last_length, c.length)?;
    stop_fault(s.settings, s.offset, c.length)?;
    c.lists_fault(s.settings)
}
