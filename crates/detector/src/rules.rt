// Rules 3 to 6 of the step. The functions here ask for what the refusals leave.
ghost use Rattle.std.specs.Prelude.{◌≡◌, ◌&&◌, ◌+◌, ◌<◌, ◌≤◌};
ghost use Rattle.settings.specs.Settings.{room, is_fast, is_scaled, fast_threshold};
ghost use Rattle.score.specs.Deque.{content, held, holding};
ghost use Rattle.state.specs.State.{call_of};
ghost use Rattle.detector.specs.Rules.{again_of, items_of, rule3, rule4, rule5, interval_of, rule6};
ghost use Rattle.detector.specs.Step.{item_in};
ghost use Rattle.detector.specs.Needs.{Readable, Startable, Ready, turn};

use score::{Measure, ScoreDeque, decision, scoring};
use settings::Settings;
use state::Call;

// A call that no refusal forbids, with the settings that say which of its lists are read.
#[derive(Clone, Copy)]
pub struct Reading<'a> {
    pub settings: Settings,
    pub call: Call<'a>,
    ghost readable: { Readable settings (call_of call) },
}

// The deque and the offset within a call. `again` says that rule 4 scored every item, so that rule 5 scores one twice.
#[derive(Clone, Copy)]
pub struct Progress {
    pub deque: ScoreDeque,
    pub offset: usize,
    pub again: bool,
}

impl Reading<'_> {
    // What was measured of item k. A list that the mode does not read is not looked at. (One test of a mode, which is a number.)
    fn measure_at(&self, k: usize) -> Measure
        requires { k + 1 < self.now.call.length }
        ensures { result ≡ item_in self.now.settings (call_of self.now.call) k }
    {
        let inter = self.call.inter[k];
        if self.settings.mode == Settings::FAST {
            return Measure {
                inter,
                importance: 0.0,
                threshold: 0.0,
            };
        }
        Measure {
            inter,
            importance: self.call.importance[k],
            threshold: self.call.threshold[k],
        }
    }

    // The deque with items 0 to k - 1 scored. (By number: it is the pair's number too, and the mode says which lists have an item.)
    fn items_scored(&self, o: usize, k: usize, d: ScoreDeque) -> ScoreDeque
        requires { (d.count + k ≤ room) × (k < self.now.call.length) }
        ensures { held result ≡ holding (items_of (is_fast self.now.settings) (fast_threshold self.now.settings) o self.now.call.number (item_in self.now.settings (call_of self.now.call)) k (content d)) }
    {
        let fast = self.settings.mode == Settings::FAST;
        let level = self.settings.fast_threshold();
        let n = self.call.number;
        let mut out = d;
        for i in 0..k {
            let m = self.measure_at(i);
            out = scoring::run_comparison(fast, level, o, n + i as u64, m, out);
        }
        out
    }

    // Rule 4.
    pub fn initialized(&self, o: usize, d: ScoreDeque) -> Progress
        requires { Startable self.now.call.length o d.count }
        ensures { turn result ≡ rule4 self.now.settings self.now.call.length self.now.call.number (item_in self.now.settings (call_of self.now.call)) o (content d) }
    {
        let length = self.call.length;
        if d.count != 0 {
            return Progress {
                deque: d,
                offset: o,
                again: false,
            };
        }
        let ahead = 0 < o && o + 1 < length;
        let (items, at) = if ahead {
            (o, o)
        } else {
            (length - 1, length - 2)
        };
        let deque = self.items_scored(o, items, d);
        Progress {
            deque,
            offset: at,
            again: !ahead,
        }
    }

    // The same where rule 5 scores it: an item that is scored again is compared with itself, and has delta 0, where frames are reduced.
    fn measured_again(&self, again: bool, k: usize) -> Measure
        requires { k + 1 < self.now.call.length }
        ensures { result ≡ again_of (again && is_scaled self.now.settings) (item_in self.now.settings (call_of self.now.call) k) }
    {
        let m = self.measure_at(k);
        if again && self.settings.scaled() {
            return Measure { inter: 0.0, ..m };
        }
        m
    }

    // Rule 5.
    pub fn advanced(&self, q: Progress) -> Progress
        requires { Ready self.now.call.length (turn q) }
        ensures { turn result ≡ rule5 self.now.settings self.now.call.length self.now.call.number (item_in self.now.settings (call_of self.now.call)) (turn q) }
    {
        let o = q.offset;
        if o + 1 < self.call.length {
            let fast = self.settings.mode == Settings::FAST;
            let level = self.settings.fast_threshold();
            let m = self.measured_again(q.again, o);
            let deque = scoring::run_comparison(
                fast,
                level,
                o,
                self.call.number + o as u64,
                m,
                q.deque,
            );
            return Progress { deque, ..q };
        }
        Progress { offset: o - 1, ..q }
    }
}

// Rule 3. (Apart from the interval rules, as document 01 has it: `rule3` and `interval_of` are two definitions.)
pub fn none_cut(g: Settings, distance: u64) -> bool
    ensures { result ≡ rule3 g distance }
{
    g.min_key_frame_interval <= distance && g.max_key_frame_interval <= distance
}

// The interval rules, over what was decided.
fn with_interval(g: Settings, distance: u64, cut: bool) -> bool
    ensures { result ≡ interval_of g distance cut }
{
    g.min_key_frame_interval <= distance && (g.max_key_frame_interval <= distance || cut)
}

impl Progress {
    // Rule 6.
    pub fn decided(self, g: Settings, distance: u64) -> bool
        ensures { result ≡ rule6 g distance (turn self) }
    {
        let fast = g.mode == Settings::FAST;
        let level = g.importance_threshold();
        let cut = decision::adaptive_scenecut(fast, level, self.deque, self.offset);
        with_interval(g, distance, cut)
    }
}
