// The scores of analyze.rs: `ScenecutResult`, and the deque that holds them as an array and a count.
#![tactic(auto)]

ghost use Rattle.std.specs.Prelude.{◌≡◌, [], ◌∷◌, ◌≤◌, take, get_or};
ghost use Rattle.settings.specs.Settings.{room};
ghost use Rattle.score.specs.Deque.{score_from, no_score, content, held, holding, trimmed_to};

use settings::Settings;

pub mod decision;
pub mod numbers;
pub mod scoring;

// The largest finite f64, for whoever cites it: the code here calls it `f64::MAX`.
pub const F64_MAX: f64 = f64::MAX;

// The scores of a pair of frames, and which pair that is.
#[derive(Clone, Copy)]
pub struct ScenecutResult {
    pub pair_number: u64,
    pub inter_cost: f64,
    pub imp_block_cost: f64,
    pub backward_adjusted_cost: f64,
    pub forward_adjusted_cost: f64,
    pub threshold: f64,
}

// What was measured of a pair of frames.
#[derive(Clone, Copy)]
pub struct Measure {
    pub inter: f64,
    pub importance: f64,
    pub threshold: f64,
}

// The scores that are kept, the newest in front. Slots past the count are no part of it. (An array with a count beside it, since there is no
// heap, and a state that C lends may hold any count: refusal 11 answers it.)
#[derive(Clone, Copy)]
pub struct ScoreDeque {
    pub entries: [ScenecutResult; Settings::ROOM],
    pub count: usize,
}

impl ScenecutResult {
    // Every score is made here, so that a further field has one place to go.
    pub fn new(
        pair_number: u64,
        inter_cost: f64,
        imp_block_cost: f64,
        backward_adjusted_cost: f64,
        forward_adjusted_cost: f64,
        threshold: f64,
    ) -> ScenecutResult
        ensures { result ≡ score_from pair_number inter_cost imp_block_cost backward_adjusted_cost forward_adjusted_cost threshold }
    {
        ScenecutResult {
            pair_number,
            inter_cost,
            imp_block_cost,
            backward_adjusted_cost,
            forward_adjusted_cost,
            threshold,
        }
    }
}

impl ScoreDeque {
    pub fn empty() -> ScoreDeque
        ensures { held result ≡ holding [] }
    {
        let none = ScenecutResult::new(0, 0.0, 0.0, 0.0, 0.0, 0.0);
        ScoreDeque {
            entries: [none; Settings::ROOM],
            count: 0,
        }
    }

    // The entries, front first. A count above the room is read as the room: that of a state which 11 will refuse may be any number.
    fn scores(&self) -> &[ScenecutResult]
        ensures { result.now ≡ content self.now }
    {
        &self.entries[..self.count.min(Settings::ROOM)]
    }

    // One score more, in front. Where all the room is taken the last entry falls out. (One by one, by index: `copy_within` calls memmove, which
    // whoever links the archive would have to bring.)
    fn push_front(&mut self, s: ScenecutResult)
        ensures { held self.new ≡ holding (take room (s ∷ content self.old)) }
    {
        let kept = self.count.min(Settings::ROOM - 1);
        let mut carried = s;
        for i in 0..kept + 1 {
            let next = self.entries[i];
            self.entries[i] = carried;
            carried = next;
        }
        self.count = kept + 1;
    }

    // Entry i, counted from the front; a score of NaNs, of pair 0, where there is none (`no_score` of the clause, so no Option).
    pub fn entry(self, i: usize) -> ScenecutResult
        ensures { result ≡ get_or (content self) i no_score }
    {
        match self.scores().get(i) {
            Some(e) => *e,
            None => {
                let nan = f64::NAN;
                ScenecutResult::new(0, nan, nan, nan, nan, nan)
            }
        }
    }

    // Without the last entry, where there are more than `most`.
    pub fn trimmed(mut self, most: usize) -> ScoreDeque
        ensures { held result ≡ holding (trimmed_to most (content self)) }
    {
        let count = self.scores().len();
        self.count = if most < count { count - 1 } else { count };
        self
    }
}
