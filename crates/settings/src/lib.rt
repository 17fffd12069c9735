// The settings of a detector, as `SceneChangeDetector` of analyze.rs has them, and the numbers that follow from them alone.
#![tactic(auto)]

ghost use Rattle.std.specs.Prelude.{◌≡◌};
ghost use Rattle.answer.specs.Answer.{fault_in};
ghost use Rattle.settings.specs.Settings.{lookahead_offset, fast_threshold, importance_threshold, is_scaled, scaled_to, settings_fault};

use answer::Refusal;

// Depth and mode stay numbers: 5 and 6 answer every other one (`settings_fault`), and 11 finds them in a state.
#[derive(Clone, Copy)]
pub struct Settings {
    pub width: usize,
    pub height: usize,
    pub bit_depth: u64,
    pub lookahead_distance: usize,
    pub mode: u64,
    pub min_key_frame_interval: u64,
    pub max_key_frame_interval: u64,
}

impl Settings {
    // The importance that a cut needs, at the base depth.
    pub const IMP_BLOCK_DIFF_THRESHOLD: f64 = 7.0;

    // The threshold of a score in Fast mode, at the base depth.
    pub const FAST_THRESHOLD: f64 = 18.0;

    // The depth at which the two thresholds above are given.
    pub const BASE_DEPTH: f64 = 8.0;

    // How many scores the deque has room for.
    pub const ROOM: usize = 16;

    // The most frames of a set: a first set of so many leaves as many scores, since one item is scored twice.
    pub const SET_LIMIT: usize = Settings::ROOM;

    // The lookahead offset where the lookahead distance is at least as large, and how many earlier scores are kept.
    pub const NORMAL_LOOKAHEAD: usize = 5;

    // The modes (`SceneDetectionSpeed`) by their numbers; 2 is Standard.
    pub const NONE: u64 = 0;

    pub const FAST: u64 = scale::FAST;

    // Refusal 6 or 5 of the settings.
    #[tactic(auto, using(answer::proofs::Laws::refusals), unfolding(crate::specs::Settings::settings_fault))]
    pub fn fault(self) -> Result<(), Refusal>
        ensures { fault_in result ≡ settings_fault self }
    {
        scale::size_fault(self.width, self.height, self.mode)?;
        plane::depth_fault(self.bit_depth)
    }

    // Whether frames are reduced before they are compared.
    #[tactic(auto, unfolding(crate::specs::Settings::is_scaled))]
    pub fn scaled(self) -> bool
        ensures { result ≡ is_scaled self }
    {
        let factor = scale::detect_scale_factor(self.width, self.height, self.mode);
        factor.is_ok_and(|k| k != 1)
    }

    // A, the lookahead offset.
    pub fn lookahead_offset(self) -> usize
        ensures { result ≡ lookahead_offset self }
    {
        if Settings::NORMAL_LOOKAHEAD <= self.lookahead_distance {
            return Settings::NORMAL_LOOKAHEAD;
        }
        0
    }

    // A threshold that is given at the base depth, at the settings' own.
    fn at_depth(self, base: f64) -> f64
        ensures { result ≡ scaled_to self base }
    {
        let depth = std::num::nearest_u64_to_f64(self.bit_depth);
        base * depth / Settings::BASE_DEPTH
    }

    pub fn fast_threshold(self) -> f64
        ensures { result ≡ fast_threshold self }
    {
        self.at_depth(Settings::FAST_THRESHOLD)
    }

    pub fn importance_threshold(self) -> f64
        ensures { result ≡ importance_threshold self }
    {
        self.at_depth(Settings::IMP_BLOCK_DIFF_THRESHOLD)
    }
}
