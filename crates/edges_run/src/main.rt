// Writes the values of document 01's "Values at the edges" that have no star, and values that tell its rules from other readings of
// them, one to a line: a number, or the bits of a float.
#![tactic(auto)]

use answer::Refusal;
use detector::{Decision, Stepped, runs};
use plane::Plane;
use score::{Measure, ScenecutResult, ScoreDeque, scoring};
use settings::Settings;
use state::{Call, State};
use std::fmt::Display;
use std::{fmt, io};

const DEPTH: u64 = 8;

// A float by its bits; every NaN is one.
#[derive(Clone, Copy)]
struct Bits(f64);

impl Display for Bits {
    fn fmt<W: fmt::Write>(&self, f: &mut fmt::Formatter<W>) -> fmt::Result {
        if self.0.is_nan() {
            return write!(f, "NaN");
        }
        write!(f, "{:016x}", self.0.to_bits())
    }
}

// The backward cost of the score that a step answers.
#[derive(Clone, Copy)]
struct Backward(Decision);

impl Display for Backward {
    fn fmt<W: fmt::Write>(&self, f: &mut fmt::Formatter<W>) -> fmt::Result {
        match self.0.score {
            Some(score) => write!(f, "{}", Bits(score.backward_adjusted_cost)),
            None => write!(f, "no score"),
        }
    }
}

// What was measured of the pair that a step decides on.
#[derive(Clone, Copy)]
struct Measures(Decision);

impl Display for Measures {
    fn fmt<W: fmt::Write>(&self, f: &mut fmt::Formatter<W>) -> fmt::Result {
        match self.0.score {
            Some(s) => write!(
                f,
                "{}\n{}\n{}",
                Bits(s.inter_cost),
                Bits(s.imp_block_cost),
                Bits(s.threshold)
            ),
            None => write!(f, "no score"),
        }
    }
}

// What was answered, or that it was refused, in a line of its own.
fn put<T: Display + Drop>(rt: &impl Print, answer: Result<T, Refusal>) -> io::Result<()> {
    match answer {
        Ok(x) => println!(rt; "{x}"),
        Err(refusal) => println!(rt; "{refusal}"),
    }
}

// "Small edge 240 none, 241 gives 2"
fn put_edges(rt: &impl Print) -> io::Result<()> {
    print!(rt; "small edge 240: ")?;
    put(rt, scale::detect_scale_factor(240, 4000, Settings::FAST))?;
    print!(rt; "small edge 241: ")?;
    put(rt, scale::detect_scale_factor(4000, 241, Settings::FAST))
}

// A plane that starts at the first sample and has no gap between its rows.
fn whole_plane(width: usize, height: usize) -> Plane {
    Plane {
        width,
        height,
        stride: width,
        origin: 0,
    }
}

// "A 15x8 plane has one block", and document 02 of 7x8: "new 19, no block". The planes hold 0 and 9.
fn put_blocks(rt: &impl Print) -> io::Result<()> {
    let dark = [0u8; 120];
    let light = [9u8; 120];
    let wide = whole_plane(15, 8);
    let narrow = Plane { width: 7, ..wide };
    print!(rt; "15x8, 0 against 9, total: ")?;
    put(
        rt,
        importance::importance_total(DEPTH, wide, &dark, wide, &light),
    )?;
    print!(rt; "15x8, 0 against 9, importance: ")?;
    put(
        rt,
        importance::importance(DEPTH, wide, &dark, wide, &light).map(Bits),
    )?;
    print!(rt; "7x8, 0 against 9, importance: ")?;
    put(
        rt,
        importance::importance(DEPTH, narrow, &dark, narrow, &light).map(Bits),
    )
}

// A fresh detector in Standard mode.
fn fresh(lookahead: usize) -> State {
    let settings = Settings {
        width: 64,
        height: 64,
        bit_depth: 8,
        lookahead_distance: lookahead,
        mode: scale::STANDARD,
        min_key_frame_interval: 0,
        max_key_frame_interval: 100,
    };
    detector::fresh(settings).state
}

// A call after which no keyframe came, every list alike.
fn call(length: usize, number: u64, list: &[f64]) -> Call {
    Call {
        length,
        number,
        keyframe: 0,
        inter: list,
        importance: list,
        threshold: list,
    }
}

// The first call of a detector with lookahead 5.
fn put_first(rt: &impl Print, length: usize, n: u64, list: &[f64]) -> io::Result<()> {
    put(
        rt,
        detector::step(fresh(5), &call(length, n, list))
            .answer
            .map(Backward),
    )
}

// "Lookahead 5, L 5: no score. Standard, L 7: backward is f64::MAX for first number 5, 0 for 1."
fn put_steps(rt: &impl Print) -> io::Result<()> {
    let six = [1.0, 2.0, 3.0, 4.0, 5.0, 6.0];
    print!(rt; "Standard, lookahead 5, L 5: ")?;
    put_first(rt, 5, 5, &six[..4])?;
    print!(rt; "Standard, lookahead 5, L 7, first number 5, backward: ")?;
    put_first(rt, 7, 5, &six)?;
    print!(rt; "Standard, lookahead 5, L 7, first number 1, backward: ")?;
    put_first(rt, 7, 1, &six)
}

// "Reduced sides are the sides divided by the factor, rounded down."
fn put_sides(rt: &impl Print) -> io::Result<()> {
    print!(rt; "241x243, reduced: ")?;
    match scale::reduced_sides(241, 243, Settings::FAST) {
        Ok(sides) => println!(rt; "{}x{}", sides.width, sides.height),
        Err(refusal) => println!(rt; "{refusal}"),
    }
}

// "Two planes: the first plane's 1 and 2, then the second's" (Each of these stands under the sentence of document 01 that it shows.)
fn put_planes(rt: &impl Print) -> io::Result<()> {
    let samples = [0u8; 128];
    let long = whole_plane(16, 9);
    let none = whole_plane(0, 8);
    print!(rt; "2 of the first plane, 1 of the second: ")?;
    put(
        rt,
        importance::importance_total(DEPTH, long, &samples, none, &samples),
    )
}

// 3 before 19: planes of another height, neither with a block
fn put_no_block(rt: &impl Print) -> io::Result<()> {
    let samples = [0u8; 128];
    let short = whole_plane(7, 8);
    let long = whole_plane(7, 9);
    print!(rt; "3 of two planes, 19 of both: ")?;
    put(
        rt,
        importance::importance_total(DEPTH, short, &samples, long, &samples),
    )
}

// 3 before 4
fn put_costs(rt: &impl Print) -> io::Result<()> {
    let samples = [0u8; 128];
    let mut work = [0u8; 128];
    let mut costs = [0u32; 1];
    let wide = whole_plane(16, 8);
    let narrow = whole_plane(8, 8);
    print!(rt; "3 of two planes, 4 of the cost list: ")?;
    put(
        rt,
        intra::estimate_intra_costs(DEPTH, wide, &samples, narrow, &mut work, &mut costs),
    )
}

// 8 before 9: one frame after an empty set, with no item. 9 before 10: one frame, with lists that should be empty.
fn put_orders(rt: &impl Print) -> io::Result<()> {
    let one = [1.0];
    let empty = detector::step(fresh(0), &call(0, 1, &one[..0])).state;
    print!(rt; "Standard, lookahead 0, L 1 after L 0, 8 and 9: ")?;
    put(
        rt,
        detector::step(empty, &call(1, 2, &one[..0]))
            .answer
            .map(Backward),
    )?;
    print!(rt; "Standard, lookahead 0, L 1 with one item, 9 and 10: ")?;
    put(
        rt,
        detector::step(fresh(0), &call(1, 1, &one))
            .answer
            .map(Backward),
    )
}

// The measure of a pair of which only the inter cost counts.
fn measure(inter: f64) -> Measure {
    Measure {
        inter,
        importance: 0.0,
        threshold: 0.0,
    }
}

// "If o > 0, backward becomes 0 for pair 1": the walk alone is left out, and the entries before it take their forward costs.
fn put_pair_one(rt: &impl Print) -> io::Result<()> {
    let before = scoring::run_comparison(false, 18.0, 1, 7, measure(9.0), ScoreDeque::empty());
    let after = scoring::run_comparison(false, 18.0, 1, 1, measure(5.0), before);
    let forward = Bits(after.entry(1).forward_adjusted_cost);
    println!(rt; "inter cost 9, then 5 as pair 1, forward of the first: {forward}")
}

// Two calls over a film, lookahead 0: the second reads from the second place on.
fn put_run(rt: &impl Print) -> io::Result<()> {
    let inter = [1.0, 2.0, 3.0];
    let importance = [4.0, 5.0, 6.0];
    let threshold = [7.0, 8.0, 9.0];
    let start = Stepped {
        answer: Ok(Decision {
            cut: false,
            score: None,
        }),
        state: fresh(0),
    };
    let last = runs::run(
        start,
        &[1, 2],
        &[2, 2],
        &[0, 0],
        &inter,
        &importance,
        &threshold,
    );
    println!(rt; "Standard, lookahead 0, a run of two calls, the last one's three numbers:")?;
    put(rt, last.answer.map(Measures))
}

fn main(rt: HostRuntime) -> io::Result<()> {
    put_edges(&rt)?;
    put_sides(&rt)?;
    put_blocks(&rt)?;
    put_planes(&rt)?;
    put_no_block(&rt)?;
    put_costs(&rt)?;
    put_steps(&rt)?;
    put_orders(&rt)?;
    put_pair_one(&rt)?;
    put_run(&rt)
}
