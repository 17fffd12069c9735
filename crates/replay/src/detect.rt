// Calls on the detector, whose state is two lists.
use crate::memory;
use crate::memory::{Memory, Side};
use crate::parts::{part, part_mut};

// Room for the numbers and the floats of a state; for a list of measures, and for three.
const NUMBERS: usize = 496;

const SCORES: usize = 511;

const LIST: usize = 64;

const LISTS: usize = 3 * LIST;

#[derive(Drop)]
struct State {
    numbers: [u64; NUMBERS],
    scores: [f64; SCORES],
}

impl State {
    fn new(memory: &Memory) -> State {
        let mut state = State {
            numbers: [0; NUMBERS],
            scores: [0.0; SCORES],
        };
        state.pass(memory, Side::Given);
        state
    }

    // It is filled, or compared.
    fn pass(&mut self, memory: &Memory, side: Side) -> bool {
        memory.pass(side, &mut self.numbers, memory::STATE)
            & memory.pass(side, &mut self.scores, memory::SCORES)
    }

    // The seven settings; how many numbers and how many floats are lent.
    fn fresh(&mut self, memory: &Memory) -> i64 {
        brinepulley::brine_detector_fresh(
            memory.number(1),
            memory.number(2),
            memory.number(3),
            memory.number(4),
            memory.number(5),
            memory.number(6),
            memory.number(7),
            part_mut(&mut self.numbers, memory.number(8)),
            part_mut(&mut self.scores, memory.number(9)),
        )
    }

    // How many numbers and how many floats are lent; L, n, p; how long each list is: one that is too long goes on in the next.
    fn step(&mut self, memory: &Memory, lists: &[f64; LISTS]) -> i64 {
        brinepulley::brine_detector_step(
            part_mut(&mut self.numbers, memory.number(1)),
            part_mut(&mut self.scores, memory.number(2)),
            memory.number(3),
            memory.number(4),
            memory.number(5),
            part(lists, memory.number(6)),
            part(&lists[LIST..], memory.number(7)),
            part(&lists[2 * LIST..], memory.number(8)),
        )
    }
}

pub fn fresh(memory: &Memory) -> bool {
    let mut state = State::new(memory);
    let answer = state.fresh(memory);
    state.pass(memory, Side::Due) & memory.is_due(answer)
}

pub fn step(memory: &Memory) -> bool {
    let mut lists = [0.0f64; LISTS];
    memory.pass(Side::Given, &mut lists, memory::LISTS);
    let mut state = State::new(memory);
    let answer = state.step(memory, &lists);
    state.pass(memory, Side::Due) & memory.is_due(answer)
}
