// Calls on a log of scores, which stands where the first plane does; cuts stand in the second, numbers among the costs, bits
// among the numbers of a state. The length of the rest has a place of its own.
use crate::call::Task;
use crate::memory;
use crate::memory::{Memory, Side};
use crate::parts::{part, part_mut};
use crate::planes::{COSTS, SAMPLES};
use brinepulley::card;

// Room for bits.
const BITS: usize = 495;

// What a call is lent.
#[derive(Drop)]
struct Lent {
    log: [u8; SAMPLES],
    cuts: [u8; SAMPLES],
    numbers: [u32; COSTS],
    bits: [u64; BITS],
    torn: u64,
}

impl Lent {
    // The lists are filled, or compared.
    fn pass(&mut self, memory: &Memory, side: Side) -> bool {
        memory.pass(side, &mut self.log, memory::FIRST)
            & memory.pass(side, &mut self.numbers, memory::COSTS)
            & memory.pass(side, &mut self.bits, memory::STATE)
            & memory.pass(side, &mut self.cuts, memory::SECOND)
    }

    // The length of the log.
    fn scan(&mut self, memory: &Memory) -> i64 {
        card::brine_log_scan(part(&self.log, memory.number(1)), &mut self.torn)
    }

    // The length of the log, and how many numbers, bits and cuts are lent.
    fn read(&mut self, memory: &Memory) -> i64 {
        card::brine_log_read(
            part(&self.log, memory.number(1)),
            part_mut(&mut self.numbers, memory.number(2)),
            part_mut(&mut self.bits, memory.number(3)),
            part_mut(&mut self.cuts, memory.number(4)),
            &mut self.torn,
        )
    }

    // The length of the log, how much of it is used; number, the five floats of a score, and the cut.
    fn append(&mut self, memory: &Memory) -> i64 {
        card::brine_log_append(
            part_mut(&mut self.log, memory.number(1)),
            memory.number(2),
            memory.number(3),
            memory.number(4),
            memory.number(5),
            memory.number(6),
            memory.number(7),
            memory.number(8),
            memory.number(9),
        )
    }
}

// (The lists are made where they stand: one that a function hands back is copied, and these are 21 KB.)
pub fn replay(task: Task, memory: &Memory) -> bool {
    let mut lent = Lent {
        log: [0; SAMPLES],
        cuts: [0; SAMPLES],
        numbers: [0; COSTS],
        bits: [0; BITS],
        torn: memory.number(memory::TORN),
    };
    lent.pass(memory, Side::Given);
    let answer = match task {
        Task::Scan => lent.scan(memory),
        Task::Read => lent.read(memory),
        Task::Append => lent.append(memory),
    };
    lent.pass(memory, Side::Due) & memory.is_due(answer) & memory.holds(memory::TORN, lent.torn)
}
