// Calls on two frames that come in strips. The strips stand where planes do, the room behind the second, the carry where the numbers
// of a state do; the two totals of an end have the last places there.
use crate::memory::{Memory, Side};
use crate::parts::{part, part_mut};
use crate::planes::COSTS;
use crate::sample::Sample;
use crate::{memory, sample};
use brinepulley::sensor;

// Room for the carry, for the second strip, for what is held of both.
const CARRY: usize = 494;

pub const SECOND: usize = 8192;

pub const HELD: usize = 512;

// Depth, width, height; how many numbers are lent.
pub fn start(memory: &Memory) -> bool {
    let mut carry = [0u64; CARRY];
    memory.pass(Side::Given, &mut carry, memory::STATE);
    let answer = sensor::brine_strips_start(
        memory.number(1),
        memory.number(2),
        memory.number(3),
        part_mut(&mut carry, memory.number(4)),
    );
    memory.pass(Side::Due, &mut carry, memory::STATE) & memory.is_due(answer)
}

// How many numbers are lent. The two totals have places of their own.
pub fn end(memory: &Memory) -> bool {
    let mut carry = [0u64; CARRY];
    memory.pass(Side::Given, &mut carry, memory::STATE);
    let mut difference = memory.number(memory::DIFFERENCE);
    let mut total = memory.number(memory::TOTAL);
    let lent = part(&carry, memory.number(1));
    let answer = sensor::brine_strips_end(lent, &mut difference, &mut total);
    memory.is_due(answer)
        & memory.holds(memory::DIFFERENCE, difference)
        & memory.holds(memory::TOTAL, total)
}

// What is kept between two strips.
#[derive(Drop)]
struct Kept<'a, S> {
    carry: [u64; CARRY],
    room: &'a mut [S],
    costs: [u32; COSTS],
}

impl<S: Sample> Kept<'_, S> {
    // It is filled, or compared.
    fn pass(&mut self, memory: &Memory, side: Side) -> bool {
        memory.pass(side, &mut self.carry, memory::STATE)
            & memory.pass(side, self.room, memory::HELD)
            & memory.pass(side, &mut self.costs, memory::COSTS)
    }

    // How many numbers are lent; both strips, which are only read; how many costs are lent, and how much room.
    fn add(&mut self, memory: &Memory, first: &[S], second: &[S]) -> i64 {
        sample::add(
            part_mut(&mut self.carry, memory.number(1)),
            memory.plane(2, first),
            memory.plane(7, second),
            part_mut(self.room, memory.number(13)),
            part_mut(&mut self.costs, memory.number(12)),
        )
    }
}

// The strips and the room are lent the lists.
pub fn add<S: Sample>(memory: &Memory, first: &mut [S], second: &mut [S], room: &mut [S]) -> bool {
    memory.pass(Side::Given, first, memory::FIRST);
    memory.pass(Side::Given, second, memory::SECOND);
    let mut kept = Kept {
        carry: [0; CARRY],
        room,
        costs: [0; COSTS],
    };
    kept.pass(memory, Side::Given);
    let answer = kept.add(memory, first, second);
    kept.pass(memory, Side::Due) & memory.is_due(answer)
}
