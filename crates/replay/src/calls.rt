// The calls that the list makes: each is given its numbers and lists from the memory. Whether it answered what is due, and wrote what it
// should into lists.
use crate::call::{Block, Call, Measure};
use crate::cut::{HELD, SECOND};
use crate::desk::Desk;
use crate::memory::{Memory, Side};
use crate::parts::part_mut;
use crate::planes::SAMPLES;
use crate::{cut, detect, logs, memory, planes};

const ENTRIES: usize = 128;

// Makes a call of the list. Whether it answered what is due, and wrote what it should.
pub fn replay(call: Call, desk: &mut Desk) -> bool {
    let memory = &desk.memory;
    match call {
        Call::Scale => scale(memory),
        Call::Transform(block) => transform(block, memory),
        Call::Threshold => planes::threshold(memory),
        Call::Fresh => detect::fresh(memory),
        Call::Step => detect::step(memory),
        Call::Bytes(m) => bytes(m, memory),
        Call::Quarters(m) => quarters(m, memory),
        Call::StripsStart => cut::start(memory),
        Call::StripBytes => strip_bytes(memory),
        Call::StripQuarters => strip_quarters(memory),
        Call::StripsEnd => cut::end(memory),
        Call::Log(task) => logs::replay(task, memory),
        Call::End => desk.end(),
    }
}

// The lists of samples are made here, at each word: of a list at a type parameter nothing says that it fits in memory. Each kind of call has
// a function of its own for them: whoever is called pays at once for all the lists that it may make.
#[inline(never)]
fn bytes(m: Measure, memory: &Memory) -> bool {
    planes::replay(m, memory, &mut [0u8; SAMPLES], &mut [0u8; SAMPLES])
}

#[inline(never)]
fn quarters(m: Measure, memory: &Memory) -> bool {
    planes::replay(m, memory, &mut [0u16; SAMPLES], &mut [0u16; SAMPLES])
}

#[inline(never)]
fn strip_bytes(memory: &Memory) -> bool {
    cut::add(
        memory,
        &mut [0u8; SAMPLES],
        &mut [0u8; SECOND],
        &mut [0u8; HELD],
    )
}

#[inline(never)]
fn strip_quarters(memory: &Memory) -> bool {
    cut::add(
        memory,
        &mut [0u16; SAMPLES],
        &mut [0u16; SECOND],
        &mut [0u16; HELD],
    )
}

// Width, height, mode.
fn scale(memory: &Memory) -> bool {
    let answer = brinepulley::brine_scale_factor(
        memory.number(1),
        memory.number(2),
        memory.number(3),
    );
    memory.is_due(answer)
}

// How many entries are lent.
fn transform(block: Block, memory: &Memory) -> bool {
    let mut entries = [0i32; ENTRIES];
    memory.pass(Side::Given, &mut entries, memory::ENTRIES);
    let list = part_mut(&mut entries, memory.number(1));
    let answer = match block {
        Block::Four => brinepulley::brine_hadamard4x4(list),
        Block::Eight => brinepulley::brine_hadamard8x8(list),
    };
    memory.pass(Side::Due, &mut entries, memory::ENTRIES) & memory.is_due(answer)
}
