// Calls on planes of either word, and on costs. The depth is given, then of each plane its length, width, height, stride and origin.
use crate::call::Measure;
use crate::memory::{Memory, Side};
use crate::parts::{part, part_mut};
use crate::sample::Sample;
use crate::{memory, sample};

// Room for a plane, and for costs.
pub const SAMPLES: usize = 8704;

pub const COSTS: usize = 64;

// The second plane is the work plane of the intra costs, whose length comes next, and takes the first one reduced, by the
// factor that comes next. The SATD is that of the samples of both.
fn call<S: Sample>(
    measure: Measure,
    memory: &Memory,
    first: &[S],
    second: &mut [S],
    costs: &mut [u32],
    x: &mut f64,
) -> i64 {
    let depth = memory.number(1);
    let p = memory.plane(2, first);
    match measure {
        Measure::Difference => sample::difference(depth, p, memory.plane(7, second)),
        Measure::Total => sample::total(depth, p, memory.plane(7, second)),
        Measure::Delta => sample::delta(depth, p, memory.plane(7, second), x),
        Measure::Importance => sample::importance(depth, p, memory.plane(7, second), x),
        Measure::Satd => sample::satd(p.samples, memory.plane(7, second).samples),
        Measure::Intra => {
            let costs = part_mut(costs, memory.number(12));
            sample::intra(depth, p, memory.plane_mut(7, second), costs)
        }
        Measure::Reduce => sample::reduce(depth, memory.number(12), p, memory.plane_mut(7, second)),
    }
}

// A call over the two lists that its planes are parts of.
pub fn replay<S: Sample>(
    measure: Measure,
    memory: &Memory,
    first: &mut [S],
    second: &mut [S],
) -> bool {
    let mut costs = [0u32; COSTS];
    let mut x = memory.number(memory::QUOTIENT);
    memory.pass(Side::Given, first, memory::FIRST);
    memory.pass(Side::Given, second, memory::SECOND);
    memory.pass(Side::Given, &mut costs, memory::COSTS);
    let answer = call(measure, memory, first, second, &mut costs, &mut x);
    memory.pass(Side::Due, second, memory::SECOND)
        & memory.pass(Side::Due, &mut costs, memory::COSTS)
        & memory.is_due(answer)
        & memory.holds(memory::QUOTIENT, x)
}

// A threshold is given costs alone, as many as the first number says, and the count: the planes' places may hold samples of either word.
pub fn threshold(memory: &Memory) -> bool {
    let mut costs = [0u32; COSTS];
    memory.pass(Side::Given, &mut costs, memory::COSTS);
    let mut x = memory.number(memory::QUOTIENT);
    let answer = brinepulley::brine_threshold(
        part(&costs, memory.number(1)),
        memory.number(2),
        &mut x,
    );
    memory.pass(Side::Due, &mut costs, memory::COSTS)
        & memory.is_due(answer)
        & memory.holds(memory::QUOTIENT, x)
}
