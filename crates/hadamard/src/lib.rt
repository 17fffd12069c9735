// The Hadamard transform in place, of four rows of four entries and of eight rows of eight. All lines have four entries:
// 16 entries are four columns and four rows of four, and 64 are four columns of 16 and 16 rows of four. Each line is loaded,
// transformed and stored in its place, the rows of 64 a stage at a time: there is no other list than the caller's.
#![tactic(auto)]

ghost use Rattle.std.specs.Prelude.{◌≡◌, ◌+◌, ◌*◌, ◌<◌, ◌^◌, nat_abs, length};
ghost use Rattle.answer.specs.Answer.{fault_in};
ghost use Rattle.hadamard.specs.Transform.{output, entry_most, some_beyond, transform_fault, after_transform};
ghost use Rattle.hadamard.specs.Steps.{two_of, four_of, nth, stage_of, AllWithin, line_entry, stores, lined_by, lined, all_lined_by, all_lined, LineIn, LinesIn, line_most, stage_most, out_most};

use answer::Refusal;

// The largest entry, in size.
const MOST: u32 = 65535;

// The sum and the difference of two numbers: every step of the transform.
fn butterfly(a: i32, b: i32) -> (i32, i32)
    requires a_bound { nat_abs a < 2 ^ 30 }
    requires b_bound { nat_abs b < 2 ^ 30 }
    ensures { result ≡ two_of a b }
{
    (a + b, a - b)
}

// The sums of two pairs of neighbours, and then their differences: a stage of the transform.
fn paired(x: [i32; 4]) -> [i32; 4]
    requires { AllWithin stage_most x }
    ensures { result ≡ four_of (stage_of (nth x)) }
{
    let (sum, difference) = butterfly(x[0], x[1]);
    let (next_sum, next_difference) = butterfly(x[2], x[3]);
    [sum, next_sum, difference, next_difference]
}

// The transform of four numbers: two stages.
fn network(x: [i32; 4]) -> [i32; 4]
    requires { AllWithin line_most x }
    ensures { result ≡ four_of (output 4 (nth x)) }
{
    paired(paired(x))
}

// The four entries from place at on, a step apart. (A line is a list, a place and a step: entries of lines lie among each other, so none is a
// part of the list.)
fn load(block: &[i32], at: usize, step: usize) -> [i32; 4]
    requires { at + 3 * step < length block.now }
    ensures { result ≡ four_of (line_entry block.now at step) }
{
    [
        block[at],
        block[at + step],
        block[at + 2 * step],
        block[at + 3 * step],
    ]
}

// Puts four numbers into these places.
fn store(block: &mut [i32], at: usize, step: usize, y: [i32; 4])
    requires step_in_bounds { at + 3 * step < length block.old }
    requires four_within { AllWithin out_most y }
    ensures { block.new ≡ stores 4 at step (nth y) block.old }
{
    block[at] = y[0];
    block[at + step] = y[1];
    block[at + 2 * step] = y[2];
    block[at + 3 * step] = y[3];
}

// The transform of a line of four entries, in their places.
fn line4(block: &mut [i32], at: usize, step: usize)
    requires { LineIn 4 at step line_most block.old }
    ensures { block.new ≡ lined 4 at step block.old }
{
    let y = network(load(block, at, step));
    store(block, at, step, y);
}

// The transform of four lines of four. (By number: the entries of a line lie a step apart, so no iterator over parts gives a line.)
fn lines(block: &mut [i32], first: usize, step: usize)
    requires { LinesIn 4 4 first step line_most block.old }
    ensures { block.new ≡ all_lined 4 first step 4 block.old }
{
    for i in 0..4 {
        line4(block, i * first, step);
    }
}

// The transform of the 16 entries from the first on, a step apart: four columns, and then four rows.
fn line16(block: &mut [i32], step: usize)
    requires step_nonzero { 0 < step }
    requires line_in { LineIn 16 0 step entry_most block.old }
    ensures { block.new ≡ lined 16 0 step block.old }
{
    lines(block, step, 4 * step);
    lines(block, 4 * step, step);
}

// The transform of four columns of 16. (By number: the four overlap, so no method cuts the list into them.) Each is a part of its own, so that the places in it are the same for all four: the
// compiler then takes the four at once.
fn columns(block: &mut [i32])
    requires { LinesIn 16 4 1 4 entry_most block.old }
    ensures { block.new ≡ all_lined 16 1 4 4 block.old }
{
    for i in 0..4 {
        line16(&mut block[i..], 4);
    }
}

// A stage of a line of four entries, in their places. (That and `line4` stay two: a closure for what is done would bring its own clauses to
// both, and they are two lines each.)
fn stage(block: &mut [i32], at: usize, step: usize)
    requires { LineIn 4 at step stage_most block.old }
    ensures { block.new ≡ lined_by stage_of 4 at step block.old }
{
    let y = paired(load(block, at, step));
    store(block, at, step, y);
}

// A stage of 16 rows of four. (By number: of what is written through `as_chunks_mut` a proof knows nothing.)
fn stage_rows(block: &mut [i32])
    requires { LinesIn 4 16 4 1 stage_most block.old }
    ensures { block.new ≡ all_lined_by stage_of 4 4 1 16 block.old }
{
    for i in 0..16 {
        stage(block, i * 4, 1);
    }
}

// The transform of 16 rows of four. A stage goes through all rows before the next one begins: with both stages of a row at once
// the compiler shuffles its entries six times, with one stage at a time twice in each.
fn rows(block: &mut [i32])
    requires block_len { length block.old ≡ 64 }
    requires lines_in { LinesIn 4 16 4 1 line_most block.old }
    ensures { block.new ≡ all_lined 4 4 1 16 block.old }
{
    stage_rows(block);
    stage_rows(block);
}

// Whether an entry is out of range. It looks at every entry, since the compiler makes vector code of a loop that is not left early.
fn some_beyond(block: &[i32]) -> bool
    ensures { result ≡ some_beyond block.now }
{
    block
        .iter()
        .fold(false, |some, v| some | (v.unsigned_abs() > MOST))
}

// The refusal of a list as n rows of n entries. (n is a side, and no count of the list.)
fn fault(block: &[i32], n: usize) -> Result<(), Refusal>
    requires { n * n < 2 ^ 32 }
    ensures { fault_in result ≡ transform_fault n block.now }
{
    if block.len() != n * n {
        return Err(Refusal::PastSamples);
    }
    if some_beyond(block) {
        return Err(Refusal::BadList);
    }
    Ok(())
}

// The transform of 16 entries, four rows of four, in their place.
#[tactic(auto, using(answer::proofs::Laws::lents))]
pub fn hadamard4x4(block: &mut [i32]) -> Result<(), Refusal>
    ensures value { fault_in result ≡ transform_fault 4 block.old }
    ensures block_after { block.new ≡ after_transform 4 block.old }
{
    fault(block, 4)?;
    line16(block, 1);
    Ok(())
}

// The transform of 64 entries, eight rows of eight, in their place. (The two sizes take other steps, so no constant makes them one.)
#[tactic(auto, using(answer::proofs::Laws::lents))]
pub fn hadamard8x8(block: &mut [i32]) -> Result<(), Refusal>
    ensures value { fault_in result ≡ transform_fault 8 block.old }
    ensures block_after { block.new ≡ after_transform 8 block.old }
{
    fault(block, 8)?;
    columns(block);
    rows(block);
    Ok(())
}
