// The carry: six numbers that a caller keeps between calls, and refusal 11.
ghost use Rattle.std.specs.Prelude.{◌||◌, ◌≡◌, ◌+◌, ◌≤◌, ◌<◌, ◌^◌, ltb, length};
ghost use Rattle.answer.specs.Answer.{answer_of, answered};
ghost use Rattle.plane.specs.Planes.{max_side};
ghost use Rattle.strips.specs.Carry.{carry_long, carry_by, carry_of, carry_numbers, blocks_in, totals_past, carry_unfit, carry_fault};

use answer::Refusal;
use plane::{BLOCK_SIDE, Plane};

// How many numbers a carry has.
pub const CARRY: usize = 6;

// What is carried from call to call, by name. The depth stays a number: a caller may hand back any, which 5 answers (`end_fault`).
#[derive(Clone, Copy)]
pub struct Carry {
    pub width: usize,
    pub height: usize,
    pub depth: u64,
    pub rows: usize,
    pub difference: u64,
    pub importance: u64,
}

// The six numbers in their lent places, by name. (Place by place, here and back: C lends a list, of which the header names each place.)
fn lent_carry(numbers: &[u64]) -> Carry
    requires { length numbers.now ≡ carry_long }
    ensures { result ≡ carry_of numbers.now }
{
    Carry {
        width: numbers[0] as usize,
        height: numbers[1] as usize,
        depth: numbers[2],
        rows: numbers[3] as usize,
        difference: numbers[4],
        importance: numbers[5],
    }
}

// And back.
pub fn put_carry(numbers: &mut [u64], c: Carry)
    requires { length numbers.old ≡ carry_long }
    ensures { numbers.new ≡ carry_numbers c }
{
    numbers[0] = c.width as u64;
    numbers[1] = c.height as u64;
    numbers[2] = c.depth;
    numbers[3] = c.rows as u64;
    numbers[4] = c.difference;
    numbers[5] = c.importance;
}

// Whether a total is above the limit.
fn is_above(c: Carry, limit: u64) -> bool
    ensures { result ≡ ltb limit c.difference || ltb limit c.importance }
{
    (limit < c.difference) | (limit < c.importance)
}

// Whether a total is above what the rows that have come can add up to, by the carry's own depth. A depth that is none has no such limit.
fn totals_past(c: Carry) -> bool
    requires { (c.rows ≤ max_side) × (c.width ≤ max_side) }
    ensures { result ≡ totals_past c }
{
    let depth = c.depth;
    let area = (c.rows * c.width) as u64;
    if depth == 8 {
        return is_above(c, area * 255);
    }
    if depth == 10 {
        return is_above(c, area * 1023);
    }
    if depth == 12 {
        return is_above(c, area * 4095);
    }
    false
}

// Whether 11 refuses it. Sides and rows are looked at first, so that the limit of the totals does not overflow.
fn carry_unfit(c: Carry) -> bool
    ensures { result ≡ carry_unfit c }
{
    let height = c.height;
    if plane::bad_side(c.width) | plane::bad_side(height) | (height < c.rows) {
        return true;
    }
    totals_past(c)
}

// The carry in its lent places, or 11.
pub fn fit_carry(numbers: &[u64]) -> Result<Carry, Refusal>
    ensures { answer_of result ≡ answered (carry_fault numbers.now) (carry_of numbers.now) }
{
    if numbers.len() != CARRY {
        return Err(Refusal::BadState);
    }
    let c = lent_carry(numbers);
    if carry_unfit(c) {
        return Err(Refusal::BadState);
    }
    Ok(c)
}

// How many whole blocks the planes have that the strips are cut from.
pub fn blocks(c: Carry) -> usize
    requires { (c.width ≤ max_side) × (c.height ≤ max_side) }
    ensures { result ≡ blocks_in c }
{
    (c.height / BLOCK_SIDE) * (c.width / BLOCK_SIDE)
}

// The carry after a strip whose difference is `more`, with the importance total as it is then.
pub fn came(c: Carry, p: Plane, more: u64, importance: u64) -> Carry
    requires height_bound { c.rows + p.height < 2 ^ 64 }
    requires more_bound { c.difference + more < 2 ^ 64 }
    ensures { result ≡ carry_by c.width c.height c.depth (c.rows + p.height) (c.difference + more) importance }
{
    Carry {
        rows: c.rows + p.height,
        difference: c.difference + more,
        importance,
        ..c
    }
}
