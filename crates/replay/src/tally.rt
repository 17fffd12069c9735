// What was compared, and what failed.
use crate::call::Call;
use std::{fmt, io};

// No more failures than these are written out.
const SHOWN: u64 = 20;

// So many rows of counts: of the letters of accepted calls, and of the numbers of refused ones.
const ROWS: usize = 32;

// A letter as it is written out; a byte that is none, as one that has its place.
#[derive(Drop)]
struct Letter(usize);

impl fmt::Display for Letter {
    fn fmt<W: fmt::Write>(&self, f: &mut fmt::Formatter<W>) -> fmt::Result {
        let marks = b"-ABCDEFGHIJKLMNOPQRSTUVWXYZ[-]--";
        f.write_char(char::from(marks[self.0 % ROWS]))
    }
}

// Calls that passed and failed, and cuts; those that passed by letter and by refusal.
#[derive(Drop)]
pub struct Tally {
    passed: u64,
    failed: u64,
    cuts: u64,
    letters: [u64; ROWS],
    refusals: [u64; ROWS],
}

// One more.
fn count(n: &mut u64) {
    *n = n.wrapping_add(1);
}

impl Tally {
    pub fn new() -> Tally {
        Tally {
            passed: 0,
            failed: 0,
            cuts: 0,
            letters: [0; ROWS],
            refusals: [0; ROWS],
        }
    }

    // The counts, as they are numbered before the memory. (By number, see the desk's.)
    pub fn counted(&self, i: usize) -> u64 {
        match i {
            1 => self.passed,
            2 => self.failed,
            3 => self.cuts,
            64..=95 => self.letters[i - 64],
            96..=127 => self.refusals[i - 96],
            _ => 0,
        }
    }

    // The answer and the memory were as they should be. Cuts are answers of the detector's step with the lowest bit.
    pub fn passes(&mut self, call: Call, letter: u8, due: i64) {
        if due < 0 {
            count(&mut self.refusals[due.unsigned_abs() as usize % ROWS]);
        } else {
            count(&mut self.letters[usize::from(letter) % ROWS]);
            if matches!(call, Call::Step) && due % 2 == 1 {
                count(&mut self.cuts);
            }
        }
        count(&mut self.passed);
    }

    // A failure is counted. Of the first ones the letter is written out, and how many lines are above.
    pub fn fails(&mut self, rt: &impl Print, letter: u8, lines: u64) -> io::Result<()> {
        count(&mut self.failed);
        if self.failed <= SHOWN {
            let letter = Letter(usize::from(letter));
            println!(rt; "{letter} fails below line {lines}")?;
        }
        Ok(())
    }

    // How many of each passed, if any, and the line that says whether all did.
    pub fn print(&self, rt: &impl Print) -> io::Result<()> {
        for (k, n) in self.letters.iter().enumerate() {
            if *n != 0 {
                let letter = Letter(k);
                println!(rt; "{letter}: {n}")?;
            }
        }
        for (k, n) in self.refusals.iter().enumerate() {
            if *n != 0 {
                println!(rt; "refusal {k}: {n}")?;
            }
        }
        let Tally {
            passed,
            failed,
            cuts,
            ..
        } = self;
        println!(rt; "cuts: {cuts}")?;
        println!(rt; "{passed} passed, {failed} failed")
    }
}
