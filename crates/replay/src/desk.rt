// The desk: all that is known between two bytes of the list. A line is words, a letter, words: what is given, the call, what
// should stand in the memory after it. Both go to the memory from its first place on. A word is a number in hex; `a.b` is a words,
// copied from place b on. Negative numbers are two's complement, floats their bits.
use crate::call::Call;
use crate::calls;
use crate::memory::{END, Memory, Side};
use crate::tally::Tally;
use std::{io, mem};

// No call has this letter.
const NONE: u8 = b' ';

// The check of the list: a prime, and what the check is multiplied by for each byte. A changed byte always changes it.
const PRIME: u64 = 2147483647;

const TIMES: u64 = 257;

// So many numbers before the memory are those of the counts.
const COUNTS: usize = 128;

#[derive(Drop)]
pub struct Desk {
    pub memory: Memory,
    tally: Tally,
    // Lines read, and whether the end was.
    lines: u64,
    is_over: bool,
    // The line at hand: the place that the next word goes to, the letter of its call, whether a byte of it was read.
    at: usize,
    letter: Option<u8>,
    is_open: bool,
    // The word at hand: its value, if it has a digit, and how many words it is to copy; with 0 it is placed itself.
    word: Option<u64>,
    copies: usize,
    // The check of all bytes so far, and of those above the line.
    sum: u64,
    above: u64,
}

impl Desk {
    pub fn new() -> Desk {
        Desk {
            memory: Memory::new(),
            tally: Tally::new(),
            lines: 0,
            is_over: false,
            at: 0,
            letter: None,
            is_open: false,
            word: None,
            copies: 0,
            sum: 0,
            above: 0,
        }
    }

    // One byte of the list.
    pub fn read(&mut self, rt: &impl Print, b: u8) -> io::Result<()> {
        self.sum = (self.sum % PRIME * TIMES + u64::from(b)) % PRIME;
        self.is_open = true;
        match b {
            b'0'..=b'9' => self.put_digit(b - b'0'),
            b'a'..=b'f' => self.put_digit(b - b'a' + 10),
            b'.' => self.put_copies(),
            b' ' => self.end_word(),
            b'\n' => self.end_line(rt)?,
            _ => self.put_letter(b),
        }
        Ok(())
    }

    // Of a number that is too long the last sixteen digits count.
    fn put_digit(&mut self, d: u8) {
        self.word = Some(self.word.unwrap_or(0) << 4 | u64::from(d));
    }

    // The number so far says how many words are copied.
    fn put_copies(&mut self) {
        let n = self.word.take().unwrap_or(0);
        self.copies = n as usize % END;
    }

    // The word at hand is over.
    fn end_word(&mut self) {
        if let Some(w) = self.word.take() {
            match mem::take(&mut self.copies) {
                0 => self.place(w),
                count => self.copy(w as usize, count),
            }
        }
    }

    // A word goes to the next place: as it is given, before the letter, and as it is due.
    fn place(&mut self, w: u64) {
        self.memory.put(Side::Due, self.at, w);
        if self.letter.is_none() {
            self.memory.put(Side::Given, self.at, w);
        }
        self.at = self.at.wrapping_add(1);
    }

    // Words go to the next places, copied from one place on. (By number: a word that is copied may be copied again.)
    fn copy(&mut self, from: usize, count: usize) {
        for k in 0..count {
            let w = self.found(from.wrapping_add(k));
            self.place(w);
        }
    }

    // What stands at a place of what is due. A damaged list may name any: there are the counts before the memory, and 0 elsewhere. What the
    // program writes of such a list may not change.
    fn found(&self, place: usize) -> u64 {
        match self.memory.get(Side::Due, place) {
            Some(w) => w,
            None => self.counted(place.wrapping_add(END).wrapping_add(COUNTS)),
        }
    }

    // The counts, as they are numbered before the memory. (By number: a damaged list names them so, as above.)
    fn counted(&self, i: usize) -> u64 {
        match i {
            0 => self.lines,
            1..=3 | 64..=127 => self.tally.counted(i),
            4 => u64::from(self.is_over),
            5 => self.at as u64,
            6 => u64::from(self.letter.unwrap_or(0)),
            7 => u64::from(self.is_open),
            11 => self.sum,
            12 => self.above,
            _ => 0,
        }
    }

    // A line has one letter, and stands above the end. Any other letter is none, and so is a byte 0, behind which one may come.
    fn put_letter(&mut self, b: u8) {
        self.end_word();
        self.letter = match self.letter {
            None if !self.is_over => Some(b).filter(|b| *b != 0),
            _ => Some(NONE),
        };
        self.at = 0;
    }

    // The line is over: the call is made, and the next line begins.
    fn end_line(&mut self, rt: &impl Print) -> io::Result<()> {
        self.end_word();
        let letter = self.letter.unwrap_or(0);
        match Call::try_from(letter) {
            Ok(call) if calls::replay(call, self) => {
                self.tally.passes(call, letter, self.memory.number(0));
            }
            _ => self.fails(rt)?,
        }
        self.memory.settle(self.at);
        self.above = self.sum;
        self.at = 0;
        self.letter = None;
        self.is_open = false;
        self.lines = self.lines.wrapping_add(1);
        Ok(())
    }

    fn fails(&mut self, rt: &impl Print) -> io::Result<()> {
        self.tally.fails(rt, self.letter.unwrap_or(0), self.lines)
    }

    // The end: how many lines are above it, and their check.
    pub fn end(&mut self) -> bool {
        self.is_over = true;
        self.lines == self.memory.number(1) && self.above == self.memory.number(2)
    }

    // The list is over. One that has no end fails.
    pub fn finish(&mut self, rt: &impl Print) -> io::Result<()> {
        if !self.is_over || self.is_open {
            self.fails(rt)?;
        }
        self.tally.print(rt)
    }
}
