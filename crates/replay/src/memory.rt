// The memory that the list edits: one word for each place that is given or lent. What is lent is filled from the memory before
// the call, and compared with what is due after it.
use crate::parts::{part, part_mut};
use crate::view::View;
use crate::word::Word;

// Where each kind begins, and the end. The answer that is due and the numbers that are given come first. (Places by name: the list's lines name
// them by number.)
pub const STATE: usize = 16;

pub const DIFFERENCE: usize = 510;

pub const TOTAL: usize = 511;

pub const TORN: usize = 511;

pub const SCORES: usize = 512;

pub const QUOTIENT: usize = 1023;

pub const LISTS: usize = 1024;

pub const COSTS: usize = 1216;

pub const ENTRIES: usize = 1280;

pub const FIRST: usize = 1408;

pub const SECOND: usize = 10112;

pub const HELD: usize = 18304;

pub const END: usize = 18816;

const BOTH: usize = 2 * END;

// Before the call, or as it should be after it.
#[derive(Clone, Copy)]
pub enum Side {
    Given,
    Due,
}

impl Side {
    fn start(self) -> usize {
        match self {
            Side::Given => 0,
            Side::Due => END,
        }
    }
}

// What is given, and behind it what is due: what a line writes past the end of the one goes on in the other.
#[derive(Drop)]
pub struct Memory {
    words: [u64; BOTH],
}

impl Memory {
    pub fn new() -> Memory {
        Memory { words: [0; BOTH] }
    }

    // The word at a place. Places are counted around.
    pub fn get(&self, side: Side, place: usize) -> Option<u64> {
        self.words.get(side.start().wrapping_add(place)).copied()
    }

    pub fn put(&mut self, side: Side, place: usize, w: u64) {
        if let Some(x) = self.words.get_mut(side.start().wrapping_add(place)) {
            *x = w;
        }
    }

    // What is due up to a place is given from here on. What a line wrote past the end is cleared.
    pub fn settle(&mut self, end: usize) {
        self.words.copy_within(END..END + end.min(END), 0);
        if let Some(past) = self.words.get_mut(END..end.min(BOTH)) {
            past.fill(0);
        }
    }

    // A number that is given.
    pub fn number<T: Word>(&self, place: usize) -> T {
        T::of(self.get(Side::Given, place).unwrap_or(0))
    }

    // Samples, whose shape is given from a place on, behind their number.
    fn view<T>(&self, place: usize, samples: T) -> View<T> {
        View {
            samples,
            width: self.number(place.wrapping_add(1)),
            height: self.number(place.wrapping_add(2)),
            stride: self.number(place.wrapping_add(3)),
            origin: self.number(place.wrapping_add(4)),
        }
    }

    // A plane of a list's first samples, lent to be read or written.
    pub fn plane<'a, S>(&self, place: usize, list: &'a [S]) -> View<&'a [S]> {
        self.view(place, part(list, self.number(place)))
    }

    pub fn plane_mut<'a, S>(&self, place: usize, list: &'a mut [S]) -> View<&'a mut [S]> {
        self.view(place, part_mut(list, self.number(place)))
    }

    // Whether what is due at a place is this.
    pub fn holds<T: Word>(&self, place: usize, x: T) -> bool {
        self.get(Side::Due, place).is_some_and(|w| x.is(w))
    }

    // Whether the answer is as it should be.
    pub fn is_due(&self, answer: i64) -> bool {
        answer == self.number(0)
    }

    // A list is filled from a place on, or compared. Whether it holds what it should. (A fold and not `all`: most lists are as they should be, and
    // with `all` the calls on planes and logs took a tenth to a quarter longer.)
    pub fn pass<T: Word>(&self, side: Side, list: &mut [T], place: usize) -> bool {
        let words = self
            .words
            .get(side.start().saturating_add(place)..)
            .unwrap_or_default();
        match side {
            Side::Given => {
                for (x, w) in list.iter_mut().zip(words) {
                    *x = T::of(*w);
                }
                true
            }
            Side::Due => list
                .iter()
                .zip(words)
                .fold(true, |same, (x, w)| same & x.is(*w)),
        }
    }
}
