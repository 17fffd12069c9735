// What a place of a list can hold, and the word of the memory that it is written as there. (A line or two for each type: no trait of the library
// takes the numbers and the floats alike.)
use octets::float;

pub trait Word: Copy {
    // The one that a word of the list gives.
    fn of(w: u64) -> Self;

    // Whether it is the one that a word of the list says.
    fn is(self, w: u64) -> bool;
}

impl Word for u8 {
    fn of(w: u64) -> u8 {
        (w % 256) as u8
    }

    fn is(self, w: u64) -> bool {
        u64::from(self) == w
    }
}

impl Word for u16 {
    fn of(w: u64) -> u16 {
        (w % 65536) as u16
    }

    fn is(self, w: u64) -> bool {
        u64::from(self) == w
    }
}

// Any word above the largest is the largest.
impl Word for u32 {
    fn of(w: u64) -> u32 {
        u32::try_from(w).unwrap_or(u32::MAX)
    }

    fn is(self, w: u64) -> bool {
        u64::from(self) == w
    }
}

impl Word for u64 {
    fn of(w: u64) -> u64 {
        w
    }

    fn is(self, w: u64) -> bool {
        self == w
    }
}

impl Word for usize {
    fn of(w: u64) -> usize {
        w as usize
    }

    fn is(self, w: u64) -> bool {
        self as u64 == w
    }
}

// A negative number is two's complement, in the whole word.
impl Word for i32 {
    fn of(w: u64) -> i32 {
        i32::try_from(w.cast_signed() % 2147483648).unwrap_or(0)
    }

    fn is(self, w: u64) -> bool {
        i64::from(self).is(w)
    }
}

impl Word for i64 {
    fn of(w: u64) -> i64 {
        w.cast_signed()
    }

    fn is(self, w: u64) -> bool {
        self == w.cast_signed()
    }
}

// A float is its bits, a NaN any bits of one.
impl Word for f64 {
    fn of(w: u64) -> f64 {
        float::of_bits(w)
    }

    fn is(self, w: u64) -> bool {
        float::same(self, w)
    }
}
