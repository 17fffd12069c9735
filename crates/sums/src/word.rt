// A sample in a word of 16 bits.
ghost use Rattle.std.proofs.Common.{rules};
ghost use Rattle.sums.specs.Needs.{word_most};
ghost use Rattle.sums.specs.Samples.{same_values};

use crate::Sample;

impl Sample for u16 {
    ghost value = { λ x. x };

    ghost values = { λ s. s };

    ghost most = { word_most };

    ghost each = { same_values };

    ghost narrow = { Prim.search rules };

    ghost room = { Prim.search rules };

    fn widened(self) -> u32 {
        self as u32
    }

    fn narrowed(v: u32) -> u16 {
        (v & 0xffff) as u16
    }

    // By this the compiler takes eight distances by three vector instructions, and nothing is widened.
    fn distance(self, other: u16) -> u16 {
        self.abs_diff(other)
    }

    fn bounded(s: &[u16]) {}
}
