// A sample in a byte.
ghost use Rattle.std.proofs.Common.{rules};
ghost use Rattle.sums.specs.Needs.{byte_most};
ghost use Rattle.sums.specs.Samples.{same_values};

use crate::Sample;

impl Sample for u8 {
    ghost value = { λ x. x };

    ghost values = { λ s. s };

    ghost most = { byte_most };

    ghost each = { same_values };

    ghost narrow = { Prim.search rules };

    ghost room = { Prim.search rules };

    fn widened(self) -> u32 {
        self as u32
    }

    fn narrowed(v: u32) -> u8 {
        (v & 0xff) as u8
    }

    // A signed difference, and all of it in 16 bits, since the compiler turns this form into the fewest vector instructions.
    fn distance(self, other: u8) -> u16 {
        let d = (self as i16) - (other as i16);
        if d < 0 { (0 - d) as u16 } else { d as u16 }
    }

    fn bounded(s: &[u8]) {}
}
