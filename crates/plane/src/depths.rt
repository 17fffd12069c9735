// Which depths a sample's word has: 8 bits a byte; 10 and 12 a word of 16 bits.
ghost use Rattle.std.proofs.Common.{rules};
ghost use Rattle.std.specs.Prelude.{true, ◌≡◌, ℕ, ◌+◌, ◌<◌, ◌≤◌, ◌^◌, bit_or};
ghost use Rattle.plane.specs.Depths.{byte_holds, deep_holds};
ghost use Rattle.plane.specs.Planes.{Word, byte, deep, suits};

use sums::Sample;

pub trait Depths: Sample {
    // The word, as the refusals speak of it.
    ghost word: { Word };

    // How many bits it has.
    ghost BITS: { ℕ };

    const BITS: u64;

    // Whether samples of the word may have this depth. A depth stays a number wherever it is a parameter: 5 answers every other one
    // (`word_fault`), so a type of the three depths would ask more of callers.
    fn suits(depth: u64) -> bool
        ensures { result ≡ suits word depth };

    // The bits that either has. (`BitOr` of the library says nothing of a sample's value.)
    fn or(self, other: Self) -> Self
        ensures { Self.Sample.value result ≡ bit_or (Self.Sample.value self) (Self.Sample.value other) };

    ghost narrow: { BITS ≤ 16 };

    ghost fits: { Self.Sample.most < 2 ^ BITS };

    // It holds all samples of the depths that suit it.
    ghost holds: { (depth : ℕ) → suits word depth ≡ true → 2 ^ depth ≤ Self.Sample.most + 1 };
}

impl Depths for u8 {
    ghost word = { byte };

    ghost BITS = { 8 };

    const BITS: u64 = 8;

    ghost narrow = { Prim.search rules };

    ghost fits = { Prim.search rules };

    ghost holds = { byte_holds };

    fn suits(depth: u64) -> bool {
        depth == 8
    }

    fn or(self, other: u8) -> u8 {
        self | other
    }
}

impl Depths for u16 {
    ghost word = { deep };

    ghost BITS = { 16 };

    const BITS: u64 = 16;

    ghost narrow = { Prim.search rules };

    ghost fits = { Prim.search rules };

    ghost holds = { deep_holds };

    fn suits(depth: u64) -> bool {
        depth == 10 || depth == 12
    }

    fn or(self, other: u16) -> u16 {
        self | other
    }
}
