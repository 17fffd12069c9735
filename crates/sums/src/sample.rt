// A sample stands in a byte, or in a word of 16 bits. What is done with samples of either is written once, over this trait.
ghost use Rattle.std.specs.Prelude.{◌≡◌, ◌≤◌, ◌+◌, ◌%◌, ℕ, List, map, slice_index};
ghost use Rattle.sums.specs.Needs.{word_most};
ghost use Rattle.sums.specs.Room.{TakesTwoBytes};
ghost use Rattle.sums.specs.Sums.{apart};

pub trait Sample: Copy {
    // A sample as a whole number, and a list of samples as one of whole numbers. A byte and a word are such numbers already, so there
    // both are the identity, and a generic contract says of them what one for their own type would say.
    ghost value: { Self → ℕ };

    ghost values: { List Self → List ℕ };

    // The largest sample.
    ghost most: { ℕ };

    // The sample as a number of 32 bits. (`Into` of the library says nothing of the value, and so it is with `narrowed`.)
    fn widened(self) -> u32
        ensures is { result ≡ value self }
        ensures at_most { result ≤ most };

    // The sample that is this number, or of one above the largest the low bits. It takes two bytes at most, so that an array of such
    // samples has room in memory.
    fn narrowed(v: u32) -> Self
        ensures is { value result ≡ v % (most + 1) }
        ensures size { TakesTwoBytes Self.row };

    // How far two samples lie apart.
    fn distance(self, other: Self) -> u16
        ensures { result ≡ apart (value self) (value other) };

    // Nothing is done: the call tells a proof that no sample is above the largest.
    fn bounded(s: &[Self])
        ensures { (i : ℕ) → slice_index (values s.now) i ≤ most };

    ghost each: { (s : List Self) → values s ≡ map value s };

    ghost narrow: { most ≤ word_most };

    // It takes two bytes at most, so that an array of samples has room in memory.
    ghost room: { TakesTwoBytes Self.row };
}
