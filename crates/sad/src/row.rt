// The sum over two rows, which each word takes in its own way. Where a word needs a look at its samples, it is taken while they are summed,
// so that each is read once.
ghost use Rattle.std.specs.Prelude.{true, ◌≡◌, ℕ, ◌^◌, ◌≤◌, leb, length};
ghost use Rattle.plane.specs.Planes.{max_side, suits};
ghost use Rattle.sums.specs.Any.{any_below};
ghost use Rattle.sums.specs.Sums.{sum_below};
ghost use Rattle.sad.specs.Needs.{gap_at, large_from};

use plane::Depths;

// Of two rows: the sum of the distances, and the bits that some sample has. A depth of the word is told by them.
#[derive(Clone, Copy)]
pub struct Row {
    pub sum: u32,
    pub bits: u16,
}

pub trait RowSad: Depths {
    // Two rows of one length.
    fn row_sad(a: &[Self], b: &[Self]) -> Row
        requires a_len { length (Self.Sample.values a.now) ≡ length (Self.Sample.values b.now) }
        requires a_len_bound { length (Self.Sample.values a.now) ≤ max_side }
        ensures sum_value { result.sum ≡ sum_below (length (Self.Sample.values a.now)) (gap_at (Self.Sample.values a.now) (Self.Sample.values b.now)) }
        ensures by_index { (m : ℕ) → suits Self.Depths.word m ≡ true → leb (2 ^ m) result.bits ≡ any_below (length (Self.Sample.values a.now)) (large_from (Self.Sample.values a.now) (Self.Sample.values b.now) 0 m) };
}
