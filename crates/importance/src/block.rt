// The mean of a block, which each word takes in its own way, for speed: bytes add eight samples in 16 bits, words four rows at once.
ghost use Rattle.std.specs.Prelude.{◌≡◌, ◌+◌, ◌*◌, ◌≤◌, length};
ghost use Rattle.plane.specs.Blocks.{block_side};
ghost use Rattle.plane.specs.Needs.{square_from};
ghost use Rattle.importance.specs.Importance.{mean};
ghost use Rattle.importance.specs.Needs.{SmallRows};

use plane::Depths;

pub trait BlockMean: Depths {
    // The rounded mean of the block that starts at a place, of which no sample has more than 12 bits. The caller has looked, so some of them
    // can be added in few bits.
    fn block_mean(s: &[Self], start: usize, stride: usize) -> u16
        requires inside { start + 7 * stride + block_side ≤ length (Self.Sample.values s.now) }
        requires small_rows { SmallRows (Self.Sample.values s.now) start stride block_side }
        ensures { result ≡ mean (square_from block_side (Self.Sample.values s.now) start stride) };
}
