// Small things that the crates above are made of: the two words that samples stand in, a total over a count, the lesser of two, a copy.
#![tactic(auto)]

ghost use Rattle.std.specs.Prelude.{◌≡◌, min};
ghost use Rattle.sums.specs.Quotient.{quotient_of};
ghost use Rattle.sums.specs.Written.{copied};

mod byte;
mod sample;
mod word;

pub use sample::Sample;

// A total over a count, each taken to a float first. A count of 0 gives an infinity, and 0 over 0 a NaN.
pub fn quotient(total: u64, count: u64) -> f64
    ensures { result ≡ quotient_of total count }
{
    std::num::nearest_u64_to_f64(total) / std::num::nearest_u64_to_f64(count)
}

// The lesser of two numbers, for whoever cites it: the code here calls the library's `min`.
pub fn lesser(a: usize, b: usize) -> usize
    ensures { result ≡ min a b }
{
    a.min(b)
}

// The places of one list at the start of another, as far as both go. What lies behind them stays. (By index: `copy_from_slice` calls memmove,
// and a measure may call no other library.)
pub fn copy<S: Sample>(to: &mut [S], from: &[S])
    ensures { S.values to.new ≡ copied (S.values from.now) (S.values to.old) }
{
    let n = to.len().min(from.len());
    for k in 0..n {
        to[k] = from[k];
    }
}
