// A row of squares, of which each word takes those above a single sample in its own way. (A start, a stride and a factor, as the definition
// `mean_from` takes them: a type of the three would be made anew for each row.)
ghost use Rattle.std.specs.Prelude.{false, ◌≡◌, ◌*◌, ◌<◌, length};
ghost use Rattle.sums.specs.Table.{table};
ghost use Rattle.reduce.specs.Reduce.{bad_factor};
ghost use Rattle.reduce.specs.Needs.{RowsIn, mean_from};

use plane::Depths;

pub trait ReduceRow: Depths {
    // The means of squares side by side, from a place on, by a factor above 1.
    fn put_row(out: &mut [Self], s: &[Self], start: usize, stride: usize, factor: usize)
        requires factor_value { bad_factor factor ≡ false }
        requires factor_above { 1 < factor }
        requires rows_in { RowsIn start stride factor (length out.old * factor) (length s.now) }
        ensures { Self.Sample.values out.new ≡ table (length out.old) (mean_from factor (Self.Sample.values s.now) start stride) };
}

// A row of squares: with a factor of 1 the samples themselves.
pub fn reduce_row<S: ReduceRow>(out: &mut [S], s: &[S], start: usize, stride: usize, factor: usize)
    requires factor_value { bad_factor factor ≡ false }
    requires rows_in { RowsIn start stride factor (length out.old * factor) (length s.now) }
    ensures { S.Sample.values out.new ≡ table (length out.old) (mean_from factor (S.Sample.values s.now) start stride) }
{
    // Below 2, and not just 1: so the compiler sees that no square without a side comes, for which it would call memset.
    if factor < 2 {
        sums::copy(out, &s[start..]);
        return;
    }
    S::put_row(out, s, start, stride, factor);
}
