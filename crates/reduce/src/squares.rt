// Squares of samples that are taken one by one.
ghost use Rattle.std.specs.Prelude.{false, ℕ, ◌≡◌, ◌*◌, ◌≤◌, ◌<◌, length, slice_index};
ghost use Rattle.plane.specs.Needs.{square_from};
ghost use Rattle.sums.specs.Sums.{sum_below};
ghost use Rattle.sums.specs.Table.{table};
ghost use Rattle.reduce.specs.Reduce.{bad_factor};
ghost use Rattle.reduce.specs.Needs.{RowsIn, mean_from};

use sums::Sample;

// The sum of a square's row.
pub fn sum_row<S: Sample>(row: &[S]) -> u32
    requires few { length row.now ≤ 32 }
    ensures { result ≡ sum_below (length row.now) (slice_index (S.values row.now)) }
{
    S::bounded(row);
    let mut sum = 0;
    for x in row {
        sum += x.widened();
    }
    sum
}

// The sum of the square that starts at a place: 1,024 words at most, which 32 bits hold. (By number: its rows lie a stride apart.)
fn sum_square<S: Sample>(s: &[S], start: usize, stride: usize, n: usize) -> u32
    requires rows_in { RowsIn start stride n n (length s.now) }
    requires n_bound { n ≤ 32 }
    ensures { result ≡ square_from n (S.values s.now) start stride }
{
    S::bounded(s);
    let mut sum = 0;
    for j in 0..n {
        let at = start + j * stride;
        sum += sum_row(&s[at..at + n]);
    }
    sum
}

// The means of squares side by side.
pub fn put_squares<S: Sample>(out: &mut [S], s: &[S], start: usize, stride: usize, factor: usize)
    requires factor_nonzero { (0 < factor) × (factor ≤ 32) }
    requires rows_in { RowsIn start stride factor (length out.old * factor) (length s.now) }
    ensures { S.values out.new ≡ table (length out.old) (mean_from factor (S.values s.now) start stride) }
{
    S::bounded(s);
    let samples = (factor * factor) as u32;
    for (x, mean) in out.iter_mut().enumerate() {
        let sum = sum_square(s, start + x * factor, stride, factor);
        *mean = S::narrowed((sum + samples / 2) / samples);
    }
}

// The same by a factor that the compiler does not know. The small factors stand here as such, since it then knows what it divides by and how long
// a row is; they are told by their order, from which it makes no table of jumps. (It is no part of its callers: as a part of them words by 2 took up to half
// as long again, as the code lay.)
#[inline(never)]
pub fn put_by_factor<S: Sample>(out: &mut [S], s: &[S], start: usize, stride: usize, factor: usize)
    requires factor_value { bad_factor factor ≡ false }
    requires factor_above { 1 < factor }
    requires rows_in { RowsIn start stride factor (length out.old * factor) (length s.now) }
    ensures { S.values out.new ≡ table (length out.old) (mean_from factor (S.values s.now) start stride) }
{
    if factor < 4 {
        put_squares(out, s, start, stride, 2);
    } else if factor < 8 {
        put_squares(out, s, start, stride, 4);
    } else if factor < 16 {
        put_squares(out, s, start, stride, 8);
    } else {
        put_squares(out, s, start, stride, factor);
    }
}
