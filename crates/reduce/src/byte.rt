// Rows of squares of bytes. A row is taken in chunks of 128 columns. The chunk's 64 sums are of two columns each. They gain two rows at a
// time, eight sums at once: so the compiler takes 16 samples of a row by one vector instruction.
ghost use Rattle.std.specs.Prelude.{◌≡◌, ℕ, ◌+◌, ◌*◌, ◌/◌, ◌≤◌, ◌<◌, ◌^◌, ltb, length, get_or};
ghost use Rattle.sums.specs.Means.{mean_of};
ghost use Rattle.sums.specs.Needs.{byte_most};
ghost use Rattle.sums.specs.Table.{table};
ghost use Rattle.sums.specs.Written.{written};
ghost use Rattle.reduce.specs.Needs.{sum_count, lane_count, RowsIn, pair_at, pairs_from, group_of, mean_from, Half};

use crate::ReduceRow;
use crate::squares::{put_by_factor, sum_row};

// How many sums a chunk has, how many are taken at once, and in how many turns.
const SUMS: usize = 64;

const LANES: usize = 8;

const TURNS: usize = 8;

// The sum of two neighbours.
fn pair(s: &[u8], k: usize) -> u16
    requires { 2 * k + 1 < length s.now }
    ensures { result ≡ pair_at s.now k }
{
    s[2 * k] as u16 + s[2 * k + 1] as u16
}

// Eight sums gain two rows. (By index, as in `add_rows`: two samples of each list go to one sum, the vector loop is measured, and of what
// is written through `iter_mut().zip` a proof knows nothing.)
fn add_lanes(sums: &mut [u16], a: &[u8], b: &[u8])
    requires lane_count_in_bounds { lane_count ≤ length sums.old }
    requires lane_count_in_bounds_2 { (2 * lane_count ≤ length a.now) × (2 * lane_count ≤ length b.now) }
    requires by_index { (k : ℕ) → k < lane_count → get_or sums.old k 0 + 4 * byte_most < 2 ^ 16 }
    ensures { sums.new ≡ written (λ (k : ℕ). ltb k lane_count) (λ (k : ℕ). get_or sums.old k 0 + (pair_at a.now k + pair_at b.now k)) sums.old }
{
    for k in 0..LANES {
        sums[k] = sums[k] + (pair(a, k) + pair(b, k));
    }
}

// All sums of a chunk gain two rows.
fn add_rows(sums: &mut [u16], a: &[u8], b: &[u8])
    requires sums_len { length sums.old ≡ sum_count }
    requires sum_count_in_bounds { (2 * sum_count ≤ length a.now) × (2 * sum_count ≤ length b.now) }
    requires by_index { (k : ℕ) → k < sum_count → get_or sums.old k 0 + 4 * byte_most < 2 ^ 16 }
    ensures { sums.new ≡ table sum_count (λ (k : ℕ). get_or sums.old k 0 + (pair_at a.now k + pair_at b.now k)) }
{
    for g in 0..TURNS {
        let at = g * LANES;
        let from = 2 * at;
        add_lanes(&mut sums[at..], &a[from..], &b[from..]);
    }
}

// They gain all rows of the squares, from none. (Two rows at a time, which overlap others' padding: no method cuts the list into them.)
fn add_all(sums: &mut [u16], s: &[u8], start: usize, stride: usize, half: usize)
    requires sums_len { length sums.old ≡ sum_count }
    requires by_index { (k : ℕ) → get_or sums.old k 0 ≡ 0 }
    requires half_bound { half ≤ 16 }
    requires rows_in { RowsIn start stride (2 * half) (2 * sum_count) (length s.now) }
    ensures { sums.new ≡ table sum_count (pairs_from s.now start stride (2 * half)) }
{
    for j in 0..half {
        let upper = start + 2 * j * stride;
        let lower = upper + stride;
        add_rows(sums, &s[upper..], &s[lower..]);
    }
}

// The means of groups of n sums, a group's sums being of so many samples. (By index: `count` and `n` stand as numbers where this is inlined.)
fn put_means(out: &mut [u8], sums: &[u16], count: usize, n: usize, samples: u32)
    requires count_in_bounds { count ≤ length out.old }
    requires n_in_bounds { count * n ≤ length sums.now }
    requires few { n ≤ 32 }
    requires samples_nonzero { (0 < samples) × (samples ≤ 1024) }
    requires by_index { (x : ℕ) → x < count → group_of sums.now n x ≤ samples * byte_most }
    ensures { out.new ≡ written (λ (k : ℕ). ltb k count) (λ (x : ℕ). mean_of samples (group_of sums.now n x)) out.old }
{
    for x in 0..count {
        let at = x * n;
        let sum = sum_row(&sums[at..at + n]);
        out[x] = ((sum + samples / 2) / samples) as u8;
    }
}

// A chunk: 128 columns, as many squares as they hold. The numbers of the small factors stand here as such, since the
// compiler then knows what it divides by.
fn put_chunk(out: &mut [u8], s: &[u8], start: usize, stride: usize, half: usize)
    requires half { Half half }
    requires half_in_bounds { sum_count / half ≤ length out.old }
    requires rows_in { RowsIn start stride (2 * half) (2 * sum_count) (length s.now) }
    ensures { out.new ≡ written (λ (k : ℕ). ltb k (sum_count / half)) (mean_from (2 * half) s.now start stride) out.old }
{
    let mut sums = [0u16; SUMS];
    add_all(&mut sums[..], s, start, stride, half);
    match half {
        1 => put_means(out, &sums[..], 64, 1, 4),
        2 => put_means(out, &sums[..], 32, 2, 16),
        4 => put_means(out, &sums[..], 16, 4, 64),
        _ => put_means(out, &sums[..], SUMS / half, half, (4 * half * half) as u32),
    }
}

// The means of squares side by side, of a chunk at least. The last chunk ends where they end, and may take squares again.
// (By number: `chunks_mut` gives no chunk that goes back over another.)
fn put_chunks(out: &mut [u8], s: &[u8], start: usize, stride: usize, half: usize)
    requires half { Half half }
    requires half_bound { sum_count / half ≤ length out.old }
    requires rows_in { RowsIn start stride (2 * half) (length out.old * (2 * half)) (length s.now) }
    ensures { out.new ≡ table (length out.old) (mean_from (2 * half) s.now start stride) }
{
    let count = out.len();
    let per = SUMS / half;
    let last = count - per;
    for c in 0..(count - 1) / per + 1 {
        let x = (c * per).min(last);
        put_chunk(&mut out[x..], s, start + x * (2 * half), stride, half);
    }
}

impl ReduceRow for u8 {
    // In chunks, and one by one where the squares of a row are not so many.
    fn put_row(out: &mut [u8], s: &[u8], start: usize, stride: usize, factor: usize) {
        let half = factor / 2;
        if out.len() < SUMS / half {
            put_by_factor(out, s, start, stride, factor);
            return;
        }
        put_chunks(out, s, start, stride, half);
    }
}
