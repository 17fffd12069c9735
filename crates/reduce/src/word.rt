// Rows of squares of samples in words of 16 bits. They are taken one by one: the chunks of the functions for bytes rest on sums that 16
// bits hold.
use crate::ReduceRow;
use crate::squares::put_by_factor;

impl ReduceRow for u16 {
    fn put_row(out: &mut [u16], s: &[u16], start: usize, stride: usize, factor: usize) {
        put_by_factor(out, s, start, stride, factor);
    }
}
