// The library's functions of planes, over the views that the list gives, of either word that samples stand in.
use crate::view::View;
use crate::word::Word;
use brinepulley::{frames, sensor};
use reduce::ReduceRow;
use strips::Measured;

// A word of samples: the list's numbers are cut to it, and every measure is taken of it.
pub trait Sample: Word + Measured + ReduceRow {}

impl Sample for u8 {}

impl Sample for u16 {}

// (Each is one function of the library, with its planes taken apart as C has them.)
pub fn difference<S: Sample>(depth: u32, p: View<&[S]>, q: View<&[S]>) -> i64 {
    brinepulley::brine_plane_difference(
        depth, p.samples, p.width, p.height, p.stride, p.origin, q.samples, q.width, q.height,
        q.stride, q.origin,
    )
}

pub fn total<S: Sample>(depth: u32, p: View<&[S]>, q: View<&[S]>) -> i64 {
    brinepulley::brine_importance_total(
        depth, p.samples, p.width, p.height, p.stride, p.origin, q.samples, q.width, q.height,
        q.stride, q.origin,
    )
}

pub fn delta<S: Sample>(depth: u32, p: View<&[S]>, q: View<&[S]>, x: &mut f64) -> i64 {
    brinepulley::brine_delta(
        depth, p.samples, p.width, p.height, p.stride, p.origin, q.samples, q.width, q.height,
        q.stride, q.origin, x,
    )
}

pub fn importance<S: Sample>(depth: u32, p: View<&[S]>, q: View<&[S]>, x: &mut f64) -> i64 {
    brinepulley::brine_importance(
        depth, p.samples, p.width, p.height, p.stride, p.origin, q.samples, q.width, q.height,
        q.stride, q.origin, x,
    )
}

pub fn satd<S: Sample>(first: &[S], second: &[S]) -> i64 {
    brinepulley::brine_satd8x8(first, second)
}

pub fn intra<S: Sample>(depth: u32, p: View<&[S]>, q: View<&mut [S]>, costs: &mut [u32]) -> i64 {
    let View {
        samples,
        width,
        height,
        stride,
        origin,
    } = q;
    brinepulley::brine_intra_costs(
        depth, p.samples, p.width, p.height, p.stride, p.origin, samples, width, height, stride,
        origin, costs,
    )
}

pub fn reduce<S: Sample>(depth: u32, factor: usize, p: View<&[S]>, q: View<&mut [S]>) -> i64 {
    let View {
        samples,
        width,
        height,
        stride,
        origin,
    } = q;
    frames::brine_reduce(
        depth, factor, p.samples, p.width, p.height, p.stride, p.origin, samples, width, height,
        stride, origin,
    )
}

pub fn add<S: Sample>(
    carry: &mut [u64],
    p: View<&[S]>,
    q: View<&[S]>,
    room: &mut [S],
    costs: &mut [u32],
) -> i64 {
    sensor::brine_strips_add(
        carry, p.samples, p.width, p.height, p.stride, p.origin, q.samples, q.width, q.height,
        q.stride, q.origin, room, costs,
    )
}
