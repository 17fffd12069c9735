// Two planes that are measured together.
ghost use Rattle.std.specs.Prelude.{◌≡◌, length};
ghost use Rattle.plane.specs.Planes.{sizes_fault};

use crate::Plane;

// Two planes of one size with their samples, neither of which is refused by its shape.
#[derive(Drop)]
pub struct Pair<'a, S> {
    pub p: Plane,
    pub a: &'a [S],
    pub q: Plane,
    pub b: &'a [S],
    ghost one_size: { sizes_fault p (length a.now) q (length b.now) ≡ 0 },
}
