// One plane beside its samples.
ghost use Rattle.std.specs.Prelude.{◌≡◌, length};
ghost use Rattle.plane.specs.Planes.{plane_fault};

use crate::Plane;

// A plane that lies within its samples. The public functions make it, once they have refused those that do not.
#[derive(Drop)]
pub struct View<'a, S> {
    pub plane: Plane,
    pub samples: &'a [S],
    ghost lies: { plane_fault plane (length samples.now) ≡ 0 },
}
