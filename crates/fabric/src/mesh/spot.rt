//! A node of a mesh by its column and row.
ghost use Rattle.std.specs.Prelude.{◌<◌};

#[derive(Clone, Copy)]
pub(crate) struct Spot {
    pub x: usize,
    pub y: usize,
    ghost near: { (x < 8) × (y < 8) },
}
