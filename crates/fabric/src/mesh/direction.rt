//! The four ways out of a node, in the order in which its links are numbered.
ghost use Rattle.std.specs.Prelude.{◌≡◌, ◌+◌, ◌*◌, ◌%◌, ◌<◌};
ghost use Rattle.fabric.specs.Meshes.{direction_number};

#[derive(Clone, Copy)]
pub(crate) enum Direction {
    East,
    West,
    North,
    South,
}

impl Direction {
    // The direction of a link.
    pub(crate) fn of(link: usize) -> Direction
        ensures { direction_number result ≡ link % 4 }
    {
        match link % 4 {
            0 => Direction::East,
            1 => Direction::West,
            2 => Direction::North,
            _ => Direction::South,
        }
    }

    // The link out of a node in this direction.
    pub(crate) fn link(self, node: usize) -> usize
        requires { node < 64 }
        ensures { result ≡ 4 * node + direction_number self }
    {
        4 * node + self as usize
    }
}
