//! A mesh of up to eight by eight nodes: its size and hop delay, always within their limits. Its routes go along x first and then
//! along y.
ghost use Rattle.std.specs.Prelude.{◌≡◌, ℕ, ◌+◌, ◌*◌, ◌<◌, ◌≤◌, [], ◌∷◌, Some, MatchOption};
ghost use Rattle.std.proofs.Common.{lit≤};
ghost use Rattle.std.specs.List.{slice_get};
ghost use Rattle.fabric.specs.Grid.{grid, grid_path, grid_made, node};
ghost use Rattle.fabric.specs.MeshLaws.{mesh_lawful};
ghost use Rattle.fabric.specs.MeshRoutes.{MeshRoutes};

mod direction;
mod spot;

use self::direction::Direction;
use self::spot::Spot;
use super::Fabric;
use thiserror::Error;

/// A mesh: columns, rows and hop delay.
#[derive(Clone, Copy)]
pub struct Mesh {
    columns: u8,
    rows: u8,
    delay: u8,
    ghost wide: { (1 ≤ columns) × (columns ≤ 8) },
    ghost high: { (1 ≤ rows) × (rows ≤ 8) },
    ghost slow: { delay ≤ 64 },
}

/// A size or a hop delay outside the limits: refusal 3.
#[derive(Clone, Copy, PartialEq, Eq, Debug, Error)]
#[error("a size or a hop delay outside the limits of a mesh")]
pub struct SizeFault;

impl Mesh {
    ghost use Rattle.fabric.specs.Meshes.{made, direction_number, IsSpot};

    /// A mesh of `columns` by `rows` nodes, 1 to 8 each, with a hop delay of at most 64 instants; outside the limits it is refused.
    pub fn new(columns: u8, rows: u8, delay: u8) -> Result<Mesh, SizeFault>
        ensures { made result ≡ grid_made columns rows delay }
    {
        if columns < 1 || columns > 8 || rows < 1 || rows > 8 || delay > 64 {
            return Err(SizeFault);
        }
        Ok(Mesh {
            columns,
            rows,
            delay,
        })
    }

    // The column and row of a node.
    fn spot_of(&self, node: usize) -> Option<Spot>
        ensures { MatchOption result (self.now.columns * self.now.rows ≤ node) (IsSpot self.now node) }
    {
        if node >= self.nodes() {
            return None;
        }
        // a division of bytes, which is much faster than one of lengths
        let node = node as u8;
        Some(Spot {
            x: (node % self.columns) as usize,
            y: (node / self.columns) as usize,
        })
    }

    // The link out of the node at a spot.
    fn link_out(&self, spot: Spot, toward: Direction) -> usize
        ensures { result ≡ 4 * node self.now.columns spot.x spot.y + direction_number toward }
    {
        toward.link(spot.x + self.columns as usize * spot.y)
    }

    // The link at a place of the path from one spot to another.
    #[tactic(auto, using(crate::proofs::Places::at_place))]
    fn leg(&self, from: Spot, to: Spot, place: usize) -> Option<usize>
        ensures { result ≡ slice_get (grid_path self.now.columns from.x from.y to.x to.y) place }
    {
        let across = from.x.abs_diff(to.x);
        if place < across {
            let y = from.y;
            return Some(if from.x < to.x {
                let x = from.x + place;
                self.link_out(Spot { x, y }, Direction::East)
            } else {
                let x = from.x - place;
                self.link_out(Spot { x, y }, Direction::West)
            });
        }
        let rest = place - across;
        if rest >= from.y.abs_diff(to.y) {
            return None;
        }
        let x = to.x;
        Some(if from.y < to.y {
            let y = from.y + rest;
            self.link_out(Spot { x, y }, Direction::North)
        } else {
            let y = from.y - rest;
            self.link_out(Spot { x, y }, Direction::South)
        })
    }
}

impl Fabric for Mesh {
    ghost use Rattle.fabric.specs.Meshes.{mesh_of, direction_number};

    // Seven links along x and seven along y.
    const LONGEST: usize = 14;

    ghost longest = { 14 };

    ghost meaning = { mesh_of };

    ghost bounded = { lit≤ tt };

    ghost lawful = { λ s. mesh_lawful s.columns s.rows s.delay s.wide.0 s.wide.1 s.high.0 s.high.1 s.slow };

    fn reach() -> usize {
        Self::LONGEST
    }

    fn nodes(&self) -> usize {
        self.columns as usize * self.rows as usize
    }

    fn link_numbers(&self) -> usize {
        4 * self.nodes()
    }

    fn hop_delay(&self) -> usize {
        self.delay as usize
    }

    fn link(&self, l: usize) -> Option<(usize, usize)> {
        let node = l / 4;
        let spot = self.spot_of(node)?;
        let columns = self.columns as usize;
        let next = match Direction::of(l) {
            Direction::East if spot.x + 1 < columns => node + 1,
            Direction::West if 0 < spot.x => node - 1,
            Direction::North if spot.y + 1 < self.rows as usize => node + columns,
            Direction::South if 0 < spot.y => node - columns,
            _ => return None,
        };
        Some((node, next))
    }

    #[tactic(auto, using(crate::proofs::Places::route_inside, crate::specs::MeshLaws::path_length))]
    fn route_len(&self, from: usize, to: usize) -> Option<usize> {
        let from = self.spot_of(from)?;
        let to = self.spot_of(to)?;
        Some(from.x.abs_diff(to.x) + from.y.abs_diff(to.y))
    }

    fn route_link(&self, from: usize, to: usize, place: usize) -> Option<usize> {
        self.leg(self.spot_of(from)?, self.spot_of(to)?, place)
    }
}

/// Every two nodes of every mesh have a route, along x first and as long as they are apart; and the worked example, three by
/// three: node 0 to 5 is links 0, 4, 10, and back 21, 17, 15.
pub fn mesh_routes_stand()
    ensures routes { MeshRoutes }
    ensures there { (grid 3 3 0).route 0 5 ≡ Some (0 ∷ 4 ∷ 10 ∷ []) }
    ensures back { (grid 3 3 0).route 5 0 ≡ Some (21 ∷ 17 ∷ 15 ∷ []) }
{}
