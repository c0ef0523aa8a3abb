//! A fabric of its own kind: three nodes, and one route of 64 links that goes to and fro between two of them.
ghost use Rattle.shuttle.specs.Laws.{shuttle_lawful};
ghost use Rattle.shuttle.specs.Shuttle.{shuttle_network};
ghost use Rattle.std.proofs.Common.{lit≤};

use fabric::Fabric;

/// The shuttle, of which there is one.
#[derive(Clone, Copy)]
pub struct Shuttle;

// Its links, which its longest route takes all.
const LINKS: usize = 64;

impl Fabric for Shuttle {
    const LONGEST: usize = LINKS;

    ghost longest = { 64 };

    ghost meaning = { λ s. shuttle_network };

    ghost bounded = { lit≤ tt };

    ghost lawful = { λ s. shuttle_lawful };

    fn reach() -> usize {
        Self::LONGEST
    }

    fn nodes(&self) -> usize {
        3
    }

    fn link_numbers(&self) -> usize {
        LINKS
    }

    fn hop_delay(&self) -> usize {
        1
    }

    // Even links go from node 0 to node 1, odd ones back, and the last on to node 2.
    fn link(&self, l: usize) -> Option<(usize, usize)> {
        match l {
            63 => Some((1, 2)),
            _ if l < 63 => Some(if l % 2 == 0 { (0, 1) } else { (1, 0) }),
            _ => None,
        }
    }

    fn route_len(&self, from: usize, to: usize) -> Option<usize> {
        match (from, to) {
            (0, 1) => Some(1),
            (0, 2) => Some(LINKS),
            _ => (from == to && from < 3).then_some(0),
        }
    }

    fn route_link(&self, from: usize, to: usize, place: usize) -> Option<usize> {
        let links = self.route_len(from, to)?;
        (place < links).then_some(place)
    }
}
