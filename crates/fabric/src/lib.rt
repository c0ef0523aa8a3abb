//! What a fabric is: nodes, links, one hop delay and a route for each pair of nodes, asked by questions that change nothing.
#![tactic(auto)]

ghost use Rattle.std.specs.Prelude.{◌≡◌, ℕ, ◌≤◌};
ghost use Rattle.fabric.specs.Network.{Network, Lawful, route_length, route_place};

pub mod mesh;

/// A fabric: nodes and links by their numbers from 0, and the route of each ordered pair of nodes. What an implementation answers
/// must be its `meaning`, which must keep the laws; specs/Network.antt has both.
pub trait Fabric {
    /// How many links the longest route of this kind of fabric has, at most 64.
    const LONGEST: usize;

    // `LONGEST`, for the clauses
    ghost longest: { ℕ };

    // the nodes, links, hop delay and routes that the answers come from
    ghost meaning: { Self → Network };

    ghost bounded: { longest ≤ 64 };

    // the laws and limits, which each kind of fabric shows of itself
    ghost lawful: { (s : Self) → Lawful longest (meaning s) };

    /// `LONGEST` where code is proved from the laws.
    // toolchain: an `impl` with a lifetime, as that of listed fabrics, gets no proof of a ghost member of its constant
    fn reach() -> usize
        ensures { result ≡ longest };

    /// The count of nodes, 1 to 64.
    fn nodes(&self) -> usize
        ensures { result ≡ (meaning self.now).nodes };

    /// The count of link numbers, at most 256.
    fn link_numbers(&self) -> usize
        ensures { result ≡ (meaning self.now).links };

    /// By how many instants a packet is later on the next link of its route than on this one, at most 64.
    fn hop_delay(&self) -> usize
        ensures { result ≡ (meaning self.now).delay };

    /// The node that link `l` leaves and the one that it enters, or none where no link has the number.
    fn link(&self, l: usize) -> Option<(usize, usize)>
        ensures { result ≡ (meaning self.now).link l };

    /// How many links the route from one node to another has, or none without a route.
    fn route_len(&self, from: usize, to: usize) -> Option<usize>
        ensures { result ≡ route_length ((meaning self.now).route from to) };

    /// The link at a place of the route, the first at 0, or none past its end and without a route.
    fn route_link(&self, from: usize, to: usize, place: usize) -> Option<usize>
        ensures { result ≡ route_place ((meaning self.now).route from to) place };
}
