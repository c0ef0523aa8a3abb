//! The way of a message's packets: the route's two nodes and how many links it has, when packet 0 takes the first link and how long the
//! route takes, and the stays of packets on its links.
ghost use Rattle.std.specs.Prelude.{◌<◌, ◌≤◌};

use crate::meeting::{Meeting, nearest_to};
use crate::place::Place;
use crate::routing::Ends;
use crate::stay::Stay;
use arrayvec::ArrayVec;
use fabric::Fabric;
use holds::Hold;
use records::record::Message;

/// The way of a message's packets over a fabric: from which node to which, over how many links; when packet 0 takes the first of them, how long
/// after that it is past the last, and how far apart packets are. All times are in cycles.
#[derive(Clone, Copy)]
pub struct Way {
    pub(crate) from: usize,
    pub(crate) to: usize,
    pub(crate) links: usize,
    pub(crate) start: u64,
    pub(crate) travel: u64,
    pub(crate) period: u32,
    pub(crate) width: u32,
    // phase, width and delay have 32 bits each, and a route has at most 64 links of at most 64 cycles
    ghost soon: { start ≤ 17179869184 },
    ghost near: { travel ≤ 4096 },
    ghost narrow: { width < 4294967296 },
}

/// An offered message past the checks that come before lateness and meetings: the tasks that it names, and the way of its packets.
#[derive(Clone, Copy)]
pub struct Admitted {
    pub ends: Ends,
    pub way: Way,
}

impl Way {
    ghost use Rattle.jobs.specs.Meetings.{earliest_from, meetings};
    ghost use Rattle.jobs.specs.Routings.{WayBetween};
    ghost use Rattle.jobs.specs.Waits.{Among, RunsBy};
    ghost use Rattle.jobs.specs.Ways.{StayAt, stay_take, way_takes};
    ghost use Rattle.std.specs.Prelude.{◌≡◌, map};

    /// The way of a message between two tasks, or none where the fabric has no route.
    pub fn of<F: Fabric>(fabric: &F, ends: &Ends, m: &Message) -> Option<Way>
        ensures { WayBetween (F.meaning fabric.now) ends.now m.now result }
    {
        let source = ends.source;
        let from = source.core as usize;
        let to = ends.destination.core as usize;
        let links = fabric.route_len(from, to)?;
        Some(Way {
            from,
            to,
            links,
            start: u64::from(source.phase) + u64::from(source.width) + u64::from(m.delay),
            travel: links as u64 * fabric.hop_delay() as u64,
            period: source.period,
            width: m.width,
        })
    }

    // The stay of packets that are at the link at a place of their way from `start` on.
    // asked for each link of each held message by each offer
    #[inline(always)]
    fn stay_on<F: Fabric>(&self, fabric: &F, place: usize, start: u64) -> Option<Stay>
        ensures { StayAt (F.meaning fabric.now) self.now place start result }
    {
        let link = fabric.route_link(self.from, self.to, place)?;
        Some(Stay {
            place: Place::link(link as u16),
            hold: Hold::new(start, self.period, self.width),
        })
    }

    // The stays of packets on their way, one on each link.
    pub(crate) fn stays<F: Fabric>(&self, fabric: &F) -> ArrayVec<Stay, 64>
        ensures { map stay_take result.items ≡ way_takes (F.meaning fabric.now) self.now }
    {
        let mut stays = ArrayVec::new();
        let mut start = self.start;
        // by places up to the last link, each a link's delay after the one before; a `collect` would ask for an allocator
        for place in 0..F::reach() {
            let Some(stay) = self.stay_on(fabric, place, start) else {
                return stays;
            };
            stays.push(stay);
            start += fabric.hop_delay() as u64;
        }
        stays
    }

    // The earlier of `best` and the meetings of an offered job's stays with those of packets on this way, of the message of this name.
    pub(crate) fn nearest<F: Fabric>(
        &self,
        fabric: &F,
        best: Option<Meeting>,
        own: &[Stay],
        name: u16,
    ) -> Option<Meeting>
        ensures { result ≡ earliest_from best (meetings name (map stay_take own.now) (way_takes (F.meaning fabric.now) self.now)) }
    {
        let longest = F::reach();
        let mut best = best;
        let mut start = self.start;
        // a loop, since it ends at the first place past the last link
        for place in 0..longest {
            let Some(stay) = self.stay_on(fabric, place, start) else {
                return best;
            };
            best = nearest_to(best, own, name, &stay);
            start += fabric.hop_delay() as u64;
        }
        best
    }

    // The stay of packets on this way at a place, if there is one: no link stands twice on a route.
    #[inline(always)]
    pub(crate) fn stay_there<F: Fabric>(&self, fabric: &F, place: Place) -> Option<Stay>
        ensures among { Among (way_takes (F.meaning fabric.now) self.now) result }
        ensures runs { RunsBy place (way_takes (F.meaning fabric.now) self.now) result }
    {
        let longest = F::reach();
        let mut start = self.start;
        // a loop for the same reason
        for link in 0..longest {
            let stay = self.stay_on(fabric, link, start)?;
            if place.is(stay.place) {
                return Some(stay);
            }
            start += fabric.hop_delay() as u64;
        }
        None
    }
}
