//! A fabric whose links and routes are read from file bytes that the caller holds.
#![tactic(auto)]

ghost use Rattle.std.specs.Prelude.{◌≡◌, ◌≢◌, ◌≤◌, false, length, is_ok, IfSome, None};
ghost use Rattle.records.specs.Lent.{Gives};
ghost use Rattle.std.proofs.Common.{lit≤};
ghost use Rattle.std.specs.Option.{option_map};
ghost use Rattle.listed.specs.Records.{LinksGood, RoutesGood, seek, route_count, route_links, Stands};

mod checks;
mod faults;
mod reading;

use self::checks::Links;
pub use self::faults::{SectionFault, SetFault};
use self::reading::read_listed_head;
pub use self::reading::{read_section, set_records_stand};
use fabric::Fabric;
use records::record::{Link, Route};
use records::section::Section;
use std::cmp::Ordering;

/// The records of the links and of the routes, each of them good: a listed fabric has only routes that keep the laws.
#[derive(Drop)]
pub struct Listed<'a> {
    nodes: u8,
    delay: u8,
    links: Section<'a, Link>,
    routes: Section<'a, Route>,
    ghost sized: { (1 ≤ nodes) × (nodes ≤ 64) },
    ghost slow: { delay ≤ 64 },
    ghost few: { length links.bytes.now ≤ 256 },
    ghost linked: { LinksGood nodes links.bytes.now },
    ghost routed: { RoutesGood nodes links.bytes.now routes.bytes.now },
}

impl<'a> Listed<'a> {
    ghost use Rattle.listed.specs.Description.{alone, description_of, description_read};
    ghost use Rattle.listed.specs.Told.{set_told};
    ghost use Rattle.refusals.specs.Told.{refusal_of};

    /// One node, no link and hop delay 0.
    pub fn new() -> Listed<'a>
        ensures { description_of result ≡ alone }
    {
        Listed {
            nodes: 1,
            delay: 0,
            links: Section::over(&[]),
            routes: Section::over(&[]),
        }
    }

    /// Replaces the fabric by that of a file, and answers the bytes that follow its routes; or refuses, by the first fault, and
    /// leaves the fabric. docs/FILE-FORMAT.md has the bytes of the head, the links and the routes.
    pub fn set(&mut self, file: &'a [u8]) -> Result<&'a [u8], SetFault>
        ensures answer { Gives (λ rest. (description_of self.new, rest.now)) result (description_read file.now) }
        ensures numbers { refusal_of set_told result ≡ refusal_of set_told (description_read file.now) }
        ensures refused { is_ok result ≡ false → self.new ≡ self.old }
    {
        let (head, body) = read_listed_head(file)?;
        let (section, tail) = read_section(body, 128).map_err(SetFault::Links)?;
        let links = Links {
            nodes: head.x,
            section,
        };
        links.check()?;
        let (routes, rest) = read_section(tail, 256).map_err(SetFault::Routes)?;
        links.check_routes(&routes)?;
        *self = Listed {
            nodes: head.x,
            delay: head.delay,
            links: links.section,
            routes,
        };
        Ok(rest)
    }
}

impl<'a> Fabric for Listed<'a> {
    ghost use Rattle.listed.specs.Description.{description_of, network};
    ghost use Rattle.listed.specs.Sound.{listed_lawful};

    // A route's record has room for as many links.
    const LONGEST: usize = 12;

    ghost longest = { 12 };

    ghost meaning = { λ s. network (description_of s) };

    ghost bounded = { lit≤ tt };

    ghost lawful = { λ s.
        listed_lawful s.nodes s.delay s.links.bytes.now s.routes.bytes.now s.sized.0 s.sized.1 s.slow s.few s.linked s.routed };

    fn reach() -> usize
        ensures { result ≡ 12 }
    {
        Self::LONGEST
    }

    fn nodes(&self) -> usize {
        self.nodes as usize
    }

    fn link_numbers(&self) -> usize {
        self.links.count()
    }

    fn hop_delay(&self) -> usize {
        self.delay as usize
    }

    fn link(&self, l: usize) -> Option<(usize, usize)> {
        let link = self.links.get(l)?;
        Some((link.from as usize, link.to as usize))
    }

    fn route_len(&self, from: usize, to: usize) -> Option<usize> {
        if from == to && from < self.nodes() {
            return Some(0);
        }
        let route = self.route_between(from, to)?;
        Some(route.length as usize)
    }

    fn route_link(&self, from: usize, to: usize, place: usize) -> Option<usize> {
        let route = self.route_between(from, to)?;
        if place >= route.length as usize {
            return None;
        }
        Some(route.links[place] as usize)
    }
}

impl Listed<'_> {
    ghost use Rattle.listed.specs.Description.{description_of, network};

    // The record of the route between two different nodes, and none from a node to itself.
    fn route_between(&self, from: usize, to: usize) -> Option<Route>
        ensures apart { from ≢ to → (network (description_of self.now)).route from to ≡ option_map route_links result }
        ensures same { from ≡ to → result ≡ None }
        ensures long { IfSome result (λ r. length (route_links r) ≡ r.length) }
    {
        if from == to || from >= self.nodes() || to >= self.nodes() {
            return None;
        }
        self.find_route(from, to)
    }

    // The record of the route from one node to another. The records ascend, so each turn halves the places where it may stand;
    // no search of std fits, since a section is no slice of records.
    fn find_route(&self, from: usize, to: usize) -> Option<Route>
        ensures answer { option_map route_links result ≡ seek self.now.routes.bytes.now from to 0 (route_count self.now.routes.bytes.now) }
        ensures stands { IfSome result (Stands self.now.routes.bytes.now) }
    {
        let mut low = 0;
        let mut high = self.routes.count();
        while low < high {
            let middle = low + (high - low) / 2;
            let route = self.routes.get(middle)?;
            match (route.from as usize, route.to as usize).cmp(&(from, to)) {
                Ordering::Less => low = middle + 1,
                Ordering::Equal => return Some(route),
                Ordering::Greater => high = middle,
            }
        }
        None
    }
}
