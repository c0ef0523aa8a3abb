//! The checks of link and route records: each finds the first record with a fault.
ghost use Rattle.std.specs.Prelude.{◌≡◌, is_some, IfSome};
ghost use Rattle.listed.specs.Records.{link_good, chain_good, once_good, all_below, route_fits, route_links, route_above, route_prior};
ghost use Rattle.listed.specs.Description.{links_fault, link_fault, route_fault, routes_fault};
ghost use Rattle.refusals.specs.Told.{checked};

use super::SetFault;
use records::record::{Link, Route};
use records::section::Section;

// A file's count of nodes and its links, which its routes are checked against.
#[derive(Drop)]
pub(crate) struct Links<'a> {
    pub(crate) nodes: u8,
    pub(crate) section: Section<'a, Link>,
}

impl Links<'_> {
    fn check_link(&self, l: usize) -> Result<(), SetFault>
        ensures { result ≡ checked (link_fault self.now.nodes self.now.section.bytes.now l) }
    {
        if !joins(self.nodes, self.section.get(l)) {
            return Err(SetFault::Link(l));
        }
        Ok(())
    }

    // The links, up to the first fault.
    pub(crate) fn check(&self) -> Result<(), SetFault>
        ensures { result ≡ checked (links_fault self.now.nodes self.now.section.bytes.now) }
    {
        (0..self.section.count()).try_for_each(|l| self.check_link(l))
    }

    // The link numbers of a route with two different nodes, 1 to 12 numbers that are those of links, and zeros in the places
    // behind them.
    fn numbers<'r>(&self, route: &'r Route) -> Option<&'r [u8]>
        ensures fits { is_some result ≡ route_fits self.now.nodes self.now.section.bytes.now route.now }
        ensures numbers { IfSome result (λ ns. ns.now ≡ route_links route.now) }
    {
        let (numbers, unused) = route.links.split_at_checked(route.length as usize)?;
        let apart = route.from < self.nodes && route.to < self.nodes && route.from != route.to;
        let named = below(numbers, self.section.count()) && below(unused, 1);
        (apart && !numbers.is_empty() && named).then_some(numbers)
    }

    // Whether the numbers lead from one node to the other.
    // toolchain: a closure of `is_some_and` that calls this would need a proof and a measure of its own
    fn follows(&self, from: u8, numbers: &[u8], to: u8) -> bool
        ensures { result ≡ chain_good self.now.section.bytes.now from numbers.now to }
    {
        match numbers {
            [] => from == to,
            [n, rest @ ..] => {
                let Some(link) = self.section.get(*n as usize) else {
                    return false;
                };
                link.from == from && self.follows(link.to, rest, to)
            }
        }
    }

    // A route record, by its checks in order.
    fn check_route(&self, routes: &Section<'_, Route>, k: usize) -> Result<(), SetFault>
        ensures { result ≡ checked (route_fault self.now.nodes self.now.section.bytes.now routes.now.bytes.now k) }
    {
        let route = routes.get(k).ok_or(SetFault::Route(k))?;
        let numbers = self.numbers(&route).ok_or(SetFault::Route(k))?;
        if !self.follows(route.from, numbers, route.to) || !distinct(numbers) {
            return Err(SetFault::Chain(k));
        }
        if !above(before(routes, k), &route) {
            return Err(SetFault::Order(k));
        }
        Ok(())
    }

    // The routes, up to the first fault.
    pub(crate) fn check_routes(&self, routes: &Section<'_, Route>) -> Result<(), SetFault>
        ensures { result ≡ checked (routes_fault self.now.nodes self.now.section.bytes.now routes.now.bytes.now) }
    {
        (0..routes.count()).try_for_each(|k| self.check_route(routes, k))
    }
}

// Whether there is a link, from one node of the fabric to another.
fn joins(nodes: u8, link: Option<Link>) -> bool
    ensures { result ≡ link_good nodes link }
{
    link.is_some_and(|x| x.from < nodes && x.to < nodes && x.from != x.to)
}

// Whether each number is below a limit.
fn below(numbers: &[u8], limit: usize) -> bool
    ensures { result ≡ all_below limit numbers.now }
{
    numbers.iter().all(|n| (*n as usize) < limit)
}

// Whether no number stands twice.
// toolchain: a recursion, as `follows` is
fn distinct(numbers: &[u8]) -> bool
    ensures { result ≡ once_good numbers.now }
{
    match numbers {
        [] => true,
        [l, rest @ ..] => !rest.contains(l) && distinct(rest),
    }
}

// Whether a route is above the record before it, by from and then by to.
fn above(prior: Option<Route>, route: &Route) -> bool
    ensures { result ≡ route_above prior route.now }
{
    prior.is_none_or(|q| (q.from, q.to) < (route.from, route.to))
}

// The record before a record, or none before the first.
fn before(routes: &Section<'_, Route>, k: usize) -> Option<Route>
    ensures { result ≡ route_prior routes.now.bytes.now k }
{
    routes.get(k.checked_sub(1)?)
}
