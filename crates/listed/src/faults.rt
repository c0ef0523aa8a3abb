//! What can be wrong with a file that sets a listed fabric, and how it is told: the section, the record and the refusal.
ghost use Rattle.std.specs.Prelude.{◌≡◌};
ghost use Rattle.listed.specs.Told.{section_told, set_told};
ghost use Rattle.listed.specs.declared.faults.SetFault.TheVariants.{Head};

use records::head::HeadFault;
use refusals::refusal::{Part, Refusal, Told};
use thiserror::Error;

/// What is wrong with a section of records as a whole.
#[derive(Clone, Copy, PartialEq, Eq, Debug, Error)]
pub enum SectionFault {
    /// It is cut off after so many whole records: refusal 1.
    #[error("cut off after {0} whole records")]
    Short(usize),
    /// It counts more records than it may have: refusal 4.
    #[error("more records than a section of its kind may have")]
    Many,
}

/// What is wrong with the head, the links or the routes; `Link` to `Order` have the index of the record.
#[derive(Clone, Copy, PartialEq, Eq, Debug, Error)]
pub enum SetFault {
    /// The head, by its own fault: refusals 1 to 3.
    #[error("head: {0}")]
    Head(HeadFault),
    /// The section of the links: refusals 1 and 4.
    #[error("links: {0}")]
    Links(SectionFault),
    /// A link that does not go from one node to another: refusal 5.
    #[error("link record {0} does not go from one node to another")]
    Link(usize),
    /// The section of the routes: refusals 1 and 4.
    #[error("routes: {0}")]
    Routes(SectionFault),
    /// A route whose nodes, length, link numbers or unused bytes are wrong: refusal 6.
    #[error("route record {0} has a node, a length, a link number or an unused byte that no route has")]
    Route(usize),
    /// A route whose links do not lead from its first node to its second, or that takes one twice: refusal 7.
    #[error("the links of route record {0} do not lead from its first node to its second, each once")]
    Chain(usize),
    /// A route that does not stand above the one before it, by the first node and then by the second: refusal 8.
    #[error("route record {0} is not above the one before it")]
    Order(usize),
}

impl From<HeadFault> for SetFault {
    ghost from_gives = { λ e r. r ≡ Head e };

    fn from(e: HeadFault) -> SetFault {
        SetFault::Head(e)
    }
}

impl SectionFault {
    /// The fault of the section with this number, which may be any byte. The number stands beside the fault, so this is no `From`.
    pub fn told(self, section: u8) -> Told
        ensures { result ≡ section_told section self }
    {
        match self {
            SectionFault::Short(whole) => Told::new(section, whole, Refusal::plain(1)),
            SectionFault::Many => Told::new(section, 0, Refusal::plain(4)),
        }
    }
}

impl From<SetFault> for Told {
    ghost from_gives = { λ e r. r ≡ set_told e };

    fn from(fault: SetFault) -> Told {
        match fault {
            SetFault::Head(fault) => Told::new(Part::Head as u8, 0, Refusal::plain(fault.number())),
            SetFault::Links(fault) => fault.told(Part::Links as u8),
            SetFault::Link(place) => Told::new(Part::Links as u8, place, Refusal::plain(5)),
            SetFault::Routes(fault) => fault.told(Part::Routes as u8),
            SetFault::Route(place) => Told::new(Part::Routes as u8, place, Refusal::plain(6)),
            SetFault::Chain(place) => Told::new(Part::Routes as u8, place, Refusal::plain(7)),
            SetFault::Order(place) => Told::new(Part::Routes as u8, place, Refusal::plain(8)),
        }
    }
}
