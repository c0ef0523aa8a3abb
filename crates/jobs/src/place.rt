//! The places that jobs take.
ghost use Rattle.std.specs.Prelude.{◌≡◌};
ghost use Rattle.jobs.specs.Places.{core, link, place_before, rank, same_place};

/// What a place is: a core, which is taken by tasks, or a link, which is taken by packets.
#[derive(Clone, Copy, PartialEq, Eq, Debug)]
pub enum PlaceKind {
    Core,
    Link,
}

/// A place by its number among those of its kind.
#[derive(Clone, Copy, PartialEq, Eq, Debug)]
pub struct Place {
    pub number: u16,
    pub kind: PlaceKind,
}

impl PlaceKind {
    fn rank(self) -> u8
        ensures { result ≡ rank self }
    {
        match self {
            PlaceKind::Core => 0,
            PlaceKind::Link => 1,
        }
    }
}

impl Place {
    /// The core of this number.
    pub fn core(number: u16) -> Place
        ensures { result ≡ core number }
    {
        Place {
            number,
            kind: PlaceKind::Core,
        }
    }

    /// The link of this number.
    pub fn link(number: u16) -> Place
        ensures { result ≡ link number }
    {
        Place {
            number,
            kind: PlaceKind::Link,
        }
    }

    #[inline(always)]
    pub(crate) fn is(self, other: Place) -> bool
        ensures { result ≡ same_place self other }
    {
        self.number == other.number && self.kind.rank() == other.kind.rank()
    }

    pub(crate) fn comes_before(self, other: Place) -> bool
        ensures { result ≡ place_before self other }
    {
        self.number < other.number
            || (self.number == other.number && self.kind.rank() < other.kind.rank())
    }
}
