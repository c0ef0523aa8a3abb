//! The kind of a message.
ghost use Rattle.std.specs.Prelude.{◌≡◌};
ghost use Rattle.records.specs.Kind.{kind_of};

use thiserror::Error;

/// Which run has to read the packets of a message.
#[derive(Clone, Copy, PartialEq, Eq, Debug)]
pub enum Kind {
    /// For packet k, the first that starts k periods of the source after instant 0 or later: the byte 0.
    Precedence,
    /// The first that starts a period of the source later than that, or later still: the byte 1.
    NextPeriod,
}

/// A byte that stands for no kind.
#[derive(Clone, Copy, PartialEq, Eq, Debug, Error)]
#[error("{0} is no kind of message")]
pub struct UnknownKind(pub u8);

impl TryFrom<u8> for Kind {
    type Error = UnknownKind;

    ghost try_from_gives = { λ code r. r ≡ kind_of code };

    fn try_from(code: u8) -> Result<Kind, UnknownKind> {
        match code {
            0 => Ok(Kind::Precedence),
            1 => Ok(Kind::NextPeriod),
            _ => Err(UnknownKind(code)),
        }
    }
}
