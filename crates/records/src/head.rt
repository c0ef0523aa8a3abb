//! The head of a plan file.
ghost use Rattle.std.specs.Prelude.{◌≡◌};
ghost use Rattle.records.specs.Lent.{Gives};
ghost use Rattle.records.specs.Head.{head_read, head_number, kind_read};

use thiserror::Error;

/// The kind of fabric that a file describes: a mesh (1) by its head alone, a listed fabric (2) by its links and routes.
#[derive(Clone, Copy, PartialEq, Eq, Debug)]
pub enum FabricKind {
    Mesh,
    Listed,
}

impl TryFrom<u8> for FabricKind {
    type Error = HeadFault;

    ghost try_from_gives = { λ k r. r ≡ kind_read k };

    fn try_from(kind: u8) -> Result<FabricKind, HeadFault> {
        match kind {
            1 => Ok(FabricKind::Mesh),
            2 => Ok(FabricKind::Listed),
            _ => Err(HeadFault::Version),
        }
    }
}

/// A head of version 1: the kind, two sizes and the hop delay, which the kind gives their meaning and their limits.
#[derive(Clone, Copy, PartialEq, Eq, Debug)]
pub struct Head {
    pub kind: FabricKind,
    pub x: u8,
    pub y: u8,
    pub delay: u8,
}

/// What can be wrong with a head.
#[derive(Clone, Copy, PartialEq, Eq, Debug, Error)]
pub enum HeadFault {
    /// Fewer bytes than a head has: refusal 1.
    #[error("fewer bytes than a head has")]
    Short,
    /// Another version, or a kind that this version has not: refusal 2.
    #[error("another version or an unknown kind")]
    Version,
    /// Outside the limits of its kind: refusal 3.
    #[error("a size or a hop delay outside the limits")]
    Limits,
}

impl HeadFault {
    /// The number of its refusal. The refusals themselves are of a crate that this one does not stand on, so this is no `From`.
    pub fn number(self) -> u8
        ensures { result ≡ head_number self }
    {
        match self {
            HeadFault::Short => 1,
            HeadFault::Version => 2,
            HeadFault::Limits => 3,
        }
    }
}

/// The head of a file of version 1, and what follows it; docs/FILE-FORMAT.md has its six bytes.
pub fn read_head(file: &[u8]) -> Result<(Head, &[u8]), HeadFault>
    ensures { Gives (λ p. (p.0, p.1.now)) result (head_read file.now) }
{
    let [version, kind, x, y, delay, zero, rest @ ..] = file else {
        return Err(HeadFault::Short);
    };
    if *version != 1 || *zero != 0 {
        return Err(HeadFault::Version);
    }
    let kind = FabricKind::try_from(*kind)?;
    let head = Head {
        kind,
        x: *x,
        y: *y,
        delay: *delay,
    };
    Ok((head, rest))
}
