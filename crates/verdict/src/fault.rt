//! Why a plan file is refused: the fault of the part, carried whole.
ghost use Rattle.verdict.specs.Told.{file_told};
ghost use Rattle.verdict.specs.declared.fault.FileFault.TheVariants.{Fabric, Load};
ghost use Rattle.std.specs.Prelude.{◌≡◌};

use listed::SetFault;
use plan::fault::LoadFault;
use refusals::refusal::{Part, Refusal, Told};
use thiserror::Error;

/// What is wrong with a plan file.
#[derive(Clone, Copy, PartialEq, Eq, Debug, Error)]
pub(crate) enum FileFault {
    /// It has over 8,192 bytes: refusal 25.
    #[error("longer than a plan file may be")]
    Extra,
    /// The head, the links or the routes.
    #[error("{0:?}")]
    Fabric(SetFault),
    /// The job part.
    #[error("{0}")]
    Load(LoadFault),
}

impl From<SetFault> for FileFault {
    ghost from_gives = { λ e r. r ≡ Fabric e };

    fn from(e: SetFault) -> FileFault {
        FileFault::Fabric(e)
    }
}

impl From<LoadFault> for FileFault {
    ghost from_gives = { λ e r. r ≡ Load e };

    fn from(e: LoadFault) -> FileFault {
        FileFault::Load(e)
    }
}

impl From<FileFault> for Told {
    ghost from_gives = { λ e r. r ≡ file_told e };

    fn from(fault: FileFault) -> Told {
        match fault {
            FileFault::Extra => Told::new(Part::End as u8, 0, Refusal::plain(25)),
            FileFault::Fabric(fault) => fault.into(),
            FileFault::Load(fault) => fault.into(),
        }
    }
}
