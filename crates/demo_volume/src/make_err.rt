// Why a pyramid was not made.
ghost use Rattle.std.specs.Prelude.{◌≡◌};

use std::alloc::AllocError;
use thiserror::Error;

/// Why the pyramid was not made.
#[derive(Clone, Copy, Debug, PartialEq, Eq, Error)]
pub enum MakeErr {
    /// A put failed. No further one was tried.
    #[error("the store failed in a put")]
    WriteFault,
    #[error("out of memory")]
    Memory,
}

impl From<AllocError> for MakeErr {
    ghost use Rattle.demo_volume.specs.declared.make_err.MakeErr.TheVariants.{Memory};

    ghost from_gives = { λ _ err. err ≡ Memory };

    fn from(_err: AllocError) -> MakeErr {
        MakeErr::Memory
    }
}
