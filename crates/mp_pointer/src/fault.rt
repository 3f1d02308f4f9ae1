//! Why a text is not a pointer.
ghost use Rattle.std.specs.Prelude.{◌≡◌};

use std::alloc::{AllocError, AllocFailed};
use thiserror::Error;

/// Why a text is not a pointer (RFC 6901 section 3).
#[derive(Clone, Copy, Debug, Drop, PartialEq, Eq, Error)]
pub enum PointerFault {
    /// The text is not empty and does not begin with `/`.
    #[error("pointer: no slash")]
    NoSlash,
    /// The offset in bytes of the first `~` that no `0` and no `1` follows.
    #[error("pointer: bad tilde at {0}")]
    BadTilde(usize),
    /// Memory ran out.
    #[error("out of memory")]
    OutOfMemory,
}

impl From<AllocError> for PointerFault {
    ghost use Rattle.mp_pointer.specs.declared.fault.PointerFault.TheVariants.{OutOfMemory};

    ghost from_gives = { λ _ fault. fault ≡ OutOfMemory };

    fn from(_refused: AllocError) -> PointerFault {
        PointerFault::OutOfMemory
    }
}

impl<T: Drop> From<AllocFailed<T>> for PointerFault {
    ghost use Rattle.mp_pointer.specs.declared.fault.PointerFault.TheVariants.{OutOfMemory};

    ghost from_gives = { λ _ fault. fault ≡ OutOfMemory };

    fn from(_refused: AllocFailed<T>) -> PointerFault {
        PointerFault::OutOfMemory
    }
}
