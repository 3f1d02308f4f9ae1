//! Why a call over texts of what stays in memory gives no answer, or a patch log begins no new start.
ghost use Rattle.std.specs.Prelude.{◌≡◌};

use crate::message::Identity;
use mp_merge::Conflicts;
use mp_pointer::PointerFault;
use mp_tree::ReadFault;
use std::alloc::{AllocError, AllocFailed};
use thiserror::Error;

/// Why there is no answer. If several hold, the first in the order of the call that answers it is reported: each call says
/// which it looks for, and in which order.
#[derive(Debug, Drop, Error)]
pub enum LiveFault {
    /// The text of the start, or of the patch, is not a document.
    #[error("document: {0}")]
    Document(ReadFault),
    /// The text of the pointer spells no pointer.
    #[error("{0}")]
    Pointer(PointerFault),
    /// What is shown has no part there.
    #[error("missing")]
    Missing,
    /// Nothing was received or taken.
    #[error("no patches")]
    NoPatches,
    /// Two of the patches that were taken conflict.
    #[error("conflict")]
    Conflict,
    /// A patch was received or taken, and memory ran out before it was shown or joined. `settle` tries again.
    #[error("pending")]
    Pending,
    /// The text is longer than the caller allows.
    #[error("too large")]
    TooLarge,
    /// The text is not the kept form of patches.
    #[error("not kept patches")]
    NotKept,
    /// Memory ran out.
    #[error("out of memory")]
    OutOfMemory,
}

impl From<PointerFault> for LiveFault {
    ghost use Rattle.mp_replica.specs.Faults.{live_fault_of_pointer};

    ghost from_gives = { λ cause fault. fault ≡ live_fault_of_pointer cause };

    fn from(cause: PointerFault) -> LiveFault {
        match cause {
            PointerFault::OutOfMemory => LiveFault::OutOfMemory,
            refusal => LiveFault::Pointer(refusal),
        }
    }
}

impl From<AllocError> for LiveFault {
    ghost use Rattle.mp_replica.specs.declared.fault.LiveFault.TheVariants.{OutOfMemory};

    ghost from_gives = { λ _ fault. fault ≡ OutOfMemory };

    fn from(_refused: AllocError) -> LiveFault {
        LiveFault::OutOfMemory
    }
}

impl<T: Drop> From<AllocFailed<T>> for LiveFault {
    ghost use Rattle.mp_replica.specs.declared.fault.LiveFault.TheVariants.{OutOfMemory};

    ghost from_gives = { λ _ fault. fault ≡ OutOfMemory };

    fn from(_refused: AllocFailed<T>) -> LiveFault {
        LiveFault::OutOfMemory
    }
}

/// Why a patch log does not begin the new start that was decided.
#[derive(Debug, Drop, Error)]
pub enum DecideFault {
    /// No patch is stored under this identity, the first such of those that were chosen. Decide again once it has arrived.
    #[error("{0:?} has not arrived")]
    NotReceived(Identity),
    /// Two of the chosen patches conflict: of all such pairs the first, by their identities.
    #[error("conflict: {first:?} and {second:?}")]
    Conflict {
        /// The lower identity of the two.
        first: Identity,
        /// The other.
        second: Identity,
        /// The places at which the two patches disagree: those that come first within the limit, and how many there are.
        conflicts: Conflicts,
    },
    /// There is no number after that of this start.
    #[error("no number is left for a start")]
    LastEpoch,
    /// Memory ran out.
    #[error("out of memory")]
    OutOfMemory,
}

impl From<AllocError> for DecideFault {
    ghost use Rattle.mp_replica.specs.declared.fault.DecideFault.TheVariants.{OutOfMemory};

    ghost from_gives = { λ _ fault. fault ≡ OutOfMemory };

    fn from(_refused: AllocError) -> DecideFault {
        DecideFault::OutOfMemory
    }
}
