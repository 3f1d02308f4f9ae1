//! What a join of two patches, or of a list, can be refused for.
ghost use Rattle.std.specs.Prelude.{◌≡◌};

use crate::comparing::Conflicts;
use mp_patch::{ApplyFault, Cause};
use mp_pointer::Pointer;
use std::alloc::AllocError;
use thiserror::Error;

/// Why two patches have no join.
#[derive(Debug, Drop, Error)]
pub enum JoinFault {
    /// The patches conflict; the pointers lead to all their conflicts, in the order of paths.
    #[error("conflict")]
    Conflict(Vec<Pointer>),
    /// Memory ran out.
    #[error("out of memory")]
    OutOfMemory,
}

impl From<AllocError> for JoinFault {
    ghost use Rattle.mp_merge.specs.declared.fault.JoinFault.TheVariants.{OutOfMemory};

    ghost from_gives = { λ _ fault. fault ≡ OutOfMemory };

    fn from(_refused: AllocError) -> JoinFault {
        JoinFault::OutOfMemory
    }
}

/// Why the patches of a list have no join, or can't be replayed. Patches are numbered from 0. `P` is what is reported of the places
/// of a conflict: all of them, or within a limit the first and how many there are, as [`Conflicts`].
#[derive(Debug, Drop, Error)]
pub enum ListFault<P = Vec<Pointer>> {
    /// The list is empty: no patch leaves every document as it is, so there is no join of none.
    #[error("no patches")]
    NoPatches,
    /// `second` is the least number of a patch that conflicts with an earlier one, `first` the least number of a patch
    /// that conflicts with it, and `places` lead to all conflicts of the two, in the order of paths, or to the first.
    #[error("conflict: patches {first} and {second}")]
    ConflictOf {
        /// The number of the earlier patch.
        first: usize,
        /// The number of the later patch.
        second: usize,
        /// The paths at which the two disagree, in the order of paths.
        places: P,
    },
    /// Memory ran out.
    #[error("out of memory")]
    OutOfMemory,
}

impl<P: Drop> From<AllocError> for ListFault<P> {
    ghost use Rattle.mp_merge.specs.declared.fault.ListFault.TheVariants.{OutOfMemory};

    ghost from_gives = { λ _ fault. fault ≡ OutOfMemory };

    fn from(_refused: AllocError) -> ListFault<P> {
        ListFault::OutOfMemory
    }
}

/// Why a merge patch was not rewritten as a JSON Patch within a limit.
#[derive(Debug, Drop, Error)]
pub enum RewriteFault {
    /// The operations together weigh more than the limit.
    #[error("too large")]
    TooLarge {
        /// How many operations fit: the tests and the edits of the places that come first, as many places as weigh at
        /// most the limit with them.
        fitting: usize,
    },
    /// Memory ran out.
    #[error("out of memory")]
    OutOfMemory,
}

impl From<AllocError> for RewriteFault {
    ghost use Rattle.mp_merge.specs.declared.fault.RewriteFault.TheVariants.{OutOfMemory};

    ghost from_gives = { λ _ fault. fault ≡ OutOfMemory };

    fn from(_refused: AllocError) -> RewriteFault {
        RewriteFault::OutOfMemory
    }
}

/// Why two replicas did not come to one document.
#[derive(Debug, Drop, Error)]
pub enum ConvergeFault {
    /// Patches have no join, or can't be replayed.
    #[error("{0}")]
    Lists(ListFault),
    /// This operation of the JSON Patch that the join is rewritten as was refused, by this cause.
    #[error("operation {op}: {cause}")]
    Patch {
        /// The number of the operation, from 0.
        op: usize,
        /// Why it is refused.
        cause: Cause,
    },
    /// Memory ran out.
    #[error("out of memory")]
    OutOfMemory,
}

impl From<ListFault> for ConvergeFault {
    ghost use Rattle.mp_merge.specs.Faults.{converge_fault_of_list};

    ghost from_gives = { λ cause fault. fault ≡ converge_fault_of_list cause };

    fn from(cause: ListFault) -> ConvergeFault {
        match cause {
            ListFault::OutOfMemory => ConvergeFault::OutOfMemory,
            refusal => ConvergeFault::Lists(refusal),
        }
    }
}

impl From<ApplyFault> for ConvergeFault {
    ghost use Rattle.mp_merge.specs.Faults.{converge_fault_of_patch};

    ghost from_gives = { λ cause fault. fault ≡ converge_fault_of_patch cause };

    fn from(cause: ApplyFault) -> ConvergeFault {
        match cause {
            ApplyFault::Refused { op, cause } => ConvergeFault::Patch { op, cause },
            ApplyFault::OutOfMemory => ConvergeFault::OutOfMemory,
        }
    }
}

impl From<AllocError> for ConvergeFault {
    ghost use Rattle.mp_merge.specs.declared.fault.ConvergeFault.TheVariants.{OutOfMemory};

    ghost from_gives = { λ _ fault. fault ≡ OutOfMemory };

    fn from(_refused: AllocError) -> ConvergeFault {
        ConvergeFault::OutOfMemory
    }
}
