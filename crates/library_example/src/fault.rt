//! Why a replica has nothing to show.
ghost use Rattle.std.specs.Prelude.{◌≡◌};

use mp_merge::ListFault;
use mp_tree::{DocsFault, ReadFault};
use std::alloc::AllocError;
use thiserror::Error;

/// Why there is nothing to show.
#[derive(Debug, Drop, Error)]
pub enum ShowFault {
    /// The start is not a document.
    #[error("start: {0}")]
    Start(ReadFault),
    /// The patches are not a list of documents.
    #[error("patches: {0}")]
    Patches(DocsFault),
    /// Two of the patches conflict.
    #[error("{0}")]
    Replay(ListFault),
    /// Memory ran out, in whichever call.
    #[error("out of memory")]
    OutOfMemory,
}

impl From<ReadFault> for ShowFault {
    ghost use Rattle.library_example.specs.Faults.{fault_of_start};

    ghost from_gives = { λ cause fault. fault ≡ fault_of_start cause };

    fn from(cause: ReadFault) -> ShowFault {
        match cause {
            ReadFault::OutOfMemory => ShowFault::OutOfMemory,
            refusal => ShowFault::Start(refusal),
        }
    }
}

impl From<DocsFault> for ShowFault {
    ghost use Rattle.library_example.specs.Faults.{fault_of_patches};

    ghost from_gives = { λ cause fault. fault ≡ fault_of_patches cause };

    fn from(cause: DocsFault) -> ShowFault {
        match cause {
            DocsFault::OutOfMemory => ShowFault::OutOfMemory,
            refusal => ShowFault::Patches(refusal),
        }
    }
}

impl From<ListFault> for ShowFault {
    ghost use Rattle.library_example.specs.Faults.{fault_of_replay};

    ghost from_gives = { λ cause fault. fault ≡ fault_of_replay cause };

    fn from(cause: ListFault) -> ShowFault {
        match cause {
            ListFault::OutOfMemory => ShowFault::OutOfMemory,
            refusal => ShowFault::Replay(refusal),
        }
    }
}

impl From<AllocError> for ShowFault {
    ghost use Rattle.library_example.specs.declared.fault.ShowFault.TheVariants.{OutOfMemory};

    ghost from_gives = { λ _ shown. shown ≡ OutOfMemory };

    fn from(_refused: AllocError) -> ShowFault {
        ShowFault::OutOfMemory
    }
}
