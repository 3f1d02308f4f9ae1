//! Why a call over texts gives no text.
ghost use Rattle.std.specs.Prelude.{◌≡◌};

use mp_merge::{Conflicts, ListFault, RewriteFault};
use mp_patch::{ApplyFault, ApplyWithinFault, FormFault};
use mp_pointer::PointerFault;
use mp_tree::ReadFault;
use std::alloc::{AllocError, AllocFailed};
use thiserror::Error;

/// Why there is no text. If several hold, the first in the order of the call that answers it is reported: each call says
/// which it looks for, and in which order.
#[derive(Debug, Drop, Error)]
pub enum TextsFault {
    /// The text of the document, or of the start, is not a document.
    #[error("document: {0}")]
    Document(ReadFault),
    /// The text with the least number that is not a document, of those given as patches, counted from 0.
    #[error("patch {number}: {fault}")]
    Patch {
        /// The number of the text among those given as patches, from 0.
        number: usize,
        /// Why the text is not a document.
        fault: ReadFault,
    },
    /// There are no patches, or two of them conflict: with the places that the limit allows, and how many there are.
    #[error("{0}")]
    List(ListFault<Conflicts>),
    /// The patch is a document, but not a JSON Patch.
    #[error("{0}")]
    Form(FormFault),
    /// An operation of the JSON Patch is refused.
    #[error("{0}")]
    Refused(ApplyFault),
    /// The text of the pointer spells no pointer.
    #[error("{0}")]
    Pointer(PointerFault),
    /// The document has no part there.
    #[error("missing")]
    Missing,
    /// The answer, or something on the way to it, is larger than the caller's limit.
    #[error("too large")]
    TooLarge {
        /// Of a JSON Patch the number of the operation whose result weighs more, or by which the work is more, from 0; of a rewriting
        /// how many of its operations fit; and 0 if the answer's text is longer.
        number: usize,
    },
    /// Memory ran out.
    #[error("out of memory")]
    OutOfMemory,
}

impl From<ListFault<Conflicts>> for TextsFault {
    ghost use Rattle.mp_texts.specs.Faults.{texts_fault_of_list};

    ghost from_gives = { λ cause fault. fault ≡ texts_fault_of_list cause };

    fn from(cause: ListFault<Conflicts>) -> TextsFault {
        match cause {
            ListFault::OutOfMemory => TextsFault::OutOfMemory,
            refusal => TextsFault::List(refusal),
        }
    }
}

impl From<FormFault> for TextsFault {
    ghost use Rattle.mp_texts.specs.Faults.{texts_fault_of_form};

    ghost from_gives = { λ cause fault. fault ≡ texts_fault_of_form cause };

    fn from(cause: FormFault) -> TextsFault {
        match cause {
            FormFault::OutOfMemory => TextsFault::OutOfMemory,
            refusal => TextsFault::Form(refusal),
        }
    }
}

impl From<ApplyWithinFault> for TextsFault {
    ghost use Rattle.mp_texts.specs.Faults.{texts_fault_of_apply_within};

    ghost from_gives = { λ cause fault. fault ≡ texts_fault_of_apply_within cause };

    fn from(cause: ApplyWithinFault) -> TextsFault {
        match cause {
            ApplyWithinFault::Refused { op, cause } => {
                TextsFault::Refused(ApplyFault::Refused { op, cause })
            }
            ApplyWithinFault::TooLarge { op } => TextsFault::TooLarge { number: op },
            ApplyWithinFault::OutOfMemory => TextsFault::OutOfMemory,
        }
    }
}

impl From<RewriteFault> for TextsFault {
    ghost use Rattle.mp_texts.specs.Faults.{texts_fault_of_rewrite};

    ghost from_gives = { λ cause fault. fault ≡ texts_fault_of_rewrite cause };

    fn from(cause: RewriteFault) -> TextsFault {
        match cause {
            RewriteFault::TooLarge { fitting } => TextsFault::TooLarge { number: fitting },
            RewriteFault::OutOfMemory => TextsFault::OutOfMemory,
        }
    }
}

impl From<PointerFault> for TextsFault {
    ghost use Rattle.mp_texts.specs.Faults.{texts_fault_of_pointer};

    ghost from_gives = { λ cause fault. fault ≡ texts_fault_of_pointer cause };

    fn from(cause: PointerFault) -> TextsFault {
        match cause {
            PointerFault::OutOfMemory => TextsFault::OutOfMemory,
            refusal => TextsFault::Pointer(refusal),
        }
    }
}

impl From<AllocError> for TextsFault {
    ghost use Rattle.mp_texts.specs.declared.fault.TextsFault.TheVariants.{OutOfMemory};

    ghost from_gives = { λ _ fault. fault ≡ OutOfMemory };

    fn from(_refused: AllocError) -> TextsFault {
        TextsFault::OutOfMemory
    }
}

impl<T: Drop> From<AllocFailed<T>> for TextsFault {
    ghost use Rattle.mp_texts.specs.declared.fault.TextsFault.TheVariants.{OutOfMemory};

    ghost from_gives = { λ _ fault. fault ≡ OutOfMemory };

    fn from(_refused: AllocFailed<T>) -> TextsFault {
        TextsFault::OutOfMemory
    }
}
