//! Why a patch is refused.
ghost use Rattle.std.specs.Prelude.{◌≡◌, ◌≢◌};
ghost use Rattle.mp_patch.specs.Texts.{cause_text, form_text};
ghost use Rattle.mp_patch.specs.Private.Faults.{fault_of_element, fault_of_operation};
ghost use Rattle.mp_patch.specs.Within.{within_fault_of};

use std::alloc::{AllocError, AllocFailed};
use thiserror::Error;

/// Why an operation is refused (RFC 6902 sections 4 and 5). If several hold, the first in this order is answered.
#[derive(Clone, Copy, Debug, Drop, PartialEq, Eq, Error)]
#[error("{text}", text = self.as_str())]
pub enum Cause {
    /// A `move` into a place inside of what is moved, whether or not there is anything.
    IntoItself,
    /// `remove` at the empty path. What removing the whole document leaves, the standard does not say.
    RemoveRoot,
    /// There is nothing where a value is to be removed, replaced, tested, moved or copied.
    Missing,
    /// The path is not empty, and what its tokens but the last name is absent, a scalar, or an array in which the
    /// last token is neither `-` nor an index at most the length.
    NoPlace,
    /// The number of tokens of the path and the depth of the value are together over 126.
    TooDeep,
    /// What is tested is another value.
    TestFailed,
}

impl Cause {
    /// The cause in words, as `Display` and the command `mergejoin` show it: `no place` for `NoPlace`.
    pub fn as_str(&self) -> &'static str
        ensures { result.now ≡ cause_text self.now }
    {
        match self {
            Cause::IntoItself => "into itself",
            Cause::RemoveRoot => "remove of root",
            Cause::Missing => "missing",
            Cause::NoPlace => "no place",
            Cause::TooDeep => "too deep",
            Cause::TestFailed => "test failed",
        }
    }
}

/// Why a patch has no result.
#[derive(Clone, Copy, Debug, Drop, PartialEq, Eq, Error)]
pub enum ApplyFault {
    /// The first operation that is refused, counted from 0.
    #[error("operation {op}: {cause}")]
    Refused {
        /// The number of the operation, from 0.
        op: usize,
        /// Why it is refused.
        cause: Cause,
    },
    /// Memory ran out.
    #[error("out of memory")]
    OutOfMemory,
}

impl From<AllocError> for ApplyFault {
    ghost use Rattle.mp_patch.specs.declared.fault.ApplyFault.TheVariants.{OutOfMemory};

    ghost from_gives = { λ _ fault. fault ≡ OutOfMemory };

    fn from(_refused: AllocError) -> ApplyFault {
        ApplyFault::OutOfMemory
    }
}

/// Why a patch has no result within a limit on the weight of each result, and on the work of all operations. If the limit bounds
/// nothing, as `usize::MAX`, it is never `TooLarge`.
#[derive(Clone, Copy, Debug, Drop, PartialEq, Eq, Error)]
pub enum ApplyWithinFault {
    /// The first operation that is refused, counted from 0. Each result before it is within the limit, and so is their work.
    #[error("operation {op}: {cause}")]
    Refused {
        /// The number of the operation, from 0.
        op: usize,
        /// Why it is refused.
        cause: Cause,
    },
    /// The first operation whose result weighs more than the limit, or by which the work is more than 16 times the limit, counted
    /// from 0. It is not refused, and none before it is.
    #[error("operation {op}: too large")]
    TooLarge {
        /// The number of the operation, from 0.
        op: usize,
    },
    /// Memory ran out.
    #[error("out of memory")]
    OutOfMemory,
}

impl From<AllocError> for ApplyWithinFault {
    ghost use Rattle.mp_patch.specs.declared.fault.ApplyWithinFault.TheVariants.{OutOfMemory};

    ghost from_gives = { λ _ fault. fault ≡ OutOfMemory };

    fn from(_refused: AllocError) -> ApplyWithinFault {
        ApplyWithinFault::OutOfMemory
    }
}

impl ApplyWithinFault {
    /// The error as `ApplyFault` has it: of a call that has no limit, which has no `TooLarge`.
    pub fn without_limit(self) -> ApplyFault
        requires { (op : _) → self ≢ ApplyWithinFault.TooLarge op }
        ensures { within_fault_of result ≡ self }
    {
        match self {
            ApplyWithinFault::Refused { op, cause } => ApplyFault::Refused { op, cause },
            ApplyWithinFault::TooLarge { .. } => unreachable!(),
            ApplyWithinFault::OutOfMemory => ApplyFault::OutOfMemory,
        }
    }
}

/// Why an element of a document is not an operation (RFC 6902 sections 3 and 4). If several hold, the first in this
/// order is answered.
#[derive(Clone, Copy, Debug, Drop, PartialEq, Eq, Error)]
#[error("{text}", text = self.as_str())]
pub enum FormCause {
    /// The element is not an object.
    NotAnObject,
    /// `op` is absent or no text.
    NoOp,
    /// `op` names no operation.
    UnknownOp,
    /// `path` is absent or no text.
    NoPath,
    /// `from` is absent from a `move` or a `copy`, or no text.
    NoFrom,
    /// `path` spells no pointer, or the `from` of a `move` or a `copy` does not.
    BadPointer,
    /// `value` is absent from an `add`, a `replace` or a `test`. A null is a value.
    NoValue,
}

impl FormCause {
    /// The cause in words, as `Display` and the command `mergejoin` show it: `no path` for `NoPath`.
    pub fn as_str(&self) -> &'static str
        ensures { result.now ≡ form_text self.now }
    {
        match self {
            FormCause::NotAnObject => "not an object",
            FormCause::NoOp => "no op",
            FormCause::UnknownOp => "unknown op",
            FormCause::NoPath => "no path",
            FormCause::NoFrom => "no from",
            FormCause::BadPointer => "bad pointer",
            FormCause::NoValue => "no value",
        }
    }
}

/// Why a document is not a patch.
#[derive(Clone, Copy, Debug, Drop, PartialEq, Eq, Error)]
pub enum FormFault {
    /// The document is not an array.
    #[error("not an array")]
    NotAnArray,
    /// The first element that is not an operation, counted from 0.
    #[error("operation {op}: {cause}")]
    Form {
        /// The number of the element, from 0.
        op: usize,
        /// Why it is not an operation.
        cause: FormCause,
    },
    /// Memory ran out.
    #[error("out of memory")]
    OutOfMemory,
}

impl From<AllocError> for FormFault {
    ghost use Rattle.mp_patch.specs.declared.fault.FormFault.TheVariants.{OutOfMemory};

    ghost from_gives = { λ _ fault. fault ≡ OutOfMemory };

    fn from(_refused: AllocError) -> FormFault {
        FormFault::OutOfMemory
    }
}

impl<T: Drop> From<AllocFailed<T>> for FormFault {
    ghost use Rattle.mp_patch.specs.declared.fault.FormFault.TheVariants.{OutOfMemory};

    ghost from_gives = { λ _ fault. fault ≡ OutOfMemory };

    fn from(_refused: AllocFailed<T>) -> FormFault {
        FormFault::OutOfMemory
    }
}

// Why one operation, or one element, is not taken: by a cause, or since memory ran out.
#[derive(Clone, Copy, Drop)]
pub(crate) enum Refusal<C> {
    By(C),
    OutOfMemory,
}

impl Refusal<Cause> {
    // As the error of the operation with that number.
    pub(crate) fn of_operation(self, number: usize) -> ApplyWithinFault
        ensures { result ≡ fault_of_operation number self }
    {
        match self {
            Refusal::By(cause) => ApplyWithinFault::Refused { op: number, cause },
            Refusal::OutOfMemory => ApplyWithinFault::OutOfMemory,
        }
    }
}

impl Refusal<FormCause> {
    // As the error of the element with that number.
    pub(crate) fn of_element(self, number: usize) -> FormFault
        ensures { result ≡ fault_of_element number self }
    {
        match self {
            Refusal::By(cause) => FormFault::Form { op: number, cause },
            Refusal::OutOfMemory => FormFault::OutOfMemory,
        }
    }
}

impl From<FormCause> for Refusal<FormCause> {
    ghost use Rattle.mp_patch.specs.declared.fault.Refusal.TheVariants.{By};

    ghost from_gives = { λ cause refusal. refusal ≡ By cause };

    fn from(cause: FormCause) -> Refusal<FormCause> {
        Refusal::By(cause)
    }
}

impl<C: Drop> From<AllocError> for Refusal<C> {
    ghost use Rattle.mp_patch.specs.declared.fault.Refusal.TheVariants.{OutOfMemory};

    ghost from_gives = { λ _ refusal. refusal ≡ OutOfMemory };

    fn from(_refused: AllocError) -> Refusal<C> {
        Refusal::OutOfMemory
    }
}

impl<C: Drop, T: Drop> From<AllocFailed<T>> for Refusal<C> {
    ghost use Rattle.mp_patch.specs.declared.fault.Refusal.TheVariants.{OutOfMemory};

    ghost from_gives = { λ _ refusal. refusal ≡ OutOfMemory };

    fn from(_refused: AllocFailed<T>) -> Refusal<C> {
        Refusal::OutOfMemory
    }
}
