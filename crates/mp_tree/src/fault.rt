//! Why bytes gave no document.
ghost use Rattle.std.specs.Prelude.{◌≡◌};

use crate::converting::Unread;
use thiserror::Error;

/// Why bytes gave no document.
#[derive(Clone, Copy, Debug, Drop, PartialEq, Eq, Error)]
pub enum ReadFault {
    /// no JSON text of nesting at most 127, or not UTF-8
    #[error("not JSON")]
    NotJson,
    /// a number with a fraction or an exponent, or outside -2^63 to 2^64 - 1
    #[error("number not whole")]
    NotWhole,
    /// the depth is 127
    #[error("too deep")]
    TooDeep,
    /// memory ran out
    #[error("out of memory")]
    OutOfMemory,
}

impl From<Unread> for ReadFault {
    ghost use Rattle.mp_tree.specs.Private.Faults.{read_fault};

    ghost from_gives = { λ unread fault. fault ≡ read_fault unread };

    fn from(unread: Unread) -> ReadFault {
        match unread {
            Unread::NotJson => ReadFault::NotJson,
            Unread::NotWhole => ReadFault::NotWhole,
            Unread::OutOfMemory => ReadFault::OutOfMemory,
        }
    }
}

/// Why bytes are no array of documents.
#[derive(Clone, Copy, Debug, Drop, PartialEq, Eq, Error)]
pub enum DocsFault {
    /// no JSON text of nesting at most 127, or not UTF-8
    #[error("not JSON")]
    NotJson,
    /// a number with a fraction or an exponent, or outside -2^63 to 2^64 - 1
    #[error("number not whole")]
    NotWhole,
    /// the value is not an array
    #[error("not an array")]
    NotAnArray,
    /// memory ran out
    #[error("out of memory")]
    OutOfMemory,
}

impl From<Unread> for DocsFault {
    ghost use Rattle.mp_tree.specs.Private.Faults.{docs_fault};

    ghost from_gives = { λ unread fault. fault ≡ docs_fault unread };

    fn from(unread: Unread) -> DocsFault {
        match unread {
            Unread::NotJson => DocsFault::NotJson,
            Unread::NotWhole => DocsFault::NotWhole,
            Unread::OutOfMemory => DocsFault::OutOfMemory,
        }
    }
}
