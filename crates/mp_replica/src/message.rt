//! What is sent to a patch log: a patch, who made it, and the start that it was made for.

use mp_tree::Doc;

/// Who made a patch, and the sender's number for it. Identities are ordered by the sender, and then by the number.
#[repr(C)]
#[derive(Clone, Copy, Debug, PartialEq, Eq, PartialOrd, Ord)]
pub struct Identity {
    /// The sender that made the patch.
    pub sender: u64,
    /// The sender's number for the patch.
    pub number: u64,
}

/// A patch with its identity, and the number of the start that it was made for.
#[derive(Drop)]
pub struct Message {
    /// The number of the start that the patch was made for.
    pub epoch: u64,
    /// Who made the patch, and the sender's number for it.
    pub identity: Identity,
    /// The merge patch.
    pub patch: Doc,
}

/// What becomes of a message.
#[derive(Clone, Copy, Debug, PartialEq, Eq)]
pub enum Arrival {
    /// Its patch is stored, whether it conflicts with others or not.
    Stored,
    /// A patch with its identity is stored already: nothing changes.
    Repeat,
    /// It is of an earlier start: nothing changes. Its patch is in the start already, or was left out.
    Late,
    /// It is of a later start: nothing changes, and it is not stored. Receive it again once that start has begun.
    Early,
}
