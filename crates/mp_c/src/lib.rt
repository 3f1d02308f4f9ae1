//! Merge patches, pointers and JSON Patches for C: the calls over texts, and what stays in memory, as exports of a static
//! library.
//!
//! A call borrows the texts and a buffer of the caller's, and answers by value. It takes what it needs from the C library's
//! heap. A call over texts keeps nothing; a call on a handle keeps what the handle owns until it is freed.
#![tactic(auto)]

mod box_at;
mod documents;
pub mod laws;
mod lists;
mod patch_log;
mod patch_log_handle;
mod patches;
mod patches_handle;
mod replica;
mod replica_handle;
mod replying;
mod undecided;
mod version;

pub use documents::{mergejoin_get, mergejoin_patch, mergejoin_rewrite};
pub use lists::{mergejoin_join, mergejoin_merge, mergejoin_replay};
pub use patch_log::{
    mergejoin_patch_log_conflicts, mergejoin_patch_log_conflicts_of, mergejoin_patch_log_count,
    mergejoin_patch_log_decide, mergejoin_patch_log_document, mergejoin_patch_log_free,
    mergejoin_patch_log_receive, mergejoin_patch_log_start,
};
pub use patch_log_handle::PatchLogHandle;
pub use patches::{
    mergejoin_patches_add, mergejoin_patches_combine, mergejoin_patches_free,
    mergejoin_patches_from_kept, mergejoin_patches_kept, mergejoin_patches_text,
};
pub use patches_handle::PatchesHandle;
pub use replica::{
    mergejoin_replica_document, mergejoin_replica_free, mergejoin_replica_get,
    mergejoin_replica_joined, mergejoin_replica_receive, mergejoin_replica_start,
};
pub use replica_handle::ReplicaHandle;
pub use replying::Reply;
pub use version::mergejoin_version;
