//! Replicas that stay in memory, patches that are gathered without a start, and logs of patches that may conflict: receiving
//! a patch costs what the patch costs.
#![tactic(auto)]

mod fault;
mod first_pairs;
mod first_places;
mod identity_set;
mod kept;
mod kept_places;
pub mod laws;
mod live_join;
mod message;
mod pairs;
mod pairs_texts;
mod patch_log;
mod patch_log_texts;
mod patches;
mod patches_texts;
mod reading;
mod replica;
mod replica_texts;
mod stored_join;
mod stored_patches;
mod writing;

pub use fault::{DecideFault, LiveFault};
pub use first_pairs::FirstPairs;
pub use first_places::FirstPlaces;
pub use message::{Arrival, Identity, Message};
pub use pairs::ConflictingPair;
pub use pairs_texts::PairsText;
pub use patch_log::PatchLog;
pub use patches::{Added, Patches};
pub use replica::{Received, Replica};
