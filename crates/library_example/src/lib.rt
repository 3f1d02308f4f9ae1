//! What a program does with the library, in short: the pages show lines of it.
#![tactic(auto)]

mod deciding;
mod fault;
mod receiving;
mod replica;

pub use deciding::follow_decision;
pub use fault::ShowFault;
pub use receiving::{Delivery, EpochReplica, PatchMessage, shown_after};
pub use replica::{at, for_a_peer, show};
