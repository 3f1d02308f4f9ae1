//! Merge patches (RFC 7396): application, compatibility, conflict and join, with the laws that replicas of one document
//! rest on.
#![tactic(auto)]

mod budget;
mod comparing;
mod converging;
mod fault;
mod in_place;
mod joining;
pub mod laws;
mod lists;
mod merging;
mod rewriting;

pub use comparing::{Conflicts, compatible, conflict, conflict_within};
pub use converging::{Converged, converge};
pub use fault::{ConvergeFault, JoinFault, ListFault, RewriteFault};
pub use in_place::merge_into;
pub use joining::{join, join_into};
pub use lists::{join_all, join_all_within, replay, replay_owned, replay_within};
pub use merging::{merge, merge_owned};
pub use rewriting::{rewrite, rewrite_within};
