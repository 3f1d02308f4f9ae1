//! Merge patches, pointers and JSON Patches over texts: each document and each patch is a JSON text of its own.
#![tactic(auto)]

mod documents;
mod fault;
mod fault_places;
pub mod laws;
mod lines;
mod lists;
mod reading;
mod writing;

pub use documents::{part_text, patch_text, rewrite_text};
pub use fault::TextsFault;
pub use fault_places::fault_place;
pub use lines::{conflict_line, fault_line, push_place};
pub use lists::{join_texts, merge_texts, replay_texts};
pub use writing::{places_within, write_places};
