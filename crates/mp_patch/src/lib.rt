//! JSON Patch (RFC 6902): lists of operations, their form as a document, and applying them.
#![tactic(auto)]

mod applying;
mod bound;
mod containers;
mod fault;
pub mod laws;
mod making;
mod measuring;
mod name;
mod op;
mod parts;
mod patch;
mod reading;
mod scale;
mod serializing;
mod shape;
mod steps;
mod steps_within;
mod text_lengths;
mod weighing;
mod working;
mod writing;

pub use applying::{apply, apply_owned, apply_within};
pub use fault::{ApplyFault, ApplyWithinFault, Cause, FormCause, FormFault};
pub use op::Op;
pub use patch::JsonPatch;
pub use writing::{write_patch, write_patch_within};
