//! JSON Pointer (RFC 6901): pointers as lists of tokens, their spelling, and the part of a document that one names.
#![tactic(auto)]

mod borrowing;
mod editing;
mod evaluating;
mod fault;
pub mod laws;
mod pointer;
mod spelling;

pub use editing::{edit_part, edit_part_in};
pub use evaluating::{get, get_mut, index_of, part_in};
pub use fault::PointerFault;
pub use pointer::Pointer;
