//! JSON documents with whole numbers: their tree, and reading and writing them.
#![tactic(auto)]

mod building;
mod comparing;
mod converting;
mod copying;
mod doc;
mod fault;
pub mod laws;
// Public, since a proof by hand in mp_pointer names the contracts of its functions.
pub mod borrowing;
mod measuring;
mod node;
mod node_kind;
mod reading;
mod serializing;
mod text_lengths;
mod trimming;
mod value_reading;
mod value_walks;
mod values;
mod walked;
mod weighing;
mod whole;
mod writing;

pub use borrowing::{items_mut, members_mut};
pub use doc::Doc;
pub use fault::{DocsFault, ReadFault};
pub use node::Node;
pub use node_kind::NodeKind;
pub use reading::{DEPTH_LIMIT, read_doc, read_docs};
pub use text_lengths::escaped_length;
pub use values::{
    copy_to_doc, copy_value, is_whole, read_any, read_value, read_values, same_value,
    value_items_mut, value_members_mut, write_value, write_value_within,
};
pub use weighing::{left_of, left_of_name};
pub use whole::Whole;
pub use writing::{write_doc, write_doc_within, write_text};
