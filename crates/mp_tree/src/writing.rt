//! JSON texts from documents.
ghost use Rattle.std.specs.Prelude.{◌≡◌, ◌≤◌, ◌<◌, length, Some, IfOk, MatchOption, string_bytes};
ghost use Rattle.mp_tree.specs.Document.{string, depth, depth_limit};
ghost use Rattle.mp_tree.specs.View.{document};
ghost use Rattle.mp_tree.specs.Text.{text, read};

use crate::doc::Doc;
use crate::node::Node;
use crate::serializing::Written;
use crate::text_lengths::is_longer;
use serde_json::{Value, to_string};
use std::alloc::{AllocError, Global};

/// The compact text of a document: no white space, the names of each object in the order of their UTF-8 bytes.
/// `AllocError` if memory ran out.
///
/// ```text
/// write_doc(alloc, &doc)  // {"a":null,"b":1}
/// ```
pub fn write_doc(alloc: Global, doc: &Doc) -> Result<String, AllocError>
    ensures text { IfOk result (λ s. string_bytes s ≡ text (document doc.now)) }
    ensures reads_back { IfOk result (λ s. depth (document doc.now) ≤ depth_limit
        → read (string_bytes s) ≡ Some (document doc.now)) }
{
    written(alloc, doc)
}

/// As `write_doc`, unless the text has more than `limit` bytes: then the answer is None, and nothing is made. The text is measured
/// first, by a walk that takes no memory; with `usize::MAX` nothing is measured.
///
/// ```text
/// write_doc_within(alloc, &doc, 15)  // Some text, {"a":null,"b":1}
/// write_doc_within(alloc, &doc, 14)  // None
/// ```
pub fn write_doc_within(
    alloc: Global,
    doc: &Doc,
    limit: usize,
) -> Result<Option<String>, AllocError>
    ensures text { IfOk result (λ o. MatchOption o (limit < length (text (document doc.now)))
        (λ s. (string_bytes s ≡ text (document doc.now)) × (length (string_bytes s) ≤ limit))) }
    ensures reads_back { depth (document doc.now) ≤ depth_limit
        → read (text (document doc.now)) ≡ Some (document doc.now) }
{
    written_within(alloc, doc, limit)
}

/// The text as a JSON string (RFC 8259 section 7), as it stands in what [`write_doc`] writes: in quotes, with a quote,
/// a backslash and each control character escaped. `AllocError` if memory ran out.
///
/// ```text
/// write_text(alloc, "a\"b")  // "a\"b", with its backslash
/// ```
pub fn write_text(alloc: Global, plain: &str) -> Result<String, AllocError>
    ensures text { IfOk result (λ s. string_bytes s ≡ text (string plain.now)) }
{
    Value::String(String::from_str(alloc, plain)?).to_string(alloc)
}

// The text of the document that a node means.
pub(crate) fn written<T: Node>(alloc: Global, node: &T) -> Result<String, AllocError>
    ensures { IfOk result (λ s. string_bytes s ≡ text (T.means node.now)) }
{
    match to_string(alloc, &Written { node }) {
        Ok(text) => Ok(text),
        Err(_) => Err(AllocError),
    }
}

// The same, unless it has more than `limit` bytes.
pub(crate) fn written_within<T: Node>(
    alloc: Global,
    node: &T,
    limit: usize,
) -> Result<Option<String>, AllocError>
    ensures { IfOk result (λ o. MatchOption o (limit < length (text (T.means node.now)))
        (λ s. (string_bytes s ≡ text (T.means node.now)) × (length (string_bytes s) ≤ limit))) }
{
    if is_longer(node, limit) {
        return Ok(None);
    }
    Ok(Some(written(alloc, node)?))
}
