//! Documents from JSON texts.
ghost use Rattle.std.specs.Prelude.{◌≡◌, ◌≢◌, ◌≤◌, All, None, Some, IsSome, Ok, Err, IfOk, IfErr};
ghost use Rattle.serde_json.specs.Data.{depth as json_depth};
ghost use Rattle.serde_json.specs.Read.{max_depth};
ghost use Rattle.serde_json.specs.View.{view};
ghost use Rattle.mp_tree.specs.Document.{depth, depth_limit};
ghost use Rattle.mp_tree.specs.View.{document, items};
ghost use Rattle.mp_tree.specs.Private.Readings.{StaysShallow};
ghost use Rattle.mp_tree.specs.Text.{data_in, document_in, documents_in, read};

use crate::converting::{Unread, doc_of};
use crate::doc::Doc;
use crate::fault::{DocsFault, ReadFault};
use serde_json::Value;
use std::alloc::Global;

/// The depth of the deepest document that is read on its own, so that it may stand in an array
/// within `serde_json`'s nesting of 127. What a patch places is held within it too.
pub const DEPTH_LIMIT: u32 = 126;

/// The document that a JSON text (RFC 8259) is.
///
/// The first error that holds is answered: `NotJson` if `serde_json` has no reading (the bytes are not UTF-8,
/// nest deeper than 127, or go on after the value), `NotWhole` if a number is not whole or is outside
/// -2^63 to 2^64 - 1, `TooDeep` if the depth is 127; `OutOfMemory` may come at any point.
///
/// ```text
/// read_doc(alloc, b"{\"a\":1}")  // an object with one name
/// read_doc(alloc, b"1.5")         // Err(ReadFault::NotWhole)
/// ```
pub fn read_doc(alloc: Global, bytes: &[u8]) -> Result<Doc, ReadFault>
    ensures document { IfOk result (λ d. document_in bytes.now ≡ Ok (document d)) }
    ensures faults { IfErr result (λ fault. fault ≢ ReadFault.OutOfMemory
        → document_in bytes.now ≡ Err fault) }
    ensures depth { IfOk result (λ d. depth (document d) ≤ depth_limit) }
{
    let mut is_deep = false;
    let doc = read_tree(alloc, bytes, &mut is_deep)?;
    if is_deep && !doc.fits(DEPTH_LIMIT) {
        return Err(ReadFault::TooDeep);
    }
    Ok(doc)
}

/// The documents that stand in one JSON array (RFC 8259), as `jq -s .` makes it from several texts.
///
/// The first error that holds is answered: `NotJson` if `serde_json` has no reading (the bytes are not UTF-8,
/// nest deeper than 127, or go on after the value), `NotWhole` if a number is not whole or is outside
/// -2^63 to 2^64 - 1, `NotAnArray` if the value is something else; `OutOfMemory` may come at any point.
///
/// ```text
/// read_docs(alloc, b"[1,{}]")   // two documents
/// read_docs(alloc, b"5")        // Err(DocsFault::NotAnArray)
/// ```
pub fn read_docs(alloc: Global, bytes: &[u8]) -> Result<Vec<Doc>, DocsFault>
    ensures documents { IfOk result (λ docs. documents_in bytes.now ≡ Ok (items docs.items)) }
    ensures faults { IfErr result (λ fault. fault ≢ DocsFault.OutOfMemory
        → documents_in bytes.now ≡ Err fault) }
    ensures depth { IfOk result (λ docs. All (λ d. depth (document d) ≤ depth_limit) docs.items) }
{
    match read_tree(alloc, bytes, &mut false)? {
        Doc::Items(docs) => Ok(docs),
        _ => Err(DocsFault::NotAnArray),
    }
}

// `is_deep` becomes true if the document is deeper than one that is read on its own.
#[inline(always)]
fn read_tree(alloc: Global, bytes: &[u8], is_deep: &mut bool) -> Result<Doc, Unread>
    ensures ok { IfOk result (λ d. read bytes.now ≡ Some (document d)) }
    ensures shallow { IfOk result (λ d.
        StaysShallow is_deep.old is_deep.new (depth (document d)) depth_limit) }
    ensures nests { IfOk result (λ d. depth (document d) ≤ max_depth) }
    ensures not_json { result ≡ Err Unread.NotJson → data_in bytes.now ≡ None }
    ensures not_whole { result ≡ Err Unread.NotWhole
        → (IsSome (data_in bytes.now) × (read bytes.now ≡ None)) }
{
    let value = read_json(alloc, bytes)?;
    doc_of(value, DEPTH_LIMIT, is_deep, alloc)
}

// What `serde_json` reads, with numbers of any kind.
pub(crate) fn read_json(alloc: Global, bytes: &[u8]) -> Result<Value, Unread>
    ensures ok { IfOk result (λ v. data_in bytes.now ≡ Some (view v)) }
    ensures nests { IfOk result (λ v. json_depth (view v) ≤ max_depth) }
    ensures not_json { result ≡ Err Unread.NotJson → data_in bytes.now ≡ None }
    ensures is_json { result ≢ Err Unread.NotWhole }
{
    match Value::from_slice(alloc, bytes) {
        Ok(value) => Ok(value),
        Err(fault) => if fault.is_memory() {
            Err(Unread::OutOfMemory)
        } else {
            Err(Unread::NotJson)
        },
    }
}
