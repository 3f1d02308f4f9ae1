//! Documents as `serde_json`'s values, which are what it reads: no second tree is made of them. A value means the document that
//! would be read of it, so each function here says of a value what its sibling says of a `Doc`. A number that is not whole means 0:
//! one that `serde_json` holds as a float, as it does each with a fraction or an exponent, or outside -2^63 to 2^64 - 1.
//! `read_value` and `read_values` give none.
ghost use Rattle.std.specs.Prelude.{◌≡◌, ◌≢◌, ◌≤◌, ◌<◌, ◌↔◌, length, All, None, Some, IsSome, Ok, Err, IsTrue, IfOk, IfErr, MatchOption, string_bytes};
ghost use Rattle.std.specs.Borrow.{sem, LendsIf};
ghost use Rattle.serde_json.specs.Rows.{list_row, map_row};
ghost use Rattle.serde_json.specs.contracts.value.Value.{the_row};
ghost use Rattle.serde_json.specs.declared.value.Value.TheVariants.{Array, Object};
ghost use Rattle.mp_tree.specs.Document.{list, object, depth, depth_limit};
ghost use Rattle.serde_json.specs.View.{number_view, view};
ghost use Rattle.mp_tree.specs.Text.{data_in, document_in, documents_in, read, text, whole_number};
ghost use Rattle.mp_tree.specs.Values.{value_document, value_items};
ghost use Rattle.mp_tree.specs.View.{document};

use crate::comparing::is_same;
use crate::converting::whole_of;
use crate::copying::copy_of;
use crate::doc::Doc;
use crate::fault::{DocsFault, ReadFault};
use crate::reading::read_json;
use crate::value_reading::{Tree, read_tree};
use crate::writing::{written, written_within};
use serde_json::{Map, Number, Value};
use std::alloc::{AllocError, Global};

/// As `read_doc`, but what `serde_json` reads is kept as it is. It costs less where a document is read, changed and written.
///
/// ```text
/// read_value(alloc, b"{\"a\":1}")  // an object with one name
/// read_value(alloc, b"1.5")         // Err(ReadFault::NotWhole)
/// ```
pub fn read_value(alloc: Global, bytes: &[u8]) -> Result<Value, ReadFault>
    ensures document { IfOk result (λ v. document_in bytes.now ≡ Ok (value_document v)) }
    ensures faults { IfErr result (λ fault. fault ≢ ReadFault.OutOfMemory
        → document_in bytes.now ≡ Err fault) }
    ensures depth { IfOk result (λ v. depth (value_document v) ≤ depth_limit) }
{
    let Tree { value, fits } = read_tree(alloc, bytes)?;
    if fits {
        Ok(value)
    } else {
        Err(ReadFault::TooDeep)
    }
}

/// As `read_docs`, but what `serde_json` reads is kept as it is.
///
/// ```text
/// read_values(alloc, b"[1,{}]")   // two values
/// read_values(alloc, b"5")        // Err(DocsFault::NotAnArray)
/// ```
pub fn read_values(alloc: Global, bytes: &[u8]) -> Result<Vec<Value>, DocsFault>
    ensures documents { IfOk result (λ vs. documents_in bytes.now ≡ Ok (value_items vs.items)) }
    ensures faults { IfErr result (λ fault. fault ≢ DocsFault.OutOfMemory
        → documents_in bytes.now ≡ Err fault) }
    ensures depth { IfOk result (λ vs.
        All (λ v. depth (value_document v) ≤ depth_limit) vs.items) }
{
    let Tree { value, fits: _ } = read_tree(alloc, bytes)?;
    match value {
        Value::Array(values) => Ok(values),
        _ => Err(DocsFault::NotAnArray),
    }
}

/// The value that a JSON text is, whatever its numbers are, and one level deeper than a document is read: what is looked into to say
/// where a text has a number that is not whole, or is too deep. `NotJson` if `serde_json` has no reading; `OutOfMemory` may come at
/// any point.
///
/// ```text
/// read_any(alloc, b"[1.5]")  // an array with a number that is not whole
/// ```
pub fn read_any(alloc: Global, bytes: &[u8]) -> Result<Value, ReadFault>
    ensures value { IfOk result (λ v. data_in bytes.now ≡ Some (view v)) }
    ensures faults { IfErr result (λ fault. fault ≢ ReadFault.OutOfMemory
        → (fault ≡ ReadFault.NotJson) × (data_in bytes.now ≡ None)) }
{
    Ok(read_json(alloc, bytes)?)
}

/// Whether a number of `serde_json` is whole and from -2^63 to 2^64 - 1, as each number of a document is. Takes no memory.
///
/// ```text
/// is_whole(&number)  // false for 1.5 and for 1.0
/// ```
pub fn is_whole(number: &Number) -> bool
    ensures { IsTrue result ↔ IsSome (whole_number (number_view number.now)) }
{
    whole_of(number).is_some()
}

/// As `write_doc`: the compact text of the document that the value means. For a number that is not whole it has 0.
/// `AllocError` if memory ran out.
///
/// ```text
/// write_value(alloc, &value)  // {"a":null,"b":1}
/// ```
pub fn write_value(alloc: Global, value: &Value) -> Result<String, AllocError>
    ensures text { IfOk result (λ s. string_bytes s ≡ text (value_document value.now)) }
    ensures reads_back { IfOk result (λ s. depth (value_document value.now) ≤ depth_limit
        → read (string_bytes s) ≡ Some (value_document value.now)) }
{
    written(alloc, value)
}

/// As `write_doc_within`, of the document that the value means.
pub fn write_value_within(
    alloc: Global,
    value: &Value,
    limit: usize,
) -> Result<Option<String>, AllocError>
    ensures text { IfOk result (λ o. MatchOption o
        (limit < length (text (value_document value.now)))
        (λ s. (string_bytes s ≡ text (value_document value.now))
        × (length (string_bytes s) ≤ limit))) }
    ensures reads_back { depth (value_document value.now) ≤ depth_limit
        → read (text (value_document value.now)) ≡ Some (value_document value.now) }
{
    written_within(alloc, value, limit)
}

/// As `Doc::copy`: a value that means an equal document, and shares nothing with this one. A number that is not whole means 0 in
/// both. `AllocError` if memory ran out.
pub fn copy_value(alloc: Global, value: &Value) -> Result<Value, AllocError>
    ensures equal { IfOk result (λ v. value_document v ≡ value_document value.now) }
{
    copy_of(value, alloc)
}

/// The document that the value means, which shares nothing with it. For a number that is not whole it has 0. `AllocError` if
/// memory ran out.
///
/// ```text
/// copy_to_doc(alloc, &read_value(alloc, bytes)?)  // as read_doc(alloc, bytes)
/// ```
pub fn copy_to_doc(alloc: Global, value: &Value) -> Result<Doc, AllocError>
    ensures equal { IfOk result (λ d. document d ≡ value_document value.now) }
{
    copy_of(value, alloc)
}

/// As `Doc::same`: whether the two mean equal documents, as 1.5 and 2.5 do, which both mean 0. It takes no memory, looks at each
/// part once at most, and stops at the first difference.
pub fn same_value(value: &Value, other: &Value) -> bool
    ensures same { IsTrue result ↔ (value_document value.now ≡ value_document other.now) }
{
    is_same(value, other)
}

/// As `items_mut`: the elements of a value that is an array, borrowed for writing. Takes no memory.
pub fn value_items_mut(value: &mut Value) -> Option<&mut Vec<Value>>
    ensures* writes_back { sem 𝓛 (LendsIf the_row list_row value.entry result Array value.old) }
    ensures value { MatchOption result ((ds : _) → value_document value.old ≢ list ds)
        (λ v. value.old ≡ Array v.now) }
{
    if let Value::Array(elements) = value {
        Some(elements)
    } else {
        None
    }
}

/// As `members_mut`: the members of a value that is an object, borrowed for writing. Takes no memory.
pub fn value_members_mut(value: &mut Value) -> Option<&mut Map<String, Value>>
    ensures* writes_back { sem 𝓛 (LendsIf the_row map_row value.entry result Object value.old) }
    ensures value { MatchOption result ((ms : _) → value_document value.old ≢ object ms)
        (λ m. value.old ≡ Object m.now) }
{
    if let Value::Object(entries) = value {
        Some(entries)
    } else {
        None
    }
}
