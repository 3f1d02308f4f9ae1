//! The text of a document: rewritings against it, JSON Patches of it, and its parts.
ghost use Rattle.std.specs.Prelude.{MatchResult, string_bytes};
ghost use Rattle.mp_texts.specs.Answers.{IsLightPatchText, IsLightRewriteText, IsPartText, Within};
ghost use Rattle.mp_texts.specs.Faults.{IsPartTextFault, IsPatchTextFault, IsRewriteTextFault};

use crate::fault::TextsFault;
use crate::reading::{read_document_value, read_patch_value};
use crate::writing::{patch_unless_longer, text_unless_longer};
use mp_merge::{laws as merging, rewrite_within};
use mp_patch::{Op, apply_within, laws as patching};
use mp_pointer::{Pointer, laws as pointing, part_in};
use mp_tree::laws as reading;
use std::alloc::Global;

/// The text of a merge patch as a JSON Patch for the document, as `mp_merge::rewrite` makes it: tests of what the patch
/// changes and the document has, then the edits. `patch_text` takes it if none of its values is more than 124 deep.
///
/// In this order: `Document` if the document's text is not a document; `Patch` of number 0 if the patch's is not one;
/// `TooLarge` if the operations together weigh more than `limit` bytes, with how many of them fit, or if the text is longer,
/// with 0 (`usize::MAX` is no limit). `OutOfMemory` may come at any point.
///
/// ```text
/// // [{"op":"test","path":"/a","value":1},{"op":"remove","path":"/a"}]
/// rewrite_text(alloc, b"{\"a\":1}", b"{\"a\":null}", usize::MAX)
/// ```
pub fn rewrite_text(
    alloc: Global,
    document: &[u8],
    patch: &[u8],
    limit: usize,
) -> Result<String, TextsFault>
    ensures { MatchResult result
        (λ text. Within limit (IsLightRewriteText limit document.now patch.now)
        (string_bytes text))
        (λ fault. IsRewriteTextFault limit fault document.now patch.now) }
{
    reading::readings_are_documents();
    reading::texts_read_back();
    merging::rewritings_are_writable();
    patching::shapes_are_readable();
    let doc = read_document_value(alloc, document)?;
    let patch = read_patch_value(alloc, patch, 0)?;
    let edits = rewrite_within(alloc, &doc, &patch, limit)?;
    patch_unless_longer(alloc, &edits, limit)
}

/// The text of the document after a JSON Patch (RFC 6902), which is a JSON text too.
///
/// In this order: `Document` if the document's text is not a document; `Patch` of number 0 if the patch's is not one;
/// `Form` if the patch is a document but not a JSON Patch; at the first operation that is refused, or whose result weighs more
/// than `limit` bytes, or by which the work is more than 16 times that, `Refused` or `TooLarge` with its number; `TooLarge` with 0
/// if the text is longer than `limit` (`usize::MAX` is no limit). `OutOfMemory` may come at any point.
///
/// ```text
/// patch_text(alloc, b"[1]", b"[{\"op\":\"add\",\"path\":\"/-\",\"value\":2}]", usize::MAX)  // [1,2]
/// ```
pub fn patch_text(
    alloc: Global,
    document: &[u8],
    json_patch: &[u8],
    limit: usize,
) -> Result<String, TextsFault>
    ensures { MatchResult result
        (λ text. Within limit (IsLightPatchText limit document.now json_patch.now)
        (string_bytes text))
        (λ fault. IsPatchTextFault limit fault document.now json_patch.now) }
{
    reading::readings_are_documents();
    patching::forms_are_writable();
    patching::limits_change_nothing();
    patching::runs_are_readable();
    let doc = read_document_value(alloc, document)?;
    let form = read_patch_value(alloc, json_patch, 0)?;
    let operations = Op::list_from(alloc, form)?;
    let patched = apply_within(alloc, doc, operations, limit)?;
    text_unless_longer(alloc, &patched, limit)
}

/// The text of the part of the document that the pointer names (RFC 6901).
///
/// In this order: `Document` if the document's text is not a document; `Pointer` if the pointer's text spells no
/// pointer; `Missing` if there is no such part; `TooLarge` if its text is longer than `limit` bytes (`usize::MAX` is no limit).
/// `OutOfMemory` may come at any point.
///
/// ```text
/// part_text(alloc, b"{\"a\":[5]}", "/a", usize::MAX)  // [5]
/// ```
pub fn part_text(
    alloc: Global,
    document: &[u8],
    pointer: &str,
    limit: usize,
) -> Result<String, TextsFault>
    ensures { MatchResult result
        (λ text. Within limit (IsPartText document.now pointer.now) (string_bytes text))
        (λ fault. IsPartTextFault limit fault document.now pointer.now) }
{
    reading::readings_are_documents();
    pointing::parts_are_readable();
    let doc = read_document_value(alloc, document)?;
    let pointer = Pointer::parse(alloc, pointer)?;
    match part_in(&doc, &pointer, pointer.len()) {
        Some(part) => text_unless_longer(alloc, part, limit),
        None => Err(TextsFault::Missing),
    }
}
