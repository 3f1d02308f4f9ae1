//! JSON texts from patches.
ghost use Rattle.std.specs.Prelude.{◌≡◌, ◌+◌, ◌≤◌, ◌<◌, length, IfOk, IfSome, MatchOption, Some, string_bytes};
ghost use Rattle.mp_tree.specs.Document.{depth_limit};
ghost use Rattle.mp_tree.specs.Text.{read, text};
ghost use Rattle.mp_patch.specs.Form.{deepest, shapes};
ghost use Rattle.mp_patch.specs.View.{operations_of};

use crate::patch::JsonPatch;
use crate::text_lengths::is_longer;
use serde_json::to_string;
use std::alloc::{AllocError, Global};

/// The compact text of the document that `to_doc` gives, which is not made for it. It is read back as that document
/// if no value is more than 124 deep. `AllocError` if memory ran out.
///
/// ```text
/// write_patch(alloc, &patch)  // [{"op":"remove","path":"/a"}], for a list of one Op::Remove
/// ```
pub fn write_patch(alloc: Global, patch: &JsonPatch) -> Result<String, AllocError>
    ensures text { IfOk result (λ s. string_bytes s ≡ text (shapes (operations_of patch.now))) }
    ensures reads_back { IfOk result (λ s.
        2 + deepest (operations_of patch.now) ≤ depth_limit
        → read (string_bytes s) ≡ Some (shapes (operations_of patch.now))) }
{
    mp_tree::laws::docs_are_documents();
    mp_tree::laws::texts_read_back();
    match to_string(alloc, patch) {
        Ok(written) => Ok(written),
        Err(_) => Err(AllocError),
    }
}

/// As `write_patch`, unless the text has more than `limit` bytes: then the answer is None, and nothing is made. The text is measured
/// first, by a walk that takes no memory; with `usize::MAX` nothing is measured.
///
/// ```text
/// write_patch_within(alloc, &patch, 29)  // Some text, [{"op":"remove","path":"/a"}]
/// write_patch_within(alloc, &patch, 28)  // None
/// ```
pub fn write_patch_within(
    alloc: Global,
    patch: &JsonPatch,
    limit: usize,
) -> Result<Option<String>, AllocError>
    ensures text { IfOk result (λ o. MatchOption o
        (limit < length (text (shapes (operations_of patch.now))))
        (λ s. (string_bytes s ≡ text (shapes (operations_of patch.now)))
        × (length (string_bytes s) ≤ limit))) }
    ensures reads_back { IfOk result (λ o. IfSome o (λ s.
        2 + deepest (operations_of patch.now) ≤ depth_limit
        → read (string_bytes s) ≡ Some (shapes (operations_of patch.now)))) }
{
    if is_longer(patch.ops(), limit) {
        return Ok(None);
    }
    Ok(Some(write_patch(alloc, patch)?))
}
