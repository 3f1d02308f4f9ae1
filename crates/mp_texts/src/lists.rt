//! Texts of merge patches: their join, and what they make of a document.
ghost use Rattle.std.specs.Prelude.{◌≡◌, map, IfOk, MatchResult, string_bytes};
ghost use Rattle.mp_tree.specs.Values.{value_document};
ghost use Rattle.mp_merge.specs.Application.{in_turn};
ghost use Rattle.mp_texts.specs.Answers.{IsJoinText, IsMergeText, IsReplayText, Within};
ghost use Rattle.mp_texts.specs.Faults.{IsJoinTextFault, IsMergeTextFault, IsReplayTextFault};
ghost use Rattle.mp_texts.specs.Texts.{given};

use crate::fault::TextsFault;
use crate::reading::{read_document_value, read_patch_values};
use crate::writing::text_unless_longer;
use mp_merge::{join_all_within, laws as merging, merge_owned, replay_within};
use mp_tree::laws as reading;
use serde_json::Value;
use std::alloc::{AllocError, Global};

/// The text of the join of merge patches: of one patch with the effect of all, in any order and with any repeats.
///
/// It is compact, without a newline, and can be given in the place of the patches' texts: to this call again, or as the one
/// patch of `replay_texts` and `merge_texts`. There is no limit on the number of texts or on their length but `limit`, which bounds
/// the answer in bytes, and the places of a conflict together, as weights; `usize::MAX` is none.
///
/// In this order: `Patch` with the first text that is not a document; `List` if there are no texts, or if two patches
/// conflict, as `mp_merge::join_all_within` reports it; `TooLarge` if the text is longer than `limit`. `OutOfMemory` may come at
/// any point.
///
/// ```text
/// join_texts(alloc, &[b"{\"a\":1}", b" {\"b\":null} "], usize::MAX)  // {"a":1,"b":null}
/// join_texts(alloc, &[b"{\"a\":1}", b" {\"b\":null} "], 10)          // TooLarge
/// join_texts(alloc, &[b"{\"a\":1}", b"1,2"], usize::MAX)             // Patch of number 1, which is not JSON
/// ```
pub fn join_texts(alloc: Global, patches: &[&[u8]], limit: usize) -> Result<String, TextsFault>
    ensures { MatchResult result
        (λ text. Within limit (IsJoinText (given patches.now)) (string_bytes text))
        (λ fault. IsJoinTextFault limit fault (given patches.now)) }
{
    reading::readings_are_documents();
    let patches = read_patch_values(alloc, patches)?;
    let joined = join_all_within(alloc, patches.as_slice(), limit)?;
    drop(patches);
    text_unless_longer(alloc, &joined, limit)
}

/// The text of the document that merge patches, no two of which conflict, make of the start's, in whatever order and with
/// whatever repeats they come. Of no patches it is the start's compact text.
///
/// `limit` bounds the answer in bytes, and the places of a conflict together, as weights; `usize::MAX` is none.
///
/// In this order: `Document` if the start's text is not a document; `Patch` with the first text that is not a document;
/// `List` if two patches conflict, as `mp_merge::replay_within` reports it; `TooLarge` if the text is longer than `limit`.
/// `OutOfMemory` may come at any point.
///
/// ```text
/// replay_texts(alloc, b"{\"k\":0}", &[b"{\"a\":1}", b"{\"k\":null}"], usize::MAX)  // {"a":1}
/// ```
pub fn replay_texts(
    alloc: Global,
    start: &[u8],
    patches: &[&[u8]],
    limit: usize,
) -> Result<String, TextsFault>
    ensures { MatchResult result
        (λ text. Within limit (IsReplayText start.now (given patches.now)) (string_bytes text))
        (λ fault. IsReplayTextFault limit fault start.now (given patches.now)) }
{
    reading::readings_are_documents();
    let start = read_document_value(alloc, start)?;
    let patches = read_patch_values(alloc, patches)?;
    let outcome = replay_within(alloc, start, patches.as_slice(), limit)?;
    drop(patches);
    text_unless_longer(alloc, &outcome, limit)
}

/// The text of the document after the merge patches (RFC 7396 section 2), each applied to what those before it left. That
/// they are compatible is not checked: if two conflict, their order decides. Of no patches it is the document's compact
/// text.
///
/// In this order: `Document` if the document's text is not a document; `Patch` with the first text that is not a document;
/// `TooLarge` if the answer's text is longer than `limit` bytes (`usize::MAX` is no limit). `OutOfMemory` may come at any point.
///
/// ```text
/// merge_texts(alloc, b"{\"a\":0}", &[b"{\"a\":1}", b"{\"a\":2}"], usize::MAX)  // {"a":2}
/// ```
pub fn merge_texts(
    alloc: Global,
    document: &[u8],
    patches: &[&[u8]],
    limit: usize,
) -> Result<String, TextsFault>
    ensures { MatchResult result
        (λ text. Within limit (IsMergeText document.now (given patches.now)) (string_bytes text))
        (λ fault. IsMergeTextFault limit fault document.now (given patches.now)) }
{
    reading::readings_are_documents();
    merging::merged_is_readable();
    let doc = read_document_value(alloc, document)?;
    let patches = read_patch_values(alloc, patches)?;
    let merged = merge_each(doc, patches, alloc)?;
    text_unless_longer(alloc, &merged, limit)
}

// Each patch is applied to what those before it left.
fn merge_each(mut value: Value, patches: Vec<Value>, alloc: Global) -> Result<Value, AllocError>
    ensures { IfOk result (λ v. value_document v
        ≡ in_turn (value_document value) (map value_document patches.items)) }
{
    for patch in patches {
        value = merge_owned(alloc, Some(value), patch)?;
    }
    Ok(value)
}
