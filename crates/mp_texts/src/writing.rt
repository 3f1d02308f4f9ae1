//! The text of an answer within a limit, and that of a list of places.
ghost use Rattle.std.specs.Prelude.{◌≡◌, ◌<◌, ◌≤◌, ◌+◌, ◌⊎◌, length, take, Some, IfOk, MatchOption, MatchResult, string_bytes};
ghost use Rattle.mp_tree.specs.Document.{depth, depth_limit};
ghost use Rattle.mp_tree.specs.Text.{read, text as compact};
ghost use Rattle.mp_tree.specs.Values.{value_document};
ghost use Rattle.mp_tree.specs.View.{document};
ghost use Rattle.mp_patch.specs.Form.{shapes};
ghost use Rattle.mp_patch.specs.View.{operations_of};
ghost use Rattle.mp_texts.specs.Answers.{IsTextOf, place_of, places_list};
ghost use Rattle.mp_texts.specs.PlacesTexts.{AreShown, listed};

use crate::fault::TextsFault;
use mp_patch::{JsonPatch, write_patch_within};
use mp_pointer::Pointer;
use mp_tree::{Doc, write_doc, write_value_within};
use serde_json::Value;
use std::alloc::{AllocError, Global};

// The text of a document, unless it has more bytes than the caller allows: then none is made.
pub(crate) fn text_unless_longer(
    alloc: Global,
    value: &Value,
    limit: usize,
) -> Result<String, TextsFault>
    ensures text { MatchResult result
        (λ answer. (string_bytes answer ≡ compact (value_document value.now))
        × (length (compact (value_document value.now)) ≤ limit))
        (λ fault. (fault ≡ TextsFault.OutOfMemory) ⊎ ((fault ≡ TextsFault.TooLarge 0)
        × (limit < length (compact (value_document value.now))))) }
    ensures reads_back { depth (value_document value.now) ≤ depth_limit
        → read (compact (value_document value.now)) ≡ Some (value_document value.now) }
{
    match write_value_within(alloc, value, limit)? {
        Some(text) => Ok(text),
        None => Err(TextsFault::TooLarge { number: 0 }),
    }
}

// The text of a JSON Patch, unless it has more bytes than the caller allows: then none is made.
pub(crate) fn patch_unless_longer(
    alloc: Global,
    patch: &JsonPatch,
    limit: usize,
) -> Result<String, TextsFault>
    ensures { MatchResult result
        (λ answer. (string_bytes answer ≡ compact (shapes (operations_of patch.now)))
        × (length (compact (shapes (operations_of patch.now))) ≤ limit))
        (λ fault. (fault ≡ TextsFault.OutOfMemory) ⊎ ((fault ≡ TextsFault.TooLarge 0)
        × (limit < length (compact (shapes (operations_of patch.now)))))) }
{
    match write_patch_within(alloc, patch, limit)? {
        Some(text) => Ok(text),
        None => Err(TextsFault::TooLarge { number: 0 }),
    }
}

/// The pointers' spellings as a JSON array of strings, such as the places of a conflict. `AllocError` if memory ran out.
///
/// ```text
/// write_places(alloc, &places)  // ["/a","/b~1c"]
/// ```
pub fn write_places(alloc: Global, places: &[Pointer]) -> Result<String, AllocError>
    ensures { IfOk result (λ text. IsTextOf (places_list places.now) (string_bytes text)) }
{
    let mut spellings = Vec::with_capacity(alloc, places.len())?;
    for place in places {
        spellings.push(Doc::Text(place.print(alloc)?))?;
    }
    Ok(write_doc(alloc, &Doc::Items(spellings))?)
}

/// As many of the first places as make an array of at most `limit` bytes, as `write_places` writes it: the others are not shown. None if
/// not even the first fits, and all with `usize::MAX`, which is no limit.
///
/// They are counted by a walk that takes no memory; without a limit nothing is counted.
///
/// ```text
/// places_within(&places, 10)  // /a, where all are /a and /b~1c
/// ```
pub fn places_within(places: &[Pointer], limit: usize) -> &[Pointer]
    ensures { AreShown limit places.now result.now }
{
    if limit == usize::MAX {
        return places;
    }
    let count = if limit < 2 {
        0
    } else {
        count_within(places, limit)
    };
    &places[..count]
}

// How many of the first places make a text of at most so many bytes.
fn count_within(places: &[Pointer], limit: usize) -> usize
    requires { 2 ≤ limit }
    ensures within { (result ≤ length places.now) × (listed (take result places.now) ≤ limit) }
    ensures longest { result < length places.now
        → limit < listed (take (result + 1) places.now) }
{
    let mut left = limit - 1;
    for (count, place) in places.iter().enumerate() {
        let Some(after) = left_after(place, left) else {
            return count;
        };
        left = after;
    }
    places.len()
}

// What remains of so many bytes after a place, and what stands before or after it in the array.
fn left_after(place: &Pointer, left: usize) -> Option<usize>
    ensures { MatchOption result (left < 1 + length (compact (place_of place.now)))
        (λ after. after + (1 + length (compact (place_of place.now))) ≡ left) }
{
    place.left_of_text(left.checked_sub(1)?)
}
