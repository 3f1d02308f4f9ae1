// The text of pairs that conflict.
ghost use Rattle.std.specs.Prelude.{◌≡◌, ◌≤◌, ◌<◌, ◌+◌, ◌⊎◌, ◌++◌, [], IfOk, MatchOption, OnOk, length, map, string_bytes, take};
ghost use Rattle.mp_tree.specs.Text.{text as compact};
ghost use Rattle.mp_replica.specs.LogTexts.{IsTextOfFirstPairs, identity_document, pair_text, pairs_text};
ghost use Rattle.mp_replica.specs.PatchLog.{seen};
ghost use Rattle.mp_replica.specs.Private.Writing.{pair_head};
ghost use Rattle.mp_texts.specs.PlacesTexts.{listed};

use crate::message::Identity;
use crate::pairs::ConflictingPair;
use mp_pointer::Pointer;
use mp_texts::write_places;
use mp_tree::{Doc, Whole, write_doc};
use std::alloc::{AllocError, Global};

pub(crate) fn write_pairs(alloc: Global, pairs: &[ConflictingPair]) -> Result<String, AllocError>
    ensures { IfOk result (λ text. string_bytes text ≡ pairs_text (map seen pairs.now)) }
{
    let mut text = String::new(alloc);
    let mut before = "[";
    for pair in pairs {
        text.push_str(before)?;
        push_pair(alloc, pair, &mut text)?;
        before = ",";
    }
    if pairs.is_empty() {
        text.push_str("[")?;
    }
    text.push_str("]")?;
    Ok(text)
}

/// The text of the pairs that come first.
#[derive(Debug, Drop)]
pub struct PairsText {
    /// A JSON array of as many pairs as the limit allows.
    pub text: String,
    /// Whether a pair, or a place, is left out.
    pub more: bool,
}

// Of as many of the pairs that come first as make a text of at most so many bytes, which is counted before it is written.
pub(crate) fn write_pairs_within(
    alloc: Global,
    pairs: &[ConflictingPair],
    limit: usize,
) -> Result<PairsText, AllocError>
    ensures { IfOk result (λ written. IsTextOfFirstPairs limit (map seen pairs.now)
        (string_bytes written.text) written.more) }
{
    if limit == usize::MAX {
        let text = write_pairs(alloc, pairs)?;
        return Ok(PairsText { text, more: false });
    }
    let count = count_within(alloc, pairs, limit)?;
    let text = write_pairs(alloc, &pairs[..count])?;
    let more = count < pairs.len();
    Ok(PairsText { text, more })
}

// How many of the first pairs make a text of at most so many bytes.
fn count_within(alloc: Global, pairs: &[ConflictingPair], limit: usize) -> Result<usize, AllocError>
    ensures within { IfOk result (λ n. (n ≤ length pairs.now)
        × ((map seen (take n pairs.now) ≡ [])
        ⊎ (length (pairs_text (map seen (take n pairs.now))) ≤ limit))) }
    ensures longest { IfOk result (λ n. n < length pairs.now
        → limit < length (pairs_text (map seen (take (n + 1) pairs.now)))) }
{
    let mut left = limit.saturating_sub(1);
    for (count, pair) in pairs.iter().enumerate() {
        let Some(after) = left_after(alloc, pair, left)? else {
            return Ok(count);
        };
        left = after;
    }
    Ok(pairs.len())
}

// What remains of so many bytes after a pair, and what stands before or after it in the array.
fn left_after(
    alloc: Global,
    pair: &ConflictingPair,
    left: usize,
) -> Result<Option<usize>, AllocError>
    ensures { IfOk result (λ found. MatchOption found
        (left < 1 + length (pair_text (seen pair.now)))
        (λ after. after + (1 + length (pair_text (seen pair.now))) ≡ left)) }
{
    let mut head = String::new(alloc);
    push_head(alloc, pair, &mut head)?;
    let Some(rest) = left.checked_sub(head.as_str().len()) else {
        return Ok(None);
    };
    // The bracket that closes, and what stands before the pair or closes the array.
    let Some(rest) = rest.checked_sub(2) else {
        return Ok(None);
    };
    Ok(left_of_places(pair.places.as_slice(), rest))
}

// What remains of so many bytes after the text of these places.
fn left_of_places(places: &[Pointer], budget: usize) -> Option<usize>
    ensures { MatchOption result (budget < listed places.now)
        (λ left. left + listed places.now ≡ budget) }
{
    if places.is_empty() {
        return budget.checked_sub(2);
    }
    let mut left = budget.checked_sub(1)?;
    for place in places {
        left = place.left_of_text(left.checked_sub(1)?)?;
    }
    Some(left)
}

fn push_pair(alloc: Global, pair: &ConflictingPair, text: &mut String) -> Result<(), AllocError>
    ensures { OnOk result
        (string_bytes text.new ≡ string_bytes text.old ++ pair_text (seen pair.now)) }
{
    push_head(alloc, pair, text)?;
    text.push_str(write_places(alloc, pair.places.as_slice())?.as_str())?;
    text.push_str("}")
}

// As far as its places.
fn push_head(alloc: Global, pair: &ConflictingPair, text: &mut String) -> Result<(), AllocError>
    ensures { OnOk result
        (string_bytes text.new ≡ string_bytes text.old ++ pair_head (seen pair.now)) }
{
    text.push_str("{\"first\":")?;
    push_identity(alloc, pair.first, text)?;
    text.push_str(",\"second\":")?;
    push_identity(alloc, pair.second, text)?;
    text.push_str(",\"places\":")
}

fn push_identity(alloc: Global, identity: Identity, text: &mut String) -> Result<(), AllocError>
    ensures { OnOk result (string_bytes text.new
        ≡ string_bytes text.old ++ compact (identity_document identity)) }
{
    let mut numbers = Vec::with_capacity(alloc, 2)?;
    numbers.push(Doc::Whole(Whole::from_u64(identity.sender)))?;
    numbers.push(Doc::Whole(Whole::from_u64(identity.number)))?;
    text.push_str(write_doc(alloc, &Doc::Items(numbers))?.as_str())
}
