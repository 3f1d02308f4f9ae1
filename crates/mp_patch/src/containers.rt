// What an operation does to the object or the array that holds its place (RFC 6902 section 4.1).
ghost use Rattle.std.specs.Prelude.{◌≡◌, ◌≢◌, ◌<◌, ◌≤◌, ◌⊎◌, ℕ, IsTrue, IsFalse, MatchOption, MatchResult, OnOk, string_bytes};
ghost use Rattle.mp_tree.specs.Document.{IsDocument, list, put};
ghost use Rattle.mp_tree.specs.View.{items_by, members_by};
ghost use Rattle.mp_pointer.specs.Part.{numeral};
ghost use Rattle.mp_patch.specs.Operation.{dash};
ghost use Rattle.mp_patch.specs.Private.Steps.{Inserts, TakesOutBy};

use crate::fault::{Cause, Refusal};
use mp_pointer::index_of;
use mp_tree::Node;
use std::alloc::AllocError;
use std::collections::BTreeMap;

pub(crate) fn set<T: Node>(part: &mut T, value: T, fits: bool) -> Result<(), Refusal<Cause>>
    ensures { MatchResult result (λ _. IsTrue fits × (part.new ≡ value))
        (λ fault. IsFalse fits × (fault ≡ Refusal.By Cause.TooDeep)) }
{
    if !fits {
        return Err(Refusal::By(Cause::TooDeep));
    }
    *part = value;
    Ok(())
}

// Adds the value to the object or the array, at the token.
pub(crate) fn insert<T: Node>(
    container: &mut T,
    token: String,
    value: T,
    fits: bool,
) -> Result<(), Refusal<Cause>>
    ensures { Inserts result fits (string_bytes token) (T.means value)
        (T.means container.old) (T.means container.new) }
{
    if let Some(elements) = container.items_mut() {
        insert_element(elements, token.as_str(), value, fits)
    } else if let Some(entries) = container.members_mut() {
        if !fits {
            return Err(Refusal::By(Cause::TooDeep));
        }
        set_member(entries, token, value)?;
        Ok(())
    } else {
        Err(Refusal::By(Cause::NoPlace))
    }
}

fn insert_element<T: Node>(
    elements: &mut Vec<T>,
    token: &str,
    value: T,
    fits: bool,
) -> Result<(), Refusal<Cause>>
    ensures { Inserts result fits token.now (T.means value)
        (list (items_by T.means elements.old.items)) (list (items_by T.means elements.new.items)) }
{
    let Some(index) = index_in(elements.len(), token) else {
        return Err(Refusal::By(Cause::NoPlace));
    };
    if !fits {
        return Err(Refusal::By(Cause::TooDeep));
    }
    elements.insert(index, value)?;
    Ok(())
}

// What had the name before is looked at only if there is something: to move it out costs more than that.
fn set_member<T: Node>(
    entries: &mut BTreeMap<String, T>,
    name: String,
    value: T,
) -> Result<(), AllocError>
    requires documents { (d : T) → IsDocument (T.means d) }
    ensures { OnOk result (members_by T.means entries.new.entries
        ≡ put (string_bytes name) (T.means value) (members_by T.means entries.old.entries)) }
{
    if let Some(before) = entries.insert(name, value)? {
        drop(before);
    }
    Ok(())
}

// The place for a new element that the token names in an array of that length.
pub(crate) fn index_in(len: usize, token: &str) -> Option<usize>
    ensures { MatchOption result
        ((token.now ≢ dash) × ((i : ℕ) → token.now ≡ numeral i → len < i))
        (λ i. (i ≤ len)
        × ((token.now ≡ numeral i) ⊎ ((token.now ≡ dash) × (i ≡ len)))) }
{
    if token == "-" {
        return Some(len);
    }
    let index = index_of(token)?;
    if index <= len { Some(index) } else { None }
}

// Takes out what the token names.
pub(crate) fn take<T: Node>(container: &mut T, token: &str) -> Option<T>
    ensures { TakesOutBy T.means result token.now
        (T.means container.old) (T.means container.new) }
{
    if let Some(elements) = container.items_mut() {
        take_element(elements, token)
    } else if let Some(entries) = container.members_mut() {
        entries.remove(token)
    } else {
        None
    }
}

fn take_element<T: Node>(elements: &mut Vec<T>, token: &str) -> Option<T>
    ensures { TakesOutBy T.means result token.now
        (list (items_by T.means elements.old.items)) (list (items_by T.means elements.new.items)) }
{
    let index = index_of(token)?;
    if index < elements.len() {
        Some(elements.remove(index))
    } else {
        None
    }
}
