//! Applying a merge patch (RFC 7396 section 2).
ghost use Rattle.std.specs.Prelude.{◌≡◌, ◌≤◌, length, max, Some, IfOk, OnOk, option_map, string_bytes};
ghost use Rattle.mp_tree.specs.Document.{find, depth, IsDocument};
ghost use Rattle.mp_tree.specs.View.{document, members_by};
ghost use Rattle.mp_merge.specs.Application.{set_or_remove, depth_of, merge_patch, merge_patch_members, target_members};

use crate::in_place::merge_into;
use mp_tree::{Doc, Node};
use std::alloc::{AllocError, Global};
use std::collections::BTreeMap;
use std::mem;

/// The target after the merge patch (RFC 7396 section 2); `None` is a target that is absent.
///
/// A patch that is not an object is the result. An object changes the target name by name: a null removes the name, any
/// other value is merged with what is there, and a target that is absent or not an object counts as `{}`. The result
/// is no deeper than the deeper of the two. `AllocError` if memory ran out.
///
/// ```text
/// merge(alloc, Some(&doc), &patch)  // {"a":1,"c":3} for {"a":1,"b":2} and {"b":null,"c":3}
/// merge(alloc, None, &patch)        // {"a":{}} for {"a":{"b":null},"c":null}
/// ```
pub fn merge(alloc: Global, target: Option<&Doc>, patch: &Doc) -> Result<Doc, AllocError>
    ensures merged { IfOk result (λ d. document d
        ≡ merge_patch (option_map (λ t. document t.now) target.entry) (document patch.now)) }
    ensures depth { IfOk result (λ d. depth (document d)
        ≤ max (depth_of (option_map (λ t. document t.now) target.entry))
        (depth (document patch.now))) }
{
    // Merging into null gives what merging into nothing gives.
    let mut merged = match target {
        Some(doc) => doc.copy(alloc)?,
        None => Doc::Null,
    };
    merge_into(alloc, &mut merged, patch)?;
    Ok(merged)
}

/// As `merge`, of a target and a patch that are owned, of any `Node`: their parts are moved and not copied. `AllocError` if memory
/// ran out.
///
/// ```text
/// merge_owned(alloc, Some(doc), patch)  // {"a":1,"c":3} for {"a":1,"b":2} and {"b":null,"c":3}
/// ```
pub fn merge_owned<T: Node>(alloc: Global, target: Option<T>, patch: T) -> Result<T, AllocError>
    ensures merged { IfOk result (λ d.
        T.means d ≡ merge_patch (option_map T.means target) (T.means patch)) }
    ensures depth { IfOk result (λ d. depth (T.means d)
        ≤ max (depth_of (option_map T.means target)) (depth (T.means patch))) }
{
    merged(patch, target, alloc)
}

// The patch comes first: the recursion goes down it.
#[cycle(merged)]
fn merged<T: Node>(patch: T, target: Option<T>, alloc: Global) -> Result<T, AllocError>
    ensures { IfOk result (λ d.
        T.means d ≡ merge_patch (option_map T.means target) (T.means patch)) }
{
    let Some(_) = patch.members() else {
        return Ok(patch);
    };
    let entries = entries_of(target, alloc);
    let changes = patch.into_members(alloc);
    Ok(T::from_members(merged_members(changes, entries, alloc)?))
}

// An absent target, or one that is not an object, counts as the empty object.
pub(crate) fn entries_of<T: Node>(target: Option<T>, alloc: Global) -> BTreeMap<String, T>
    ensures { members_by T.means result.entries ≡ target_members (option_map T.means target) }
{
    match target {
        Some(before) => before.into_members(alloc),
        None => BTreeMap::new(alloc),
    }
}

#[cycle(merged)]
fn merged_members<T: Node>(
    changes: BTreeMap<String, T>,
    mut entries: BTreeMap<String, T>,
    alloc: Global,
) -> Result<BTreeMap<String, T>, AllocError>
    requires documents { (d : T) → IsDocument (T.means d) }
    ensures { IfOk result (λ m. members_by T.means m.entries
        ≡ merge_patch_members (members_by T.means entries.entries)
        (members_by T.means changes.entries)) }
{
    if changes.len() == 1 {
        return merged_member(changes, entries, alloc);
    }
    for (name, change) in changes {
        change_entry(change, name, &mut entries, alloc)?;
    }
    Ok(entries)
}

// The same of one change: to take it out costs less than to walk the map.
#[cycle(merged)]
fn merged_member<T: Node>(
    mut changes: BTreeMap<String, T>,
    mut entries: BTreeMap<String, T>,
    alloc: Global,
) -> Result<BTreeMap<String, T>, AllocError>
    requires documents { (d : T) → IsDocument (T.means d) }
    requires one { length changes.entries ≡ 1 }
    ensures { IfOk result (λ m. members_by T.means m.entries
        ≡ merge_patch_members (members_by T.means entries.entries)
        (members_by T.means changes.entries)) }
{
    if let Some((name, change)) = changes.pop_first() {
        change_entry(change, name, &mut entries, alloc)?;
    }
    Ok(entries)
}

// A null takes the name out; another value is merged with what stood there.
#[cycle(merged)]
#[inline(always)]
fn change_entry<T: Node>(
    change: T,
    name: String,
    entries: &mut BTreeMap<String, T>,
    alloc: Global,
) -> Result<(), AllocError>
    requires documents { (d : T) → IsDocument (T.means d) }
    ensures { OnOk result (let n = string_bytes name in let p = T.means change in
        let ts = members_by T.means entries.old.entries in
        members_by T.means entries.new.entries
        ≡ set_or_remove n p (merge_patch (find n ts) p) ts) }
{
    if change.is_null() {
        drop(entries.remove(name.as_str()));
        return Ok(());
    }
    match entries.get_mut(name.as_str()) {
        Some(value) => change_value(change, value, alloc),
        None => {
            drop(entries.insert(name, merged(change, None, alloc)?)?);
            Ok(())
        }
    }
}

// What is no object takes the place of what stood there.
#[cycle(merged)]
#[inline(always)]
fn change_value<T: Node>(change: T, value: &mut T, alloc: Global) -> Result<(), AllocError>
    ensures { OnOk result
        (T.means value.new ≡ merge_patch (Some (T.means value.old)) (T.means change)) }
{
    let Some(_) = change.members() else {
        *value = change;
        return Ok(());
    };
    let target = mem::replace(value, T::null());
    *value = merged(change, Some(target), alloc)?;
    Ok(())
}
