//! Merging a patch into a document where it stands.
ghost use Rattle.std.specs.Prelude.{◌≡◌, ◌≤◌, max, None, Some, IsOk, OnOk, OnErr, string_bytes};
ghost use Rattle.mp_tree.specs.Document.{object, find, depth};
ghost use Rattle.mp_tree.specs.View.{document};
ghost use Rattle.mp_tree.specs.Private.Entries.{members};
ghost use Rattle.mp_merge.specs.Application.{set_or_remove, merge_patch, merge_patch_members, target_members};
ghost use Rattle.mp_merge.specs.Private.Merging.{ResumesAt, NeedsNoneAt, NeedsNoneIn};
ghost use Rattle.mp_merge.specs.Resumption.{NeedsNoMemory, Resumes};

use mp_tree::{Doc, Node, members_mut};
use std::alloc::{AllocError, Global};
use std::collections::BTreeMap;

/// Merges the patch into the target where it stands (RFC 7396 section 2): on `Ok` the target is what [`merge`] gives.
/// The target's parts are neither copied nor made anew; what the patch sets is copied from it.
///
/// `AllocError` if memory ran out. The target may then be merged in part, but nothing that the patch does not speak
/// of is lost: the call can be made again, with any number of refusals between, until it is `Ok`, and the target is
/// then what one call would have left. If the patch is an object of nulls and objects alone, and the target has an
/// object wherever the patch has one, no memory is taken and the answer is `Ok`.
///
/// ```text
/// merge_into(alloc, &mut doc, &patch)  // {"a":{"y":2}} for {"a":{"x":[1],"y":2}} and {"a":{"x":null}}
/// ```
///
/// [`merge`]: crate::merge
pub fn merge_into(alloc: Global, target: &mut Doc, patch: &Doc) -> Result<(), AllocError>
    ensures merged { OnOk result
        (document target.new ≡ merge_patch (Some (document target.old)) (document patch.now)) }
    ensures depth { OnOk result (depth (document target.new)
        ≤ max (depth (document target.old)) (depth (document patch.now))) }
    ensures resumes { OnErr result
        (Resumes (document patch.now) (document target.old) (document target.new)) }
    ensures no_memory { NeedsNoMemory (document target.old) (document patch.now) → IsOk result }
{
    merge_at(patch, target, alloc)
}

// The patch comes first: the recursion goes down it.
#[cycle(merge_at)]
fn merge_at(patch: &Doc, target: &mut Doc, alloc: Global) -> Result<(), AllocError>
    ensures merged { OnOk result
        (document target.new ≡ merge_patch (Some (document target.old)) (document patch.now)) }
    ensures resumes { OnErr result
        (Resumes (document patch.now) (document target.old) (document target.new)) }
    ensures no_memory { NeedsNoMemory (document target.old) (document patch.now) → IsOk result }
{
    match patch {
        Doc::Members(changes) => {
            make_object(target, alloc);
            let Some(entries) = members_mut(target) else {
                unreachable!();
            };
            merge_members(changes, entries, alloc)
        }
        _ => {
            *target = patch.copy(alloc)?;
            Ok(())
        }
    }
}

fn make_object(target: &mut Doc, alloc: Global)
    ensures { document target.new ≡ object (target_members (Some (document target.old))) }
{
    if target.members().is_none() {
        *target = Doc::Members(BTreeMap::new(alloc));
    }
}

#[cycle(merge_at)]
fn merge_members(
    changes: &BTreeMap<String, Doc>,
    entries: &mut BTreeMap<String, Doc>,
    alloc: Global,
) -> Result<(), AllocError>
    ensures merged { OnOk result (members entries.new.entries
        ≡ merge_patch_members (members entries.old.entries) (members changes.now.entries)) }
    ensures resumes { OnErr result
        (merge_patch_members (members entries.new.entries) (members changes.now.entries)
        ≡ merge_patch_members (members entries.old.entries) (members changes.now.entries)) }
    ensures no_memory { NeedsNoneIn (members changes.now.entries) (members entries.old.entries)
        → IsOk result }
{
    for (name, change) in changes.iter() {
        merge_entry(change, name.as_str(), entries, alloc)?;
    }
    Ok(())
}

// A null takes the name out; another value is merged with what is there. If nothing is there, the value is
// made whole before its name is put in, so that a refusal leaves no name that was not there.
#[cycle(merge_at)]
fn merge_entry(
    change: &Doc,
    name: &str,
    entries: &mut BTreeMap<String, Doc>,
    alloc: Global,
) -> Result<(), AllocError>
    ensures merged { OnOk result (let ts = members entries.old.entries in
        members entries.new.entries
        ≡ set_or_remove name.now (document change.now)
        (merge_patch (find name.now ts) (document change.now)) ts) }
    ensures resumes { OnErr result (ResumesAt name.now (document change.now)
        (members entries.old.entries) (members entries.new.entries)) }
    ensures no_memory { NeedsNoneAt (document change.now)
        (find name.now (members entries.old.entries)) → IsOk result }
{
    if change.is_null() {
        drop(entries.remove(name));
        return Ok(());
    }
    match entries.get_mut(name) {
        Some(value) => merge_at(change, value, alloc),
        None => {
            let mut part = Doc::Null;
            merge_at(change, &mut part, alloc)?;
            drop(entries.insert(String::from_str(alloc, name)?, part)?);
            Ok(())
        }
    }
}
