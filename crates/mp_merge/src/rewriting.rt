//! Merge patches rewritten as JSON Patches.
ghost use Rattle.std.specs.Prelude.{◌≡◌, ◌≢◌, ◌≤◌, ◌++◌, ◌∷◌, [], None, Some, IfOk, OnOk, MatchResult, option_map};
ghost use Rattle.mp_patch.specs.Operation.{test};
ghost use Rattle.mp_tree.specs.Document.{depth, depth_limit, no_members, IsDocument};
ghost use Rattle.mp_tree.specs.Private.Entries.{members};
ghost use Rattle.mp_tree.specs.View.{document, members_by};
ghost use Rattle.mp_patch.specs.Run.{Runs};
ghost use Rattle.mp_patch.specs.View.{operation_of, operations_of};
ghost use Rattle.mp_merge.specs.Application.{merge_patch, merge_patch_members};
ghost use Rattle.mp_merge.specs.Private.Edits.{IsOneEdit, NotBothMaps, AreEdits, AreMemberEdits, Gathered, GatheredFrom, admit_edit, admitted_of};
ghost use Rattle.mp_merge.specs.Rewriting.{IsRewriting};
ghost use Rattle.mp_merge.specs.Within.{IsRewriteFault};
ghost use Rattle.mp_patch.specs.Weight.{operations_weight};
ghost use Rattle.mp_patch.specs.Work.{no_limit};

use crate::budget::Budget;
use crate::comparing::nodes_are_documents;
use crate::fault::RewriteFault;
use crate::laws;
use mp_patch::{JsonPatch, Op};
use mp_pointer::Pointer;
use mp_tree::{Doc, Node};
use std::alloc::{AllocError, Global};
use std::collections::BTreeMap;

/// The merge patch as a JSON Patch for this document: first a test of what the document has at each place that the
/// patch changes and where it has something, then one edit for each place that changes, both in the order of paths. It
/// is empty if the patch changes nothing.
///
/// So a peer whose document differs at a place with a test is refused before anything changes, and the error says at which
/// test. A place that is added has no test: what a peer has there is overwritten.
///
/// A place is reached through objects in both. If the patch has a null below its root and the document has
/// something, that is removed. If the patch has another value that is not an object and the document has another one
/// or none, it is set; so is an object if the document has none, as a merge into nothing leaves it. To set is to
/// replace if the document has something, and to add if it has nothing.
///
/// Of a patch that is at most 126 deep, the result applied to the document gives what the merge gives.
/// `AllocError` if memory ran out.
///
/// ```text
/// // [{"op":"test","path":"/b/c","value":2},{"op":"remove","path":"/b/c"}], for {"a":1,"b":{"c":2}} and {"b":{"c":null}}
/// rewrite(alloc, &doc, &patch)
/// ```
pub fn rewrite(alloc: Global, doc: &Doc, patch: &Doc) -> Result<JsonPatch, AllocError>
    ensures rewriting { IfOk result (λ ops.
        IsRewriting (document doc.now) (document patch.now) (operations_of ops)) }
    ensures runs { IfOk result (λ ops. depth (document patch.now) ≤ depth_limit
        → Runs (document doc.now) (operations_of ops)
        (merge_patch (Some (document doc.now)) (document patch.now))) }
{
    match rewrite_within(alloc, doc, patch, usize::MAX) {
        Ok(edits) => Ok(edits),
        Err(RewriteFault::TooLarge { fitting: _ }) => unreachable!(),
        Err(RewriteFault::OutOfMemory) => Err(AllocError),
    }
}

/// As `rewrite`, of any `Node` and within a limit in bytes: the rewriting exactly if its operations weigh at most `limit` together.
/// An operation weighs what its place and its value do: 128 bytes, 8 for each token and the bytes of the spelling, and what
/// `mp_tree::left_of` takes from a budget. A limit of `usize::MAX` is none: then nothing is weighed. Of the document and of the
/// patch, what stands in the result alone becomes a `Doc`.
///
/// `TooLarge` exactly if they weigh more, with the number of those that fit; `OutOfMemory` may come at any point. It never
/// holds more than `limit` and one value of the patch besides: what the document has is weighed before it is copied, and after
/// the first place that does not fit nothing more is made.
///
/// ```text
/// rewrite_within(alloc, &doc, &patch, 1_000)  // as rewrite, if doc is {"a":1,"b":{"c":2}} and patch {"b":{"c":null}}
/// rewrite_within(alloc, &doc, &patch, 300)    // TooLarge, and 0 operations fit
/// ```
pub fn rewrite_within<T: Node>(
    alloc: Global,
    doc: &T,
    patch: &T,
    limit: usize,
) -> Result<JsonPatch, RewriteFault>
    ensures rewriting { IfOk result (λ ops.
        IsRewriting (T.means doc.now) (T.means patch.now) (operations_of ops)) }
    ensures runs { IfOk result (λ ops. depth (T.means patch.now) ≤ depth_limit
        → Runs (T.means doc.now) (operations_of ops)
        (merge_patch (Some (T.means doc.now)) (T.means patch.now))) }
    ensures within { MatchResult result
        (λ ops. limit ≢ no_limit → operations_weight (operations_of ops) ≤ limit)
        (λ fault. IsRewriteFault limit fault (T.means doc.now) (T.means patch.now)) }
{
    laws::rewriting_runs();
    nodes_are_documents(patch);
    let found = gathered(alloc, doc, patch, Budget::within(limit))?;
    if found.budget.is_over() {
        let fitting = found.guards.ops().len() + found.edits.len();
        return Err(RewriteFault::TooLarge { fitting });
    }
    Ok(tests_then_edits(found)?)
}

// The tests of the places that were passed, and their edits: both in the order of paths. No place is kept with its test,
// so that a rewriting is these two lists and no third one. Once a place did not fit in the budget, both stay as they are.
#[derive(Drop)]
struct Edits {
    guards: JsonPatch,
    edits: Vec<Op>,
    budget: Budget,
}

fn gathered<T: Node>(alloc: Global, doc: &T, patch: &T, budget: Budget) -> Result<Edits, AllocError>
    ensures { IfOk result (λ found. GatheredFrom budget found
        (AreEdits [] (T.means patch.now) (Some (T.means doc.now)))) }
{
    let mut found = Edits {
        guards: JsonPatch::new(alloc),
        edits: Vec::new(alloc),
        budget,
    };
    push_all(patch, doc, &mut found, alloc)?;
    Ok(found)
}

fn tests_then_edits(found: Edits) -> Result<JsonPatch, AllocError>
    ensures { IfOk result (λ ops.
        operations_of ops ≡ operations_of found.guards ++ operations_of found.edits.items) }
{
    let Edits {
        mut guards,
        edits,
        budget: _,
    } = found;
    push_ops(edits, &mut guards)?;
    Ok(guards)
}

fn push_ops(ops: Vec<Op>, patch: &mut JsonPatch) -> Result<(), AllocError>
    ensures { OnOk result (patch.new ≡ patch.old ++ ops.items) }
{
    for op in ops {
        patch.push(op)?;
    }
    Ok(())
}

// Each function adds to both lists at their ends.
fn push_all<T: Node>(patch: &T, doc: &T, found: &mut Edits, alloc: Global) -> Result<(), AllocError>
    ensures { OnOk result (Gathered found.old found.new
        (AreEdits [] (T.means patch.now) (Some (T.means doc.now)))) }
{
    match (patch.members(), doc.members()) {
        (Some(changes), Some(entries)) => {
            push_member_edits(changes, entries, &mut Pointer::empty(alloc), found, alloc)
        }
        _ => push_root_edit(patch, doc, found, alloc),
    }
}

// At the root a null is a value like any other.
fn push_root_edit<T: Node>(
    patch: &T,
    doc: &T,
    found: &mut Edits,
    alloc: Global,
) -> Result<(), AllocError>
    ensures { OnOk result (NotBothMaps (T.means patch.now) (Some (T.means doc.now))
        → Gathered found.old found.new
        (IsOneEdit [] (T.means patch.now) (Some (T.means doc.now)))) }
{
    if patch.equals(doc) {
        return Ok(());
    }
    let op = Op::Replace(Pointer::empty(alloc), left_by(patch, alloc)?);
    push_guarded(Pointer::empty(alloc), doc, op, found, alloc)
}

// `path` leads to both objects, and is as it was at the end.
#[cycle(push_edits)]
fn push_member_edits<T: Node>(
    changes: &BTreeMap<String, T>,
    entries: &BTreeMap<String, T>,
    path: &mut Pointer,
    found: &mut Edits,
    alloc: Global,
) -> Result<(), AllocError>
    requires documents { (d : T) → IsDocument (T.means d) }
    ensures path { OnOk result (path.new ≡ path.old) }
    ensures edits { OnOk result (Gathered found.old found.new
        (AreMemberEdits path.old (members_by T.means changes.now.entries)
        (members_by T.means entries.now.entries))) }
{
    for (name, change) in changes.iter() {
        let value = entries.get(name.as_str());
        push_edits(change, value, path, name.as_str(), found, alloc)?;
    }
    Ok(())
}

// The patch comes first: the recursion goes down it. `path` leads to what has the name; a copy of it is made only where
// there is an edit.
#[cycle(push_edits)]
fn push_edits<T: Node>(
    change: &T,
    value: Option<&T>,
    path: &mut Pointer,
    name: &str,
    found: &mut Edits,
    alloc: Global,
) -> Result<(), AllocError>
    ensures path { OnOk result (path.new ≡ path.old) }
    ensures edits { OnOk result (Gathered found.old found.new
        (AreEdits (path.old ++ name.now ∷ []) (T.means change.now)
        (option_map (λ v. T.means v.now) value.entry))) }
{
    if found.budget.is_over() {
        return Ok(());
    }
    if let Some(there) = value {
        if let (Some(changes), Some(entries)) = (change.members(), there.members()) {
            path.push(name)?;
            push_member_edits(changes, entries, path, found, alloc)?;
            path.pop();
            return Ok(());
        }
    }
    push_edit(change, value, path, name, found, alloc)
}

// Below the root a null removes.
fn push_edit<T: Node>(
    change: &T,
    value: Option<&T>,
    path: &Pointer,
    name: &str,
    found: &mut Edits,
    alloc: Global,
) -> Result<(), AllocError>
    ensures { OnOk result (let t = option_map (λ v. T.means v.now) value.entry in
        NotBothMaps (T.means change.now) t
        → Gathered found.old found.new
        (IsOneEdit (path.now ++ name.now ∷ []) (T.means change.now) t)) }
{
    match value {
        Some(there) => {
            if change.is_null() {
                let place = path.child(alloc, name)?;
                let op = Op::Remove(place.copy(alloc)?);
                return push_guarded(place, there, op, found, alloc);
            }
            if change.equals(there) {
                return Ok(());
            }
            let place = path.child(alloc, name)?;
            let op = Op::Replace(place.copy(alloc)?, left_by(change, alloc)?);
            push_guarded(place, there, op, found, alloc)
        }
        None => {
            if change.is_null() {
                return Ok(());
            }
            let place = path.child(alloc, name)?;
            let op = Op::Add(place, left_by(change, alloc)?);
            push_unguarded(op, found)
        }
    }
}

// The edit, and the test of what is there, if the budget takes both.
fn push_guarded<T: Node>(
    place: Pointer,
    there: &T,
    op: Op,
    found: &mut Edits,
    alloc: Global,
) -> Result<(), AllocError>
    ensures { OnOk result (admitted_of found.new ≡ admit_edit (admitted_of found.old)
        (test place (T.means there.now) ∷ [], operation_of op)) }
{
    let tested = found.budget.after_place(&place).after_node(there);
    found.budget = tested.after_op(&op);
    if found.budget.is_over() {
        return Ok(());
    }
    found.guards.push(Op::Test(place, there.to_doc(alloc)?))?;
    found.edits.push(op)?;
    Ok(())
}

// The edit alone, if the budget takes it.
fn push_unguarded(op: Op, found: &mut Edits) -> Result<(), AllocError>
    ensures { OnOk result (admitted_of found.new ≡ admit_edit (admitted_of found.old)
        ([], operation_of op)) }
{
    found.budget = found.budget.after_op(&op);
    if found.budget.is_over() {
        return Ok(());
    }
    found.edits.push(op)?;
    Ok(())
}

// What a patch leaves where there was nothing (RFC 7396 section 2), as a document: a null below the root is left out.
#[cycle(left_by)]
fn left_by<T: Node>(patch: &T, alloc: Global) -> Result<Doc, AllocError>
    ensures { IfOk result (λ d. document d ≡ merge_patch None (T.means patch.now)) }
{
    match patch.members() {
        Some(changes) => Ok(Doc::Members(left_members(changes, alloc)?)),
        None => patch.to_doc(alloc),
    }
}

#[cycle(left_by)]
fn left_members<T: Node>(
    changes: &BTreeMap<String, T>,
    alloc: Global,
) -> Result<BTreeMap<String, Doc>, AllocError>
    requires documents { (d : T) → IsDocument (T.means d) }
    ensures { IfOk result (λ m. members m.entries
        ≡ merge_patch_members no_members (members_by T.means changes.now.entries)) }
{
    let mut entries = BTreeMap::new(alloc);
    for (name, change) in changes.iter() {
        if change.is_null() {
            continue;
        }
        let value = left_by(change, alloc)?;
        let copied = String::from_str(alloc, name.as_str())?;
        drop(entries.insert(copied, value)?);
    }
    Ok(entries)
}
