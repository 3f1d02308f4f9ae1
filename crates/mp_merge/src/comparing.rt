//! Whether two merge patches are compatible, and where they conflict.
ghost use Rattle.std.specs.Prelude.{◌≡◌, ◌↔◌, Some, IsTrue, IfOk, OnOk};
ghost use Rattle.mp_tree.specs.Document.{object, IsDocument};
ghost use Rattle.mp_tree.specs.View.{document, members_by};
ghost use Rattle.mp_merge.specs.Clash.{Compatible, AreAllClashes};
ghost use Rattle.mp_merge.specs.Private.Clashes.{IsOneClash, Passed, WalksClashes, WalksMembers, report, reported_of};
ghost use Rattle.mp_merge.specs.Within.{AreFirstConflicts};

use crate::budget::Budget;
use mp_pointer::Pointer;
use mp_tree::{Doc, Node};
use std::alloc::{AllocError, Global};
use std::collections::BTreeMap;

/// Whether the patches are compatible: both are objects, and each name that both carry has compatible values, or
/// neither is an object and they are equal. Null is a value like any other here.
///
/// Replicas may receive compatible patches in any order. Takes no memory.
///
/// ```text
/// compatible(&p, &q)  // true for {"a":{"x":1}} and {"a":{"y":null}}, false for {"a":1} and {"a":2}
/// ```
pub fn compatible(p: &Doc, q: &Doc) -> bool
    ensures { IsTrue result ↔ Compatible (document p.now) (document q.now) }
{
    are_compatible(p, q)
}

#[cycle(compatible)]
pub(crate) fn are_compatible<T: Node>(p: &T, q: &T) -> bool
    ensures { IsTrue result ↔ Compatible (T.means p.now) (T.means q.now) }
{
    match (p.members(), q.members()) {
        (Some(changes), Some(others)) => are_members_compatible(changes, others),
        _ => p.equals(q),
    }
}

#[cycle(compatible)]
fn are_members_compatible<T: Node>(
    changes: &BTreeMap<String, T>,
    others: &BTreeMap<String, T>,
) -> bool
    requires documents { (d : T) → IsDocument (T.means d) }
    ensures { IsTrue result ↔ Compatible (object (members_by T.means changes.now.entries))
        (object (members_by T.means others.now.entries)) }
{
    for (name, change) in changes.iter() {
        if let Some(other) = others.get(name.as_str()) {
            if !are_compatible(change, other) {
                return false;
            }
        }
    }
    true
}

/// All conflicts of two patches: each list of names, reached through objects in both, at which both carry something and
/// either one of the two is an object or neither is and they differ. The list is empty exactly if the patches are
/// compatible.
///
/// Each conflict is there once, in the order of paths: names are compared by their UTF-8 bytes, lists of names name
/// by name, and a proper prefix comes first. `AllocError` if memory ran out.
///
/// ```text
/// conflict(alloc, &p, &q)  // /a/z and /b for {"a":{"z":1},"b":1} and {"a":{"z":2},"b":2}
/// ```
pub fn conflict(alloc: Global, p: &Doc, q: &Doc) -> Result<Vec<Pointer>, AllocError>
    ensures { IfOk result (λ places.
        AreAllClashes (document p.now) (document q.now) places.items) }
{
    let Conflicts { places, total: _ } = conflict_within(alloc, p, q, usize::MAX)?;
    Ok(places)
}

/// The conflicts of two patches that come first, and how many there are.
#[derive(Debug, Drop)]
pub struct Conflicts {
    /// The places that come first, in the order of paths: as many as weigh at most the limit together.
    pub places: Vec<Pointer>,
    /// How many conflicts there are in all; 2^64 - 1 if there are more.
    pub total: usize,
}

/// As `conflict`, of any `Node` and within a limit in bytes: the places that come first, as many as weigh at most `limit` together,
/// and the number of all. A place weighs 128 bytes, 8 for each token, and the bytes of its spelling. A limit of `usize::MAX` is
/// none: then all places are there, and nothing is weighed.
///
/// Besides these places it takes the memory of one path. `AllocError` if memory ran out.
///
/// ```text
/// conflict_within(alloc, &p, &q, 150)  // /a/z, of 2, for {"a":{"z":1},"b":1} and {"a":{"z":2},"b":2}
/// ```
pub fn conflict_within<T: Node>(
    alloc: Global,
    p: &T,
    q: &T,
    limit: usize,
) -> Result<Conflicts, AllocError>
    ensures { IfOk result (λ c.
        AreFirstConflicts limit (T.means p.now) (T.means q.now) c.places.items c.total) }
{
    nodes_are_documents(p);
    let mut found = Found {
        places: Vec::new(alloc),
        budget: Budget::within(limit),
        total: 0,
    };
    let mut path = Pointer::empty(alloc);
    push_clashes(p, q, &mut path, &mut found, alloc)?;
    let Found {
        places,
        budget: _,
        total,
    } = found;
    Ok(Conflicts { places, total })
}

// What the type of the node promises of each of its kind. It runs nothing: what the method answers is not looked at.
pub(crate) fn nodes_are_documents<T: Node>(node: &T)
    ensures { (d : T) → IsDocument (T.means d) }
{
    let _members = node.members();
}

// The places that the budget took, what is left of it, and how many places the walk has passed.
#[derive(Drop)]
struct Found {
    places: Vec<Pointer>,
    budget: Budget,
    total: usize,
}

// Each function adds to the places at their end, in the order of paths. The patches come first: the recursion goes down
// them. `path` leads to both, and is as it was at the end.
#[cycle(push_clashes)]
fn push_clashes<T: Node>(
    p: &T,
    q: &T,
    path: &mut Pointer,
    found: &mut Found,
    alloc: Global,
) -> Result<(), AllocError>
    ensures path { OnOk result (path.new ≡ path.old) }
    ensures found { OnOk result (Passed found.old found.new
        (WalksClashes path.old (T.means p.now) (Some (T.means q.now)))) }
{
    match (p.members(), q.members()) {
        (Some(changes), Some(others)) => push_member_clashes(changes, others, path, found, alloc),
        _ => push_clash(p, q, path, found, alloc),
    }
}

#[cycle(push_clashes)]
fn push_member_clashes<T: Node>(
    changes: &BTreeMap<String, T>,
    others: &BTreeMap<String, T>,
    path: &mut Pointer,
    found: &mut Found,
    alloc: Global,
) -> Result<(), AllocError>
    requires documents { (d : T) → IsDocument (T.means d) }
    ensures path { OnOk result (path.new ≡ path.old) }
    ensures found { OnOk result (Passed found.old found.new
        (WalksMembers path.old (members_by T.means changes.now.entries)
        (members_by T.means others.now.entries))) }
{
    for (name, change) in changes.iter() {
        if let Some(other) = others.get(name.as_str()) {
            path.push(name.as_str())?;
            push_clashes(change, other, path, found, alloc)?;
            path.pop();
        }
    }
    Ok(())
}

// Where at most one of the two is an object.
fn push_clash<T: Node>(
    p: &T,
    q: &T,
    path: &Pointer,
    found: &mut Found,
    alloc: Global,
) -> Result<(), AllocError>
    ensures { OnOk result (Passed found.old found.new
        (IsOneClash path.now (T.means p.now) (T.means q.now))) }
{
    if p.equals(q) {
        return Ok(());
    }
    push_place(path, found, alloc)
}

fn push_place(path: &Pointer, found: &mut Found, alloc: Global) -> Result<(), AllocError>
    ensures { OnOk result (reported_of found.new ≡ report (reported_of found.old) path.now) }
{
    found.total = found.total.saturating_add(1);
    found.budget = found.budget.after_place(path);
    if found.budget.is_over() {
        return Ok(());
    }
    found.places.push(path.copy(alloc)?)?;
    Ok(())
}
