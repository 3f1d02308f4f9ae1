//! The join of two merge patches.
ghost use Rattle.std.specs.Prelude.{◌≡◌, ◌≤◌, ◌⊎◌, ◌∷◌, [], max, Some, IfOk, IsFalse, IsOk, OnErr, OnOk, MatchResult};
ghost use Rattle.mp_tree.specs.Document.{depth, find, object, IsDocument};
ghost use Rattle.mp_tree.specs.View.{document, members_by};
ghost use Rattle.mp_merge.specs.Clash.{Compatible};
ghost use Rattle.mp_merge.specs.Join.{AddsNothing, IsJoin, IsJoinFault, JoinResumes, JoinsInto};
ghost use Rattle.mp_merge.specs.Private.Unions.{AddsNothingAt, Reunites, ReunitesAt, UnitesAt, UnitesTo};

use crate::comparing::{compatible, conflict};
use crate::fault::JoinFault;
use mp_tree::{Doc, Node};
use std::alloc::{AllocError, Global};
use std::collections::BTreeMap;

/// The join of two compatible patches: one patch with the effect of both, in either order. If both are objects it
/// has the names of both, and a common name has the join of its two values; else it is the one value that both are.
/// It is no deeper than the deeper of the two.
///
/// `Conflict` with all conflicts exactly if the patches are not compatible; `OutOfMemory` may come at any
/// point.
///
/// ```text
/// join(alloc, &p, &q)  // {"a":[null],"b":null} for {"a":[null]} and {"b":null}
/// join(alloc, &p, &q)  // Err(JoinFault::Conflict(..)) with /a for {"a":1} and {"a":2}
/// ```
pub fn join(alloc: Global, p: &Doc, q: &Doc) -> Result<Doc, JoinFault>
    ensures joined { MatchResult result
        (λ j. IsJoin (document p.now ∷ document q.now ∷ []) (document j))
        (λ fault. IsJoinFault fault (document p.now) (document q.now)) }
    ensures depth { IfOk result (λ j.
        depth (document j) ≤ max (depth (document p.now)) (depth (document q.now))) }
{
    let mut joined = p.copy(alloc)?;
    if !unite(q, &mut joined, alloc)? {
        return Err(JoinFault::Conflict(conflict(alloc, p, q)?));
    }
    Ok(joined)
}

/// Joins the patch into what was joined before, where it stands: `true` if the two are compatible, and `joined` is then what
/// [`join`] of the two gives. `false` exactly if they conflict, and then `joined` is as it was.
///
/// What was joined before is neither copied nor made anew; only what the patch adds is copied. Costs grow with the patch,
/// and with the logarithm of the number of names around each of its values.
///
/// `AllocError` if memory ran out. `joined` may then have grown by a part of the patch, with which it is compatible. The
/// call can be made again, with any number of refusals between, until it is `Ok`, and `joined` is then what one call
/// would have left. If the two conflict, or the patch adds nothing, as one that was joined before, no memory is taken and
/// the answer is `Ok`.
///
/// ```text
/// join_into(alloc, &mut joined, &patch)  // true, and {"a":{"x":1,"y":null}} for {"a":{"x":1}} and {"a":{"y":null}}
/// join_into(alloc, &mut joined, &patch)  // false, and {"a":1} for {"a":1} and {"a":2}
/// ```
pub fn join_into(alloc: Global, joined: &mut Doc, patch: &Doc) -> Result<bool, AllocError>
    ensures joined { IfOk result (λ united.
        JoinsInto united (document joined.old) (document patch.now) (document joined.new)) }
    ensures unchanged { IfOk result (λ united. IsFalse united → joined.new ≡ joined.old) }
    ensures depth { OnOk result (depth (document joined.new)
        ≤ max (depth (document joined.old)) (depth (document patch.now))) }
    ensures resumes { OnErr result
        (JoinResumes (document joined.old) (document patch.now) (document joined.new)) }
    ensures no_memory { (¬ Compatible (document patch.now) (document joined.old))
        ⊎ AddsNothing (document joined.old) (document patch.now) → IsOk result }
{
    if !compatible(patch, joined) {
        return Ok(false);
    }
    unite(patch, joined, alloc)
}

// Whether the two are compatible. If they are, what was joined before has grown by the patch, and was not copied;
// if they conflict it may have grown in part. If memory ran out, the same patch can be united with what is left.
#[cycle(unite)]
pub(crate) fn unite<T: Node>(patch: &T, joined: &mut T, alloc: Global) -> Result<bool, AllocError>
    ensures united { IfOk result (λ united. UnitesTo united (T.means patch.now)
        (Some (T.means joined.old)) (T.means joined.new)) }
    ensures resumes { OnErr result (Reunites (T.means patch.now)
        (Some (T.means joined.old)) (Some (T.means joined.new))) }
    ensures no_memory { AddsNothing (T.means joined.old) (T.means patch.now) → IsOk result }
{
    match patch.members() {
        Some(changes) => {
            let Some(entries) = joined.members_mut() else {
                return Ok(false);
            };
            unite_members(changes, entries, alloc)
        }
        None => Ok(patch.equals(joined)),
    }
}

#[cycle(unite)]
fn unite_members<T: Node>(
    changes: &BTreeMap<String, T>,
    entries: &mut BTreeMap<String, T>,
    alloc: Global,
) -> Result<bool, AllocError>
    requires documents { (d : T) → IsDocument (T.means d) }
    ensures united { IfOk result (λ united.
        UnitesTo united (object (members_by T.means changes.now.entries))
        (Some (object (members_by T.means entries.old.entries)))
        (object (members_by T.means entries.new.entries))) }
    ensures resumes { OnErr result (Reunites (object (members_by T.means changes.now.entries))
        (Some (object (members_by T.means entries.old.entries)))
        (Some (object (members_by T.means entries.new.entries)))) }
    ensures no_memory { AddsNothing (object (members_by T.means entries.old.entries))
        (object (members_by T.means changes.now.entries)) → IsOk result }
{
    for (name, change) in changes.iter() {
        if !unite_entry(change, name.as_str(), entries, alloc)? {
            return Ok(false);
        }
    }
    Ok(true)
}

// If nothing is there, the value is copied whole before its name is put in, so that a refusal leaves no name that
// was not there.
#[cycle(unite)]
fn unite_entry<T: Node>(
    change: &T,
    name: &str,
    entries: &mut BTreeMap<String, T>,
    alloc: Global,
) -> Result<bool, AllocError>
    requires documents { (d : T) → IsDocument (T.means d) }
    ensures united { IfOk result (λ united. UnitesAt united name.now (T.means change.now)
        (members_by T.means entries.old.entries) (members_by T.means entries.new.entries)) }
    ensures resumes { OnErr result (ReunitesAt name.now (T.means change.now)
        (members_by T.means entries.old.entries) (members_by T.means entries.new.entries)) }
    ensures no_memory { AddsNothingAt (find name.now (members_by T.means entries.old.entries))
        (T.means change.now) → IsOk result }
{
    match entries.get_mut(name) {
        Some(before) => unite(change, before, alloc),
        None => {
            let value = change.copied(alloc)?;
            drop(entries.insert(String::from_str(alloc, name)?, value)?);
            Ok(true)
        }
    }
}
