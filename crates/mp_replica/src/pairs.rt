//! The pairs of stored patches that conflict.
ghost use Rattle.std.specs.Prelude.{◌≡◌, ◌↔◌, None, map, IfOk, IsTrue, MatchOption, OnOk};
ghost use Rattle.std.specs.List.Sorted.{IsStrictlySortedBy};
ghost use Rattle.mp_tree.specs.View.{document};
ghost use Rattle.mp_replica.specs.PatchLog.{DoClash, pair_cmp, seen, stored_in};
ghost use Rattle.mp_replica.specs.Private.Pairs.{AreClashing, AreOf, AreOrdered, HasBoth, Includes, IsFirstAmong, NoneAmong, Notes};
ghost use Rattle.mp_replica.specs.Private.StoredPatches.{FitsAll};

use crate::message::Identity;
use mp_merge::{compatible, conflict};
use mp_pointer::Pointer;
use mp_tree::Doc;
use std::alloc::{AllocError, Global};
use std::cmp::Ordering;
use std::collections::{BTreeMap, BTreeSet};

/// Two patches that conflict, by their identities, and where.
#[derive(Debug, Drop)]
pub struct ConflictingPair {
    /// The lower identity of the two.
    pub first: Identity,
    /// The other.
    pub second: Identity,
    /// The places at which the two patches disagree, in the order of paths.
    pub places: Vec<Pointer>,
}

// Adds the pair of the patch and of each of these that conflicts with it, and says whether none does. If memory runs out, some
// pairs may be added.
pub(crate) fn note_clashes(
    identity: Identity,
    patch: &Doc,
    others: &[Identity],
    patches: &BTreeMap<Identity, Doc>,
    pairs: &mut BTreeSet<(Identity, Identity)>,
) -> Result<bool, AllocError>
    ensures fits { IfOk result (λ fits. IsTrue fits
        ↔ FitsAll (stored_in patches.now.entries) others.now (document patch.now)) }
    ensures noted { OnOk result (Notes identity (stored_in patches.now.entries)
        (document patch.now) others.now pairs.new) }
    ensures kept { Includes pairs.old pairs.new }
    ensures ordered { AreOrdered pairs.old → AreOrdered pairs.new }
{
    let mut fits = true;
    for other in others {
        if let Some(stored) = patches.get(other) {
            if !compatible(patch, stored) {
                note_pair(identity, *other, pairs)?;
                fits = false;
            }
        }
    }
    Ok(fits)
}

// Adds the pair of the two, the lower identity first.
fn note_pair(
    one: Identity,
    other: Identity,
    pairs: &mut BTreeSet<(Identity, Identity)>,
) -> Result<(), AllocError>
    ensures noted { OnOk result (HasBoth pairs.new one other) }
    ensures kept { Includes pairs.old pairs.new }
    ensures ordered { AreOrdered pairs.old → AreOrdered pairs.new }
{
    match one.cmp(&other) {
        Ordering::Less => pairs.insert((one, other))?,
        Ordering::Greater => pairs.insert((other, one))?,
        Ordering::Equal => false,
    };
    Ok(())
}

// Each of these pairs that conflicts.
pub(crate) fn all_pairs(
    alloc: Global,
    known: &BTreeSet<(Identity, Identity)>,
    patches: &BTreeMap<Identity, Doc>,
) -> Result<Vec<ConflictingPair>, AllocError>
    requires ordered { AreOrdered known.now }
    ensures { IfOk result (λ pairs. AreOf None (stored_in patches.now.entries) known.now.keys
        (map seen pairs.items)) }
{
    let mut pairs = Vec::new(alloc);
    for pair in known.iter() {
        if let Some((one, other)) = clashing(pair.0, pair.1, patches) {
            let places = conflict(alloc, one, other)?;
            pairs.push(ConflictingPair {
                first: pair.0,
                second: pair.1,
                places,
            })?;
        }
    }
    Ok(pairs)
}

// The first of these pairs that conflicts and was chosen, both of it.
pub(crate) fn first_pair(
    known: &BTreeSet<(Identity, Identity)>,
    patches: &BTreeMap<Identity, Doc>,
    chosen: &BTreeSet<Identity>,
) -> Option<(Identity, Identity)>
    ensures ascending { IsStrictlySortedBy pair_cmp known.now.keys }
    ensures first { MatchOption result
        (NoneAmong (stored_in patches.now.entries) known.now.keys chosen.now)
        (λ pair. IsFirstAmong (stored_in patches.now.entries) known.now.keys chosen.now pair) }
{
    for pair in known.iter() {
        if chosen.contains(&pair.0)
            && chosen.contains(&pair.1)
            && clashing(pair.0, pair.1, patches).is_some()
        {
            return Some(*pair);
        }
    }
    None
}

// The patches that are stored under the two, if both are there and conflict.
pub(crate) fn clashing<'a>(
    first: Identity,
    second: Identity,
    patches: &'a BTreeMap<Identity, Doc>,
) -> Option<(&'a Doc, &'a Doc)>
    ensures { MatchOption result (¬ DoClash (stored_in patches.now.entries) first second)
        (λ two. AreClashing (stored_in patches.now.entries) first second
        (document two.0.now) (document two.1.now)) }
{
    let one = patches.get(&first)?;
    let other = patches.get(&second)?;
    if compatible(one, other) {
        return None;
    }
    Some((one, other))
}
