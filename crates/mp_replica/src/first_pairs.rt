//! The pairs of stored patches that conflict and come first, as many as a limit allows.
ghost use Rattle.std.specs.Prelude.{◌≡◌, ◌↔◌, false, map, IfOk, IsTrue};
ghost use Rattle.std.specs.List.Sorted.{IsStrictlySortedBy};
ghost use Rattle.std.specs.declared.cmp.Ordering.TheVariants.{Less};
ghost use Rattle.mp_replica.specs.PatchLog.{IsAmong, identity_cmp, pair_cmp, seen, stored_in};
ghost use Rattle.mp_replica.specs.Private.Pairs.{AreOrdered, Lists, ListsPair};

use crate::first_places::left_of;
use crate::laws::merge_laws;
use crate::message::Identity;
use crate::pairs::{ConflictingPair, clashing};
use mp_merge::{Conflicts, conflict_within};
use mp_tree::Doc;
use std::alloc::{AllocError, Global};
use std::collections::{BTreeMap, BTreeSet};

// What a pair weighs beside its places, in bytes.
const PAIR_WEIGHT: usize = 64;

/// The pairs of patches that conflict, in their order, as many as a limit allows.
#[derive(Debug, Drop)]
pub struct FirstPairs {
    /// The pairs that come first, each with all of its places, but the last one perhaps with the first of them alone.
    pub pairs: Vec<ConflictingPair>,
    /// Whether there are more pairs, or more places of the last one.
    pub more: bool,
}

// The first of these pairs that conflicts and is asked for: each, or those of an identity.
pub(crate) fn first_pairs(
    alloc: Global,
    known: &BTreeSet<(Identity, Identity)>,
    of: Option<Identity>,
    patches: &BTreeMap<Identity, Doc>,
    limit: usize,
) -> Result<FirstPairs, AllocError>
    requires ordered { AreOrdered known.now }
    ensures { IfOk result (λ found. (passed : _) × (left : _) × Lists of
        (stored_in patches.now.entries) limit known.now.keys passed
        (map seen found.pairs.items) left found.more
        × (found.more ≡ false → passed ≡ known.now.keys)
        × IsStrictlySortedBy pair_cmp known.now.keys) }
{
    let mut found = FirstPairs {
        pairs: Vec::new(alloc),
        more: false,
    };
    let mut left = limit;
    for pair in known.iter() {
        if found.more {
            return Ok(found);
        }
        if is_among(of, pair.0, pair.1) {
            left = list_pair(alloc, pair.0, pair.1, patches, left, &mut found)?;
        }
    }
    Ok(found)
}

// Whether the pair is asked for.
fn is_among(of: Option<Identity>, first: Identity, second: Identity) -> bool
    ensures { IsTrue result ↔ IsAmong of first second }
{
    match of {
        Some(identity) => first == identity || second == identity,
        None => true,
    }
}

// Adds the two, if they conflict, and says what is left.
fn list_pair(
    alloc: Global,
    first: Identity,
    second: Identity,
    patches: &BTreeMap<Identity, Doc>,
    left: usize,
    found: &mut FirstPairs,
) -> Result<usize, AllocError>
    requires order { identity_cmp first second ≡ Less }
    requires going { found.old.more ≡ false }
    ensures { IfOk result (λ rest. ListsPair (stored_in patches.now.entries) first second
        (map seen found.old.pairs.items) (map seen found.new.pairs.items)
        left rest found.new.more) }
{
    merge_laws();
    let Some((one, other)) = clashing(first, second, patches) else {
        return Ok(left);
    };
    let Some(budget) = left.checked_sub(PAIR_WEIGHT) else {
        found.more = true;
        return Ok(left);
    };
    let Conflicts { places, total } = conflict_within(alloc, one, other, budget)?;
    found.more = places.len() < total;
    let rest = left_of(places.as_slice(), budget).unwrap_or(0);
    found.pairs.push(ConflictingPair {
        first,
        second,
        places,
    })?;
    Ok(rest)
}
