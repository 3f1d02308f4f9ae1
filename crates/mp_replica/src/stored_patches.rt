//! The patches of one start, each under its identity, and what is known of those that conflict.
ghost use Rattle.std.specs.Prelude.{◌≡◌, ◌≢◌, ◌↔◌, ◌⊎◌, ◌++◌, ◌∷◌, ℕ, List, [], None, Some, IsTrue, IfOk, MatchOption, OnErr, OnOk, length, map, option_map};
ghost use Rattle.std.specs.List.{Contains};
ghost use Rattle.mp_tree.specs.Document.{Document, IsDocument};
ghost use Rattle.mp_tree.specs.View.{document};
ghost use Rattle.mp_merge.specs.Clash.{Compatible};
ghost use Rattle.mp_merge.specs.Outcome.{IsOutcome};
ghost use Rattle.mp_replica.specs.Following.{settled};
ghost use Rattle.mp_replica.specs.PatchLog.{AreAllPairs, AreChosen, AreFirstConflictsAt, AreFirstPairsOf, ClashesWithNone, HaveArrived, IsFirstMissing, IsFirstPair, Shows, StoresAlso, seen, stored_in};
ghost use Rattle.mp_replica.specs.Private.StoredPatches.{AreApart, AreConflictingWith, JoinsOthers, StillShows};

use crate::first_pairs::{FirstPairs, first_pairs};
use crate::identity_set::set_of;
use crate::laws::{merge_laws, text_laws};
use crate::message::Identity;
use crate::pairs::{ConflictingPair, all_pairs, first_pair, note_clashes};
use crate::stored_join::{StoredJoin, grow_by};
use mp_merge::{Conflicts, compatible, conflict_within, merge_into};
use mp_tree::Doc;
use std::alloc::{AllocError, Global};
use std::collections::{BTreeMap, BTreeSet};
use std::marker::Model;

// Each patch is stored under its identity.
#[derive(Drop)]
pub(crate) struct StoredPatches {
    patches: BTreeMap<Identity, Doc>,
    // The identities of those that conflict with another, in any order.
    conflicting: Vec<Identity>,
    // Each two of them that conflict, the lower one first. There may be others: only those that conflict count.
    pairs: BTreeSet<(Identity, Identity)>,
    // The join of all others.
    join: StoredJoin,
}

// What a patch that is stored is to those that were stored before.
#[derive(Drop)]
pub(crate) enum Standing {
    // It conflicts with none of them.
    Fits,
    // It conflicts with some, and each of these conflicted with another before.
    Disputed,
    // It conflicts with one that conflicted with none before.
    Disputes,
}

impl Model for StoredPatches {
    ghost use Rattle.std.specs.Prelude.{List};
    ghost use Rattle.std.specs.Coded.{codes};
    ghost use Rattle.mp_tree.specs.declared.doc.Doc.{Doc};
    ghost use Rattle.mp_tree.specs.contracts.doc.Doc.{the_row};
    ghost use Rattle.mp_replica.specs.declared.message.Identity.{Identity};
    ghost use Rattle.mp_replica.specs.Private.StoredPatches.{KnowsConflicts, join_in};

    ghost Value = { List (Identity × Doc) };

    ghost view = { λ r. r.patches.entries };

    ghost coded = { Prim.hlevel (codes, the_row.coded) };

    ghost invariant = { λ r. KnowsConflicts r.patches.entries r.conflicting.items r.pairs
        (join_in r.patches.entries r.join) };
}

impl StoredPatches {
    pub(crate) fn new(alloc: Global) -> StoredPatches
        ensures { result ≡ [] }
    {
        merge_laws();
        StoredPatches {
            patches: BTreeMap::new(alloc),
            conflicting: Vec::new(alloc),
            pairs: BTreeSet::new(alloc),
            join: StoredJoin {
                joined: None,
                unjoined: None,
            },
        }
    }

    pub(crate) fn has(&self, identity: Identity) -> bool
        ensures { IsTrue result ↔ (stored_in self.now identity ≢ None) }
    {
        self.patches.contains_key(&identity)
    }

    // The patch that is stored under this identity.
    pub(crate) fn get(&self, identity: Identity) -> Option<&Doc>
        ensures { option_map (λ p. document p.now) result ≡ stored_in self.now identity }
    {
        self.patches.get(&identity)
    }

    // How many patches are stored.
    pub(crate) fn count(&self) -> usize
        ensures { result ≡ length self.now }
    {
        self.patches.len()
    }

    // Stores a patch under an identity that has none. If memory runs out, nothing is changed.
    pub(crate) fn insert(
        &mut self,
        alloc: Global,
        identity: Identity,
        patch: Doc,
    ) -> Result<Standing, AllocError>
        requires { stored_in self.old identity ≡ None }
        ensures stored { OnOk result
            (StoresAlso (stored_in self.old) identity (document patch) (stored_in self.new)) }
        ensures shows { IfOk result (λ standing. (start shown : Document) → IsDocument start
            → IsDocument shown → Shows start (stored_in self.old) shown
            → StillShows standing start shown (document patch) (stored_in self.new)) }
        ensures unchanged { OnErr result (self.new ≡ self.old) }
    {
        merge_laws();
        if !self.join.settle(alloc, &self.patches) {
            return Err(AllocError);
        }
        if !self.join.fits(&patch) {
            self.insert_anew(alloc, identity, patch)?;
            return Ok(Standing::Disputes);
        }
        let known = self.conflicting.as_slice();
        if note_clashes(identity, &patch, known, &self.patches, &mut self.pairs)? {
            self.patches.insert(identity, patch)?;
            self.join.unjoined = Some(identity);
            let _settled = self.join.settle(alloc, &self.patches);
            return Ok(Standing::Fits);
        }
        let conflicting = with_one(alloc, self.conflicting.as_slice(), identity)?;
        self.patches.insert(identity, patch)?;
        self.conflicting = conflicting;
        Ok(Standing::Disputed)
    }

    // The same of a patch that conflicts with one that is joined: the join is made again without those that conflict now.
    fn insert_anew(
        &mut self,
        alloc: Global,
        identity: Identity,
        patch: Doc,
    ) -> Result<(), AllocError>
        requires absent { stored_in self.old identity ≡ None }
        requires clash { ¬ ClashesWithNone (stored_in self.old) (document patch) }
        ensures stored { OnOk result
            (StoresAlso (stored_in self.old) identity (document patch) (stored_in self.new)) }
        ensures unchanged { OnErr result (self.new ≡ self.old) }
    {
        merge_laws();
        let known = self.conflicting.as_slice();
        let conflicting = conflicting_with(alloc, identity, &patch, known, &self.patches)?;
        let others = conflicting.as_slice();
        let _fits = note_clashes(identity, &patch, others, &self.patches, &mut self.pairs)?;
        let joined = join_of_others(alloc, conflicting.as_slice(), &self.patches)?;
        self.patches.insert(identity, patch)?;
        self.conflicting = conflicting;
        self.join = StoredJoin {
            joined,
            unjoined: None,
        };
        Ok(())
    }

    // The outcome of the start and of the patches that conflict with no other.
    pub(crate) fn outcome(&mut self, alloc: Global, start: &Doc) -> Result<Doc, AllocError>
        ensures shows { IfOk result (λ shown.
            Shows (document start.now) (stored_in self.old) (document shown)) }
        ensures unchanged { self.new ≡ self.old }
    {
        text_laws();
        if !self.join.settle(alloc, &self.patches) {
            return Err(AllocError);
        }
        merged(alloc, start, &self.join.joined)
    }

    // Each two patches that conflict.
    pub(crate) fn conflicts(&self, alloc: Global) -> Result<Vec<ConflictingPair>, AllocError>
        ensures { IfOk result (λ pairs. AreAllPairs (stored_in self.now) (map seen pairs.items)) }
    {
        all_pairs(alloc, &self.pairs, &self.patches)
    }

    // The first of each two patches that conflict, or of those with an identity, within a limit.
    pub(crate) fn conflicts_within(
        &self,
        alloc: Global,
        of: Option<Identity>,
        limit: usize,
    ) -> Result<FirstPairs, AllocError>
        ensures { IfOk result (λ found. AreFirstPairsOf limit of (stored_in self.now)
            (map seen found.pairs.items) found.more) }
    {
        first_pairs(alloc, &self.pairs, of, &self.patches, limit)
    }

    // The first of the chosen identities under which no patch is stored.
    pub(crate) fn first_missing(&self, chosen: &[Identity]) -> Option<Identity>
        ensures { MatchOption result (HaveArrived (stored_in self.now) chosen.now)
            (IsFirstMissing (stored_in self.now) chosen.now) }
    {
        for identity in chosen {
            if !self.has(*identity) {
                return Some(*identity);
            }
        }
        None
    }

    // The first two of the chosen patches that conflict.
    pub(crate) fn first_conflict(
        &self,
        alloc: Global,
        chosen: &[Identity],
    ) -> Result<Option<(Identity, Identity)>, AllocError>
        ensures { IfOk result (λ found. MatchOption found
            (AreApart (stored_in self.now) chosen.now)
            (λ pair. IsFirstPair (stored_in self.now) chosen.now pair.0 pair.1)) }
    {
        let wanted = set_of(alloc, chosen)?;
        Ok(first_pair(&self.pairs, &self.patches, &wanted))
    }

    // Where these two patches conflict, within a limit; `AllocError` too if not both are stored.
    pub(crate) fn places_of(
        &self,
        alloc: Global,
        first: Identity,
        second: Identity,
        limit: usize,
    ) -> Result<Conflicts, AllocError>
        ensures { IfOk result (λ c. AreFirstConflictsAt limit (stored_in self.now) first second
            c.places.items c.total) }
    {
        match (self.patches.get(&first), self.patches.get(&second)) {
            (Some(one), Some(other)) => conflict_within(alloc, one, other, limit),
            _ => Err(AllocError),
        }
    }

    // The start after the chosen patches.
    pub(crate) fn after(
        &self,
        alloc: Global,
        start: &Doc,
        chosen: &[Identity],
    ) -> Result<Doc, AllocError>
        requires arrived { HaveArrived (stored_in self.now) chosen.now }
        requires apart { AreApart (stored_in self.now) chosen.now }
        ensures { IfOk result (λ end. (patches : List Document)
            × AreChosen (stored_in self.now) chosen.now patches
            × IsOutcome (document start.now) patches (document end)) }
    {
        merge_laws();
        let mut end = start.copy(alloc)?;
        for identity in chosen {
            if let Some(patch) = self.patches.get(identity) {
                merge_into(alloc, &mut end, patch)?;
            }
        }
        Ok(end)
    }
}

// The start, into which what is joined is merged.
fn merged(alloc: Global, start: &Doc, joined: &Option<Doc>) -> Result<Doc, AllocError>
    ensures { IfOk result (λ shown.
        document shown ≡ settled (document start.now) (option_map document joined.now)) }
{
    let mut shown = start.copy(alloc)?;
    if let Some(patch) = joined {
        merge_into(alloc, &mut shown, patch)?;
    }
    Ok(shown)
}

// These identities, and one more.
fn with_one(
    alloc: Global,
    identities: &[Identity],
    identity: Identity,
) -> Result<Vec<Identity>, AllocError>
    ensures { IfOk result (λ all. all.items ≡ identities.now ++ identity ∷ []) }
{
    let mut all = Vec::with_capacity(alloc, identities.len().saturating_add(1))?;
    all.extend_from_slice(identities)?;
    all.push(identity)?;
    Ok(all)
}

// The identity of the patch, and those of the stored ones that conflict with it or did so before.
fn conflicting_with(
    alloc: Global,
    identity: Identity,
    patch: &Doc,
    known: &[Identity],
    patches: &BTreeMap<Identity, Doc>,
) -> Result<Vec<Identity>, AllocError>
    ensures { IfOk result (λ found. AreConflictingWith (stored_in patches.now.entries) identity
        (document patch.now) known.now found.items) }
{
    let before = set_of(alloc, known)?;
    let mut found = Vec::new(alloc);
    for (other, stored) in patches.iter() {
        if before.contains(other) || !compatible(patch, stored) {
            found.push(*other)?;
        }
    }
    found.push(identity)?;
    Ok(found)
}

// The join of the patches under all other identities.
fn join_of_others(
    alloc: Global,
    conflicting: &[Identity],
    patches: &BTreeMap<Identity, Doc>,
) -> Result<Option<Doc>, AllocError>
    requires { (i j : Identity) (p q : Document) → stored_in patches.now.entries i ≡ Some p
        → stored_in patches.now.entries j ≡ Some q → ¬ Contains conflicting.now i
        → ¬ Contains conflicting.now j → Compatible p q }
    ensures { IfOk result (λ joined. JoinsOthers (stored_in patches.now.entries) conflicting.now
        (record { joined = joined; pending = None })) }
{
    merge_laws();
    let left_out = set_of(alloc, conflicting)?;
    let mut joined = None;
    for (identity, patch) in patches.iter() {
        if !left_out.contains(identity) {
            if !grow_by(alloc, &mut joined, patch) {
                return Err(AllocError);
            }
        }
    }
    Ok(joined)
}
