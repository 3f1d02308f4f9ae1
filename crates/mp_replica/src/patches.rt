//! Patches that are gathered without a start, over documents.
ghost use Rattle.std.specs.Prelude.{◌≡◌, ◌≢◌, ◌↔◌, ◌⊎◌, ◌∷◌, ◌++◌, ℕ, List, [], None, Some, IsTrue, IfOk, IfSome, MatchOption, option_map};
ghost use Rattle.mp_tree.specs.Document.{Document};
ghost use Rattle.mp_tree.specs.View.{document};
ghost use Rattle.mp_replica.specs.Held.{HoldsClashesBetween, HoldsClashesWith, held_places};
ghost use Rattle.mp_replica.specs.Taking.{HasTaken, TakesAll, TakesOne};
ghost use Rattle.mp_replica.specs.Texts.{HasTakenTexts};

use crate::first_places::FirstPlaces;
use crate::laws::merge_laws;
use crate::live_join::LiveJoin;
use mp_tree::Doc;
use std::alloc::Global;
use std::marker::Model;
use std::mem;

/// Merge patches that are gathered without a start, for a reduce, a combiner or a stored aggregate: nothing yet, their join,
/// or that two of them conflict, with the first places of the first conflict that was seen.
///
/// Adding a patch costs what the patch costs, times the logarithm of the number of names around each of its values, however
/// many were taken. The patches are not kept.
#[derive(Drop)]
pub struct Patches {
    /// The join of what was taken, and what is pending; empty once two conflict.
    join: LiveJoin,
    /// The first places of the first conflict that was seen.
    places: Option<FirstPlaces>,
}

impl Model for Patches {
    ghost use Rattle.std.specs.Prelude.{option_map};
    ghost use Rattle.std.specs.Coded.{codes};
    ghost use Rattle.mp_tree.specs.contracts.doc.Doc.{the_row};
    ghost use Rattle.mp_replica.specs.Held.{HeldPatches, held_places};

    ghost Value = { HeldPatches };

    ghost view = { λ r. record {
      joined = r.join.joined;
      pending = r.join.pending;
      places = option_map held_places r.places;
    } };

    ghost coded = { Prim.hlevel (codes, the_row.coded) };
}

/// What became of patches that were to be taken.
#[derive(Clone, Copy, Debug, PartialEq, Eq)]
pub enum Added {
    /// They are taken, and joined.
    Joined,
    /// They are taken, and two of all that was taken conflict: that is a state, which takes all further patches.
    Conflict,
    /// They are taken; memory ran out before they are joined. `settle`, `add` and `combine` try again.
    Pending,
    /// Memory ran out: nothing more was taken.
    Refused,
}

impl Patches {
    /// No patches.
    pub fn new() -> Patches
        ensures taken { HasTaken result [] }
        ensures joined { result.joined ≡ None }
        ensures pending { result.pending ≡ None }
        ensures places { result.places ≡ None }
    {
        merge_laws();
        Patches::of(None, None)
    }

    // With this join, or with these places of a conflict.
    pub(crate) fn of(joined: Option<Doc>, places: Option<FirstPlaces>) -> Patches
        ensures { result ≡ record {
          joined = joined;
          pending = None;
          places = option_map held_places places;
        } }
    {
        Patches {
            join: LiveJoin::of(joined),
            places,
        }
    }

    /// Takes one more patch. If an earlier one is pending, that is made good first.
    ///
    /// `Conflict` exactly if two of what was taken conflict, this patch counted. Where it conflicts takes at most the memory of
    /// 65,536 bytes of places and of one path, and if that runs out, it is a conflict still. `Refused` and `Pending` only if
    /// memory ran out before that.
    ///
    /// ```text
    /// patches.add(alloc, read_doc(alloc, b"{\"a\":1}")?)  // Added::Joined
    /// patches.add(alloc, read_doc(alloc, b"{\"a\":2}")?)  // Added::Conflict, at /a
    /// ```
    pub fn add(&mut self, alloc: Global, patch: Doc) -> Added
        ensures taken { (taken : List Document) → HasTaken self.old taken
            → TakesOne HasTaken result taken (document patch) self.new }
        ensures seen { self.old.places ≡ None → (taken : List Document) → HasTaken self.old taken
            → IfSome self.new.places (HoldsClashesWith taken (document patch)) }
        ensures conflict { (result ≡ Added.Conflict) ↔ (self.new.places ≢ None) }
        ensures unchanged { self.old.places ≢ None
            → (result ≡ Added.Conflict) × (self.new ≡ self.old) }
    {
        merge_laws();
        if self.places.is_some() {
            return Added::Conflict;
        }
        if !self.settle(alloc) {
            return Added::Refused;
        }
        self.add_one(alloc, patch)
    }

    // The same if nothing is pending and nothing conflicts.
    fn add_one(&mut self, alloc: Global, patch: Doc) -> Added
        requires places { self.old.places ≡ None }
        requires settled { self.old.pending ≡ None }
        ensures taken { (taken : List Document) → HasTaken self.old taken
            → TakesOne HasTaken result taken (document patch) self.new }
        ensures seen { (taken : List Document) → HasTaken self.old taken
            → IfSome self.new.places (HoldsClashesWith taken (document patch)) }
        ensures conflict { (result ≡ Added.Conflict) ↔ (self.new.places ≢ None) }
        ensures received { result ≢ Added.Refused }
    {
        merge_laws();
        if let Some(patch) = self.join.offer(alloc, patch) {
            let places = self.join.first_conflicts(alloc, &patch);
            *self = Patches::of(None, Some(places));
            return Added::Conflict;
        }
        if self.settle(alloc) {
            Added::Joined
        } else {
            Added::Pending
        }
    }

    /// Makes good what is pending: false if memory ran out again. Nothing is lost then, and the call can be made again. If
    /// nothing is pending it takes no memory.
    pub fn settle(&mut self, alloc: Global) -> bool
        ensures settled { IsTrue result ↔ (self.new.pending ≡ None) }
        ensures taken { (taken : List Document) → HasTaken self.old taken
            → HasTaken self.new taken }
        ensures places { self.new.places ≡ self.old.places }
        ensures unchanged { self.old.pending ≡ None → self.new ≡ self.old }
    {
        self.join.settle(alloc)
    }

    /// Takes all that another has taken, and leaves it without patches. `Refused`: memory ran out, and neither has changed in
    /// what it has taken.
    ///
    /// Of the two joins the one that weighs less is added to the other, as `add` does it with one patch: that costs what this
    /// one costs, times the logarithm of the number of names around each of its values. If one of the two has no patches, the
    /// other's join is moved.
    ///
    /// `Conflict` exactly if two of what both have taken conflict. If one of the two has a conflict already, that one's places
    /// are kept, this one's first; else those at which a patch of the one conflicts with a patch of the other.
    ///
    /// ```text
    /// patches.combine(alloc, &mut other)  // Added::Joined, if no two of all their patches conflict
    /// ```
    pub fn combine(&mut self, alloc: Global, other: &mut Patches) -> Added
        ensures taken { (taken others : List Document) → HasTaken self.old taken
            → HasTaken other.old others → TakesAll HasTaken result taken others self.new other.new }
        ensures texts { (texts others : List (List ℕ)) → HasTakenTexts self.old texts
            → HasTakenTexts other.old others
            → TakesAll HasTakenTexts result texts others self.new other.new }
        ensures first { MatchOption self.old.places
            (IfSome other.old.places (λ places. self.new.places ≡ Some places))
            (λ places. self.new.places ≡ Some places) }
        ensures seen { self.old.places ≡ None → other.old.places ≡ None
            → (taken others : List Document) → HasTaken self.old taken
            → HasTaken other.old others
            → IfSome self.new.places (HoldsClashesBetween taken others) }
        ensures conflict { (result ≡ Added.Conflict) ↔ (self.new.places ≢ None) }
    {
        merge_laws();
        if self.places.is_some() {
            *other = Patches::new();
            return Added::Conflict;
        }
        if other.places.is_some() {
            *self = mem::replace(other, Patches::new());
            return Added::Conflict;
        }
        if !self.settle(alloc) {
            return Added::Refused;
        }
        if !other.settle(alloc) {
            return Added::Refused;
        }
        if self.join.is_lighter(&other.join) {
            mem::swap(self, other);
        }
        self.join_all(alloc, other)
    }

    // The same if nothing is pending and nothing conflicts: what the other has joined is joined into what is joined here.
    fn join_all(&mut self, alloc: Global, other: &mut Patches) -> Added
        requires places { (self.old.places ≡ None) × (other.old.places ≡ None) }
        requires settled { (self.old.pending ≡ None) × (other.old.pending ≡ None) }
        ensures taken { (taken others : List Document) → HasTaken self.old taken
            → HasTaken other.old others → TakesAll HasTaken result taken others self.new other.new }
        ensures seen { (taken others : List Document) → HasTaken self.old taken
            → HasTaken other.old others
            → IfSome self.new.places (HoldsClashesBetween taken others) }
        ensures conflict { (result ≡ Added.Conflict) ↔ (self.new.places ≢ None) }
        ensures received { result ≢ Added.Refused }
    {
        merge_laws();
        let Some(patch) = other.join.take() else {
            return Added::Joined;
        };
        self.add_one(alloc, patch)
    }

    /// Whether a patch is pending: it is taken, and memory ran out before it was joined.
    pub fn is_pending(&self) -> bool
        ensures { IsTrue result ↔ (self.now.pending ≢ None) }
    {
        self.join.pending().is_some()
    }

    /// The join of what was taken. None exactly if nothing was taken, if two conflict, or while a patch is pending.
    pub fn joined(&self) -> Option<&Doc>
        ensures { MatchOption result ((self.now.pending ≢ None) ⊎ (self.now.joined ≡ None))
            (λ j. (self.now.pending ≡ None) × (self.now.joined ≡ Some j.now)) }
    {
        self.join.joined()
    }

    /// The first places of the first conflict that was seen, in the order of paths. Which conflict that is, and so which places,
    /// depends on the order in which patches were taken. None exactly if no two conflict.
    pub fn places(&self) -> Option<&FirstPlaces>
        ensures { option_map (λ found. held_places found.now) result ≡ self.now.places }
    {
        self.places.as_ref()
    }
}
