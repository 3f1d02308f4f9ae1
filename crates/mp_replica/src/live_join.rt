//! A join that stays in memory, and a patch that was received and is not joined whole yet.
ghost use Rattle.std.specs.Prelude.{◌≡◌, ◌≢◌, ◌↔◌, ◌⊎◌, None, Some, IsTrue, IfOk, IfSome, MatchOption, option_map, ⊤};
ghost use Rattle.std.specs.Coded.{codes};
ghost use Rattle.mp_tree.specs.View.{document};
ghost use Rattle.mp_merge.specs.Clash.{Compatible};
ghost use Rattle.mp_replica.specs.Held.{held_places};
ghost use Rattle.mp_replica.specs.Private.Steps.{FirstClashesWithJoin, Fits, GrewTo, HoldsClashesWithJoin, IsOffered, JoinsStay, Regrows};

use crate::first_places::{FirstPlaces, PLACES_BOUND};
use crate::laws::merge_laws;
use mp_merge::{Conflicts, conflict_within, join_into};
use mp_tree::Doc;
use std::alloc::{AllocError, Global};
use std::marker::Model;
use std::mem;

// How much of two joins is read first to see which one weighs less, in bytes of their weight, and how often four times as much.
const FIRST_BUDGET: usize = 4096;

const TURNS: usize = 26;

// What a replica and patches without a start have in common.
#[derive(Drop)]
pub(crate) struct LiveJoin {
    // The join of what was received before, if anything was.
    joined: Option<Doc>,
    // Received last, and compatible with what is joined, which may have a part of it.
    pending: Option<Doc>,
    // Whether what is joined has all of it.
    is_joined: bool,
}

impl Model for LiveJoin {
    ghost use Rattle.std.specs.Prelude.{option_map};
    ghost use Rattle.std.specs.Coded.{codes};
    ghost use Rattle.mp_tree.specs.View.{document};
    ghost use Rattle.mp_tree.specs.contracts.doc.Doc.{the_row};
    ghost use Rattle.mp_replica.specs.Private.Steps.{HeldJoin, IsHeld};

    ghost Value = { HeldJoin };

    ghost view = { λ r. record { joined = r.joined; pending = r.pending } };

    ghost coded = { Prim.hlevel (codes, the_row.coded) };

    ghost invariant = { λ r. IsHeld (option_map document r.joined)
        (option_map document r.pending) r.is_joined };
}

impl LiveJoin {
    // With this join, and nothing pending.
    pub(crate) fn of(joined: Option<Doc>) -> LiveJoin
        ensures joined { result.joined ≡ joined }
        ensures pending { result.pending ≡ None }
    {
        LiveJoin {
            joined,
            pending: None,
            is_joined: false,
        }
    }

    // What is joined, unless a patch is pending.
    pub(crate) fn joined(&self) -> Option<&Doc>
        ensures { MatchOption result ((self.now.pending ≢ None) ⊎ (self.now.joined ≡ None))
            (λ j. (self.now.pending ≡ None) × (self.now.joined ≡ Some j.now)) }
    {
        self.if_settled(self.joined.as_ref())
    }

    pub(crate) fn pending(&self) -> Option<&Doc>
        ensures { option_map (λ p. p.now) result ≡ self.now.pending }
    {
        self.pending.as_ref()
    }

    // What is held, unless a patch is pending.
    pub(crate) fn if_settled<'a>(&self, held: Option<&'a Doc>) -> Option<&'a Doc>
        ensures { MatchOption result ((self.now.pending ≢ None) ⊎ (held.entry ≡ None))
            (λ d. (self.now.pending ≡ None) × (held.entry ≡ Some d)) }
    {
        match &self.pending {
            Some(_) => None,
            None => held,
        }
    }

    // The conflicts of the patch with what is joined that come first within the limit, and how many there are.
    pub(crate) fn conflicts_within(
        &self,
        alloc: Global,
        patch: &Doc,
        limit: usize,
    ) -> Result<Conflicts, AllocError>
        ensures { IfOk result (λ c. FirstClashesWithJoin limit
            (option_map document self.now.joined) (document patch.now) c.places.items c.total) }
    {
        match &self.joined {
            Some(joined) => conflict_within(alloc, patch, joined, limit),
            None => Ok(Conflicts {
                places: Vec::new(alloc),
                total: 0,
            }),
        }
    }

    // The first conflicts of a patch that does not fit. If memory runs out, none is held, and there are more.
    pub(crate) fn first_conflicts(&self, alloc: Global, patch: &Doc) -> FirstPlaces
        requires { ¬ IfSome (option_map document self.now.joined)
            (Compatible (document patch.now)) }
        ensures { HoldsClashesWithJoin (option_map document self.now.joined) (document patch.now)
            (held_places result) }
    {
        merge_laws();
        match self.conflicts_within(alloc, patch, PLACES_BOUND) {
            Ok(Conflicts { places, total }) => {
                let more = places.len() < total;
                FirstPlaces { places, more }
            }
            Err(_) => FirstPlaces {
                places: Vec::new(alloc),
                more: true,
            },
        }
    }

    // Whether what is joined weighs less than what the other has joined. Both are read as far as the lighter one goes: each
    // turn reads four times as much as the one before.
    pub(crate) fn is_lighter(&self, other: &LiveJoin) -> bool {
        let (Some(joined), Some(others)) = (&self.joined, &other.joined) else {
            return false;
        };
        let mut budget = FIRST_BUDGET;
        for _ in 0..TURNS {
            if others.left_of(budget).is_some() {
                return false;
            }
            if joined.left_of(budget).is_some() {
                return true;
            }
            budget = budget.saturating_mul(4);
        }
        false
    }

    // Receives a patch if it fits: what is joined has it then, as far as there was memory, and it is pending until `settle`.
    // Hands back one that does not fit: then nothing is changed.
    #[inline(always)]
    pub(crate) fn offer(&mut self, alloc: Global, patch: Doc) -> Option<Doc>
        requires settled { self.old.pending ≡ None }
        ensures { MatchOption result (IsOffered self.old patch self.new)
            (λ back. (back ≡ patch) × (self.new ≡ self.old)
            × ¬ IfSome (option_map document self.old.joined) (Compatible (document patch))) }
    {
        merge_laws();
        self.is_joined = match &mut self.joined {
            Some(joined) => match join_into(alloc, joined, &patch) {
                Ok(true) => true,
                Ok(false) => return Some(patch),
                Err(_) => false,
            },
            None => false,
        };
        self.pending = Some(patch);
        None
    }

    // Joins what is pending. False if memory ran out: it is pending still.
    #[inline(always)]
    pub(crate) fn settle(&mut self, alloc: Global) -> bool
        ensures settled { IsTrue result ↔ (self.new.pending ≡ None) }
        ensures stays { JoinsStay self.old self.new }
        ensures pending { MatchOption self.new.pending ⊤ (λ p. self.old.pending ≡ Some p) }
        ensures unchanged { self.old.pending ≡ None → self.new ≡ self.old }
    {
        merge_laws();
        let Some(patch) = mem::replace(&mut self.pending, None) else {
            return true;
        };
        if self.is_joined {
            return true;
        }
        self.pending = grow(&mut self.joined, patch, alloc);
        self.pending.is_none()
    }

    // What is joined, which is not held any more.
    pub(crate) fn take(&mut self) -> Option<Doc>
        requires { self.old.pending ≡ None }
        ensures taken { result ≡ self.old.joined }
        ensures joined { self.new.joined ≡ None }
        ensures pending { self.new.pending ≡ None }
    {
        mem::replace(&mut self.joined, None)
    }
}

// Joins the patch to what was joined, and hands it back if memory ran out.
fn grow(joined: &mut Option<Doc>, patch: Doc, alloc: Global) -> Option<Doc>
    requires { Fits (option_map document joined.old) (Some (document patch)) }
    ensures { MatchOption result
        (GrewTo (option_map document joined.old) (document patch) (option_map document joined.new))
        (λ p. (p ≡ patch) × Regrows (option_map document joined.old) (document patch)
        (option_map document joined.new)) }
{
    match joined {
        Some(before) => match join_into(alloc, before, &patch) {
            Ok(_) => None,
            Err(_) => Some(patch),
        },
        None => {
            *joined = Some(patch);
            None
        }
    }
}
