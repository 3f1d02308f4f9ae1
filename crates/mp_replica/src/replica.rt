//! A replica that stays in memory, over documents.
ghost use Rattle.std.specs.Prelude.{◌≡◌, ◌≢◌, ◌↔◌, ◌⊎◌, ◌∷◌, ◌++◌, List, [], None, Some, IsOk, IsTrue, IfOk, IfSome, MatchOption, option_map};
ghost use Rattle.mp_tree.specs.Document.{Document};
ghost use Rattle.mp_tree.specs.View.{document};
ghost use Rattle.mp_pointer.specs.Part.{part};
ghost use Rattle.mp_merge.specs.Clash.{Compatible};
ghost use Rattle.mp_replica.specs.Following.{Follows, FollowsOn, IsHandedBack, settled};
ghost use Rattle.mp_replica.specs.Held.{AreClashesWith, AreFirstClashesWith};

use crate::laws::merge_laws;
use crate::live_join::LiveJoin;
use mp_merge::{Conflicts, merge_into};
use mp_pointer::{Pointer, get};
use mp_tree::Doc;
use std::alloc::{AllocError, Global};
use std::marker::Model;

/// A replica of one document: it starts from a document and receives merge patches, in any order and with any repeats, and
/// shows what they make of the start.
///
/// Receiving a patch costs what the patch costs, times the logarithm of the number of names around each of its values,
/// however long the document is and however many patches were received. The start and the patches are not kept: what is
/// held is the document, and the join of what was received.
#[derive(Drop)]
pub struct Replica {
    /// What is shown, once nothing is pending.
    shown: Doc,
    /// The join of what was received, and what is pending.
    join: LiveJoin,
}

impl Model for Replica {
    ghost use Rattle.std.specs.Coded.{codes};
    ghost use Rattle.mp_tree.specs.contracts.doc.Doc.{the_row};
    ghost use Rattle.mp_replica.specs.Held.{HeldReplica};

    ghost Value = { HeldReplica };

    ghost view = { λ r. record {
      shown = r.shown;
      joined = r.join.joined;
      pending = r.join.pending;
    } };

    ghost coded = { Prim.hlevel (codes, the_row.coded) };
}

/// What became of a patch that a replica was given.
#[derive(Debug, Drop)]
pub enum Received {
    /// It is received, and shown.
    Taken,
    /// It conflicts with a patch that was received before, and is not received: this is the patch, handed back, so that
    /// [`Replica::conflicts_within`] can say where. One that was pending is shown now.
    Conflict(Doc),
    /// It is received; memory ran out before it is shown. `settle` and `receive` try again.
    Pending,
    /// Memory ran out before a patch that was received earlier is shown. This one is not received.
    Refused,
}

impl Replica {
    /// A replica that begins with this document, and has received nothing.
    ///
    /// ```text
    /// let mut replica = Replica::new(read_doc(alloc, b"{\"a\":1}")?);
    /// ```
    pub fn new(start: Doc) -> Replica
        ensures shown { result.shown ≡ start }
        ensures joined { result.joined ≡ None }
        ensures pending { result.pending ≡ None }
        ensures follows { Follows (document start) [] result }
    {
        merge_laws();
        Replica {
            shown: start,
            join: LiveJoin::of(None),
        }
    }

    /// Receives a patch. If an earlier one is pending, that is made good first.
    ///
    /// `Taken` and `Pending`: the patch is received. `Conflict`, with the patch, exactly if it conflicts with one that was
    /// received before; [`Replica::conflicts_within`] says where. `Refused` only if an earlier patch was pending and still is.
    ///
    /// ```text
    /// replica.receive(alloc, read_doc(alloc, b"{\"b\":2}")?)  // Received::Taken
    /// replica.receive(alloc, read_doc(alloc, b"{\"b\":3}")?)  // Received::Conflict(patch)
    /// ```
    pub fn receive(&mut self, alloc: Global, patch: Doc) -> Received
        ensures follows { (start : Document) (received : List Document)
            → Follows start received self.old
            → FollowsOn result start received (document patch) self.new }
        ensures refused { self.old.pending ≡ None → result ≢ Received.Refused }
        ensures unchanged { self.old.pending ≡ None → IsHandedBack result → self.new ≡ self.old }
    {
        merge_laws();
        if !self.settle(alloc) {
            return Received::Refused;
        }
        if let Some(patch) = self.join.offer(alloc, patch) {
            return Received::Conflict(patch);
        }
        if self.settle(alloc) {
            Received::Taken
        } else {
            Received::Pending
        }
    }

    /// Makes good what is pending: false if memory ran out again. Nothing is lost then, and the call can be made again. If
    /// nothing is pending it takes no memory.
    #[inline(always)]
    pub fn settle(&mut self, alloc: Global) -> bool
        ensures settled { IsTrue result ↔ (self.new.pending ≡ None) }
        ensures follows { (start : Document) (received : List Document)
            → Follows start received self.old → Follows start received self.new }
        ensures unchanged { self.old.pending ≡ None → self.new ≡ self.old }
    {
        merge_laws();
        if !self.merge_pending(alloc) {
            return false;
        }
        self.join.settle(alloc)
    }

    // Merges what is pending into what is shown, and it is pending still. False if memory ran out.
    #[inline(always)]
    fn merge_pending(&mut self, alloc: Global) -> bool
        ensures stays { settled (document self.new.shown) (option_map document self.old.pending)
            ≡ settled (document self.old.shown) (option_map document self.old.pending) }
        ensures merged { IsTrue result → document self.new.shown
            ≡ settled (document self.old.shown) (option_map document self.old.pending) }
        ensures joined { self.new.joined ≡ self.old.joined }
        ensures pending { self.new.pending ≡ self.old.pending }
        ensures unchanged { self.old.pending ≡ None → IsTrue result × (self.new ≡ self.old) }
    {
        merge_laws();
        match self.join.pending() {
            Some(patch) => merge_into(alloc, &mut self.shown, patch).is_ok(),
            None => true,
        }
    }

    /// Whether a patch is pending: it is received, and memory ran out before it was shown.
    pub fn is_pending(&self) -> bool
        ensures { IsTrue result ↔ (self.now.pending ≢ None) }
    {
        self.join.pending().is_some()
    }

    /// What is shown: the outcome of the start and of all that was received. None exactly while a patch is pending, so that
    /// none is shown in part.
    pub fn document(&self) -> Option<&Doc>
        ensures { MatchOption result (self.now.pending ≢ None)
            (λ d. (self.now.pending ≡ None) × (d.now ≡ self.now.shown)) }
    {
        self.join.if_settled(Some(&self.shown))
    }

    /// The join of what was received, which can be sent in place of that. None exactly if nothing was received, or while a
    /// patch is pending.
    pub fn joined(&self) -> Option<&Doc>
        ensures { MatchOption result ((self.now.pending ≢ None) ⊎ (self.now.joined ≡ None))
            (λ j. (self.now.pending ≡ None) × (self.now.joined ≡ Some j.now)) }
    {
        self.join.joined()
    }

    /// The part of what is shown that the pointer names, borrowed. None exactly if there is no such part, or while a patch is
    /// pending.
    ///
    /// ```text
    /// replica.get(&pointer)  // for /a in {"a":1}: 1
    /// ```
    pub fn get(&self, pointer: &Pointer) -> Option<&Doc>
        ensures { MatchOption result
            ((self.now.pending ≢ None) ⊎ (part (document self.now.shown) pointer.now ≡ None))
            (λ d. (self.now.pending ≡ None)
            × (part (document self.now.shown) pointer.now ≡ Some (document d.now))) }
    {
        self.join.if_settled(get(&self.shown, pointer))
    }

    /// Where the patch conflicts with what was received: each place once, in the order of paths, and none exactly if
    /// `receive` would take it. `AllocError` if memory ran out, as it has while a patch is pending: `settle` first.
    ///
    /// ```text
    /// replica.conflicts(alloc, &patch)  // /b for {"b":3}, if {"b":2} was received
    /// ```
    pub fn conflicts(&self, alloc: Global, patch: &Doc) -> Result<Vec<Pointer>, AllocError>
        ensures places { IfOk result (λ places. (start : Document) (received : List Document)
            → Follows start received self.now
            → AreClashesWith received (document patch.now) places.items) }
        ensures pending { IsOk result → self.now.pending ≡ None }
    {
        let Conflicts { places, total: _ } = self.conflicts_within(alloc, patch, usize::MAX)?;
        Ok(places)
    }

    /// The places that [`Replica::conflicts`] has, of which those that come first are handed out, as many as weigh at most `limit`
    /// bytes together, and how many there are in all. A place weighs 128 bytes, 8 for each token, and the bytes of its spelling.
    ///
    /// Besides these places it takes the memory of one path. `AllocError` if memory ran out, as it has while a patch is
    /// pending: `settle` first.
    ///
    /// ```text
    /// replica.conflicts_within(alloc, &patch, 1000)  // /b, of 1, for {"b":3}, if {"b":2} was received
    /// ```
    pub fn conflicts_within(
        &self,
        alloc: Global,
        patch: &Doc,
        limit: usize,
    ) -> Result<Conflicts, AllocError>
        ensures places { IfOk result (λ c. (start : Document) (received : List Document)
            → Follows start received self.now
            → AreFirstClashesWith limit received (document patch.now) c.places.items c.total) }
        ensures pending { IsOk result → self.now.pending ≡ None }
    {
        merge_laws();
        if self.is_pending() {
            return Err(AllocError);
        }
        self.join.conflicts_within(alloc, patch, limit)
    }
}
