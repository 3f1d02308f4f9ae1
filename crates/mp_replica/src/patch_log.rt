//! A replica that keeps the patches themselves, each with its identity: it can follow a decision where patches conflict.
ghost use Rattle.std.specs.Prelude.{◌≡◌, ◌≢◌, ◌∷◌, ◌++◌, ◌<◌, ℕ, List, [], None, Some, length, map, Ok, IfOk, IfErr, MatchOption, OnOk, OnErr, ⊤};
ghost use Rattle.mp_tree.specs.Document.{Document};
ghost use Rattle.mp_tree.specs.View.{document};
ghost use Rattle.mp_replica.specs.Messages.{Becomes, LogFollows, Sent, sent};
ghost use Rattle.mp_replica.specs.PatchLog.{AreAllPairs, AreFirstPairs, AreFirstPairsOf, Begins, IsDecideFault, Shows, StoresAlso, seen, start_of, stored_of};
ghost use Rattle.mp_replica.specs.Private.StoredPatches.{IsShownAfter};

use crate::fault::DecideFault;
use crate::first_pairs::FirstPairs;
use crate::laws::merge_laws;
use crate::message::{Arrival, Identity, Message};
use crate::pairs::ConflictingPair;
use crate::stored_patches::{Standing, StoredPatches};
use mp_merge::merge_into;
use mp_tree::Doc;
use std::alloc::{AllocError, Global};
use std::marker::Model;
use std::mem;

/// A start and its number, and the patches that arrived for it, each under its identity. It shows the outcome of the start and
/// of the patches that conflict with no other, reports the others, and follows a decision, which begins a new start.
///
/// Receiving a patch costs what the patch costs, times the logarithm of the number of patches that are stored and of the number
/// of names around each of its values; it is compared with each patch that conflicts with another, too. One that conflicts with
/// a patch that conflicted with none before costs what is stored, since the join of the others is made again. What is held is
/// the start, the patches, and the join of those that conflict with no other; and, once it was asked for, the document that it
/// shows, which is kept up as patches arrive.
#[derive(Drop)]
pub struct PatchLog {
    /// The number of the start.
    epoch: u64,
    /// The document that the log began with.
    start: Doc,
    /// The patches of this start.
    stored: StoredPatches,
    /// What it shows, unless that is to be made anew.
    shown: Option<Doc>,
}

impl Model for PatchLog {
    ghost use Rattle.std.specs.Prelude.{IfSome, option_map};
    ghost use Rattle.std.specs.Coded.{codes};
    ghost use Rattle.mp_tree.specs.View.{document};
    ghost use Rattle.mp_tree.specs.contracts.doc.Doc.{the_row};
    ghost use Rattle.mp_replica.specs.PatchLog.{HeldLog, Shows, stored_in};

    ghost Value = { HeldLog };

    ghost view = { λ r. record { epoch = r.epoch; start = r.start; stored = r.stored } };

    ghost coded = { Prim.hlevel (codes, the_row.coded) };

    ghost invariant = { λ r. IfSome (option_map document r.shown)
        (Shows (document r.start) (stored_in r.stored)) };
}

impl PatchLog {
    /// A log that begins with this start, and to which nothing has arrived.
    ///
    /// ```text
    /// let mut log = PatchLog::new(alloc, 7, read_doc(alloc, b"{\"a\":1}")?);
    /// ```
    pub fn new(alloc: Global, epoch: u64, start: Doc) -> PatchLog
        ensures start { result.start ≡ start }
        ensures epoch { result.epoch ≡ epoch }
        ensures stored { (i : Identity) → stored_of result i ≡ None }
        ensures received { LogFollows epoch (document start) [] result }
    {
        PatchLog {
            epoch,
            start,
            stored: StoredPatches::new(alloc),
            shown: None,
        }
    }

    /// The number of its start: a decision is of one start, so it is handed on to `decide` while this is its number.
    pub fn epoch(&self) -> u64
        ensures { result ≡ self.now.epoch }
    {
        self.epoch
    }

    /// How many patches are stored. A caller that bounds this bounds what the log takes, and what each call costs.
    ///
    /// ```text
    /// log.count()  // 2 after two patches of this start
    /// ```
    pub fn count(&self) -> usize
        ensures { result ≡ length self.now.stored }
    {
        self.stored.count()
    }

    /// Receives a message. A patch of this start is stored, once, whether it conflicts with others or not.
    ///
    /// `Late` and `Early` exactly if the message is of an earlier or of a later start; else `Repeat` exactly if a patch with
    /// its identity is stored already, which may be another patch. Nothing changes then. `AllocError` if memory ran out: nothing
    /// has changed.
    ///
    /// ```text
    /// let identity = Identity { sender: 1, number: 1 };
    /// log.receive(alloc, &Message { epoch: 7, identity, patch })  // Arrival::Stored, and Arrival::Repeat if it comes again
    /// ```
    pub fn receive(&mut self, alloc: Global, message: &Message) -> Result<Arrival, AllocError>
        ensures stored { message.now.epoch ≡ self.old.epoch
            → stored_of self.old message.now.identity ≡ None → IfOk result (λ what.
            (what ≡ Arrival.Stored) × StoresAlso (stored_of self.old) message.now.identity
            (document message.now.patch) (stored_of self.new)) }
        ensures repeat { message.now.epoch ≡ self.old.epoch
            → stored_of self.old message.now.identity ≢ None
            → (result ≡ Ok Arrival.Repeat) × (self.new ≡ self.old) }
        ensures late { message.now.epoch < self.old.epoch
            → (result ≡ Ok Arrival.Late) × (self.new ≡ self.old) }
        ensures early { self.old.epoch < message.now.epoch
            → (result ≡ Ok Arrival.Early) × (self.new ≡ self.old) }
        ensures start { self.new.start ≡ self.old.start }
        ensures epoch { self.new.epoch ≡ self.old.epoch }
        ensures received { IfOk result (λ _. (epoch : ℕ) (start : Document)
            (messages : List Sent) → LogFollows epoch start messages self.old
            → LogFollows epoch start (messages ++ sent message.now ∷ []) self.new) }
        ensures unchanged { OnErr result (self.new ≡ self.old) }
    {
        if let Some(arrival) = self.passed_over(message.epoch, message.identity) {
            return Ok(arrival);
        }
        let patch = message.patch.copy(alloc)?;
        self.store(alloc, message.identity, patch)?;
        Ok(Arrival::Stored)
    }

    // What becomes of a message whose patch is not stored. None if it is to be stored.
    pub(crate) fn passed_over(&self, epoch: u64, identity: Identity) -> Option<Arrival>
        ensures { MatchOption result
            ((epoch ≡ self.now.epoch) × (stored_of self.now identity ≡ None))
            (λ what. (p : Document) → Becomes what
            (record { epoch = epoch; identity = identity; patch = p }) self.now self.now) }
    {
        if epoch < self.epoch {
            return Some(Arrival::Late);
        }
        if epoch > self.epoch {
            return Some(Arrival::Early);
        }
        if self.stored.has(identity) {
            return Some(Arrival::Repeat);
        }
        None
    }

    // Stores a patch of this start under an identity that has none, and brings what is shown up to date.
    pub(crate) fn store(
        &mut self,
        alloc: Global,
        identity: Identity,
        patch: Doc,
    ) -> Result<(), AllocError>
        requires { stored_of self.old identity ≡ None }
        ensures stored { OnOk result
            (StoresAlso (stored_of self.old) identity (document patch) (stored_of self.new)) }
        ensures start { self.new.start ≡ self.old.start }
        ensures epoch { self.new.epoch ≡ self.old.epoch }
        ensures unchanged { OnErr result (self.new ≡ self.old) }
    {
        let standing = self.stored.insert(alloc, identity, patch)?;
        if self.shown.is_none() {
            return Ok(());
        }
        let shown = mem::replace(&mut self.shown, None);
        let Some(patch) = self.stored.get(identity) else {
            return Ok(());
        };
        self.shown = shown_after(alloc, shown, standing, patch);
        Ok(())
    }

    /// The document that the log shows: the outcome of its start and of the patches that conflict with no other. `AllocError` if
    /// memory ran out.
    ///
    /// It costs a copy of that document; and the start and the join of those patches too, the first time, and again after a
    /// patch has arrived that conflicts with one that conflicted with none before.
    pub fn document(&mut self, alloc: Global) -> Result<Doc, AllocError>
        ensures shows { IfOk result (λ shown.
            Shows (start_of self.old) (stored_of self.old) (document shown)) }
        ensures unchanged { self.new ≡ self.old }
    {
        self.keep_shown(alloc)?;
        match self.kept_shown() {
            Some(shown) => shown.copy(alloc),
            None => Err(AllocError),
        }
    }

    // Makes what the log shows, unless it is kept.
    pub(crate) fn keep_shown(&mut self, alloc: Global) -> Result<(), AllocError>
        ensures unchanged { self.new ≡ self.old }
    {
        if self.shown.is_none() {
            let shown = self.stored.outcome(alloc, &self.start)?;
            self.shown = Some(shown);
        }
        Ok(())
    }

    // What the log shows, if it is kept.
    pub(crate) fn kept_shown(&self) -> Option<&Doc>
        ensures { MatchOption result ⊤ (λ shown.
            Shows (start_of self.now) (stored_of self.now) (document shown.now)) }
    {
        self.shown.as_ref()
    }

    /// Each two patches that conflict, once: what is reported to the decider. The lower identity comes first, and the pairs
    /// are in the order of the first and then of the second. They are known: only their places are looked for. `AllocError` if
    /// memory ran out.
    ///
    /// ```text
    /// log.conflicts(alloc)  // /a of 1:1 and 2:1 after {"a":1} and {"a":2}
    /// ```
    pub fn conflicts(&self, alloc: Global) -> Result<Vec<ConflictingPair>, AllocError>
        ensures { IfOk result (λ pairs.
            AreAllPairs (stored_of self.now) (map seen pairs.items)) }
    {
        self.stored.conflicts(alloc)
    }

    /// The pairs that [`PatchLog::conflicts`] has, of which those that come first are handed out, as many as weigh at most
    /// `limit` bytes together, and whether there are more. A pair weighs 64 bytes and its places, and a place 128 bytes, 8 for
    /// each token, and the bytes of its spelling. If not all places of the last pair fit, it has the first of them.
    ///
    /// It takes the memory of these pairs and of one path. `AllocError` if memory ran out.
    ///
    /// ```text
    /// log.conflicts_within(alloc, 1000)  // as `conflicts` if they weigh at most 1,000 bytes
    /// ```
    pub fn conflicts_within(&self, alloc: Global, limit: usize) -> Result<FirstPairs, AllocError>
        ensures { IfOk result (λ found.
            AreFirstPairs limit (stored_of self.now) (map seen found.pairs.items) found.more) }
    {
        self.stored.conflicts_within(alloc, None, limit)
    }

    /// As [`PatchLog::conflicts_within`], of the pairs with this identity: with which others its patch conflicts. None if no patch is
    /// stored under it.
    ///
    /// ```text
    /// log.conflicts_of(alloc, Identity { sender: 1, number: 1 }, 1000)  // the pairs of 1:1 alone
    /// ```
    pub fn conflicts_of(
        &self,
        alloc: Global,
        identity: Identity,
        limit: usize,
    ) -> Result<FirstPairs, AllocError>
        ensures { IfOk result (λ found. AreFirstPairsOf limit (Some identity)
            (stored_of self.now) (map seen found.pairs.items) found.more) }
    {
        self.stored.conflicts_within(alloc, Some(identity), limit)
    }

    /// Begins the new start, with which the old one ends by these patches; all others are forgotten, and one that is still
    /// wanted is made anew by its sender. The order in which they are named does not count, nor do repeats.
    ///
    /// In this order: `LastEpoch` if no number is left for a start; `NotReceived` with the first of the identities under which
    /// no patch is stored; `Conflict` with the first pair of [`PatchLog::conflicts`] that was chosen, and those of its places
    /// that come first, as many as weigh at most `limit` bytes together. `OutOfMemory` may come at any point. Then nothing is
    /// changed.
    ///
    /// ```text
    /// log.decide(alloc, &[Identity { sender: 1, number: 1 }], 1000)  // the start with that patch, and epoch 8
    /// ```
    pub fn decide(
        &mut self,
        alloc: Global,
        chosen: &[Identity],
        limit: usize,
    ) -> Result<(), DecideFault>
        ensures begins { OnOk result (Begins self.old chosen.now self.new) }
        ensures refused { IfErr result (λ fault. IsDecideFault limit fault self.old chosen.now) }
        ensures unchanged { OnErr result (self.new ≡ self.old) }
    {
        let Some(epoch) = self.epoch.checked_add(1) else {
            return Err(DecideFault::LastEpoch);
        };
        if let Some(identity) = self.stored.first_missing(chosen) {
            return Err(DecideFault::NotReceived(identity));
        }
        if let Some((first, second)) = self.stored.first_conflict(alloc, chosen)? {
            let conflicts = self.stored.places_of(alloc, first, second, limit)?;
            return Err(DecideFault::Conflict {
                first,
                second,
                conflicts,
            });
        }
        let start = self.stored.after(alloc, &self.start, chosen)?;
        *self = PatchLog::new(alloc, epoch, start);
        Ok(())
    }
}

// What is shown once a patch is stored. None if that is to be made anew, or memory ran out.
fn shown_after(alloc: Global, shown: Option<Doc>, standing: Standing, patch: &Doc) -> Option<Doc>
    ensures { MatchOption result ⊤ (λ now. (before : Doc) × (shown ≡ Some before)
        × IsShownAfter standing (document before) (document patch.now) (document now)) }
{
    let mut now = shown?;
    match standing {
        Standing::Fits => match merge_into(alloc, &mut now, patch) {
            Ok(()) => Some(now),
            Err(_) => None,
        },
        Standing::Disputed => Some(now),
        Standing::Disputes => None,
    }
}
