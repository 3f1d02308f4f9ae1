//! What a replica does with the messages that arrive: it receives the patches of its start, and no others.
ghost use Rattle.std.specs.Prelude.{◌≡◌, ◌≢◌, ◌↔◌, ◌<◌, List, [], None, IsOk, IsTrue, IfOk, IfErr};
ghost use Rattle.mp_tree.specs.Document.{Document};
ghost use Rattle.mp_tree.specs.View.{document};
ghost use Rattle.mp_merge.specs.Outcome.{IsOutcome};
ghost use Rattle.mp_replica.specs.Following.{Follows, FollowsOn, IsHandedBack};
ghost use Rattle.mp_replica.specs.Held.{AreClashesWith};
ghost use Rattle.library_example.specs.Received.{IfGiven, IsClashAmong, epoch_of, patches_of, replica_of};

use mp_merge::JoinFault;
use mp_pointer::Pointer;
use mp_replica::{Received, Replica, laws};
use mp_tree::Doc;
use std::alloc::{AllocError, Global};

/// A patch, and the number of the start that it was made for.
#[derive(Drop)]
pub struct PatchMessage {
    /// The number of the start that the patch was made for.
    pub epoch: u64,
    /// The merge patch.
    pub patch: Doc,
}

/// A replica, and the number of its start.
#[derive(Drop)]
pub struct EpochReplica {
    /// The number of the start.
    epoch: u64,
    /// What the start and the patches that were received for it make.
    replica: Replica,
}

/// What becomes of a message.
#[derive(Drop)]
pub enum Delivery {
    /// Its patch was given to the replica, and this became of it.
    Given(Received),
    /// It is of an earlier start, and is dropped.
    Late,
    /// It is of a later start: it is handed back, and waits for that.
    Early(PatchMessage),
}

impl EpochReplica {
    /// A replica that begins with this start, and has received nothing.
    pub fn new(epoch: u64, start: Doc) -> EpochReplica
        ensures epoch { epoch_of result ≡ epoch }
        ensures shown { (replica_of result).shown ≡ start }
        ensures joined { (replica_of result).joined ≡ None }
        ensures pending { (replica_of result).pending ≡ None }
        ensures follows { Follows (document start) [] (replica_of result) }
    {
        EpochReplica {
            epoch,
            replica: Replica::new(start),
        }
    }

    /// Receives a patch of this start, as `Replica::receive` does.
    pub fn receive(&mut self, alloc: Global, message: PatchMessage) -> Delivery
        ensures follows { message.epoch ≡ epoch_of self.old → IfGiven result (λ answer.
            (start : Document) (received : List Document)
            → Follows start received (replica_of self.old)
            → FollowsOn answer start received (document message.patch) (replica_of self.new)) }
        ensures refused { (replica_of self.old).pending ≡ None
            → result ≢ Delivery.Given Received.Refused }
        ensures unchanged { (replica_of self.old).pending ≡ None
            → IfGiven result IsHandedBack → self.new ≡ self.old }
        ensures late { message.epoch < epoch_of self.old
            → (result ≡ Delivery.Late) × (self.new ≡ self.old) }
        ensures early { epoch_of self.old < message.epoch
            → (result ≡ Delivery.Early message) × (self.new ≡ self.old) }
        ensures epoch { epoch_of self.new ≡ epoch_of self.old }
    {
        if message.epoch < self.epoch {
            return Delivery::Late;
        }
        if message.epoch > self.epoch {
            return Delivery::Early(message);
        }
        Delivery::Given(self.replica.receive(alloc, message.patch))
    }

    /// Where the message's patch conflicts with what was received: each place once, in the order of paths. A message of another
    /// start conflicts nowhere. `AllocError` if memory ran out, as it has while a patch is pending: `settle` first.
    pub fn conflicts(
        &self,
        alloc: Global,
        message: &PatchMessage,
    ) -> Result<Vec<Pointer>, AllocError>
        ensures places { message.now.epoch ≡ epoch_of self.now → IfOk result (λ places.
            (start : Document) (received : List Document)
            → Follows start received (replica_of self.now)
            → AreClashesWith received (document message.now.patch) places.items) }
        ensures pending { message.now.epoch ≡ epoch_of self.now → IsOk result
            → (replica_of self.now).pending ≡ None }
        ensures other { message.now.epoch ≢ epoch_of self.now
            → IsOk result × IfOk result (λ places. places.items ≡ []) }
    {
        if message.epoch != self.epoch {
            return Ok(Vec::new(alloc));
        }
        self.replica.conflicts(alloc, &message.patch)
    }

    /// Makes good what is pending, as `Replica::settle` does: false if memory ran out again.
    pub fn settle(&mut self, alloc: Global) -> bool
        ensures settled { IsTrue result ↔ ((replica_of self.new).pending ≡ None) }
        ensures follows { (start : Document) (received : List Document)
            → Follows start received (replica_of self.old)
            → Follows start received (replica_of self.new) }
        ensures unchanged { (replica_of self.old).pending ≡ None → self.new ≡ self.old }
        ensures epoch { epoch_of self.new ≡ epoch_of self.old }
    {
        self.replica.settle(alloc)
    }

    /// The replica itself: it has the document, and the join that can be sent in place of all that was received.
    pub fn replica(&self) -> &Replica
        ensures { result.now ≡ replica_of self.now }
    {
        &self.replica
    }
}

/// The document of a replica that began with the start, once these messages arrived, in whatever order and with whatever
/// repeats. If two of their patches conflict, it stops at the first that conflicts with one before it, and returns all the
/// places at which it conflicts with any of those before it.
pub fn shown_after(
    alloc: Global,
    epoch: u64,
    start: Doc,
    messages: Vec<PatchMessage>,
) -> Result<Doc, JoinFault>
    ensures outcome { IfOk result (λ shown.
        IsOutcome (document start) (patches_of epoch messages.items) (document shown)) }
    ensures refused { IfErr result (λ fault.
        IsClashAmong fault (patches_of epoch messages.items)) }
{
    laws::shows_outcome();
    let mut replica = EpochReplica::new(epoch, start);
    for message in messages {
        let places = replica.conflicts(alloc, &message)?;
        if !places.is_empty() {
            return Err(JoinFault::Conflict(places));
        }
        let _delivery = replica.receive(alloc, message);
    }
    match replica.replica().document() {
        Some(shown) => Ok(shown.copy(alloc)?),
        None => Err(JoinFault::OutOfMemory),
    }
}
