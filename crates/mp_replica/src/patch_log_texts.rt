//! A log of patches, over texts.
ghost use Rattle.std.specs.Prelude.{◌≡◌, ◌≢◌, ◌∷◌, ◌++◌, ◌<◌, ◌≤◌, ℕ, List, [], None, Option, Some, Ok, IfOk, IfErr, OnErr, MatchResult, length, map, string_bytes};
ghost use Rattle.mp_tree.specs.Document.{Document, IsDocument};
ghost use Rattle.mp_tree.specs.Text.{document_in, text as compact};
ghost use Rattle.mp_replica.specs.Faults.{IsOutOfMemory, IsUnread};
ghost use Rattle.mp_replica.specs.LogTexts.{IsConflictsText, IsConflictsTextWithin, IsConflictsTextWithinOf, IsNoLogText};
ghost use Rattle.mp_replica.specs.Messages.{LogFollows, Becomes, Sent};
ghost use Rattle.mp_replica.specs.PatchLog.{AreFirstPairsOf, Shows, Stored, seen, start_of, stored_of};

use crate::fault::LiveFault;
use crate::first_pairs::FirstPairs;
use crate::message::{Arrival, Identity};
use crate::pairs_texts::{PairsText, write_pairs, write_pairs_within};
use crate::patch_log::PatchLog;
use crate::reading::document_of;
use crate::writing::text_within;
use std::alloc::{AllocError, Global};

impl PatchLog {
    /// A log that begins with the document of this text, and to which nothing has arrived.
    ///
    /// `Document` if the text is not a document; `OutOfMemory` may come at any point.
    ///
    /// ```text
    /// let mut log = PatchLog::from_text(alloc, 7, b"{\"a\":1}")?;
    /// ```
    pub fn from_text(alloc: Global, epoch: u64, start: &[u8]) -> Result<PatchLog, LiveFault>
        ensures start { MatchResult result (λ log. document_in start.now ≡ Ok (start_of log))
            (λ fault. IsUnread fault start.now) }
        ensures epoch { IfOk result (λ log. log.epoch ≡ epoch) }
        ensures stored { IfOk result (λ log. (i : Identity) → stored_of log i ≡ None) }
        ensures received { IfOk result (λ log. LogFollows epoch (start_of log) [] log) }
    {
        let start = document_of(alloc, start)?;
        Ok(PatchLog::new(alloc, epoch, start))
    }

    /// Receives a message whose patch is this text, as [`PatchLog::receive`] does. The text is read first, so that one that is
    /// no document is reported whatever was received before, and for whichever start it is.
    ///
    /// `Document` if the text is not a document; `OutOfMemory` if memory ran out. Then nothing is changed.
    ///
    /// ```text
    /// log.receive_text(alloc, 7, Identity { sender: 1, number: 1 }, b"{\"b\":2}")  // Arrival::Stored
    /// ```
    pub fn receive_text(
        &mut self,
        alloc: Global,
        epoch: u64,
        identity: Identity,
        patch: &[u8],
    ) -> Result<Arrival, LiveFault>
        ensures read { IfOk result (λ _. (p : Document) × (document_in patch.now ≡ Ok p)) }
        ensures receives { IfOk result (λ what. (p : Document) → document_in patch.now ≡ Ok p
            → Becomes what (record { epoch = epoch; identity = identity; patch = p })
            self.old self.new) }
        ensures received { IfOk result (λ _. (start : Document) (messages : List Sent) (n : ℕ)
            → LogFollows n start messages self.old → (p : Document)
            → document_in patch.now ≡ Ok p → LogFollows n start
            (messages ++ record { epoch = epoch; identity = identity; patch = p } ∷ [])
            self.new) }
        ensures fault { IfErr result (λ fault. IsUnread fault patch.now) }
        ensures unchanged { OnErr result (self.new ≡ self.old) }
    {
        let patch = document_of(alloc, patch)?;
        if let Some(arrival) = self.passed_over(epoch, identity) {
            return Ok(arrival);
        }
        self.store(alloc, identity, patch)?;
        Ok(Arrival::Stored)
    }

    /// The compact text of the document that the log shows, as [`PatchLog::document`] gives it.
    ///
    /// `TooLarge` exactly if the text has more than `limit` bytes (`usize::MAX` is no limit): then none is made. `OutOfMemory` if
    /// memory ran out.
    ///
    /// ```text
    /// log.document_text(alloc, usize::MAX)  // {"a":1,"b":2}
    /// ```
    pub fn document_text(&mut self, alloc: Global, limit: usize) -> Result<String, LiveFault>
        ensures shows { MatchResult result (λ text. (d : Document) × IsDocument d
            × Shows (start_of self.old) (stored_of self.old) d
            × (string_bytes text ≡ compact d))
            (λ fault. IsNoLogText limit fault self.old) }
        ensures within { IfOk result (λ text. length (string_bytes text) ≤ limit) }
        ensures unchanged { self.new ≡ self.old }
    {
        self.keep_shown(alloc)?;
        match self.kept_shown() {
            Some(shown) => text_within(alloc, shown, limit),
            None => Err(LiveFault::OutOfMemory),
        }
    }

    /// Each two patches that conflict, as [`PatchLog::conflicts`] gives them, as a JSON array of objects: `first` and `second`
    /// are arrays of the sender and the number, and `places` is an array of pointers. `OutOfMemory` if memory ran out.
    ///
    /// ```text
    /// log.conflicts_text(alloc)  // [{"first":[1,1],"second":[2,1],"places":["/a"]}]
    /// ```
    pub fn conflicts_text(&self, alloc: Global) -> Result<String, LiveFault>
        ensures { MatchResult result
            (λ text. IsConflictsText (stored_of self.now) (string_bytes text)) IsOutOfMemory }
    {
        let pairs = self.conflicts(alloc)?;
        Ok(write_pairs(alloc, pairs.as_slice())?)
    }

    /// The text of the pairs that [`PatchLog::conflicts_within`] gives, in the form of [`PatchLog::conflicts_text`]: as many of
    /// those that come first as make a text of at most `limit` bytes, and whether a pair or a place is left out. If not even
    /// one fits, the text is `[]`. `OutOfMemory` if memory ran out.
    ///
    /// ```text
    /// log.conflicts_text_within(alloc, 1000)  // as `conflicts_text`, and false, if all of it fits
    /// ```
    pub fn conflicts_text_within(&self, alloc: Global, limit: usize) -> Result<PairsText, LiveFault>
        ensures { MatchResult result (λ written. IsConflictsTextWithin limit (stored_of self.now)
            (string_bytes written.text) written.more) IsOutOfMemory }
    {
        let found = self.conflicts_within(alloc, limit)?;
        Ok(write_first_pairs(alloc, found, limit)?)
    }

    /// As [`PatchLog::conflicts_text_within`], of the pairs that [`PatchLog::conflicts_of`] gives. If no patch is stored under the
    /// identity, the text is `[]`.
    ///
    /// ```text
    /// log.conflicts_of_text_within(alloc, Identity { sender: 1, number: 1 }, 1000)  // the pairs of 1:1 alone
    /// ```
    pub fn conflicts_of_text_within(
        &self,
        alloc: Global,
        identity: Identity,
        limit: usize,
    ) -> Result<PairsText, LiveFault>
        ensures { MatchResult result (λ written. IsConflictsTextWithinOf limit (Some identity)
            (stored_of self.now) (string_bytes written.text) written.more) IsOutOfMemory }
    {
        let found = self.conflicts_of(alloc, identity, limit)?;
        Ok(write_first_pairs(alloc, found, limit)?)
    }
}

// The text of the pairs that come first, and whether they leave something out, or it leaves out one of them.
fn write_first_pairs(
    alloc: Global,
    found: FirstPairs,
    limit: usize,
) -> Result<PairsText, AllocError>
    ensures { IfOk result (λ written. (of : Option Identity) (stored : Stored)
        → AreFirstPairsOf limit of stored (map seen found.pairs.items) found.more
        → IsConflictsTextWithinOf limit of stored (string_bytes written.text) written.more) }
{
    let PairsText { text, more } = write_pairs_within(alloc, found.pairs.as_slice(), limit)?;
    Ok(PairsText {
        text,
        more: found.more || more,
    })
}
