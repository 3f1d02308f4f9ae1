//! A replica that stays in memory, over texts.
ghost use Rattle.std.specs.Prelude.{◌≡◌, ◌≢◌, ◌∷◌, ◌++◌, ◌≤◌, ℕ, List, [], None, Some, Ok, IfOk, IfErr, OnErr, MatchOption, MatchResult, length, string_bytes};
ghost use Rattle.mp_tree.specs.Document.{Document};
ghost use Rattle.mp_tree.specs.Text.{document_in, text as compact};
ghost use Rattle.mp_tree.specs.View.{document};
ghost use Rattle.mp_texts.specs.Answers.{IsJoinText, IsReplayText};
ghost use Rattle.mp_replica.specs.Faults.{AreNoPlaces, IsNoPart, IsNotJoined, IsUnshown, IsUnread};
ghost use Rattle.mp_replica.specs.Following.{Follows, FollowsOn};
ghost use Rattle.mp_replica.specs.Texts.{AreClashesOfText, FollowsTexts, FollowsTextsOn, IsPartOf};

use crate::fault::LiveFault;
use crate::laws::text_laws;
use crate::reading::document_of;
use crate::replica::{Received, Replica};
use crate::writing::text_within;
use mp_pointer::Pointer;
use mp_texts::write_places;
use std::alloc::Global;

impl Replica {
    /// A replica that begins with the document of this text, and has received nothing.
    ///
    /// `Document` if the text is not a document; `OutOfMemory` may come at any point.
    ///
    /// ```text
    /// let mut replica = Replica::from_text(alloc, b"{\"a\":1}")?;
    /// ```
    pub fn from_text(alloc: Global, start: &[u8]) -> Result<Replica, LiveFault>
        ensures follows { IfOk result (λ r. FollowsTexts start.now [] r × (r.pending ≡ None)) }
        ensures fault { IfErr result (λ fault. IsUnread fault start.now) }
    {
        let start = document_of(alloc, start)?;
        Ok(Replica::new(start))
    }

    /// Receives the patch of this text, as [`Replica::receive`] does. The text is read first, so that one that is no document
    /// is reported whatever was received before.
    ///
    /// `Document` if the text is not a document; `OutOfMemory` if memory ran out while it was read. Then nothing is changed.
    ///
    /// ```text
    /// replica.receive_text(alloc, b"{\"b\":2}")  // Received::Taken
    /// ```
    pub fn receive_text(&mut self, alloc: Global, patch: &[u8]) -> Result<Received, LiveFault>
        ensures document { IfOk result (λ what. (start : Document) (received : List Document)
            → Follows start received self.old → (p : Document)
            → document_in patch.now ≡ Ok p → FollowsOn what start received p self.new) }
        ensures texts { IfOk result (λ what. (start : List ℕ) (texts : List (List ℕ))
            → FollowsTexts start texts self.old
            → FollowsTextsOn what start texts patch.now self.new) }
        ensures read { IfOk result (λ _. (p : Document) × (document_in patch.now ≡ Ok p)) }
        ensures fault { IfErr result (λ fault. IsUnread fault patch.now) }
        ensures unchanged { OnErr result (self.new ≡ self.old) }
    {
        let patch = document_of(alloc, patch)?;
        Ok(self.receive(alloc, patch))
    }

    /// The compact text of what is shown.
    ///
    /// `Pending` exactly while a patch is pending, so that none is shown in part: [`Replica::settle`] makes it good. Else
    /// `TooLarge` exactly if the text has more than `limit` bytes (`usize::MAX` is no limit): it is measured first, and then none
    /// is made. `OutOfMemory` may come at any point.
    ///
    /// ```text
    /// replica.document_text(alloc, usize::MAX)  // {"a":1,"b":2}
    /// ```
    pub fn document_text(&self, alloc: Global, limit: usize) -> Result<String, LiveFault>
        ensures shown { MatchResult result
            (λ text. (self.now.pending ≡ None)
            × (string_bytes text ≡ compact (document self.now.shown)))
            (λ fault. IsUnshown limit fault self.now) }
        ensures within { IfOk result (λ text. length (string_bytes text) ≤ limit) }
        ensures replay { IfOk result (λ text. (start : List ℕ) (texts : List (List ℕ))
            → FollowsTexts start texts self.now
            → IsReplayText start texts (string_bytes text)) }
    {
        text_laws();
        match self.document() {
            Some(shown) => text_within(alloc, shown, limit),
            None => Err(LiveFault::Pending),
        }
    }

    /// The text of the join of what was received, which can be sent in place of that.
    ///
    /// `Pending` exactly while a patch is pending; else `NoPatches` exactly if nothing was received; else `TooLarge` exactly if
    /// the text has more than `limit` bytes. `OutOfMemory` may come at any point.
    pub fn joined_text(&self, alloc: Global, limit: usize) -> Result<String, LiveFault>
        ensures joined { MatchResult result
            (λ text. (self.now.pending ≡ None) × MatchOption self.now.joined ⊥
            (λ j. string_bytes text ≡ compact (document j)))
            (λ fault. IsNotJoined limit fault self.now) }
        ensures within { IfOk result (λ text. length (string_bytes text) ≤ limit) }
        ensures join { IfOk result (λ text. (start : List ℕ) (texts : List (List ℕ))
            → FollowsTexts start texts self.now → IsJoinText texts (string_bytes text)) }
    {
        text_laws();
        if self.is_pending() {
            return Err(LiveFault::Pending);
        }
        match self.joined() {
            Some(joined) => text_within(alloc, joined, limit),
            None => Err(LiveFault::NoPatches),
        }
    }

    /// The text of the part of what is shown that the pointer names (RFC 6901).
    ///
    /// In this order: `Pointer` if the pointer's text spells no pointer; `Pending` while a patch is pending; `Missing` if
    /// there is no such part; `TooLarge` if its text has more than `limit` bytes. `OutOfMemory` may come at any point.
    ///
    /// ```text
    /// replica.get_text(alloc, "/b", usize::MAX)  // 2
    /// ```
    pub fn get_text(&self, alloc: Global, pointer: &str, limit: usize) -> Result<String, LiveFault>
        ensures part { MatchResult result
            (λ text. (self.now.pending ≡ None)
            × IsPartOf (document self.now.shown) pointer.now (string_bytes text))
            (λ fault. IsNoPart limit fault self.now pointer.now) }
        ensures within { IfOk result (λ text. length (string_bytes text) ≤ limit) }
    {
        text_laws();
        let pointer = Pointer::parse(alloc, pointer)?;
        if self.is_pending() {
            return Err(LiveFault::Pending);
        }
        match self.get(&pointer) {
            Some(part) => text_within(alloc, part, limit),
            None => Err(LiveFault::Missing),
        }
    }

    /// Where the patch of this text conflicts with what was received: the places as a JSON array of pointers, as
    /// `mp_texts::write_places` writes it, empty exactly if `receive_text` would take it.
    ///
    /// In this order: `Document` if the text is not a document; `Pending` while a patch is pending. `OutOfMemory` may come at
    /// any point.
    ///
    /// ```text
    /// replica.conflicts_text(alloc, b"{\"b\":3}")  // ["/b"]
    /// ```
    pub fn conflicts_text(&self, alloc: Global, patch: &[u8]) -> Result<String, LiveFault>
        ensures { MatchResult result
            (λ text. (start : Document) (received : List Document)
            → Follows start received self.now
            → AreClashesOfText received patch.now (string_bytes text))
            (λ fault. AreNoPlaces fault self.now patch.now) }
    {
        let patch = document_of(alloc, patch)?;
        if self.is_pending() {
            return Err(LiveFault::Pending);
        }
        let places = self.conflicts(alloc, &patch)?;
        Ok(write_places(alloc, places.as_slice())?)
    }
}
