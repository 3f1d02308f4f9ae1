//! Patches that are gathered without a start, over texts.
ghost use Rattle.std.specs.Prelude.{◌≡◌, ◌≢◌, ◌↔◌, ◌≤◌, ℕ, List, None, Some, Ok, IfOk, IfErr, OnErr, MatchOption, MatchResult, length, string_bytes};
ghost use Rattle.mp_tree.specs.Document.{Document};
ghost use Rattle.mp_tree.specs.Text.{document_in, text as compact};
ghost use Rattle.mp_tree.specs.View.{document};
ghost use Rattle.mp_texts.specs.Answers.{IsJoinText};
ghost use Rattle.mp_replica.specs.Faults.{IsNoJoin, IsNoJoinText, IsUnread};
ghost use Rattle.mp_replica.specs.Taking.{HasTaken, TakesOne};
ghost use Rattle.mp_replica.specs.Texts.{HasTakenTexts};

use crate::fault::LiveFault;
use crate::laws::text_laws;
use crate::patches::{Added, Patches};
use crate::reading::document_of;
use crate::writing::text_within;
use std::alloc::Global;

impl Patches {
    /// Takes the patch of this text, as [`Patches::add`] does. The text is read first, also once two conflict, so that one that
    /// is no document is reported in every order.
    ///
    /// `Document` if the text is not a document; `OutOfMemory` if memory ran out while it was read. Then nothing is changed.
    ///
    /// ```text
    /// patches.add_text(alloc, b"{\"a\":1}")  // Added::Joined
    /// patches.add_text(alloc, b"1,2")        // Document: it is not JSON
    /// ```
    pub fn add_text(&mut self, alloc: Global, patch: &[u8]) -> Result<Added, LiveFault>
        ensures document { IfOk result (λ what. (taken : List Document) → HasTaken self.old taken
            → (p : Document) → document_in patch.now ≡ Ok p
            → TakesOne HasTaken what taken p self.new) }
        ensures texts { IfOk result (λ what. (texts : List (List ℕ))
            → HasTakenTexts self.old texts
            → TakesOne HasTakenTexts what texts patch.now self.new) }
        ensures read { IfOk result (λ _. (p : Document) × (document_in patch.now ≡ Ok p)) }
        ensures conflict { IfOk result (λ what.
            (what ≡ Added.Conflict) ↔ (self.new.places ≢ None)) }
        ensures fault { IfErr result (λ fault. IsUnread fault patch.now) }
        ensures unchanged { OnErr result (self.new ≡ self.old) }
    {
        let patch = document_of(alloc, patch)?;
        Ok(self.add(alloc, patch))
    }

    /// The text of the join of all that was taken: what `mp_texts::join_texts` gives of all their texts, in whatever order,
    /// groups and repeats they were taken.
    ///
    /// `Conflict` exactly if two conflict; else `Pending` exactly while a patch is pending, which [`Patches::settle`] makes
    /// good; else `NoPatches` exactly if nothing was taken; else `TooLarge` exactly if the text has more than `limit` bytes
    /// (`usize::MAX` is no limit): it is measured first, and then none is made. `OutOfMemory` may come at any point.
    ///
    /// ```text
    /// patches.text(alloc, usize::MAX)  // {"a":1,"b":null} for {"a":1} and {"b":null}
    /// ```
    pub fn text(&self, alloc: Global, limit: usize) -> Result<String, LiveFault>
        ensures joined { MatchResult result
            (λ text. (self.now.places ≡ None) × (self.now.pending ≡ None)
            × MatchOption self.now.joined ⊥ (λ j. string_bytes text ≡ compact (document j)))
            (λ fault. IsNoJoin limit fault self.now) }
        ensures within { IfOk result (λ text. length (string_bytes text) ≤ limit) }
        ensures join { MatchResult result
            (λ text. (texts : List (List ℕ)) → HasTakenTexts self.now texts
            → IsJoinText texts (string_bytes text))
            (λ fault. (texts : List (List ℕ)) → HasTakenTexts self.now texts
            → IsNoJoinText fault texts) }
    {
        text_laws();
        if self.places().is_some() {
            return Err(LiveFault::Conflict);
        }
        if self.is_pending() {
            return Err(LiveFault::Pending);
        }
        match self.joined() {
            Some(joined) => text_within(alloc, joined, limit),
            None => Err(LiveFault::NoPatches),
        }
    }
}
