//! The kept form of patches that are gathered without a start: one text, for a state that is stored or sent.
ghost use Rattle.std.specs.Prelude.{◌≡◌, ◌≢◌, ◌↔◌, ◌++◌, ◌≤◌, List, [], length, map, Ok, IfOk, IfErr, MatchOption, MatchResult, string_bytes};
ghost use Rattle.std.specs.List.{All};
ghost use Rattle.mp_tree.specs.Document.{Document, IsReadable};
ghost use Rattle.mp_tree.specs.Look.{Path};
ghost use Rattle.mp_tree.specs.View.{document};
ghost use Rattle.mp_texts.specs.Answers.{place_of};
ghost use Rattle.mp_replica.specs.Held.{HeldPatches, held_places};
ghost use Rattle.mp_replica.specs.Kept.{IsHeldBy, IsKept, IsKeptText, IsNoKept, IsNotKeptYet, marks};
ghost use Rattle.mp_replica.specs.Private.Places.{AreMarkedRead, AreMarkedUnread, AreRead, AreUnread};
ghost use Rattle.mp_replica.specs.Taking.{HasTaken};

use crate::fault::LiveFault;
use crate::first_places::FirstPlaces;
use crate::kept_places::are_kept;
use crate::laws::text_laws;
use crate::patches::Patches;
use crate::reading::document_of;
use crate::writing::{text_within, unless_longer};
use mp_pointer::{Pointer, PointerFault, laws as pointing};
use mp_texts::write_places;
use mp_tree::Doc;
use std::alloc::{AllocError, Global};

impl Patches {
    /// The kept form of what was taken: the empty text if nothing was, the text of the join, or the places of a conflict as a
    /// JSON array of pointers: behind `!` if these are all, and behind `!+` if there are more. [`Patches::from_kept`] takes it.
    ///
    /// `Pending` exactly while a patch is pending; else `TooLarge` exactly if the text has more than `limit` bytes (`usize::MAX` is
    /// no limit). `OutOfMemory` may come at any point.
    ///
    /// ```text
    /// patches.kept(alloc, usize::MAX)  // {"a":1} after {"a":1}, and !["/a"] after {"a":1} and {"a":2}
    /// ```
    pub fn kept(&self, alloc: Global, limit: usize) -> Result<String, LiveFault>
        ensures text { MatchResult result (λ text. IsKeptText self.now (string_bytes text))
            (λ fault. IsNotKeptYet limit fault self.now) }
        ensures within { IfOk result (λ text. length (string_bytes text) ≤ limit) }
        ensures empty { IfOk result (λ text. (taken : List Document) → HasTaken self.now taken
            → (string_bytes text ≡ []) ↔ (taken ≡ [])) }
        ensures kept { IfOk result (λ text. (taken : List Document) → HasTaken self.now taken
            → All IsReadable taken → IsKept self.now (string_bytes text)) }
    {
        text_laws();
        if let Some(places) = self.places() {
            let written = write_places(alloc, places.places.as_slice())?;
            let text = marked(alloc, places.more, written.as_str())?;
            return unless_longer(text, limit);
        }
        if self.is_pending() {
            return Err(LiveFault::Pending);
        }
        match self.joined() {
            Some(joined) => text_within(alloc, joined, limit),
            None => Ok(String::new(alloc)),
        }
    }

    /// The patches that a kept form holds: it has taken what was taken where that form was made. A document holds itself, as
    /// one patch.
    ///
    /// `Document` if the text, or what stands after its `!` or `!+`, is not a document; `NotKept` if that is no array of pointers, as
    /// [`Patches::kept`] writes them: in the order of paths, none within another, of at most 65,536 bytes of weight together, at
    /// least one behind `!`, and not that of the whole document behind `!+`. `OutOfMemory` may come at any point.
    ///
    /// ```text
    /// Patches::from_kept(alloc, b"{\"a\":1}")  // one patch
    /// Patches::from_kept(alloc, b"![\"/a\"]")  // two patches that conflict at /a
    /// ```
    pub fn from_kept(alloc: Global, kept: &[u8]) -> Result<Patches, LiveFault>
        ensures held { MatchResult result (λ patches. IsHeldBy kept.now patches)
            (λ fault. IsNoKept fault kept.now) }
        ensures taken { IfOk result (λ patches. (before : HeldPatches) (taken : List Document)
            → IsKept before kept.now → HasTaken before taken → HasTaken patches taken) }
    {
        text_laws();
        if kept.is_empty() {
            return Ok(Patches::new());
        }
        if kept[0] == b'!' {
            let places = conflict_of(alloc, &kept[1..])?;
            return Ok(Patches::of(None, Some(places)));
        }
        let joined = document_of(alloc, kept)?;
        Ok(Patches::of(Some(joined), None))
    }
}

fn marked(alloc: Global, more: bool, written: &str) -> Result<String, AllocError>
    ensures { IfOk result (λ text. string_bytes text ≡ marks more ++ written.now) }
{
    let mut text = String::with_capacity(alloc, written.len().saturating_add(2))?;
    text.push_str(if more { "!+" } else { "!" })?;
    text.push_str(written)?;
    Ok(text)
}

// The places that stand after the first mark.
fn conflict_of(alloc: Global, text: &[u8]) -> Result<FirstPlaces, LiveFault>
    ensures { MatchResult result (λ found. AreMarkedRead text.now (held_places found))
        (λ fault. AreMarkedUnread fault text.now) }
{
    if !text.is_empty() && text[0] == b'+' {
        return array_of(alloc, true, &text[1..]);
    }
    array_of(alloc, false, text)
}

// The places that the text is an array of, if a conflict can have these.
fn array_of(alloc: Global, more: bool, text: &[u8]) -> Result<FirstPlaces, LiveFault>
    ensures read { MatchResult result (λ found. AreRead text.now (held_places found))
        (λ fault. AreUnread fault more text.now) }
    ensures more { IfOk result (λ found. found.more ≡ more) }
{
    text_laws();
    let Doc::Items(spellings) = document_of(alloc, text)? else {
        return Err(LiveFault::NotKept);
    };
    let Some(places) = places_of(alloc, spellings.as_slice())? else {
        return Err(LiveFault::NotKept);
    };
    if !are_kept(places.as_slice(), more) {
        return Err(LiveFault::NotKept);
    }
    Ok(FirstPlaces { places, more })
}

// The places that these spell; None if one of them spells none.
fn places_of(alloc: Global, spellings: &[Doc]) -> Result<Option<Vec<Pointer>>, AllocError>
    ensures { IfOk result (λ found. MatchOption found
        ((places : List Path) → map document spellings.now ≢ map place_of places)
        (λ places. map document spellings.now ≡ map place_of places.items)) }
{
    let mut places = Vec::with_capacity(alloc, spellings.len())?;
    for spelling in spellings {
        let Some(place) = place_in(alloc, spelling)? else {
            return Ok(None);
        };
        places.push(place)?;
    }
    Ok(Some(places))
}

fn place_in(alloc: Global, spelling: &Doc) -> Result<Option<Pointer>, AllocError>
    ensures { IfOk result (λ found. MatchOption found
        ((place : Path) → document spelling.now ≢ place_of place)
        (λ place. document spelling.now ≡ place_of place)) }
{
    pointing::spellings_have_no_fault();
    let Doc::Text(text) = spelling else {
        return Ok(None);
    };
    match Pointer::parse(alloc, text.as_str()) {
        Ok(place) => Ok(Some(place)),
        Err(PointerFault::OutOfMemory) => Err(AllocError),
        Err(_) => Ok(None),
    }
}
