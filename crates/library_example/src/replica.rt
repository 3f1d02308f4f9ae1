//! What a replica does with its start and the patches that it received, in whatever order they arrived.
ghost use Rattle.std.specs.Prelude.{◌≡◌, map, option_map, IfOk, IfErr, MatchResult, string_bytes};
ghost use Rattle.mp_tree.specs.Document.{depth_limit};
ghost use Rattle.mp_tree.specs.View.{document};
ghost use Rattle.mp_pointer.specs.Part.{part};
ghost use Rattle.mp_pointer.specs.Spelling.{Tokens, IsPointerFault, spell};
ghost use Rattle.mp_patch.specs.View.{operations_of};
ghost use Rattle.mp_merge.specs.Lists.{AreNoDeeper, IsJoinAllFault};
ghost use Rattle.library_example.specs.Peers.{LeadsToOutcome, RewritesJoin};
ghost use Rattle.library_example.specs.Shown.{IsNotShown, IsShown};

use crate::fault::ShowFault;
use mp_merge::{ListFault, join_all, laws, replay, rewrite};
use mp_patch::JsonPatch;
use mp_pointer::{Pointer, PointerFault, get};
use mp_tree::{Doc, read_doc, read_docs, write_doc};
use std::alloc::Global;

/// The text of the document that the patches make of the start, or which two conflict and where.
pub fn show(alloc: Global, start: &[u8], patches: &[u8]) -> Result<String, ShowFault>
    ensures { MatchResult result (λ text. IsShown start.now patches.now (string_bytes text))
        (λ fault. IsNotShown fault start.now patches.now) }
{
    // A law is a call that runs nothing.
    mp_tree::laws::docs_are_documents();
    let start = read_doc(alloc, start)?;
    let patches = read_docs(alloc, patches)?;
    let document = replay(alloc, &start, patches.as_slice())?;
    Ok(write_doc(alloc, &document)?)
}

/// A JSON Patch that leads a peer from the start to that document.
pub fn for_a_peer(alloc: Global, start: &Doc, patches: &[Doc]) -> Result<JsonPatch, ListFault>
    ensures rewriting { IfOk result (λ edits. RewritesJoin (document start.now)
        (map document patches.now) (operations_of edits)) }
    ensures runs { AreNoDeeper depth_limit (map document patches.now) → IfOk result (λ edits.
        LeadsToOutcome (document start.now) (map document patches.now) (operations_of edits)) }
    ensures refused { IfErr result (λ fault. IsJoinAllFault fault (map document patches.now)) }
{
    mp_tree::laws::docs_are_documents();
    laws::join_gives_outcome();
    laws::applies_at_each_name();
    let joined = join_all(alloc, patches)?;
    Ok(rewrite(alloc, start, &joined)?)
}

/// The part of a document at a place, as `/colour`.
pub fn at<'a>(alloc: Global, doc: &'a Doc, place: &str) -> Result<Option<&'a Doc>, PointerFault>
    ensures found { IfOk result (λ found. (tokens : Tokens) × (place.now ≡ spell tokens)
        × (option_map (λ d. document d.now) found ≡ part (document doc.now) tokens)) }
    ensures refused { IfErr result (λ fault. IsPointerFault fault place.now) }
{
    let pointer = Pointer::parse(alloc, place)?;
    Ok(get(doc, &pointer))
}
