//! Texts that are handed out within a limit.
ghost use Rattle.std.specs.Prelude.{◌≡◌, ◌<◌, ◌≤◌, length, MatchResult, string_bytes};
ghost use Rattle.mp_tree.specs.Text.{text as compact};
ghost use Rattle.mp_tree.specs.View.{document};
ghost use Rattle.mp_replica.specs.Private.Writing.{IsNotWritten};

use crate::fault::LiveFault;
use mp_tree::{Doc, write_doc_within};
use std::alloc::Global;

// The compact text of a document, unless it has more bytes than the caller allows: then none is made.
pub(crate) fn text_within(alloc: Global, doc: &Doc, limit: usize) -> Result<String, LiveFault>
    ensures { MatchResult result
        (λ text. (string_bytes text ≡ compact (document doc.now))
        × (length (string_bytes text) ≤ limit))
        (λ fault. IsNotWritten limit fault (compact (document doc.now))) }
{
    match write_doc_within(alloc, doc, limit)? {
        Some(text) => Ok(text),
        None => Err(LiveFault::TooLarge),
    }
}

// A short text that is made already, unless it has more bytes than the caller allows.
pub(crate) fn unless_longer(text: String, limit: usize) -> Result<String, LiveFault>
    ensures { MatchResult result
        (λ answer. (string_bytes answer ≡ string_bytes text)
        × (length (string_bytes answer) ≤ limit))
        (λ fault. IsNotWritten limit fault (string_bytes text)) }
{
    if text.as_str().len() > limit {
        return Err(LiveFault::TooLarge);
    }
    Ok(text)
}
