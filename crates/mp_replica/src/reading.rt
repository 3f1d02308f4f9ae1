// A text that is read, of a start or of a patch.
ghost use Rattle.std.specs.Prelude.{◌≡◌, Ok, MatchResult};
ghost use Rattle.mp_tree.specs.Text.{document_in};
ghost use Rattle.mp_tree.specs.View.{document};
ghost use Rattle.mp_replica.specs.Faults.{IsUnread};

use crate::fault::LiveFault;
use mp_tree::{Doc, ReadFault, read_doc};
use std::alloc::Global;

#[inline(always)]
pub(crate) fn document_of(alloc: Global, text: &[u8]) -> Result<Doc, LiveFault>
    ensures { MatchResult result (λ d. document_in text.now ≡ Ok (document d))
        (λ fault. IsUnread fault text.now) }
{
    match read_doc(alloc, text) {
        Ok(doc) => Ok(doc),
        Err(ReadFault::OutOfMemory) => Err(LiveFault::OutOfMemory),
        Err(fault) => Err(LiveFault::Document(fault)),
    }
}
