// Texts read, each as the value of a document.
ghost use Rattle.std.specs.Prelude.{◌≡◌, map, Ok, MatchResult};
ghost use Rattle.mp_tree.specs.Text.{document_in};
ghost use Rattle.mp_tree.specs.Values.{value_document};
ghost use Rattle.mp_texts.specs.Texts.{AreRead, given};
ghost use Rattle.mp_texts.specs.Private.Unread.{IsDocumentFault, IsPatchFault, IsPatchesFault};

use crate::fault::TextsFault;
use mp_tree::{ReadFault, read_value};
use serde_json::Value;
use std::alloc::Global;

// The text of a document, or of a start.
pub(crate) fn read_document_value(alloc: Global, text: &[u8]) -> Result<Value, TextsFault>
    ensures { MatchResult result (λ v. document_in text.now ≡ Ok (value_document v))
        (λ fault. IsDocumentFault fault text.now) }
{
    match read_value(alloc, text) {
        Ok(value) => Ok(value),
        Err(ReadFault::OutOfMemory) => Err(TextsFault::OutOfMemory),
        Err(fault) => Err(TextsFault::Document(fault)),
    }
}

// The text of the patch with that number.
pub(crate) fn read_patch_value(
    alloc: Global,
    text: &[u8],
    number: usize,
) -> Result<Value, TextsFault>
    ensures { MatchResult result (λ v. document_in text.now ≡ Ok (value_document v))
        (λ fault. IsPatchFault fault text.now number) }
{
    match read_value(alloc, text) {
        Ok(value) => Ok(value),
        Err(ReadFault::OutOfMemory) => Err(TextsFault::OutOfMemory),
        Err(fault) => Err(TextsFault::Patch { number, fault }),
    }
}

// All are read before any work is done: a text that is not a document is reported first.
pub(crate) fn read_patch_values(alloc: Global, patches: &[&[u8]]) -> Result<Vec<Value>, TextsFault>
    ensures { MatchResult result
        (λ values. AreRead (given patches.now) (map value_document values.items))
        (λ fault. IsPatchesFault fault (given patches.now)) }
{
    let mut values = Vec::with_capacity(alloc, patches.len())?;
    for (number, text) in patches.iter().enumerate() {
        values.push(read_patch_value(alloc, text, number)?)?;
    }
    Ok(values)
}
