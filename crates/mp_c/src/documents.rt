//! Exports over one document: rewritings against it, JSON Patches of it, and its parts.
ghost use Rattle.mp_texts.specs.Calls.{patch_text, rewrite_text};
ghost use Rattle.mp_c.specs.Answered.{IsPart, OfCall};
ghost use Rattle.mp_c.specs.Replies.{Replies};

use crate::replying::{Reply, report, report_not_utf8, report_unread};
use mp_texts::part_text;
use mp_tree::read_doc;
use std::alloc::Global;

/// The text of a merge patch as a JSON Patch for the document, as `mp_texts::rewrite_text` gives it.
///
/// ```text
/// mergejoin_rewrite("5", 1, "6", 1, out, buffer, SIZE_MAX)
/// // [{"op":"test","path":"","value":5},{"op":"replace","path":"","value":6}], status 0
/// ```
#[unsafe(no_mangle)]
pub extern "C" fn mergejoin_rewrite(
    alloc: Global,
    document: &[u8],
    patch: &[u8],
    out: &mut [u8],
    limit: usize,
) -> Reply
    ensures { Replies (OfCall limit (rewrite_text document.now patch.now)) result out.old out.new }
{
    let rewritten = mp_texts::rewrite_text(alloc, document, patch, limit);
    report(alloc, rewritten, document, &[patch], out, limit)
}

/// The text of the document after a JSON Patch (RFC 6902), as `mp_texts::patch_text` gives it.
///
/// ```text
/// mergejoin_patch("[1]", 3, patch, length, out, buffer, SIZE_MAX)  // of [{"op":"remove","path":"/0"}]: [], status 0
/// ```
#[unsafe(no_mangle)]
pub extern "C" fn mergejoin_patch(
    alloc: Global,
    document: &[u8],
    patch: &[u8],
    out: &mut [u8],
    limit: usize,
) -> Reply
    ensures { Replies (OfCall limit (patch_text document.now patch.now)) result out.old out.new }
{
    let patched = mp_texts::patch_text(alloc, document, patch, limit);
    report(alloc, patched, document, &[patch], out, limit)
}

/// The text of the part of the document that the pointer names (RFC 6901), as `mp_texts::part_text` gives it. A pointer
/// whose bytes are not UTF-8 is reported after a document that is not one, and before any other error of a pointer.
///
/// ```text
/// mergejoin_get("{\"a\":[5]}", 9, "/a", 2, out, buffer, SIZE_MAX)  // [5], status 0
/// ```
#[unsafe(no_mangle)]
pub extern "C" fn mergejoin_get(
    alloc: Global,
    document: &[u8],
    pointer: &[u8],
    out: &mut [u8],
    limit: usize,
) -> Reply
    ensures { Replies (IsPart limit document.now pointer.now) result out.old out.new }
{
    match str::from_utf8(pointer) {
        Ok(pointer) => {
            let part = part_text(alloc, document, pointer, limit);
            report(alloc, part, document, &[], out, limit)
        }
        Err(fault) => match read_doc(alloc, document) {
            Ok(_) => report_not_utf8(alloc, fault.valid_up_to(), out),
            Err(why) => report_unread(alloc, None, why, document, out),
        },
    }
}
