//! Exports over lists of merge patches: their join, and what they make of a document.
ghost use Rattle.mp_texts.specs.Texts.{given};
ghost use Rattle.mp_texts.specs.Calls.{join_texts, merge_texts, replay_texts};
ghost use Rattle.mp_c.specs.Answered.{OfCall};
ghost use Rattle.mp_c.specs.Replies.{Replies};

use crate::replying::{Reply, report};
use std::alloc::Global;

/// The text of the join of merge patches, as `mp_texts::join_texts` gives it.
///
/// ```text
/// mergejoin_join(patches, 2, out, buffer, SIZE_MAX)  // of {"a":1} and {"b":null}: {"a":1,"b":null}, status 0
/// ```
#[unsafe(no_mangle)]
pub extern "C" fn mergejoin_join(
    alloc: Global,
    patches: &[&[u8]],
    out: &mut [u8],
    limit: usize,
) -> Reply
    ensures { Replies (OfCall limit (join_texts (given patches.now))) result out.old out.new }
{
    let joined = mp_texts::join_texts(alloc, patches, limit);
    report(alloc, joined, &[], patches, out, limit)
}

/// The text of the document that merge patches, no two of which conflict, make of the start's, as `mp_texts::replay_texts`
/// gives it.
///
/// ```text
/// mergejoin_replay("5", 1, patches, 0, out, buffer, SIZE_MAX)  // 5, status 0
/// ```
#[unsafe(no_mangle)]
pub extern "C" fn mergejoin_replay(
    alloc: Global,
    start: &[u8],
    patches: &[&[u8]],
    out: &mut [u8],
    limit: usize,
) -> Reply
    ensures { Replies (OfCall limit (replay_texts start.now (given patches.now))) result
        out.old out.new }
{
    let outcome = mp_texts::replay_texts(alloc, start, patches, limit);
    report(alloc, outcome, start, patches, out, limit)
}

/// The text of the document after the merge patches, each applied to what those before it left, as `mp_texts::merge_texts`
/// gives it: that they are compatible is not checked.
///
/// ```text
/// mergejoin_merge("{\"a\":0}", 7, patches, 2, out, buffer, SIZE_MAX)  // of {"a":1} and {"a":2}: {"a":2}, status 0
/// ```
#[unsafe(no_mangle)]
pub extern "C" fn mergejoin_merge(
    alloc: Global,
    document: &[u8],
    patches: &[&[u8]],
    out: &mut [u8],
    limit: usize,
) -> Reply
    ensures { Replies (OfCall limit (merge_texts document.now (given patches.now))) result
        out.old out.new }
{
    let merged = mp_texts::merge_texts(alloc, document, patches, limit);
    report(alloc, merged, document, patches, out, limit)
}
