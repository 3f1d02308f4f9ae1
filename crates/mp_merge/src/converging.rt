//! The promise of this library, run by its public calls alone.
ghost use Rattle.std.specs.Prelude.{◌≡◌, map, IfOk, IfErr, MatchResult};
ghost use Rattle.mp_tree.specs.Document.{depth_limit};
ghost use Rattle.mp_tree.specs.View.{document};
ghost use Rattle.mp_merge.specs.Converged.{IsConverged, IsConvergeFault};
ghost use Rattle.mp_merge.specs.Lists.{AreNoDeeper};
ghost use Rattle.mp_merge.specs.Replicas.{AreReplicas};

use crate::fault::ConvergeFault;
use crate::laws;
use crate::lists::{join_all, replay};
use crate::merging::merge;
use crate::rewriting::rewrite;
use mp_patch::{JsonPatch, apply};
use mp_tree::Doc;
use std::alloc::Global;

/// What two replicas come to that received the same patches, by each of the ways that this library has.
#[derive(Debug, Drop)]
pub struct Converged {
    /// The replay of what the one replica received.
    pub here: Doc,
    /// The replay of what the other received.
    pub there: Doc,
    /// The join of what the one received.
    pub joined_here: Doc,
    /// The join of what the other received.
    pub joined_there: Doc,
    /// One merge of the join into the start.
    pub merged: Doc,
    /// The join, rewritten against the start.
    pub edits: JsonPatch,
    /// The start after these edits.
    pub patched: Doc,
}

/// The promise, kept by public calls: two replicas start from one document and receive the same pairwise compatible
/// merge patches, at least one, in orders of their own and with repeats. Both replay what they received, both join it;
/// the join is merged into the start, and it is rewritten against the start as a JSON Patch, which is applied to it.
/// All these calls succeed unless memory ran out; the four documents are one, and so are the two joins. That the JSON
/// Patch is taken, and gives that document, wants patches that are at most 126 deep, as all that are read.
///
/// Of any other lists it gives the same, each by itself, or the first refusal among these calls: `Lists` with a
/// conflict of the first list, or of the second; `Lists` with `NoPatches` if one of them is empty; `Patch` if an
/// operation of the JSON Patch is refused, as one is that places what is too deep; `OutOfMemory` at any point.
///
/// ```text
/// converge(alloc, &start, &[one, two], &[two, one, two])  // here, there, merged and patched are equal
/// ```
pub fn converge(
    alloc: Global,
    start: &Doc,
    here: &[Doc],
    there: &[Doc],
) -> Result<Converged, ConvergeFault>
    ensures calls { MatchResult result
        (λ c. IsConverged (document start.now) (map document here.now) (map document there.now) c)
        (λ fault. IsConvergeFault fault (document start.now) (map document here.now)
        (map document there.now)) }
    ensures replayed { AreReplicas (map document here.now) (map document there.now)
        → IfOk result (λ c. document c.here ≡ document c.there) }
    ensures joined { AreReplicas (map document here.now) (map document there.now)
        → IfOk result (λ c. document c.joined_here ≡ document c.joined_there) }
    ensures merged { AreReplicas (map document here.now) (map document there.now)
        → IfOk result (λ c. document c.merged ≡ document c.here) }
    ensures patched { AreReplicas (map document here.now) (map document there.now)
        → AreNoDeeper depth_limit (map document here.now)
        → IfOk result (λ c. document c.patched ≡ document c.here) }
    ensures refused { AreReplicas (map document here.now) (map document there.now)
        → AreNoDeeper depth_limit (map document here.now)
        → IfErr result (λ fault. fault ≡ ConvergeFault.OutOfMemory) }
{
    mp_tree::laws::docs_are_documents();
    laws::replicas_converge();
    laws::outcome_exists();
    laws::one_rewriting();
    let replayed_here = replay(alloc, start, here)?;
    let replayed_there = replay(alloc, start, there)?;
    let joined_here = join_all(alloc, here)?;
    let joined_there = join_all(alloc, there)?;
    let merged = merge(alloc, Some(start), &joined_here)?;
    let edits = rewrite(alloc, start, &joined_here)?;
    let patched = apply(alloc, start, &edits)?;
    Ok(Converged {
        here: replayed_here,
        there: replayed_there,
        joined_here,
        joined_there,
        merged,
        edits,
        patched,
    })
}
