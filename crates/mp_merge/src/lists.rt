//! Lists of merge patches: their join, and the document that they make of a start.
ghost use Rattle.std.specs.Prelude.{◌≡◌, ◌<◌, ◌≤◌, ◌+◌, ℕ, List, [], length, map, take, slice_get, Some, IfOk, MatchOption, MatchResult};
ghost use Rattle.mp_tree.specs.Document.{Document, depth, IsDocument};
ghost use Rattle.mp_tree.specs.View.{document};
ghost use Rattle.mp_patch.specs.Work.{no_limit};
ghost use Rattle.mp_merge.specs.Join.{IsJoin};
ghost use Rattle.mp_merge.specs.Lists.{AreNoDeeper, IsJoinAllFault, IsReplayFault};
ghost use Rattle.mp_merge.specs.Private.Clashes.{IsFreeBelow, IsReportedBelow};
ghost use Rattle.mp_merge.specs.Outcome.{IsOutcome};
ghost use Rattle.mp_merge.specs.Within.{IsJoinAllWithinFault, IsReplayWithinFault};

use crate::comparing::{Conflicts, are_compatible, conflict_within, nodes_are_documents};
use crate::fault::ListFault;
use crate::joining::unite;
use crate::merging::merge_owned;
use mp_tree::{Doc, Node};
use std::alloc::{AllocError, Global};

/// The join of a list of patches: one patch with the effect of all, in any order and with any repeats.
///
/// `NoPatches` exactly for the empty list; `ConflictOf` exactly if two patches of the list are not compatible, with
/// the least such pair by the later patch and all its conflicts; `OutOfMemory` may come at any point. Costs grow with
/// the total size of the patches, unless there is a conflict.
///
/// ```text
/// join_all(alloc, &patches)  // {"a":1,"b":2} for {"a":1}, {"b":2} and {"a":1}
/// join_all(alloc, &patches)  // ConflictOf of 0 and 2 with /a for {"a":1}, {"b":2} and {"a":3}
/// ```
pub fn join_all(alloc: Global, patches: &[Doc]) -> Result<Doc, ListFault>
    ensures joined { MatchResult result (λ j. IsJoin (map document patches.now) (document j))
        (λ fault. IsJoinAllFault fault (map document patches.now)) }
    ensures depth { IfOk result (λ j. (n : ℕ)
        → AreNoDeeper n (map document patches.now) → depth (document j) ≤ n) }
{
    match join_all_within(alloc, patches, usize::MAX) {
        Ok(joined) => Ok(joined),
        Err(fault) => Err(with_all_places(fault)),
    }
}

/// As `join_all`, of any `Node` and within a limit in bytes on the places that are reported: `ConflictOf` has of the conflicts those
/// that come first, as many as weigh at most `limit` together, and the number of all, as `conflict_within` has them. A limit of
/// `usize::MAX` is none.
///
/// `NoPatches`, `ConflictOf` and `OutOfMemory` come when `join_all` answers them.
///
/// ```text
/// join_all_within(alloc, &patches, 150)  // ConflictOf of 0 and 1 with /a, of 2, for {"a":1,"b":1} and {"a":2,"b":2}
/// ```
pub fn join_all_within<T: Node>(
    alloc: Global,
    patches: &[T],
    limit: usize,
) -> Result<T, ListFault<Conflicts>>
    ensures joined { MatchResult result (λ j. IsJoin (map T.means patches.now) (T.means j))
        (λ fault. IsJoinAllWithinFault limit fault (map T.means patches.now)) }
    ensures depth { IfOk result (λ j. (n : ℕ)
        → AreNoDeeper n (map T.means patches.now) → depth (T.means j) ≤ n) }
{
    let Some(first) = patches.first() else {
        return Err(ListFault::NoPatches);
    };
    nodes_are_documents(first);
    let mut joined = first.copied(alloc)?;
    for second in 1..patches.len() {
        joined = join_next(alloc, patches, second, joined, limit)?;
    }
    Ok(joined)
}

// Without a limit each place is there, so that their number says nothing more.
fn with_all_places(fault: ListFault<Conflicts>) -> ListFault
    ensures joins { (patches : List Document) → IsJoinAllWithinFault no_limit fault patches
        → IsJoinAllFault result patches }
    ensures replays { (patches : List Document) → IsReplayWithinFault no_limit fault patches
        → IsReplayFault result patches }
{
    match fault {
        ListFault::NoPatches => ListFault::NoPatches,
        ListFault::ConflictOf {
            first,
            second,
            places: Conflicts { places, total: _ },
        } => ListFault::ConflictOf {
            first,
            second,
            places,
        },
        ListFault::OutOfMemory => ListFault::OutOfMemory,
    }
}

// The join of the patches up to and with number `second`, from the join of those before it.
fn join_next<T: Node>(
    alloc: Global,
    patches: &[T],
    second: usize,
    mut joined: T,
    limit: usize,
) -> Result<T, ListFault<Conflicts>>
    requires documents { (d : T) → IsDocument (T.means d) }
    requires within { second < length patches.now }
    requires joined { IsJoin (take second (map T.means patches.now)) (T.means joined) }
    ensures { MatchResult result
        (λ j. IsJoin (take (second + 1) (map T.means patches.now)) (T.means j))
        (λ fault. IsReplayWithinFault limit fault (map T.means patches.now)) }
{
    let patch = &patches[second];
    if unite(patch, &mut joined, alloc)? {
        return Ok(joined);
    }
    drop(joined);
    let Some((first, places)) = clash_before(alloc, patches, second, limit)? else {
        unreachable!();
    };
    Err(ListFault::ConflictOf {
        first,
        second,
        places,
    })
}

// The first of the patches below number `second` that conflicts with it, and of the conflicts of the two those that the
// limit allows.
fn clash_before<T: Node>(
    alloc: Global,
    patches: &[T],
    second: usize,
    limit: usize,
) -> Result<Option<(usize, Conflicts)>, AllocError>
    requires documents { (d : T) → IsDocument (T.means d) }
    requires within { second < length patches.now }
    ensures { IfOk result (λ found.
        MatchOption found (IsFreeBelow (map T.means patches.now) second)
        (λ c. IsReportedBelow limit (map T.means patches.now) c.0 second c.1)) }
{
    let patch = &patches[second];
    for first in 0..second {
        if !are_compatible(&patches[first], patch) {
            let conflicts = conflict_within(alloc, &patches[first], patch, limit)?;
            return Ok(Some((first, conflicts)));
        }
    }
    Ok(None)
}

/// The document that the patches make of the start, if they are pairwise compatible: each replica that receives
/// them, in whatever order and with whatever repeats, ends with it. It is one application of their join; of no
/// patches it is the start.
///
/// `ConflictOf` exactly if `join_all` answers it, never `NoPatches`; `OutOfMemory` may come at any point.
///
/// ```text
/// replay(alloc, &start, &patches)  // {"a":{"x":1}} for {"k":0} and {"a":{"x":1}}, {"a":{"y":null}}, {"k":null}
/// ```
pub fn replay(alloc: Global, start: &Doc, patches: &[Doc]) -> Result<Doc, ListFault>
    ensures outcome { MatchResult result
        (λ e. IsOutcome (document start.now) (map document patches.now) (document e))
        (λ fault. IsReplayFault fault (map document patches.now)) }
    ensures depth { IfOk result (λ e. (n : ℕ) → depth (document start.now) ≤ n
        → AreNoDeeper n (map document patches.now) → depth (document e) ≤ n) }
    ensures none { patches.now ≡ [] → IfOk result (λ e. document e ≡ document start.now) }
{
    replay_owned(alloc, start.copy(alloc)?, patches)
}

/// As `replay`, of a start that is owned: its parts are moved and not copied.
pub fn replay_owned(alloc: Global, start: Doc, patches: &[Doc]) -> Result<Doc, ListFault>
    ensures outcome { MatchResult result
        (λ e. IsOutcome (document start) (map document patches.now) (document e))
        (λ fault. IsReplayFault fault (map document patches.now)) }
    ensures depth { IfOk result (λ e. (n : ℕ) → depth (document start) ≤ n
        → AreNoDeeper n (map document patches.now) → depth (document e) ≤ n) }
    ensures none { patches.now ≡ [] → IfOk result (λ e. document e ≡ document start) }
{
    match replay_within(alloc, start, patches, usize::MAX) {
        Ok(end) => Ok(end),
        Err(fault) => Err(with_all_places(fault)),
    }
}

/// As `replay_owned`, of any `Node` and within a limit in bytes on the places that are reported: `ConflictOf` has of the conflicts
/// what `join_all_within` has. A limit of `usize::MAX` is none.
///
/// `ConflictOf` exactly if `join_all_within` answers it, never `NoPatches`; `OutOfMemory` may come at any point.
///
/// ```text
/// replay_within(alloc, start, &patches, 150)  // ConflictOf of 0 and 1 with /a, of 2, for {"a":1,"b":1} and {"a":2,"b":2}
/// ```
pub fn replay_within<T: Node>(
    alloc: Global,
    start: T,
    patches: &[T],
    limit: usize,
) -> Result<T, ListFault<Conflicts>>
    ensures outcome { MatchResult result
        (λ e. IsOutcome (T.means start) (map T.means patches.now) (T.means e))
        (λ fault. IsReplayWithinFault limit fault (map T.means patches.now)) }
    ensures depth { IfOk result (λ e. (n : ℕ) → depth (T.means start) ≤ n
        → AreNoDeeper n (map T.means patches.now) → depth (T.means e) ≤ n) }
    ensures none { patches.now ≡ [] → IfOk result (λ e. T.means e ≡ T.means start) }
{
    if patches.is_empty() {
        return Ok(start);
    }
    nodes_are_documents(&start);
    let joined = join_all_within(alloc, patches, limit)?;
    Ok(merge_owned(alloc, Some(start), joined)?)
}
