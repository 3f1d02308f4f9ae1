// How deep a node is, if it is not too deep: nothing is allocated, and the first part that is too deep ends it.
ghost use Rattle.std.specs.Prelude.{◌≡◌, ◌≤◌, ◌<◌, MatchOption};
ghost use Rattle.mp_tree.specs.Document.{depth, items_depth, members_depth};
ghost use Rattle.mp_tree.specs.View.{items_by, members_by};

use mp_tree::Node;
use std::collections::BTreeMap;

// The depth, or None if it is over the limit. The parts that it looks at are added to `walked`.
#[cycle(measure)]
#[inline(always)]
pub(crate) fn depth_within<T: Node>(node: &T, limit: usize, walked: &mut usize) -> Option<usize>
    ensures { MatchOption result (limit < depth (T.means node.now))
        (λ n. (n ≡ depth (T.means node.now)) × (n ≤ limit)) }
{
    if let Some(elements) = node.items() {
        let deepest = depth_of_items(elements, limit.checked_sub(1)?, walked)?;
        Some(deepest + 1)
    } else if let Some(entries) = node.members() {
        let deepest = depth_of_members(entries, limit.checked_sub(1)?, walked)?;
        Some(deepest + 1)
    } else {
        Some(0)
    }
}

#[cycle(measure)]
fn depth_of_items<T: Node>(elements: &Vec<T>, limit: usize, walked: &mut usize) -> Option<usize>
    ensures { MatchOption result (limit < items_depth (items_by T.means elements.now.items))
        (λ n. (n ≡ items_depth (items_by T.means elements.now.items)) × (n ≤ limit)) }
{
    *walked = walked.saturating_add(elements.len());
    let mut deepest = 0;
    for element in elements {
        deepest = deepest.max(depth_within(element, limit, walked)?);
    }
    Some(deepest)
}

#[cycle(measure)]
fn depth_of_members<T: Node>(
    entries: &BTreeMap<String, T>,
    limit: usize,
    walked: &mut usize,
) -> Option<usize>
    ensures { MatchOption result (limit < members_depth (members_by T.means entries.now.entries))
        (λ n. (n ≡ members_depth (members_by T.means entries.now.entries)) × (n ≤ limit)) }
{
    *walked = walked.saturating_add(entries.len());
    let mut deepest = 0;
    for value in entries.values() {
        deepest = deepest.max(depth_within(value, limit, walked)?);
    }
    Some(deepest)
}
