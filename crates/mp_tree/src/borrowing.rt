//! What a document holds, borrowed for writing.
ghost use Rattle.std.specs.Prelude.{◌≡◌, ◌≢◌, MatchOption};
ghost use Rattle.std.specs.Borrow.{sem, LendsIf};
ghost use Rattle.mp_tree.specs.Document.{list, object};
ghost use Rattle.mp_tree.specs.View.{document};
ghost use Rattle.mp_tree.specs.declared.doc.Doc.TheVariants.{Items, Members};
ghost use Rattle.mp_tree.specs.Rows.{doc_row, items_row, members_row};

use crate::doc::Doc;
use std::collections::BTreeMap;

/// The elements of a document that is an array, borrowed for writing: what is left there is the document's. None for
/// any other document. Takes no memory.
///
/// ```text
/// items_mut(&mut doc)  // Some of the two elements, for [1,2]
/// ```
pub fn items_mut(doc: &mut Doc) -> Option<&mut Vec<Doc>>
    ensures* writes_back { sem 𝓛 (LendsIf doc_row items_row doc.entry result Items doc.old) }
    ensures value { MatchOption result ((ds : _) → document doc.old ≢ list ds)
        (λ v. doc.old ≡ Items v.now) }
{
    if let Doc::Items(elements) = doc {
        Some(elements)
    } else {
        None
    }
}

/// The members of a document that is an object, borrowed for writing: what is left there is the document's. None for any
/// other document. Takes no memory.
///
/// ```text
/// members_mut(&mut doc)  // Some of a map with one name, for {"a":1}
/// ```
pub fn members_mut(doc: &mut Doc) -> Option<&mut BTreeMap<String, Doc>>
    ensures* writes_back { sem 𝓛 (LendsIf doc_row members_row doc.entry result Members doc.old) }
    ensures value { MatchOption result ((ms : _) → document doc.old ≢ object ms)
        (λ m. doc.old ≡ Members m.now) }
{
    if let Doc::Members(entries) = doc {
        Some(entries)
    } else {
        None
    }
}
