//! Documents: copies, equality and depth.
ghost use Rattle.std.specs.Prelude.{◌≡◌, ◌≤◌, ◌<◌, ◌+◌, ◌↔◌, length, IfOk, IsTrue, MatchOption};

use crate::comparing::is_same;
use crate::copying::copy_of;
use crate::measuring::is_within;
use crate::text_lengths::left_of_text;
use crate::weighing::left_of;
use crate::whole::Whole;
use std::alloc::{AllocError, Global};
use std::collections::BTreeMap;

/// A JSON document (RFC 8259) whose numbers are whole: what replicas keep, and what a merge patch is written as.
///
/// `Members` has each name once, in the order of the names' UTF-8 bytes.
#[derive(Debug, Drop)]
pub enum Doc {
    /// `null`
    Null,
    /// `true` or `false`
    Flag(bool),
    /// a number (RFC 8259 section 6), a whole one
    Whole(Whole),
    /// a string (RFC 8259 section 7)
    Text(String),
    /// an array (RFC 8259 section 5)
    Items(Vec<Doc>),
    /// an object (RFC 8259 section 4)
    Members(BTreeMap<String, Doc>),
}

impl Doc {
    ghost use Rattle.mp_tree.specs.Document.{depth};
    ghost use Rattle.mp_tree.specs.Text.{text as compact};
    ghost use Rattle.mp_tree.specs.Weight.{weight};
    ghost use Rattle.mp_tree.specs.View.{document};

    /// An equal document, which shares nothing with this one. `AllocError` if memory ran out.
    ///
    /// ```text
    /// doc.copy(alloc)?.same(&doc)  // true
    /// ```
    #[inline(always)]
    pub fn copy(&self, alloc: Global) -> Result<Doc, AllocError>
        ensures equal { IfOk result (λ d. document d ≡ document self.now) }
    {
        copy_of(self, alloc)
    }

    /// Whether the two are equal: texts by their characters, numbers by value, arrays element by element in order,
    /// objects by their names and values (RFC 8259; the sameness of RFC 6902 section 4.6).
    ///
    /// It takes no memory, looks at each part once at most, and stops at the first difference.
    ///
    /// ```text
    /// // where `one` was read from {"b":1,"a":null}, and `two` from {"a":null,"b":1}
    /// one.same(&two)  // true
    /// ```
    pub fn same(&self, other: &Doc) -> bool
        ensures same { IsTrue result ↔ (document self.now ≡ document other.now) }
    {
        is_same(self, other)
    }

    /// Whether the depth is at most `limit`. A scalar has depth 0; an array or an object is one deeper than its deepest
    /// part, and 1 if it is empty.
    ///
    /// It takes no memory, looks at each part once at most, and stops at the first part that is too deep.
    ///
    /// ```text
    /// Doc::Items(Vec::new(alloc)).fits(0)  // false
    /// Doc::Items(Vec::new(alloc)).fits(1)  // true
    /// ```
    pub fn fits(&self, limit: u32) -> bool
        ensures fits { IsTrue result ↔ (depth (document self.now) ≤ limit) }
    {
        is_within(self, limit)
    }

    /// What remains of a budget in bytes once the weight of this document is taken from it: the budget less the weight. None
    /// exactly if the document weighs more. `left_of` says what a weight is.
    ///
    /// It takes no memory, looks at each part once at most, and stops at the first part that is too heavy.
    ///
    /// ```text
    /// Doc::Null.left_of(100)  // Some(60)
    /// Doc::Null.left_of(39)   // None
    /// ```
    pub fn left_of(&self, budget: usize) -> Option<usize>
        ensures left { MatchOption result (budget < weight (document self.now))
            (λ left. left + weight (document self.now) ≡ budget) }
    {
        left_of(self, budget)
    }

    /// What remains of a budget in bytes once the text of this document, as `write_doc` writes it, is taken from it: the budget
    /// less the length. None exactly if the text is longer.
    ///
    /// It takes no memory, looks at each part once at most, and stops at the first part that is too long.
    ///
    /// ```text
    /// Doc::Null.left_of_text(10)  // Some(6)
    /// Doc::Null.left_of_text(3)   // None
    /// ```
    pub fn left_of_text(&self, budget: usize) -> Option<usize>
        ensures left { MatchOption result (budget < length (compact (document self.now)))
            (λ left. left + length (compact (document self.now)) ≡ budget) }
    {
        left_of_text(self, budget)
    }
}
