//! What a walk asks of a type whose values mean documents, so that each walk is written and proved once.
//! There are two such types: `Doc`, which callers build, match and keep, and `serde_json`'s `Value`, which is what a text is read
//! as. A `Value` is walked as it is, since to make a `Doc` of it first would cost as much as to read it.
ghost use Rattle.std.specs.Prelude.{◌≡◌, ◌≢◌, ◌↔◌, [], IsTrue, MatchOption, IfOk, String, Vec};
ghost use Rattle.std.specs.Borrow.{sem, LendsIf};
ghost use Rattle.std.specs.declared.alloc.Global.{Global};
ghost use Rattle.std.specs.BTreeMap.{BTreeMap};
ghost use Rattle.mp_tree.specs.Rows.{list_row_of, map_row_of};
ghost use Rattle.mp_tree.specs.Document.{Document, null, string, list, object, IsDocument};
ghost use Rattle.mp_tree.specs.Kind.{kind_document};
ghost use Rattle.mp_tree.specs.View.{document, items_by, members_by};

use crate::borrowing::{items_mut, members_mut};
use crate::comparing::is_same;
use crate::copying::copy_of;
use crate::doc::Doc;
use crate::node_kind::NodeKind;
use crate::values::{value_items_mut, value_members_mut};
use crate::walked::Walked;
use serde_json::{Map, Value};
use std::alloc::{AllocError, Global};
use std::collections::BTreeMap;

/// A node of a tree that means a document, with all that is below it: a `Doc`, or a `Value` of `serde_json`.
///
/// A function over any `Node` is one walk for both. What it answers of a `Value` is what it answers of the document that the value
/// means (a number that is not whole means 0). No method but `copied` and `to_doc` takes memory.
pub trait Node: Drop {
    ghost means: { Self → Document };

    ghost of_items: { Vec Self Global → Self };

    ghost of_members: { BTreeMap (String Global) Self → Self };

    /// What it is at its top, with what it holds borrowed.
    fn kind(&self) -> NodeKind<'_, Self>
        ensures documents { (d : Self) → IsDocument (means d) }
        ensures value { means self.now ≡ kind_document means result };

    /// Null.
    fn null() -> Self
        ensures { means result ≡ null };

    /// Whether it is null.
    #[inline(always)]
    fn is_null(&self) -> bool
        ensures { IsTrue result ↔ (means self.now ≡ null) }
    {
        match self.kind() {
            NodeKind::Null => true,
            _ => false,
        }
    }

    /// The characters of a text. None for any other document.
    #[inline(always)]
    fn text(&self) -> Option<&str>
        ensures { MatchOption result ((s : _) → means self.now ≢ string s)
            (λ s. means self.now ≡ string s.now) }
    {
        match self.kind() {
            NodeKind::Text(text) => Some(text),
            _ => None,
        }
    }

    /// The elements of an array. None for any other document.
    #[inline(always)]
    fn items(&self) -> Option<&Vec<Self>>
        ensures documents { (d : Self) → IsDocument (means d) }
        ensures value { MatchOption result ((ds : _) → means self.now ≢ list ds)
            (λ v. means self.now ≡ list (items_by means v.now.items)) }
    {
        match self.kind() {
            NodeKind::Items(elements) => Some(elements),
            _ => None,
        }
    }

    /// The members of an object. None for any other document.
    #[inline(always)]
    fn members(&self) -> Option<&BTreeMap<String, Self>>
        ensures documents { (d : Self) → IsDocument (means d) }
        ensures value { MatchOption result ((ms : _) → means self.now ≢ object ms)
            (λ m. means self.now ≡ object (members_by means m.now.entries)) }
    {
        match self.kind() {
            NodeKind::Members(entries) => Some(entries),
            _ => None,
        }
    }

    /// The elements of an array, borrowed for writing: what is left there is the document's. None for any other document.
    fn items_mut(&mut self) -> Option<&mut Vec<Self>>
        ensures* writes_back { sem 𝓛
            (LendsIf Self.row (list_row_of Self.row) self.entry result of_items self.old) }
        ensures value { MatchOption result ((ds : _) → means self.old ≢ list ds)
            (λ v. self.old ≡ of_items v.now) }
        ensures made { (v : _) → means (of_items v) ≡ list (items_by means v.items) }
        ensures documents { (d : Self) → IsDocument (means d) };

    /// The members of an object, borrowed for writing: what is left there is the document's. None for any other document.
    fn members_mut(&mut self) -> Option<&mut BTreeMap<String, Self>>
        ensures* writes_back { sem 𝓛
            (LendsIf Self.row (map_row_of Self.row) self.entry result of_members self.old) }
        ensures value { MatchOption result ((ms : _) → means self.old ≢ object ms)
            (λ m. self.old ≡ of_members m.now) }
        ensures made { (m : _) → means (of_members m) ≡ object (members_by means m.entries) }
        ensures documents { (d : Self) → IsDocument (means d) };

    /// The members of an object, moved out of it. An empty map for any other document, as RFC 7396 section 2 takes a target that is
    /// no object.
    fn into_members(self, alloc: Global) -> BTreeMap<String, Self>
        ensures object { (ms : _) → means self ≡ object ms → members_by means result.entries ≡ ms }
        ensures other { ((ms : _) → means self ≢ object ms) → result.entries ≡ [] };

    /// The object with these members, which are moved into it.
    fn from_members(entries: BTreeMap<String, Self>) -> Self
        ensures { means result ≡ object (members_by means entries.entries) };

    /// One that means an equal document, and shares nothing with this one. `AllocError` if memory ran out.
    fn copied(&self, alloc: Global) -> Result<Self, AllocError>
        ensures equal { IfOk result (λ d. means d ≡ means self.now) };

    /// The document that it means, which shares nothing with it. `AllocError` if memory ran out.
    fn to_doc(&self, alloc: Global) -> Result<Doc, AllocError>
        ensures equal { IfOk result (λ d. document d ≡ means self.now) };

    /// Whether the two mean equal documents.
    fn equals(&self, other: &Self) -> bool
        ensures { IsTrue result ↔ (means self.now ≡ means other.now) };
}

impl Node for Doc {
    ghost use Rattle.mp_tree.specs.declared.doc.Doc.TheVariants.{Items, Members};

    ghost means = { document };

    ghost of_items = { Items };

    ghost of_members = { Members };

    #[inline(always)]
    fn kind(&self) -> NodeKind<'_, Doc> {
        self.top()
    }

    #[inline(always)]
    fn null() -> Doc {
        Doc::Null
    }

    #[inline(always)]
    fn items_mut(&mut self) -> Option<&mut Vec<Doc>> {
        items_mut(self)
    }

    #[inline(always)]
    fn members_mut(&mut self) -> Option<&mut BTreeMap<String, Doc>> {
        members_mut(self)
    }

    #[inline(always)]
    fn into_members(self, alloc: Global) -> BTreeMap<String, Doc> {
        match self {
            Doc::Members(entries) => entries,
            _ => BTreeMap::new(alloc),
        }
    }

    #[inline(always)]
    fn from_members(entries: BTreeMap<String, Doc>) -> Doc
        ensures { document result ≡ object (members_by document entries.entries) }
    {
        Doc::Members(entries)
    }

    #[inline(always)]
    fn copied(&self, alloc: Global) -> Result<Doc, AllocError> {
        copy_of(self, alloc)
    }

    #[inline(always)]
    fn to_doc(&self, alloc: Global) -> Result<Doc, AllocError> {
        copy_of(self, alloc)
    }

    #[inline(always)]
    fn equals(&self, other: &Doc) -> bool {
        is_same(self, other)
    }
}

impl Node for Value {
    ghost use Rattle.mp_tree.specs.Values.{value_document};
    ghost use Rattle.serde_json.specs.declared.value.Value.TheVariants.{Array, Object};

    ghost means = { value_document };

    ghost of_items = { Array };

    ghost of_members = { Object };

    #[inline(always)]
    fn kind(&self) -> NodeKind<'_, Value> {
        self.top()
    }

    #[inline(always)]
    fn null() -> Value {
        Value::Null
    }

    #[inline(always)]
    fn items_mut(&mut self) -> Option<&mut Vec<Value>> {
        value_items_mut(self)
    }

    #[inline(always)]
    fn members_mut(&mut self) -> Option<&mut BTreeMap<String, Value>> {
        value_members_mut(self)
    }

    #[inline(always)]
    fn into_members(self, alloc: Global) -> BTreeMap<String, Value> {
        match self {
            Value::Object(entries) => entries,
            _ => Map::new(alloc),
        }
    }

    #[inline(always)]
    fn from_members(entries: BTreeMap<String, Value>) -> Value
        ensures { value_document result ≡ object (members_by value_document entries.entries) }
    {
        Value::Object(entries)
    }

    #[inline(always)]
    fn copied(&self, alloc: Global) -> Result<Value, AllocError> {
        copy_of(self, alloc)
    }

    #[inline(always)]
    fn to_doc(&self, alloc: Global) -> Result<Doc, AllocError> {
        copy_of(self, alloc)
    }

    #[inline(always)]
    fn equals(&self, other: &Value) -> bool {
        is_same(self, other)
    }
}
