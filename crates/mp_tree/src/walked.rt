// What the walks ask of which methods of `Node` are made: such a walk cannot be over any `Node`, since it would lead back to itself.
ghost use Rattle.std.specs.Prelude.{◌≡◌, String, string_bytes};
ghost use Rattle.mp_tree.specs.Document.{Document, string, list, object};
ghost use Rattle.mp_tree.specs.Kind.{kind_document};
ghost use Rattle.mp_tree.specs.Private.Scalars.{IsScalar};
ghost use Rattle.mp_tree.specs.Values.{value_document};
ghost use Rattle.mp_tree.specs.View.{document, items_by, members_by};

use crate::converting::whole_or_zero;
use crate::doc::Doc;
use crate::node_kind::NodeKind;
use serde_json::Value;
use std::collections::BTreeMap;

pub(crate) trait Walked: Drop {
    ghost means: { Self → Document };

    fn top(&self) -> NodeKind<'_, Self>
        ensures { means self.now ≡ kind_document means result };
}

impl Walked for Doc {
    ghost means = { document };

    #[inline(always)]
    fn top(&self) -> NodeKind<'_, Doc> {
        match self {
            Doc::Null => NodeKind::Null,
            Doc::Flag(flag) => NodeKind::Flag(*flag),
            Doc::Whole(number) => NodeKind::Whole(*number),
            Doc::Text(text) => NodeKind::Text(text.as_str()),
            Doc::Items(elements) => NodeKind::Items(elements),
            Doc::Members(entries) => NodeKind::Members(entries),
        }
    }
}

impl Walked for Value {
    ghost means = { value_document };

    #[inline(always)]
    fn top(&self) -> NodeKind<'_, Value> {
        match self {
            Value::Null => NodeKind::Null,
            Value::Bool(flag) => NodeKind::Flag(*flag),
            Value::Number(number) => NodeKind::Whole(whole_or_zero(number)),
            Value::String(text) => NodeKind::Text(text.as_str()),
            Value::Array(elements) => NodeKind::Items(elements),
            Value::Object(entries) => NodeKind::Members(entries),
        }
    }
}

// What a copy of a T is made as.
pub(crate) trait CopyOf<T: Walked>: Walked {
    // Of null, a truth value or a number. Null of any other document.
    fn scalar_of(node: &T) -> Self
        ensures { IsScalar (T.means node.now) → Self.means result ≡ T.means node.now };

    fn from_text(text: String) -> Self
        ensures { Self.means result ≡ string (string_bytes text) };

    fn from_items(elements: Vec<Self>) -> Self
        ensures { Self.means result ≡ list (items_by Self.means elements.items) };

    fn from_members(entries: BTreeMap<String, Self>) -> Self
        ensures { Self.means result ≡ object (members_by Self.means entries.entries) };
}

impl<T: Walked> CopyOf<T> for Doc {
    #[inline(always)]
    fn scalar_of(node: &T) -> Doc {
        match node.top() {
            NodeKind::Flag(flag) => Doc::Flag(flag),
            NodeKind::Whole(number) => Doc::Whole(number),
            _ => Doc::Null,
        }
    }

    #[inline(always)]
    fn from_text(text: String) -> Doc {
        Doc::Text(text)
    }

    #[inline(always)]
    fn from_items(elements: Vec<Doc>) -> Doc
        ensures { document result ≡ list (items_by document elements.items) }
    {
        Doc::Items(elements)
    }

    #[inline(always)]
    fn from_members(entries: BTreeMap<String, Doc>) -> Doc
        ensures { document result ≡ object (members_by document entries.entries) }
    {
        Doc::Members(entries)
    }
}

// A number stays as it is, whole or not.
impl CopyOf<Value> for Value {
    #[inline(always)]
    fn scalar_of(node: &Value) -> Value {
        match node {
            Value::Bool(flag) => Value::Bool(*flag),
            Value::Number(number) => Value::Number(*number),
            _ => Value::Null,
        }
    }

    #[inline(always)]
    fn from_text(text: String) -> Value {
        Value::String(text)
    }

    #[inline(always)]
    fn from_items(elements: Vec<Value>) -> Value
        ensures { value_document result ≡ list (items_by value_document elements.items) }
    {
        Value::Array(elements)
    }

    #[inline(always)]
    fn from_members(entries: BTreeMap<String, Value>) -> Value
        ensures { value_document result ≡ object (members_by value_document entries.entries) }
    {
        Value::Object(entries)
    }
}
