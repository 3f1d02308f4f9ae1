//! What a node is at its top.
use crate::whole::Whole;
use std::collections::BTreeMap;

/// What a node is at its top, with what it holds borrowed: the document that the node means, of which each part is a node.
#[derive(Clone, Copy, Drop)]
pub enum NodeKind<'a, T> {
    /// `null`
    Null,
    /// `true` or `false`
    Flag(bool),
    /// a number, a whole one
    Whole(Whole),
    /// a string
    Text(&'a str),
    /// an array
    Items(&'a Vec<T>),
    /// an object
    Members(&'a BTreeMap<String, T>),
}
