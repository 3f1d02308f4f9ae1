// Nodes as serde's data: what a serializer is sent of one, which is what it is sent of the document that it means.
ghost use Rattle.std.specs.Prelude.{OnOk};
ghost use Rattle.serde_json.specs.Data.{array, number, object};
ghost use Rattle.serde_json.specs.Events.{SendsValue};
ghost use Rattle.serde_json.specs.Find.{of_integer};
ghost use Rattle.mp_tree.specs.Text.{data_of, items_data, members_data};
ghost use Rattle.mp_tree.specs.View.{document, items_by, members_by, number_of};

use crate::doc::Doc;
use crate::node::Node;
use crate::node_kind::NodeKind;
use crate::whole::Whole;
use serde::{Described, Serialize, Serializer};
use std::collections::BTreeMap;

impl Described for Doc {
    ghost writes = { λ d. SendsValue (data_of (document d)) };
}

impl Serialize for Doc {
    fn serialize<S: Serializer>(&self, out: &mut S) -> Result<(), S::Error> {
        send(self, out)
    }
}

// A node, to be sent as the document that it means.
#[derive(Drop)]
pub(crate) struct Written<'a, T> {
    pub(crate) node: &'a T,
}

impl<T: Node> Described for Written<'_, T> {
    ghost writes = { λ w. SendsValue (data_of (T.means w.node.now)) };
}

impl<T: Node> Serialize for Written<'_, T> {
    fn serialize<S: Serializer>(&self, out: &mut S) -> Result<(), S::Error> {
        send(self.node, out)
    }
}

#[cycle(send)]
#[inline(always)]
fn send<T: Node, S: Serializer>(node: &T, out: &mut S) -> Result<(), S::Error>
    ensures { OnOk result (SendsValue (data_of (T.means node.now))
        (S.written out.old) (S.written out.new)) }
{
    match node.kind() {
        NodeKind::Null => out.unit(),
        NodeKind::Flag(flag) => out.bool(flag),
        NodeKind::Whole(whole) => send_whole(whole, out),
        NodeKind::Text(text) => out.str(text),
        NodeKind::Items(elements) => send_items(elements, out),
        NodeKind::Members(entries) => send_members(entries, out),
    }
}

fn send_whole<S: Serializer>(whole: Whole, out: &mut S) -> Result<(), S::Error>
    ensures { OnOk result (SendsValue (number (of_integer (number_of whole)))
        (S.written out.old) (S.written out.new)) }
{
    match u64::try_from(whole.value()) {
        Ok(natural) => out.u64(natural),
        Err(_) => match i64::try_from(whole.value()) {
            Ok(below_zero) => out.i64(below_zero),
            Err(_) => unreachable!(),
        },
    }
}

#[cycle(send)]
fn send_items<T: Node, S: Serializer>(elements: &Vec<T>, out: &mut S) -> Result<(), S::Error>
    ensures { OnOk result (SendsValue (array (items_data (items_by T.means elements.now.items)))
        (S.written out.old) (S.written out.new)) }
{
    out.begin_seq(Some(elements.len()))?;
    for element in elements {
        send(element, out)?;
    }
    out.end_seq()
}

#[cycle(send)]
fn send_members<T: Node, S: Serializer>(
    entries: &BTreeMap<String, T>,
    out: &mut S,
) -> Result<(), S::Error>
    ensures { OnOk result
        (SendsValue (object (members_data (members_by T.means entries.now.entries)))
        (S.written out.old) (S.written out.new)) }
{
    out.begin_map(Some(entries.len()))?;
    for (name, value) in entries.iter() {
        out.key(name.as_str())?;
        send(value, out)?;
    }
    out.end_map()
}
