// Patches as serde's data: what a serializer is sent of one (RFC 6902 sections 3 and 4).
ghost use Rattle.std.specs.Prelude.{OnOk};
ghost use Rattle.serde_json.specs.Events.{SendsValue};
ghost use Rattle.mp_tree.specs.Document.{object, string};
ghost use Rattle.mp_tree.specs.Text.{data_of};
ghost use Rattle.mp_tree.specs.View.{members_of};
ghost use Rattle.mp_pointer.specs.Spelling.{spell};
ghost use Rattle.mp_patch.specs.Form.{shapes};
ghost use Rattle.mp_patch.specs.Private.Shapes.{shown};
ghost use Rattle.mp_patch.specs.View.{operations_of};

use crate::op::Op;
use crate::patch::JsonPatch;
use crate::shape::{Shape, shape_of};
use mp_pointer::Pointer;
use serde::{Described, Serialize, Serializer};
use std::alloc::Global;

impl Described for JsonPatch {
    ghost writes = { λ p. SendsValue (data_of (shapes (operations_of p))) };
}

impl Serialize for JsonPatch {
    fn serialize<S: Serializer>(&self, out: &mut S) -> Result<(), S::Error> {
        send_operations(self.ops(), self.allocator(), out)
    }
}

fn send_operations<S: Serializer>(ops: &[Op], alloc: Global, out: &mut S) -> Result<(), S::Error>
    ensures { OnOk result (SendsValue (data_of (shapes (operations_of ops.now)))
        (S.written out.old) (S.written out.new)) }
{
    out.begin_seq(Some(ops.len()))?;
    for op in ops {
        send(&shape_of(op), alloc, out)?;
    }
    out.end_seq()
}

// Names are sent in the order of their bytes, as a document has them.
fn send<S: Serializer>(shape: &Shape<'_>, alloc: Global, out: &mut S) -> Result<(), S::Error>
    ensures { OnOk result (SendsValue (data_of (object (members_of (shown shape.now))))
        (S.written out.old) (S.written out.new)) }
{
    out.begin_map(Some(shape.len()))?;
    if let Some(origin) = shape.origin {
        out.key("from")?;
        send_pointer(origin, alloc, out)?;
    }
    out.key("op")?;
    out.str(shape.name.as_str())?;
    out.key("path")?;
    send_pointer(shape.path, alloc, out)?;
    if let Some(value) = shape.value {
        out.key("value")?;
        value.serialize(out)?;
    }
    out.end_map()
}

fn send_pointer<S: Serializer>(
    pointer: &Pointer,
    alloc: Global,
    out: &mut S,
) -> Result<(), S::Error>
    ensures { OnOk result (SendsValue (data_of (string (spell pointer.now)))
        (S.written out.old) (S.written out.new)) }
{
    match pointer.print(alloc) {
        Ok(text) => out.str(text.as_str()),
        Err(_) => Err(out.custom("out of memory")),
    }
}
