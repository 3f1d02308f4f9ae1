// How an operation is written (RFC 6902 sections 3 and 4), as a document or to a serializer.
ghost use Rattle.std.specs.Prelude.{◌≡◌, length};
ghost use Rattle.mp_patch.specs.Form.{needed_members};
ghost use Rattle.mp_patch.specs.Private.Shapes.{shown};
ghost use Rattle.mp_patch.specs.View.{operation_of};

use crate::name::OpName;
use crate::op::Op;
use mp_pointer::Pointer;
use mp_tree::Doc;

// The members of an operation: `op`, `path`, `from` if there is an origin, and `value` if there is one.
#[derive(Clone, Copy)]
pub(crate) struct Shape<'a> {
    pub(crate) name: OpName,
    pub(crate) path: &'a Pointer,
    pub(crate) origin: Option<&'a Pointer>,
    pub(crate) value: Option<&'a Doc>,
}

pub(crate) fn shape_of(op: &Op) -> Shape<'_>
    ensures { shown result ≡ needed_members (operation_of op.now) }
{
    let (name, path, origin, value) = match op {
        Op::Add(path, value) => (OpName::Add, path, None, Some(value)),
        Op::Remove(path) => (OpName::Remove, path, None, None),
        Op::Replace(path, value) => (OpName::Replace, path, None, Some(value)),
        Op::Move { origin, path } => (OpName::Move, path, Some(origin), None),
        Op::Copy { origin, path } => (OpName::Copy, path, Some(origin), None),
        Op::Test(path, value) => (OpName::Test, path, None, Some(value)),
    };
    Shape {
        name,
        path,
        origin,
        value,
    }
}

impl Shape<'_> {
    // How many members there are.
    pub(crate) fn len(&self) -> usize
        ensures { result ≡ length (shown self.now) }
    {
        2 + usize::from(self.origin.is_some()) + usize::from(self.value.is_some())
    }
}
