// The part that an operation reads.
ghost use Rattle.std.specs.Prelude.{◌≡◌, option_map};
ghost use Rattle.mp_pointer.specs.Part.{part};

use mp_pointer::{Pointer, part_in};
use mp_tree::Node;

pub(crate) fn part_at<'a, T: Node>(doc: &'a T, path: &Pointer) -> Option<&'a T>
    ensures { option_map (λ n. T.means n.now) result ≡ part (T.means doc.now) path.now }
{
    part_in(doc, path, path.len())
}
