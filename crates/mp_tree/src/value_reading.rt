// Values from JSON texts: what `serde_json` reads is kept as it is, and its arrays without spare places if memory allows.
ghost use Rattle.std.specs.Prelude.{◌≡◌, ◌≤◌, ◌↔◌, None, Some, IsSome, IsTrue, Err, IfOk};
ghost use Rattle.serde_json.specs.Read.{max_depth};
ghost use Rattle.mp_tree.specs.Document.{depth, depth_limit};
ghost use Rattle.mp_tree.specs.Values.{value_document};
ghost use Rattle.mp_tree.specs.Text.{data_in, read};

use crate::converting::Unread;
use crate::reading::{DEPTH_LIMIT, read_json};
use crate::trimming::trim;
use crate::value_walks::{Reading, reading_of};
use serde_json::Value;
use std::alloc::Global;

// The levels of the deepest value that `serde_json` reads: one below those of a document.
const LEVELS: u32 = DEPTH_LIMIT + 1;

// What was read: a value whose numbers are whole, and whether it is as shallow as a document that is read on its own.
#[derive(Drop)]
pub(crate) struct Tree {
    pub(crate) value: Value,
    pub(crate) fits: bool,
}

pub(crate) fn read_tree(alloc: Global, bytes: &[u8]) -> Result<Tree, Unread>
    ensures ok { IfOk result (λ t. read bytes.now ≡ Some (value_document t.value)) }
    ensures fits { IfOk result (λ t.
        IsTrue t.fits ↔ (depth (value_document t.value) ≤ depth_limit)) }
    ensures nests { IfOk result (λ t. depth (value_document t.value) ≤ max_depth) }
    ensures not_json { result ≡ Err Unread.NotJson → data_in bytes.now ≡ None }
    ensures not_whole { result ≡ Err Unread.NotWhole
        → (IsSome (data_in bytes.now) × (read bytes.now ≡ None)) }
{
    let mut value = read_json(alloc, bytes)?;
    let mut left = DEPTH_LIMIT;
    let fits = match reading_of(&value, DEPTH_LIMIT, &mut left) {
        Reading::Fits => true,
        Reading::TooDeep => false,
        Reading::NotWhole => return Err(Unread::NotWhole),
    };
    let levels = if left == 0 {
        LEVELS
    } else {
        DEPTH_LIMIT.saturating_sub(left)
    };
    trim(&mut value, levels, alloc);
    Ok(Tree { value, fits })
}
