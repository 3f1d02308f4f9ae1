// Maps that are built whole: for ascending names that costs less than an insertion each.
ghost use Rattle.std.specs.Prelude.{◌≡◌, IfOk};
ghost use Rattle.std.specs.List.Sorted.{IsStrictlySortedBy};
ghost use Rattle.std.specs.Map.{keys_of};
ghost use Rattle.std.specs.String.{string_cmp};
ghost use Rattle.mp_tree.specs.View.{byte_entries};

use std::alloc::{AllocError, Global};
use std::collections::BTreeMap;

// Up to so many names an insertion each costs less.
pub(crate) const FEW: usize = 8;

pub(crate) fn map_of<V: Drop>(
    alloc: Global,
    pairs: Vec<(String, V)>,
) -> Result<BTreeMap<String, V>, AllocError>
    requires { IsStrictlySortedBy string_cmp (keys_of pairs.items) }
    ensures { IfOk result (λ m. byte_entries m.entries ≡ byte_entries pairs.items) }
{
    if pairs.len() <= FEW {
        return map_by_insertion(alloc, pairs);
    }
    pairs.into_iter().collect(alloc)
}

fn map_by_insertion<V: Drop>(
    alloc: Global,
    pairs: Vec<(String, V)>,
) -> Result<BTreeMap<String, V>, AllocError>
    requires { IsStrictlySortedBy string_cmp (keys_of pairs.items) }
    ensures { IfOk result (λ m. m.entries ≡ pairs.items) }
{
    let mut map = BTreeMap::new(alloc);
    for (name, value) in pairs {
        drop(map.insert(name, value)?);
    }
    Ok(map)
}
