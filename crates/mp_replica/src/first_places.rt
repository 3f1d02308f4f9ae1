//! The places of a conflict that come first, as many as may be held.
ghost use Rattle.mp_merge.specs.Within.{places_weight};
ghost use Rattle.std.specs.Prelude.{◌≡◌, ◌<◌, ◌+◌, MatchOption};

use mp_pointer::Pointer;

// What the places of a conflict that are held weigh at most, in bytes.
pub(crate) const PLACES_BOUND: usize = 65_536;

/// Of the places at which two patches conflict, in the order of paths, those that come first: as many as weigh at most 65,536
/// bytes together. A place weighs 128 bytes, 8 for each token, and the bytes of its spelling.
#[derive(Debug, Drop)]
pub struct FirstPlaces {
    /// These places. If memory ran out while they were found, there may be none.
    pub places: Vec<Pointer>,
    /// Whether there are more.
    pub more: bool,
}

// What remains of a budget once the weight of these places is taken from it.
pub(crate) fn left_of(places: &[Pointer], budget: usize) -> Option<usize>
    ensures { MatchOption result (budget < places_weight places.now)
        (λ left. left + places_weight places.now ≡ budget) }
{
    let mut left = budget;
    for place in places {
        left = place.left_of(left)?;
    }
    Some(left)
}
