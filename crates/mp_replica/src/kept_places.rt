//! Places that a conflict can have, as a kept form has them.
ghost use Rattle.std.specs.Prelude.{◌↔◌, IsTrue};
ghost use Rattle.mp_replica.specs.Kept.{AreKeptPlaces};
ghost use Rattle.mp_replica.specs.Private.Places.{EachPrecedes, Precedes};

use crate::first_places::{PLACES_BOUND, left_of};
use mp_pointer::Pointer;
use std::cmp::Ordering;

// Whether a conflict has these places, and perhaps more.
pub(crate) fn are_kept(places: &[Pointer], more: bool) -> bool
    ensures { IsTrue result ↔ AreKeptPlaces (record { places = places.now; more = more }) }
{
    if places.is_empty() {
        return more;
    }
    if more && places[0].is_empty() {
        return false;
    }
    rise(places) && left_of(places, PLACES_BOUND).is_some()
}

// Whether each place precedes the next.
fn rise(places: &[Pointer]) -> bool
    ensures { IsTrue result ↔ EachPrecedes places.now }
{
    for number in 1..places.len() {
        if !precedes(&places[number - 1], &places[number]) {
            return false;
        }
    }
    true
}

// Whether the first name in which the two differ is the lower one here, and neither is within the other.
fn precedes(place: &Pointer, next: &Pointer) -> bool
    ensures { IsTrue result ↔ Precedes place.now next.now }
{
    for number in 0..place.len() {
        let (Some(name), Some(other)) = (place.token(number), next.token(number)) else {
            return false;
        };
        match name.cmp(other) {
            Ordering::Less => return true,
            Ordering::Equal => {}
            Ordering::Greater => return false,
        }
    }
    false
}
