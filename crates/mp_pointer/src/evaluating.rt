//! The part of a document that a pointer names (RFC 6901 section 4), read or borrowed for writing.
ghost use Rattle.std.specs.Prelude.{◌≡◌, ◌≢◌, ◌^◌, ◌≤◌, ◌↔◌, ℕ, length, take, IsTrue, slice_index, option_map, MatchOption, string_bytes};
ghost use Rattle.std.specs.Borrow.{sem};
ghost use Rattle.mp_tree.specs.View.{document};
ghost use Rattle.mp_pointer.specs.Bytes.{digit_one};
ghost use Rattle.mp_pointer.specs.Borrowing.{BorrowsPart};
ghost use Rattle.mp_pointer.specs.Part.{child, numeral, part};
ghost use Rattle.mp_pointer.specs.Private.Digits.{digit_nine};

use crate::borrowing::child_mut;
use crate::pointer::Pointer;
use mp_tree::{Doc, Node};

/// The index that a token spells (RFC 6901 section 4): `0`, or decimal digits that do not begin with `0`.
/// None for any other token, `-` among them, and for an index over `usize::MAX`.
///
/// ```text
/// index_of("10")  // Some(10)
/// index_of("01")  // None
/// ```
pub fn index_of(token: &str) -> Option<usize>
    ensures { MatchOption result ((i : ℕ) → token.now ≡ numeral i → 2 ^ 64 ≤ i)
        (λ i. token.now ≡ numeral i) }
{
    if token == "0" {
        return Some(0);
    }
    if begins_above_zero(token) {
        token.parse::<usize>().ok()
    } else {
        None
    }
}

fn begins_above_zero(token: &str) -> bool
    ensures { IsTrue result
        ↔ (digit_one ≤ slice_index token.now 0) × (slice_index token.now 0 ≤ digit_nine) }
{
    let bytes = token.as_bytes();
    !bytes.is_empty() && bytes[0] >= b'1' && bytes[0] <= b'9'
}

/// The part of the document that the pointer names, borrowed (RFC 6901 section 4): the document itself for the
/// empty pointer. None exactly if there is none: a name that an object lacks, a token that spells no index
/// of an array, or any token at a scalar. Takes no memory.
///
/// ```text
/// get(&doc, &pointer)  // for /foo/1 in {"foo":["bar","baz"]}: "baz"
/// ```
pub fn get<'a>(doc: &'a Doc, pointer: &Pointer) -> Option<&'a Doc>
    ensures { option_map (λ d. document d.now) result ≡ part (document doc.now) pointer.now }
{
    part_in(doc, pointer, pointer.len())
}

/// As `get`, of any `Node`, and of the first `count` tokens of the pointer: of all of them it is the part that the pointer
/// names, and of all but the last the one that holds it. `count` is at most `len()`. It looks up one name or one index for
/// each of these tokens, and takes no memory.
///
/// ```text
/// part_in(&node, &pointer, 2)  // for /foo/1 in {"foo":["bar","baz"]}: "baz"
/// part_in(&node, &pointer, 1)  // ["bar","baz"]
/// ```
pub fn part_in<'a, T: Node>(node: &'a T, pointer: &Pointer, count: usize) -> Option<&'a T>
    requires { count ≤ length pointer.now }
    ensures { option_map (λ n. T.means n.now) result
        ≡ part (T.means node.now) (take count pointer.now) }
{
    let mut target = node;
    for number in 0..count {
        target = child_of(target, pointer.token(number).unwrap())?;
    }
    Some(target)
}

/// The part of the document that the pointer names, borrowed for writing (RFC 6901 section 4). None exactly if `get`
/// answers None, and then nothing has changed. Once the borrow ends, the document differs from the old one at that
/// place alone, and has there what was left in the borrow. Takes no memory.
///
/// ```text
/// // {"a":[1,2]} becomes {"a":[1,null]}, where pointer is /a/1
/// if let Some(part) = get_mut(&mut doc, &pointer) {
///     *part = Doc::Null;
/// }
/// ```
// proofs/evaluating/get_mut/Proof.antt follows this body statement by statement.
pub fn get_mut<'a>(doc: &'a mut Doc, pointer: &Pointer) -> Option<&'a mut Doc>
    ensures* writes_back { sem 𝓛 (BorrowsPart pointer.now doc.entry result) }
    ensures value { option_map (λ d. document d.now) result
        ≡ part (document doc.old) pointer.now }
{
    let mut target = doc;
    for number in 0..pointer.len() {
        match child_mut(target, pointer, number) {
            Some(child) => target = child,
            None => return None,
        }
    }
    Some(target)
}

fn child_of<'a, T: Node>(node: &'a T, token: &str) -> Option<&'a T>
    ensures { option_map (λ n. T.means n.now) result ≡ child token.now (T.means node.now) }
{
    match node.items() {
        Some(elements) => elements.get(index_of(token)?),
        None => node.members()?.get(token),
    }
}
