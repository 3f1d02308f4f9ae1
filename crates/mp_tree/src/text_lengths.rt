//! How many bytes a text has, found without writing it: nothing is allocated, and the first part that is too long ends it.
ghost use Rattle.std.specs.Prelude.{◌≡◌, ◌<◌, ◌≤◌, ◌+◌, ◌-◌, ◌^◌, ◌⊎◌, ℕ, length, decimal, MatchBool, MatchOption};
ghost use Rattle.std.specs.Fmt.{signed_decimal};
ghost use Rattle.json.specs.Print.{escape_byte, quoted};
ghost use Rattle.mp_tree.specs.Document.{flag as flag_document, whole as whole_document};
ghost use Rattle.mp_tree.specs.Text.{text};
ghost use Rattle.mp_tree.specs.View.{items_by, members_by, number_of};
ghost use Rattle.mp_tree.specs.Private.Lengths.{bracketed, items_length, members_length};

use crate::node::Node;
use crate::node_kind::NodeKind;
use crate::whole::Whole;
use itoa::Buffer;
use std::collections::BTreeMap;

// Whether the text has more bytes than the limit. With `usize::MAX` nothing is measured.
pub(crate) fn is_longer<T: Node>(node: &T, limit: usize) -> bool
    ensures { MatchBool result (limit < length (text (T.means node.now)))
        ((limit ≡ 2 ^ 64 - 1) ⊎ (length (text (T.means node.now)) ≤ limit)) }
{
    if limit == usize::MAX {
        return false;
    }
    left_of_text(node, limit).is_none()
}

// What remains of so many bytes after the text. None if it has more.
#[cycle(measure)]
pub(crate) fn left_of_text<T: Node>(node: &T, budget: usize) -> Option<usize>
    ensures { MatchOption result (budget < length (text (T.means node.now)))
        (λ left. left + length (text (T.means node.now)) ≡ budget) }
{
    match node.kind() {
        NodeKind::Null => budget.checked_sub(4),
        NodeKind::Flag(flag) => budget.checked_sub(flag_length(flag)),
        NodeKind::Whole(whole) => budget.checked_sub(whole_length(whole)),
        NodeKind::Text(plain) => left_of_quoted(plain, budget),
        NodeKind::Items(elements) => left_of_elements(elements, budget),
        NodeKind::Members(entries) => left_of_entries(entries, budget),
    }
}

#[cycle(measure)]
fn left_of_elements<T: Node>(elements: &Vec<T>, budget: usize) -> Option<usize>
    ensures { MatchOption result
        (budget < bracketed (items_length (items_by T.means elements.now.items)))
        (λ left. left + bracketed (items_length (items_by T.means elements.now.items))
        ≡ budget) }
{
    let mut left = budget.checked_sub(1)?;
    for element in elements {
        left = left_of_text(element, left)?.checked_sub(1)?;
    }
    after_bracket(budget, left)
}

#[cycle(measure)]
fn left_of_entries<T: Node>(entries: &BTreeMap<String, T>, budget: usize) -> Option<usize>
    ensures { MatchOption result
        (budget < bracketed (members_length (members_by T.means entries.now.entries)))
        (λ left. left + bracketed (members_length (members_by T.means entries.now.entries))
        ≡ budget) }
{
    let mut left = budget.checked_sub(1)?;
    for (name, value) in entries.iter() {
        let named = left_of_quoted(name.as_str(), left)?.checked_sub(1)?;
        left = left_of_text(value, named)?.checked_sub(1)?;
    }
    after_bracket(budget, left)
}

fn flag_length(flag: bool) -> usize
    ensures { result ≡ length (text (flag_document flag)) }
{
    if flag { 4 } else { 5 }
}

fn whole_length(whole: Whole) -> usize
    ensures { result ≡ length (text (whole_document (number_of whole))) }
{
    match u64::try_from(whole.value()) {
        Ok(natural) => natural_length(natural),
        Err(_) => match i64::try_from(whole.value()) {
            Ok(below_zero) => integer_length(below_zero),
            Err(_) => unreachable!(),
        },
    }
}

fn natural_length(natural: u64) -> usize
    ensures { result ≡ length (decimal natural) }
{
    let mut buffer = Buffer::new();
    buffer.format(natural).len()
}

fn integer_length(integer: i64) -> usize
    ensures { result ≡ length (signed_decimal integer) }
{
    let mut buffer = Buffer::new();
    buffer.format(integer).len()
}

// What remains after the closing bracket. It was counted with the last part, if there is one: else only the opening bracket was.
fn after_bracket(budget: usize, left: usize) -> Option<usize>
    requires { left < budget }
    ensures { (parts : ℕ) → budget ≡ left + 1 + parts
        → MatchOption result (budget < bracketed parts) (λ rest. rest + bracketed parts ≡ budget) }
{
    if left == budget - 1 {
        left.checked_sub(1)
    } else {
        Some(left)
    }
}

// A string with its quotes, escaped as it is written.
fn left_of_quoted(plain: &str, budget: usize) -> Option<usize>
    ensures { MatchOption result (budget < length (quoted plain.now))
        (λ left. left + length (quoted plain.now) ≡ budget) }
{
    let mut left = budget.checked_sub(2)?;
    for byte in plain.as_bytes() {
        left = left.checked_sub(escaped_length(*byte))?;
    }
    Some(left)
}

/// How many bytes a byte of a text takes in a JSON string (RFC 8259 section 7): 2 for a quote, a backslash and the five control
/// characters with a short escape, 6 for each other control character, and else 1. Takes no memory.
#[tactic(auto, unfolding(json::specs::Print::escape_byte))]
pub fn escaped_length(byte: u8) -> usize
    ensures length { result ≡ length (escape_byte byte) }
{
    match byte {
        b'"' => 2,
        b'\\' => 2,
        8 => 2,
        b'\t' => 2,
        b'\n' => 2,
        12 => 2,
        b'\r' => 2,
        _ => if byte < 0x20 { 6 } else { 1 },
    }
}
