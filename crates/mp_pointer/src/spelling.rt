// From a spelling to its tokens and back.
ghost use Rattle.std.specs.Prelude.{◌≡◌, ◌≢◌, ◌+◌, ◌++◌, ◌∷◌, ◌<◌, ◌↔◌, ◌⊎◌, ℕ, length, slice_index, IsTrue, MatchOption, IfOk, OnOk, None, string_bytes};
ghost use Rattle.json.specs.Print.{escape as in_string};
ghost use Rattle.mp_pointer.specs.Bytes.{slash, tilde, digit_zero, digit_one};
ghost use Rattle.mp_pointer.specs.Private.BadTilde.{first_bad_tilde};
ghost use Rattle.mp_pointer.specs.Private.Cuts.{IsPlain};
ghost use Rattle.mp_pointer.specs.Spelling.{escape, escaped_byte, spell, IsBadTilde, IsFirstBadTilde};

use crate::pointer::Pointer;
use mp_tree::escaped_length;
use std::alloc::{AllocError, Global};

pub(crate) fn bad_tilde(text: &[u8]) -> Option<usize>
    ensures { MatchOption result ((k : ℕ) → ¬ (IsBadTilde text.now k)) (IsFirstBadTilde text.now) }
{
    for (offset, byte) in text.iter().enumerate() {
        if *byte == b'~' && !is_escape(text, offset + 1) {
            return Some(offset);
        }
    }
    None
}

fn is_escape(text: &[u8], offset: usize) -> bool
    ensures { IsTrue result
        ↔ (slice_index text.now offset ≡ digit_zero)
        ⊎ (slice_index text.now offset ≡ digit_one) }
{
    offset < text.len() && (text[offset] == b'0' || text[offset] == b'1')
}

// The pointer that is spelled by a slash and then `rest`.
pub(crate) fn pointer_after(alloc: Global, rest: &str) -> Result<Pointer, AllocError>
    requires { first_bad_tilde rest.now ≡ None }
    ensures { IfOk result (λ p. spell p ≡ slash ∷ rest.now) }
{
    let mut pointer = Pointer::with_capacity(alloc, rest.len().saturating_add(1))?;
    let mut rest = rest;
    'parts: while let Some((part, more)) = rest.split_once('/') {
        push_unescaped(alloc, &mut pointer, part)?;
        rest = more;
    }
    push_unescaped(alloc, &mut pointer, rest)?;
    Ok(pointer)
}

// Adds the token that is spelled between two slashes.
fn push_unescaped(alloc: Global, pointer: &mut Pointer, spelled: &str) -> Result<(), AllocError>
    requires between { (k : ℕ) → k < length spelled.now → slice_index spelled.now k ≢ slash }
    requires escapes { first_bad_tilde spelled.now ≡ None }
    ensures { OnOk result (spell pointer.new ≡ spell pointer.old ++ slash ∷ spelled.now) }
{
    if is_plain(spelled) {
        return pointer.push(spelled);
    }
    pointer.push(unescape(alloc, spelled)?.as_str())
}

// Whether nothing in it is escaped, or has to be.
pub(crate) fn is_plain(text: &str) -> bool
    ensures { IsTrue result → IsPlain text.now }
{
    for byte in text.as_bytes() {
        if *byte == b'~' || *byte == b'/' {
            return false;
        }
    }
    true
}

fn unescape(alloc: Global, spelled: &str) -> Result<String, AllocError>
    requires between { (k : ℕ) → k < length spelled.now → slice_index spelled.now k ≢ slash }
    requires escapes { first_bad_tilde spelled.now ≡ None }
    ensures { IfOk result (λ token. escape (string_bytes token) ≡ spelled.now) }
{
    let mut token = String::with_capacity(alloc, spelled.len())?;
    let mut rest = spelled;
    'escapes: while let Some((plain, after)) = rest.split_once('~') {
        token.push_str(plain)?;
        if let Some(more) = after.strip_prefix('0') {
            token.push('~')?;
            rest = more;
        } else if let Some(more) = after.strip_prefix('1') {
            token.push('/')?;
            rest = more;
        } else {
            unreachable!();
        }
    }
    token.push_str(rest)?;
    Ok(token)
}

pub(crate) fn push_escaped(text: &mut String, token: &str) -> Result<(), AllocError>
    ensures { OnOk result (string_bytes text.new ≡ string_bytes text.old ++ escape token.now) }
{
    if is_plain(token) {
        text.push_str(token)?;
        return Ok(());
    }
    let mut rest = token;
    'tildes: while let Some((plain, more)) = rest.split_once('~') {
        push_without_tildes(text, plain)?;
        text.push_str("~0")?;
        rest = more;
    }
    push_without_tildes(text, rest)?;
    Ok(())
}

fn push_without_tildes(text: &mut String, token: &str) -> Result<(), AllocError>
    requires { (k : ℕ) → k < length token.now → slice_index token.now k ≢ tilde }
    ensures { OnOk result (string_bytes text.new ≡ string_bytes text.old ++ escape token.now) }
{
    let mut rest = token;
    'slashes: while let Some((plain, more)) = rest.split_once('/') {
        text.push_str(plain)?;
        text.push_str("~1")?;
        rest = more;
    }
    text.push_str(rest)?;
    Ok(())
}

// What remains of a budget once the spelling of a token, and the slash before it, are taken from it.
pub(crate) fn left_of_escaped(token: &str, budget: usize) -> Option<usize>
    ensures { MatchOption result (budget < 1 + length (escape token.now))
        (λ left. left + (1 + length (escape token.now)) ≡ budget) }
{
    let mut left = budget.checked_sub(1)?;
    for byte in token.as_bytes() {
        left = left.checked_sub(if *byte == b'~' || *byte == b'/' { 2 } else { 1 })?;
    }
    Some(left)
}

// What remains of a budget once the spelling of a token, as a JSON string has it, and the slash before it are taken from it.
pub(crate) fn left_of_written(token: &str, budget: usize) -> Option<usize>
    ensures { MatchOption result (budget < 1 + length (in_string (escape token.now)))
        (λ left. left + (1 + length (in_string (escape token.now))) ≡ budget) }
{
    let mut left = budget.checked_sub(1)?;
    for byte in token.as_bytes() {
        left = left.checked_sub(written_length(*byte))?;
    }
    Some(left)
}

// A JSON string has `~0` and `~1` as they are.
fn written_length(byte: u8) -> usize
    ensures { result ≡ length (in_string (escaped_byte byte)) }
{
    match byte {
        b'~' => 2,
        b'/' => 2,
        _ => escaped_length(byte),
    }
}
