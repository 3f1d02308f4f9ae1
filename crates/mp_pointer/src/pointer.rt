//! Pointers: lists of tokens, and their spelling (RFC 6901 section 3).
ghost use Rattle.std.specs.Prelude.{◌≡◌, ◌≤◌, ◌<◌, ◌+◌, ◌-◌, ◌↔◌, ◌++◌, ◌∷◌, [], length, take, get_or, slice_get, IsTrue, IfOk, IfErr, IfSome, MatchOption, OnOk, OnErr, string_bytes};
ghost use Rattle.std.specs.Option.{option_copied};
ghost use Rattle.mp_tree.specs.Document.{string};
ghost use Rattle.mp_tree.specs.Text.{text as compact};
ghost use Rattle.mp_pointer.specs.Bytes.{slash};
ghost use Rattle.mp_pointer.specs.Spelling.{BeginsWith, spell, IsPointerFault, IsProperPrefix};
ghost use Rattle.mp_pointer.specs.Weight.{place_weight};

use crate::fault::PointerFault;
use crate::spelling::{
    bad_tilde, is_plain, left_of_escaped, left_of_written, pointer_after, push_escaped,
};
use std::alloc::{AllocError, Global};
use std::marker::Model;

const POINTER_WEIGHT: usize = 128;

const TOKEN_WEIGHT: usize = 8;

/// A JSON Pointer (RFC 6901): a list of tokens that leads from a document to one of its parts.
///
/// A token is the name of a member of an object or the index of an element of an array, as a text in which
/// nothing is escaped. The pointer with no token names the whole document.
///
/// ```text
/// let pointer = Pointer::parse(alloc, "/a~1b/0")?;  // the tokens `a/b` and `0`
/// let part = get(&doc, &pointer);                   // 5, where doc is {"a/b":[5]}
/// ```
// The tokens stand in one text, each after a slash, so that a copy asks for memory twice, however many there are, and
// the text is the spelling if nothing has to be escaped.
#[derive(Debug, Drop)]
pub struct Pointer {
    /// The tokens, each after a slash, with nothing escaped.
    text: String,
    /// The offset in bytes at which each token ends in the text.
    ends: Vec<usize>,
    /// True only if the text is the spelling, since nothing has to be escaped.
    is_plain: bool,
}

impl Model for Pointer {
    ghost use Rattle.std.specs.Prelude.{List, ℕ, string_bytes};
    ghost use Rattle.mp_pointer.specs.Private.Cuts.{IsKept, cut};

    ghost Value = { List (List ℕ) };

    ghost view = { λ p. cut 0 p.ends.items (string_bytes p.text) };

    ghost invariant = { λ p. IsKept p.is_plain p.ends.items (string_bytes p.text) };
}

impl Pointer {
    /// The pointer that the text spells (RFC 6901 sections 3 and 4): the empty text, or a run of tokens with a `/`
    /// before each, in which `~1` is read as `/` and `~0` as `~`.
    ///
    /// The first error that holds is answered: `NoSlash` if the text is not empty and does not begin with `/`,
    /// `BadTilde` with the offset in bytes of the first `~` that no `0` and no `1` follows; `OutOfMemory` may come at
    /// any point. Unless memory runs out, each text has one answer: `laws::spells_or_is_faulty`,
    /// `spellings_have_no_fault`, `one_spelling` and `one_fault`.
    ///
    /// ```text
    /// Pointer::parse(alloc, "/~01")  // the token `~1`
    /// Pointer::parse(alloc, "/a~2")  // Err(PointerFault::BadTilde(2))
    /// ```
    pub fn parse(alloc: Global, text: &str) -> Result<Pointer, PointerFault>
        ensures spelled { IfOk result (λ p. text.now ≡ spell p) }
        ensures fault { IfErr result (λ fault. IsPointerFault fault text.now) }
    {
        if text.is_empty() {
            return Ok(Pointer::empty(alloc));
        }
        let Some(rest) = text.strip_prefix('/') else {
            return Err(PointerFault::NoSlash);
        };
        if let Some(pointer) = Pointer::without_tildes(alloc, rest)? {
            return Ok(pointer);
        }
        match bad_tilde(text.as_bytes()) {
            Some(offset) => Err(PointerFault::BadTilde(offset)),
            None => Ok(pointer_after(alloc, rest)?),
        }
    }

    // The pointer that is spelled by a slash and then `rest`, which keeps that text as it is; None if a `~` is in it.
    fn without_tildes(alloc: Global, rest: &str) -> Result<Option<Pointer>, AllocError>
        ensures { IfOk result (λ found. IfSome found (λ p. slash ∷ rest.now ≡ spell p)) }
    {
        let mut ends = Vec::new(alloc);
        for (offset, byte) in rest.as_bytes().iter().enumerate() {
            if *byte == b'~' {
                return Ok(None);
            }
            if *byte == b'/' {
                ends.push(offset + 1)?;
            }
        }
        ends.push(rest.len() + 1)?;
        let mut text = String::with_capacity(alloc, rest.len() + 1)?;
        text.push_str("/")?;
        text.push_str(rest)?;
        Ok(Some(Pointer {
            text,
            ends,
            is_plain: true,
        }))
    }

    /// The pointer with no token, which names the whole document. Takes no memory.
    pub fn empty(alloc: Global) -> Pointer
        ensures { result ≡ [] }
    {
        Pointer {
            text: String::new(alloc),
            ends: Vec::new(alloc),
            is_plain: true,
        }
    }

    // The same, with capacity for tokens of so many bytes in all, each counted with a slash.
    pub(crate) fn with_capacity(alloc: Global, bytes: usize) -> Result<Pointer, AllocError>
        ensures { IfOk result (λ p. p ≡ []) }
    {
        Ok(Pointer {
            text: String::with_capacity(alloc, bytes)?,
            ends: Vec::new(alloc),
            is_plain: true,
        })
    }

    /// The one spelling of this pointer (RFC 6901 section 3). `AllocError` if memory ran out.
    ///
    /// ```text
    /// pointer.print(alloc)  // /a~1b/~0 for the tokens `a/b` and `~`
    /// ```
    pub fn print(&self, alloc: Global) -> Result<String, AllocError>
        ensures { IfOk result (λ text. string_bytes text ≡ spell self.now) }
    {
        if self.is_plain {
            String::from_str(alloc, self.text.as_str())
        } else {
            self.escape_tokens(alloc)
        }
    }

    // The spelling, token by token.
    fn escape_tokens(&self, alloc: Global) -> Result<String, AllocError>
        ensures { IfOk result (λ text. string_bytes text ≡ spell self.now) }
    {
        let mut text = String::new(alloc);
        for number in 0..self.len() {
            text.push('/')?;
            push_escaped(&mut text, self.token(number).unwrap())?;
        }
        Ok(text)
    }

    /// A pointer with the same tokens. `AllocError` if memory ran out.
    pub fn copy(&self, alloc: Global) -> Result<Pointer, AllocError>
        ensures { IfOk result (λ p. p ≡ self.now) }
    {
        self.front(alloc, self.len())
    }

    /// This pointer with one more token at its end, given unescaped. `AllocError` if memory ran out.
    ///
    /// ```text
    /// pointer.child(alloc, "x/")  // prints as /a/x~1, where pointer prints as /a
    /// ```
    pub fn child(&self, alloc: Global, token: &str) -> Result<Pointer, AllocError>
        ensures { IfOk result (λ p. p ≡ self.now ++ token.now ∷ []) }
    {
        let mut child = self.front_with_capacity(alloc, self.len(), token.len() + 1, 1)?;
        child.push(token)?;
        Ok(child)
    }

    /// The pointer to the same part in a document that has this one under `token`: that token, given unescaped, and
    /// then these. `AllocError` if memory ran out.
    ///
    /// ```text
    /// pointer.under(alloc, "x/")  // prints as /x~1/a, where pointer prints as /a
    /// ```
    pub fn under(self, alloc: Global, token: &str) -> Result<Pointer, AllocError>
        ensures { IfOk result (λ p. p ≡ token.now ∷ self) }
    {
        let mut pointer = Pointer::empty(alloc);
        pointer.push(token)?;
        for number in 0..self.len() {
            pointer.push(self.token(number).unwrap())?;
        }
        Ok(pointer)
    }

    /// Adds a token, given unescaped, at the end: the pointer then leads one step further into the document.
    /// `AllocError` if memory ran out: the pointer is as it was.
    ///
    /// ```text
    /// pointer.push("x/")?;  // then it prints as /a/x~1, where it printed as /a
    /// ```
    pub fn push(&mut self, token: &str) -> Result<(), AllocError>
        ensures ok { OnOk result (self.new ≡ self.old ++ token.now ∷ []) }
        ensures err { OnErr result (self.new ≡ self.old) }
    {
        self.ends.reserve(1)?;
        self.text.reserve(token.len() + 1)?;
        self.text.push_str("/")?;
        self.text.push_str(token)?;
        self.ends.push(self.text.as_str().len())?;
        self.is_plain = self.is_plain && is_plain(token);
        Ok(())
    }

    /// Takes the last token away; the pointer with no token stays as it is. Takes no memory.
    pub fn pop(&mut self)
        ensures { self.new ≡ take (length self.old - 1) self.old }
    {
        let count = self.ends.len().saturating_sub(1);
        self.text.truncate(end_of(self.ends.as_slice(), count));
        self.ends.truncate(count);
    }

    /// The pointer of the first `count` tokens, which leads to a part that holds this pointer's.
    /// `count` is at most `len()`. `AllocError` if memory ran out.
    pub fn front(&self, alloc: Global, count: usize) -> Result<Pointer, AllocError>
        requires { count ≤ length self.now }
        ensures { IfOk result (λ p. p ≡ take count self.now) }
    {
        self.front_with_capacity(alloc, count, 0, 0)
    }

    // The same, with capacity for so many bytes and tokens more.
    fn front_with_capacity(
        &self,
        alloc: Global,
        count: usize,
        bytes: usize,
        tokens: usize,
    ) -> Result<Pointer, AllocError>
        requires { count ≤ length self.now }
        ensures { IfOk result (λ p. p ≡ take count self.now) }
    {
        let end = end_of(self.ends.as_slice(), count);
        let mut text = String::with_capacity(alloc, end.saturating_add(bytes))?;
        text.push_str(&self.text.as_str()[..end])?;
        let mut ends = Vec::with_capacity(alloc, count.saturating_add(tokens))?;
        ends.extend_from_slice(&self.ends.as_slice()[..count])?;
        Ok(Pointer {
            text,
            ends,
            is_plain: self.is_plain,
        })
    }

    /// What remains of a budget in bytes once the weight of this place is taken from it: 128, 8 for each token, and the bytes
    /// of the spelling. None exactly if that is more than the budget. A weight is about what the pointer takes in memory,
    /// and never less than it takes once it is made.
    ///
    /// It takes no memory. If no token has to be escaped, it takes the same time however long the pointer is.
    ///
    /// ```text
    /// pointer.left_of(200)  // Some(62) for /a
    /// ```
    pub fn left_of(&self, budget: usize) -> Option<usize>
        ensures left { MatchOption result (budget < place_weight self.now)
            (λ left. left + place_weight self.now ≡ budget) }
    {
        let tokens = self.len().checked_mul(TOKEN_WEIGHT)?;
        let left = budget.checked_sub(POINTER_WEIGHT)?.checked_sub(tokens)?;
        self.left_of_spelling(left)
    }

    // What remains of the budget once the bytes of the spelling are taken from it.
    fn left_of_spelling(&self, budget: usize) -> Option<usize>
        ensures { MatchOption result (budget < length (spell self.now))
            (λ left. left + length (spell self.now) ≡ budget) }
    {
        if self.is_plain {
            budget.checked_sub(self.text.as_str().len())
        } else {
            self.left_of_tokens(budget)
        }
    }

    // The same, token by token.
    fn left_of_tokens(&self, budget: usize) -> Option<usize>
        ensures { MatchOption result (budget < length (spell self.now))
            (λ left. left + length (spell self.now) ≡ budget) }
    {
        let mut left = budget;
        for number in 0..self.len() {
            left = left_of_escaped(self.token(number).unwrap(), left)?;
        }
        Some(left)
    }

    /// What remains of a budget in bytes once the spelling as a JSON string, as `mp_tree::write_text` writes it, is taken from it.
    /// None exactly if that has more bytes than the budget.
    ///
    /// It takes no memory, and stops at the first byte that is too much.
    ///
    /// ```text
    /// pointer.left_of_text(10)  // Some(6) for /a, which is written "/a"
    /// ```
    pub fn left_of_text(&self, budget: usize) -> Option<usize>
        ensures left { MatchOption result (budget < length (compact (string (spell self.now))))
            (λ left. left + length (compact (string (spell self.now))) ≡ budget) }
    {
        let mut left = budget.checked_sub(2)?;
        for number in 0..self.len() {
            left = left_of_written(self.token(number).unwrap(), left)?;
        }
        Some(left)
    }

    /// How many tokens there are: 0 for the pointer to the whole document. Takes no memory.
    pub fn len(&self) -> usize
        ensures { result ≡ length self.now }
    {
        self.ends.len()
    }

    /// The token of that number, counted from 0, with nothing escaped; None exactly if `number` is not below
    /// `len()`. Takes no memory.
    pub fn token(&self, number: usize) -> Option<&str>
        ensures { option_copied result ≡ slice_get self.now number }
    {
        let ends = self.ends.as_slice();
        if number < ends.len() {
            let slash = end_of(ends, number);
            Some(&self.text.as_str()[slash + 1..ends[number]])
        } else {
            None
        }
    }

    /// Whether there is no token: the pointer then names the whole document. Takes no memory.
    pub fn is_empty(&self) -> bool
        ensures { IsTrue result ↔ (self.now ≡ []) }
    {
        self.len() == 0
    }

    /// Whether `other` begins with all tokens of this pointer and has at least one more, so that it leads further
    /// into the part that this pointer names. Takes no memory.
    ///
    /// ```text
    /// // `/a` is a proper prefix of `/a/b`, and of neither `/a` nor `/ab`.
    /// ```
    pub fn is_proper_prefix_of(&self, other: &Pointer) -> bool
        ensures { IsTrue result ↔ IsProperPrefix self.now other.now }
    {
        self.len() < other.len() && self.is_front_of(other)
    }

    // Whether `other` begins with all tokens of this pointer, and is no shorter.
    fn is_front_of(&self, other: &Pointer) -> bool
        requires { length self.now ≤ length other.now }
        ensures { IsTrue result ↔ BeginsWith other.now self.now }
    {
        for number in 0..self.len() {
            if self.token(number).unwrap() != other.token(number).unwrap() {
                return false;
            }
        }
        true
    }
}

/// Pointers are equal if they have the same tokens in the same order. Takes no memory.
impl PartialEq for Pointer {
    ghost use Rattle.mp_pointer.specs.Spelling.{are_same_tokens};
    ghost use Rattle.std.proofs.Common.{rules};
    ghost use Rattle.std.specs.Cmp.Rules.{comparing};

    ghost eq = { are_same_tokens };

    ghost laws = { Prim.search (comparing, rules) };

    fn eq(&self, other: &Pointer) -> bool {
        self.len() == other.len() && self.is_front_of(other)
    }
}

impl Eq for Pointer {
    ghost use Rattle.std.proofs.Common.{rules};
    ghost use Rattle.std.specs.Cmp.Rules.{comparing};

    ghost laws = { Prim.search (comparing, rules) };
}

// Where the first `count` tokens end.
fn end_of(ends: &[usize], count: usize) -> usize
    requires { count ≤ length ends.now }
    ensures { result ≡ get_or (0 ∷ ends.now) count 0 }
{
    if count == 0 { 0 } else { ends[count - 1] }
}
