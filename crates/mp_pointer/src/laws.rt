//! Laws of pointers alone: each function runs nothing, and its contract is the law.
ghost use Rattle.mp_pointer.specs.Laws.{ComparesTokens, EqualsByPart, HasOnePointerFault, HasOneSpelling, NamesElements, NamesNothingElse, NumeralsArePrinted, PartsAreDocuments, PartsAreReadable, PartsAreShallower, SpellingsAreTexts, SpellingsHaveNoFault, SpellsOneIndex, SpellsOrIsFaulty, TokensAreTexts, WeighsByPart};

/// `==` of pointers is equality of their tokens.
pub fn equal_tokens()
    ensures { ComparesTokens }
{}

/// Different lists of tokens have different spellings (RFC 6901 section 3).
pub fn one_spelling()
    ensures { HasOneSpelling }
{}

/// Each text spells a list of tokens or has an error other than out of memory (RFC 6901 section 3).
pub fn spells_or_is_faulty()
    ensures { SpellsOrIsFaulty }
{}

/// A text that spells a list of tokens has no error but out of memory.
pub fn spellings_have_no_fault()
    ensures { SpellingsHaveNoFault }
{}

/// A text has one error at most, unless memory runs out. So `Pointer::parse` has one answer to each text.
pub fn one_fault()
    ensures { HasOnePointerFault }
{}

/// A token spells one index at most (RFC 6901 section 4).
pub fn one_index()
    ensures { SpellsOneIndex }
{}

/// The token of an index that fits a `usize` is the number as `Display` prints it.
pub fn numerals_are_printed()
    ensures { NumeralsArePrinted }
{}

/// In an array, the token that spells an index names the element at that place, and nothing if there is none
/// (RFC 6901 section 4).
pub fn indices_name_elements()
    ensures { NamesElements }
{}

/// In an array, a token that spells no index, as `-` or `01`, names nothing (RFC 6901 section 4).
pub fn other_tokens_name_nothing()
    ensures { NamesNothingElse }
{}

/// A part of a document is a document: in it too each object has its names once, in ascending order.
pub fn parts_are_documents()
    ensures { PartsAreDocuments }
{}

/// The depth of a part and the tokens that lead to it are together at most the depth of the document.
pub fn parts_are_shallower()
    ensures { PartsAreShallower }
{}

/// Documents that differ only at one place and have the same part there are equal (RFC 6901 section 4).
pub fn equal_by_part()
    ensures { EqualsByPart }
{}

/// A part of what can be read can be read, and written: its texts are UTF-8 and its numbers within the rule too.
pub fn parts_are_readable()
    ensures { PartsAreReadable }
{}

/// Tokens that are UTF-8, as names are, are spelled in UTF-8.
pub fn spellings_are_texts()
    ensures { SpellingsAreTexts }
{}

/// Tokens that are spelled in UTF-8 are UTF-8: so those of a pointer in a JSON text can be names.
pub fn tokens_are_texts()
    ensures { TokensAreTexts }
{}

/// If two documents differ only at one place, the difference of their weights is that of their parts there.
pub fn weights_by_part()
    ensures { WeighsByPart }
{}
