//! Laws over documents alone: each function runs nothing, and its contract is the law.
ghost use Rattle.mp_tree.specs.Laws.{DocsAreDocuments, ValuesAreDocuments, ReadsReadable, ReadsReadables, FaultsAreOfBytes, FaultsAreOfArrays, ReadsBack, ReadsUtf8Back, ReadsAnyOrder, ReadsUtf8AnyOrder, ByNameIsDocument, DocumentIsByName, ArraysReadBack, EqualTexts, EqualLooks, EqualNumbers, SameNames, SetsOneName, RemovesOneName, EqualMaps};

/// Each `Doc` means a document: each object in it is a finite map, its texts and names are UTF-8, and its numbers are
/// from -2^63 to 2^64 - 1. So the laws over documents speak of every `Doc`.
pub fn docs_are_documents()
    ensures { DocsAreDocuments }
{}

/// Each value of `serde_json` means a document: each object in it is a finite map, its texts and names are UTF-8, and
/// its numbers are from -2^63 to 2^64 - 1, since one that is not whole or not in that range means 0. So the laws over
/// documents speak of every value.
pub fn values_are_documents()
    ensures { ValuesAreDocuments }
{}

/// What is read can be read: its objects are finite maps, its texts and names are UTF-8, its numbers are whole and from
/// -2^63 to 2^64 - 1, and it is at most 126 deep; and so is each element of an array that is read. So the laws over
/// documents speak of all that is read.
pub fn readings_are_documents()
    ensures document { ReadsReadable }
    ensures elements { ReadsReadables }
{}

/// Bytes have a document or an error of their own, whatever memory there is: the definitions of what is read never give
/// out of memory. So where `read_doc` or `read_docs` answers it, it is the machine's, and a line for the input's errors
/// needs no words for it.
pub fn bytes_have_faults()
    ensures document { FaultsAreOfBytes }
    ensures elements { FaultsAreOfArrays }
{}

/// What is written for a document is read back as that document, if its objects are finite maps, its texts and names
/// are UTF-8, its numbers are whole and from -2^63 to 2^64 - 1, and it is at most 126 deep. Of the texts it is enough
/// that what is written is UTF-8, as every `String` is.
pub fn texts_read_back()
    ensures readable { ReadsBack }
    ensures utf8 { ReadsUtf8Back }
{}

/// A text may have the members of an object in any order, and a name more than once: the document is read in which each name
/// stands once, in the order of names, with its last value. Texts and numbers are as for `texts_read_back`, and the text is at
/// most 127 deep. A document, whose names are in order, is itself by name.
pub fn any_order_reads_back()
    ensures readable { ReadsAnyOrder }
    ensures utf8 { ReadsUtf8AnyOrder }
    ensures document { ByNameIsDocument }
    ensures same { DocumentIsByName }
{}

/// The texts of such documents in an array, with commas between them and white space around each, are read as these
/// documents, though the array nests one deeper than they do: so a program may make its input of texts that it has.
pub fn arrays_read_back()
    ensures { ArraysReadBack }
{}

/// Two documents are equal exactly if their texts are, where their objects are finite maps, their texts and names are
/// UTF-8, their numbers are whole and from -2^63 to 2^64 - 1, and both are at most 126 deep.
pub fn equal_texts()
    ensures { EqualTexts }
{}

/// Two documents are equal exactly if their looks are equal at every path.
pub fn equal_looks()
    ensures { EqualLooks }
{}

/// Equal numbers are equal values: `Whole::from_i64(5)` is `Whole::from_u64(5)`.
pub fn equal_numbers()
    ensures { EqualNumbers }
{}

/// An object is a finite map from names to values: two names are one name exactly if their bytes are equal; setting or
/// removing one name changes what is found there and nowhere else; and what is found decides what the map is.
pub fn objects_are_maps()
    ensures names { SameNames }
    ensures sets { SetsOneName }
    ensures removes { RemovesOneName }
    ensures equal { EqualMaps }
{}
