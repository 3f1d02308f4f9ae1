// The texts of the help: what each subcommand is for, the shape of its input with an example, and its statuses.

// What is at the head of a help, and what is at its end.
#[derive(Clone, Copy)]
pub(crate) struct HelpTexts<'a> {
    pub(crate) about: &'a str,
    pub(crate) after: &'a str,
}

pub(crate) const AFTER_HELP: &str = "\
Limits: 1,048,576 bytes of input, 127 levels of nesting, whole numbers from -2^63 to 2^64 - 1.
Status: 0 with a result; 1 there is none; 2 the input or an argument is wrong; 3 memory or a stream failed.
Each subcommand's help has its input. mergejoin-feed makes one input of several files.
mergejoin-locate shows in which of them a refusal arose, and where. REFUSALS.md, in
share/doc/mergejoin or in docs of the repository, explains each line of refusal. Version 0.4.0.";

pub(crate) const GET: HelpTexts<'static> = HelpTexts {
    about: "Print the part of a document that a JSON Pointer names",
    after: "\
Input: [document]
Example: echo '[{\"a\":[1,2]}]' | mergejoin get /a/0
Status: 0; 1 nothing is there; 2 the input or the pointer is wrong; 3 memory or a stream failed.",
};

pub(crate) const PATCH: HelpTexts<'static> = HelpTexts {
    about: "Apply a JSON Patch to a document",
    after: "\
Input: [document, JSON Patch]
Example: echo '[{\"a\":1},[{\"op\":\"remove\",\"path\":\"/a\"}]]' | mergejoin patch
Status: 0; 1 an operation is refused; 2 the input or an operation's form is wrong; 3 memory or a stream failed.",
};

pub(crate) const MERGE: HelpTexts<'static> = HelpTexts {
    about: "Apply merge patches to a document, one after another",
    after: "\
Input: [document, merge patch, ..]
Example: echo '[{\"a\":1},{\"a\":null,\"b\":2}]' | mergejoin merge
Status: 0; 2 the input is wrong; 3 memory or a stream failed.",
};

pub(crate) const JOIN: HelpTexts<'static> = HelpTexts {
    about: "Make one merge patch with the effect of several compatible ones",
    after: "\
Input: [merge patch, ..]
Example: echo '[{\"a\":1},{\"b\":null}]' | mergejoin join
Status: 0; 1 two patches conflict, or there is none; 2 the input is wrong; 3 memory or a stream failed.",
};

pub(crate) const REPLAY: HelpTexts<'static> = HelpTexts {
    about: "Apply compatible merge patches to a document, in whatever order and with whatever repeats",
    after: "\
Input: [document, merge patch, ..]
Example: echo '[{\"k\":0},{\"a\":1},{\"k\":null},{\"a\":1}]' | mergejoin replay
Status: 0; 1 two patches conflict; 2 the input is wrong; 3 memory or a stream failed.",
};

pub(crate) const REWRITE: HelpTexts<'static> = HelpTexts {
    about: "Make a JSON Patch that does to a document what a merge patch does",
    after: "\
Input: [document, merge patch]
Example: echo '[{\"a\":1},{\"a\":null}]' | mergejoin rewrite
Status: 0; 2 the input is wrong; 3 memory or a stream failed.",
};
