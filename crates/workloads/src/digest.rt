// A digest of all that was answered: the hash FNV-1a with 64 bits over eight bytes at a time, and the number of bytes.
use mp_tree::{Doc, write_doc};
use std::alloc::{AllocError, Global};
use std::collections::BTreeMap;
use std::fmt::Display;

/// The digest of the answers so far.
#[derive(Drop)]
pub struct Digest {
    sum: u64,
    bytes: u64,
}

const PRIME: u64 = 0x0000_0100_0000_01b3;

impl Digest {
    /// The digest of no answer.
    pub fn new() -> Digest {
        Digest {
            sum: 0xcbf2_9ce4_8422_2325,
            bytes: 0,
        }
    }

    /// The number that tells answers apart.
    pub fn sum(&self) -> u64 {
        self.sum
    }

    /// How many bytes the answers had.
    pub fn bytes(&self) -> u64 {
        self.bytes
    }

    /// Adds a number.
    pub fn add(&mut self, number: u64) {
        self.sum = (self.sum ^ number).wrapping_mul(PRIME);
    }

    /// Adds a text and its length.
    pub fn add_text(&mut self, text: &str) {
        let mut word = 0u64;
        for (place, byte) in text.as_bytes().iter().enumerate() {
            word = word.rotate_left(8) ^ u64::from(*byte);
            if place % 8 == 7 {
                self.add(word);
                word = 0;
            }
        }
        self.add(word);
        self.add(text.len() as u64);
        self.bytes = self.bytes.wrapping_add(text.len() as u64);
    }

    /// Adds what a call answered: its text, or the words of its fault.
    pub fn add_answer<E: Display + Drop>(
        &mut self,
        alloc: Global,
        answer: Result<String, E>,
    ) -> Result<(), AllocError> {
        match answer {
            Ok(text) => self.add_text(text.as_str()),
            Err(fault) => self.add_text(format!(in alloc; "{fault}")?.as_str()),
        }
        Ok(())
    }

    /// Adds the text of a document.
    pub fn add_doc(&mut self, alloc: Global, doc: &Doc) -> Result<(), AllocError> {
        self.add_text(write_doc(alloc, doc)?.as_str());
        Ok(())
    }
}

/// Adds each part of a document, and makes no text of it: that takes little beside a copy.
#[cycle(parts)]
pub fn add_parts(digest: &mut Digest, doc: &Doc) {
    match doc {
        Doc::Null => digest.add(0),
        Doc::Flag(flag) => digest.add(1 + u64::from(*flag)),
        Doc::Whole(number) => {
            let value = number.value();
            digest.add(if value < 0 { 4 } else { 3 });
            digest.add(u64::try_from(value.unsigned_abs()).unwrap_or(0));
        }
        Doc::Text(text) => {
            digest.add(5);
            digest.add_text(text.as_str());
        }
        Doc::Items(elements) => add_items(digest, elements),
        Doc::Members(entries) => add_members(digest, entries),
    }
}

#[cycle(parts)]
fn add_items(digest: &mut Digest, elements: &Vec<Doc>) {
    digest.add(6);
    digest.add(elements.len() as u64);
    for element in elements {
        add_parts(digest, element);
    }
}

#[cycle(parts)]
fn add_members(digest: &mut Digest, entries: &BTreeMap<String, Doc>) {
    digest.add(7);
    digest.add(entries.len() as u64);
    for (name, value) in entries {
        digest.add_text(name.as_str());
        add_parts(digest, value);
    }
}
