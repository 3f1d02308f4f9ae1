// Two flat objects of 20,000 names: names with a long common beginning, half of which both have. In one of them what both have is
// the same, in another it differs at every second name.
use crate::digest::Digest;
use crate::numbers::{Numbers, mixed};
use mp_merge::{JoinFault, compatible, conflict, join};
use mp_texts::{join_texts, write_places};
use mp_tree::{Doc, ReadFault, read_doc};
use std::alloc::{AllocError, Global};

/// How many names an object has, and at which the second begins.
const NAMES: u64 = 20_000;

const SECOND: u64 = 10_000;

pub fn run(alloc: Global, numbers: &mut Numbers, digest: &mut Digest) -> Result<(), AllocError> {
    let key = numbers.next();
    let first = object_of(alloc, key, 0, false)?;
    let second = object_of(alloc, key, SECOND, false)?;
    let clashing = object_of(alloc, key, SECOND, true)?;
    let texts = [first.as_bytes(), second.as_bytes()];
    digest.add_answer(alloc, join_texts(alloc, &texts, usize::MAX))?;
    let first = read(alloc, first.as_str())?;
    let second = read(alloc, second.as_str())?;
    let clashing = read(alloc, clashing.as_str())?;
    compare(alloc, &first, &second, digest)?;
    compare(alloc, &first, &clashing, digest)
}

/// What was made is a document.
pub fn read(alloc: Global, text: &str) -> Result<Doc, AllocError> {
    match read_doc(alloc, text.as_bytes()) {
        Ok(doc) => Ok(doc),
        Err(ReadFault::OutOfMemory) => Err(AllocError),
        Err(_) => Ok(Doc::Null),
    }
}

fn compare(alloc: Global, p: &Doc, q: &Doc, digest: &mut Digest) -> Result<(), AllocError> {
    digest.add(u64::from(compatible(p, q)));
    let places = conflict(alloc, q, p)?;
    digest.add_text(write_places(alloc, places.as_slice())?.as_str());
    match join(alloc, p, q) {
        Ok(joined) => {
            digest.add(u64::from(joined.same(p)));
            digest.add_doc(alloc, &joined)
        }
        Err(JoinFault::Conflict(places)) => {
            digest.add_text(write_places(alloc, places.as_slice())?.as_str());
            Ok(())
        }
        Err(JoinFault::OutOfMemory) => Err(AllocError),
    }
}

fn object_of(alloc: Global, key: u64, begin: u64, differs: bool) -> Result<String, AllocError> {
    let mut text = String::new(alloc);
    text.push_str("{")?;
    for name in begin..begin.saturating_add(NAMES) {
        if name > begin {
            text.push_str(",")?;
        }
        let value = mixed(key ^ name).wrapping_add(u64::from(differs && name % 2 == 0)) % 100_000;
        write!(text, "\"a-name-with-a-long-beginning-{name:06}\":{value}")?;
    }
    text.push_str("}")?;
    Ok(text)
}
