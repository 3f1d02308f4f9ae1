// Objects of one name each: many that stand in an array, and patches that each are a chain of 120 of them; and long texts full of
// what has to be escaped.
use crate::digest::Digest;
use crate::numbers::Numbers;
use mp_texts::{join_texts, merge_texts};
use std::alloc::{AllocError, Global};

/// How many objects of one name there are, how many chains, and of how many objects each.
const OBJECTS: u64 = 60_000;

const CHAINS: u64 = 400;

const LEVELS: u64 = 120;

pub fn run(alloc: Global, numbers: &mut Numbers, digest: &mut Digest) -> Result<(), AllocError> {
    let objects = objects_of(alloc, numbers)?;
    let escaped = escaped_of(alloc, numbers)?;
    digest.add_answer(
        alloc,
        merge_texts(
            alloc,
            objects.as_bytes(),
            &[b"{\"more\":[{\"x\":1}]}"],
            usize::MAX,
        ),
    )?;
    digest.add_answer(
        alloc,
        merge_texts(
            alloc,
            escaped.as_bytes(),
            &[b"{\"more\":\"\\\"\"}"],
            usize::MAX,
        ),
    )?;
    let chains = chains_of(alloc, numbers)?;
    let mut texts = Vec::new(alloc);
    for chain in chains.as_slice() {
        texts.push(chain.as_bytes())?;
    }
    digest.add_answer(alloc, join_texts(alloc, texts.as_slice(), usize::MAX))
}

fn objects_of(alloc: Global, numbers: &mut Numbers) -> Result<String, AllocError> {
    let mut text = String::new(alloc);
    text.push_str("{\"all\":[{}")?;
    for _ in 0..OBJECTS {
        let value = numbers.below(1_000);
        write!(text, ",{{\"x\":{value}}}")?;
    }
    text.push_str("]}")?;
    Ok(text)
}

fn escaped_of(alloc: Global, numbers: &mut Numbers) -> Result<String, AllocError> {
    let mut text = String::new(alloc);
    text.push_str("{\"none\":\"\"")?;
    for name in 0..400 {
        let value = numbers.below(1_000);
        write!(text, ",\"text-{name}\":\"{value}")?;
        for _ in 0..40 {
            text.push_str("a line with a \\\"quoted\\\" word,\\n\\ta tab and a \\\\")?;
        }
        text.push_str("\"")?;
    }
    text.push_str("}")?;
    Ok(text)
}

fn chains_of(alloc: Global, numbers: &mut Numbers) -> Result<Vec<String>, AllocError> {
    let mut chains = Vec::new(alloc);
    for chain in 0..CHAINS {
        let mut text = String::new(alloc);
        write!(text, "{{\"chain-{chain:03}\":")?;
        for _ in 0..LEVELS {
            text.push_str("{\"in\":")?;
        }
        let value = numbers.below(1_000);
        write!(text, "{value}}}")?;
        for _ in 0..LEVELS {
            text.push_str("}")?;
        }
        chains.push(text)?;
    }
    Ok(chains)
}
