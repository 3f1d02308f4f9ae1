// A server that has a document in memory and takes patches one by one; each thousandth is tried on a copy first.
use crate::configuration::Configuration;
use crate::digest::{Digest, add_parts};
use crate::flat::read;
use crate::numbers::Numbers;
use mp_merge::{merge, merge_into};
use mp_tree::Doc;
use std::alloc::{AllocError, Global};

/// How many patches a document takes.
const PATCHES: u64 = 10_000;

pub fn run(alloc: Global, count: u64, seed: u64, digest: &mut Digest) -> Result<(), AllocError> {
    for input in 0..count {
        let mut numbers = Numbers::new(seed, input);
        let configuration = Configuration::new(&mut numbers, 500);
        let mut text = String::new(alloc);
        configuration.push_text(&mut text)?;
        let mut doc = read(alloc, text.as_str())?;
        for number in 0..PATCHES {
            receive(alloc, &configuration, number, &mut doc, digest)?;
        }
        digest.add_doc(alloc, &doc)?;
    }
    Ok(())
}

fn receive(
    alloc: Global,
    configuration: &Configuration,
    number: u64,
    doc: &mut Doc,
    digest: &mut Digest,
) -> Result<(), AllocError> {
    let mut text = String::with_capacity(alloc, 200)?;
    configuration.push_patch(&mut text, number)?;
    let patch = read(alloc, text.as_str())?;
    if number % 1_000 == 0 {
        let copy = merge(alloc, Some(doc), &patch)?;
        add_parts(digest, &copy);
    }
    merge_into(alloc, doc, &patch)
}
