// An operator turns a join of some 10,000 places into a JSON Patch for a peer, and the peer applies it.
use crate::configuration::Configuration;
use crate::digest::Digest;
use crate::numbers::Numbers;
use mp_texts::{patch_text, rewrite_text};
use std::alloc::{AllocError, Global};

pub fn run(alloc: Global, count: u64, seed: u64, digest: &mut Digest) -> Result<(), AllocError> {
    for input in 0..count {
        let mut numbers = Numbers::new(seed, input);
        let configuration = Configuration::new(&mut numbers, 600);
        let mut document = String::new(alloc);
        configuration.push_text(&mut document)?;
        let mut patch = String::new(alloc);
        configuration.push_wide_patch(&mut patch, configuration.services)?;
        publish(alloc, document.as_str(), patch.as_str(), digest)?;
    }
    Ok(())
}

fn publish(
    alloc: Global,
    document: &str,
    patch: &str,
    digest: &mut Digest,
) -> Result<(), AllocError> {
    match rewrite_text(alloc, document.as_bytes(), patch.as_bytes(), usize::MAX) {
        Ok(edits) => {
            digest.add_text(edits.as_str());
            let answer = patch_text(alloc, document.as_bytes(), edits.as_bytes(), usize::MAX);
            digest.add_answer(alloc, answer)
        }
        Err(fault) => {
            digest.add_text(format!(in alloc; "{fault}")?.as_str());
            Ok(())
        }
    }
}
