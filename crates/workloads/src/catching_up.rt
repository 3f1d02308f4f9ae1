// A replica that was away: it replays thousands of small patches on its start, a tenth of which come twice.
use crate::configuration::{Configuration, patches_of};
use crate::digest::Digest;
use crate::numbers::Numbers;
use mp_texts::replay_texts;
use std::alloc::{AllocError, Global};

pub fn run(alloc: Global, count: u64, seed: u64, digest: &mut Digest) -> Result<(), AllocError> {
    for input in 0..count {
        let mut numbers = Numbers::new(seed, input);
        let configuration = Configuration::new(&mut numbers, 600);
        let many = numbers.below(6_000).wrapping_add(4_000);
        let mut start = String::new(alloc);
        configuration.push_text(&mut start)?;
        let patches = patches_of(alloc, &configuration, many)?;
        replay(alloc, start.as_str(), patches.as_slice(), digest)?;
    }
    Ok(())
}

fn replay(
    alloc: Global,
    start: &str,
    patches: &[String],
    digest: &mut Digest,
) -> Result<(), AllocError> {
    let mut texts = Vec::new(alloc);
    for patch in patches {
        texts.push(patch.as_bytes())?;
    }
    digest.add_answer(
        alloc,
        replay_texts(alloc, start.as_bytes(), texts.as_slice(), usize::MAX),
    )
}
