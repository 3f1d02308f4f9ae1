// HTTP's PATCH: a stored document and a small merge patch are read, merged and written, each time others. Every second request
// is answered by the program's own command.
use crate::configuration::Configuration;
use crate::digest::Digest;
use crate::numbers::Numbers;
use mp_cli::{Command, answer};
use mp_texts::merge_texts;
use std::alloc::{AllocError, Global};

pub fn run(alloc: Global, count: u64, seed: u64, digest: &mut Digest) -> Result<(), AllocError> {
    for input in 0..count.saturating_mul(100) {
        let mut numbers = Numbers::new(seed, input);
        let configuration = Configuration::new(&mut numbers, 33);
        if input % 2 == 0 {
            merge(alloc, &configuration, input, digest)?;
        } else {
            command(alloc, &configuration, input, digest)?;
        }
    }
    Ok(())
}

fn merge(
    alloc: Global,
    configuration: &Configuration,
    number: u64,
    digest: &mut Digest,
) -> Result<(), AllocError> {
    let mut document = String::new(alloc);
    configuration.push_text(&mut document)?;
    let mut patch = String::new(alloc);
    configuration.push_patch(&mut patch, number)?;
    let patches = [patch.as_bytes()];
    digest.add_answer(
        alloc,
        merge_texts(alloc, document.as_bytes(), &patches, usize::MAX),
    )
}

fn command(
    alloc: Global,
    configuration: &Configuration,
    number: u64,
    digest: &mut Digest,
) -> Result<(), AllocError> {
    let mut input = String::new(alloc);
    input.push_str("[")?;
    configuration.push_text(&mut input)?;
    input.push_str(",")?;
    configuration.push_patch(&mut input, number)?;
    input.push_str("]")?;
    let answer = answer(alloc, &Command::Merge, input.as_bytes())?;
    digest.add(u64::from(answer.status));
    digest.add_text(answer.text.as_str());
    Ok(())
}
