// Inputs on which a walk, an index or a block that suits the others may cost much.
use crate::digest::Digest;
use crate::numbers::Numbers;
use crate::{arrays, flat, nested};
use std::alloc::{AllocError, Global};

pub fn run(alloc: Global, count: u64, seed: u64, digest: &mut Digest) -> Result<(), AllocError> {
    for input in 0..count {
        let mut numbers = Numbers::new(seed, input);
        flat::run(alloc, &mut numbers, digest)?;
        nested::run(alloc, &mut numbers, digest)?;
        arrays::run(alloc, &mut numbers, digest)?;
    }
    Ok(())
}
