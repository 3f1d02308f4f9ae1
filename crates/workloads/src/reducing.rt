// A worker of a parallel reduce: it joins shares of 1,000 small patches, of which many are under the same objects, and then the
// joins.
use crate::digest::Digest;
use crate::numbers::{Numbers, mixed};
use mp_texts::join_texts;
use std::alloc::{AllocError, Global};

/// How many patches a share has.
const SHARE: u64 = 1_000;

/// How many users there are for each share, and names for each user.
const USERS: u64 = 40;

const NAMES: u64 = 60;

pub fn run(alloc: Global, count: u64, seed: u64, digest: &mut Digest) -> Result<(), AllocError> {
    let mut joins = Vec::new(alloc);
    let users = count.saturating_mul(USERS);
    for input in 0..count {
        let mut numbers = Numbers::new(seed, input);
        let patches = share_of(alloc, &mut numbers, seed, users)?;
        let answer = join(alloc, patches.as_slice());
        match answer {
            Ok(text) => {
                digest.add_text(text.as_str());
                joins.push(text)?;
            }
            Err(fault) => digest.add_text(format!(in alloc; "{fault}")?.as_str()),
        }
    }
    let answer = join(alloc, joins.as_slice());
    digest.add_answer(alloc, answer)
}

fn join(alloc: Global, patches: &[String]) -> Result<String, mp_texts::TextsFault> {
    let mut texts = Vec::new(alloc);
    for patch in patches {
        texts.push(patch.as_bytes())?;
    }
    join_texts(alloc, texts.as_slice(), usize::MAX)
}

fn share_of(
    alloc: Global,
    numbers: &mut Numbers,
    seed: u64,
    users: u64,
) -> Result<Vec<String>, AllocError> {
    let mut patches = Vec::new(alloc);
    for _ in 0..SHARE {
        let mut text = String::new(alloc);
        push_patch(&mut text, numbers, seed, users)?;
        patches.push(text)?;
    }
    Ok(patches)
}

// What is set at a place depends on the place alone, so that no two patches conflict.
fn push_patch(
    text: &mut String,
    numbers: &mut Numbers,
    seed: u64,
    users: u64,
) -> Result<(), AllocError> {
    let user = numbers.below(users);
    let name = numbers.below(NAMES);
    let value = mixed(seed ^ mixed(user.wrapping_mul(64) ^ name)) % 1_000_000;
    write!(
        text,
        "{{\"users\":{{\"user-{user:06}\":{{\"profile\":{{\"name-{name:02}\":"
    )?;
    if value % 5 == 0 {
        text.push_str("null")?;
    } else if value % 5 < 3 {
        write!(text, "{value}")?;
    } else {
        write!(text, "\"value {value}\"")?;
    }
    text.push_str("}}}}")
}
