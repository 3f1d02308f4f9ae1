// Patches that are gathered without a start, one by one.
use crate::texts::{bytes_of, patch_texts, push_apart, push_patch};
use mp_replica::{Added, LiveFault, Patches};
use mp_texts::join_texts;
use std::alloc::{AllocError, Global};

/// How many patches are joined, of so many whose texts are made one after another: of 33 bytes each, apart, or of 40.
pub fn gather(alloc: Global, apart: bool, count: u64) -> Result<Option<u64>, AllocError> {
    let mut patches = Patches::new();
    let mut taken: u64 = 0;
    for number in 0..count {
        let mut text = String::with_capacity(alloc, 64)?;
        if apart {
            push_apart(&mut text, number)?;
        } else {
            push_patch(&mut text, number)?;
        }
        if is_joined(patches.add_text(alloc, text.as_bytes())) {
            taken = taken.saturating_add(1);
        }
    }
    Ok(Some(taken))
}

fn is_joined(added: Result<Added, LiveFault>) -> bool {
    match added {
        Ok(what) => what == Added::Joined,
        Err(_) => false,
    }
}

/// The same, if two halves of the patches that are gathered apart have then, combined, the text of the join of all.
pub fn agree(alloc: Global, count: u64) -> Result<Option<u64>, AllocError> {
    let texts = patch_texts(alloc, count)?;
    let mut patches = Patches::new();
    let mut others = Patches::new();
    let mut taken: u64 = 0;
    for (number, text) in texts.iter().enumerate() {
        let half = if number % 2 == 0 {
            &mut patches
        } else {
            &mut others
        };
        if is_joined(half.add_text(alloc, text.as_bytes())) {
            taken = taken.saturating_add(1);
        }
    }
    if patches.combine(alloc, &mut others) != Added::Joined {
        return Ok(None);
    }
    let all = bytes_of(alloc, texts.as_slice())?;
    match (
        patches.text(alloc, usize::MAX),
        join_texts(alloc, all.as_slice(), usize::MAX),
    ) {
        (Ok(joined), Ok(wanted)) => Ok(if joined == wanted { Some(taken) } else { None }),
        _ => Err(AllocError),
    }
}
