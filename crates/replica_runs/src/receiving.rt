// A replica that receives patches one by one.
use crate::texts::{bytes_of, patch_texts, push_patch, start_text};
use mp_replica::{LiveFault, Received, Replica};
use mp_texts::replay_texts;
use std::alloc::{AllocError, Global};

/// How many patches are shown, of so many that a replica of a start of so many bytes receives.
pub fn receive(alloc: Global, bytes: u64, count: u64) -> Result<Option<u64>, AllocError> {
    let start = start_text(alloc, bytes)?;
    let Ok(mut replica) = Replica::from_text(alloc, start.as_bytes()) else {
        return Err(AllocError);
    };
    let mut taken: u64 = 0;
    for number in 0..count {
        let mut text = String::with_capacity(alloc, 64)?;
        push_patch(&mut text, number)?;
        if is_taken(replica.receive_text(alloc, text.as_bytes())) {
            taken = taken.saturating_add(1);
        }
    }
    Ok(Some(taken))
}

fn is_taken(received: Result<Received, LiveFault>) -> bool {
    match received {
        Ok(what) => matches!(what, Received::Taken),
        Err(_) => false,
    }
}

/// The same, if the replica shows then what one replay of all texts gives.
pub fn agree(alloc: Global, bytes: u64, count: u64) -> Result<Option<u64>, AllocError> {
    let start = start_text(alloc, bytes)?;
    let texts = patch_texts(alloc, count)?;
    let Ok(mut replica) = Replica::from_text(alloc, start.as_bytes()) else {
        return Err(AllocError);
    };
    let mut taken: u64 = 0;
    for text in texts.iter() {
        if is_taken(replica.receive_text(alloc, text.as_bytes())) {
            taken = taken.saturating_add(1);
        }
    }
    let all = bytes_of(alloc, texts.as_slice())?;
    match (
        replica.document_text(alloc, usize::MAX),
        replay_texts(alloc, start.as_bytes(), all.as_slice(), usize::MAX),
    ) {
        (Ok(shown), Ok(replayed)) => Ok(if shown == replayed { Some(taken) } else { None }),
        _ => Err(AllocError),
    }
}
