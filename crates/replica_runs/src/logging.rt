// A patch log that receives messages one by one, of three senders.
use crate::texts::{bytes_of, patch_texts, push_patch, start_text};
use mp_replica::{Arrival, Identity, LiveFault, PatchLog};
use mp_texts::replay_texts;
use std::alloc::{AllocError, Global};

/// The number of the start.
const EPOCH: u64 = 1;

fn identity_of(number: u64) -> Identity {
    Identity {
        sender: number % 3,
        number: number / 3,
    }
}

fn is_stored(arrival: Result<Arrival, LiveFault>) -> bool {
    match arrival {
        Ok(what) => what == Arrival::Stored,
        Err(_) => false,
    }
}

/// How many patches are stored, of so many that a log of a start of so many bytes receives.
pub fn log(alloc: Global, bytes: u64, count: u64) -> Result<Option<u64>, AllocError> {
    let start = start_text(alloc, bytes)?;
    let Ok(mut log) = PatchLog::from_text(alloc, EPOCH, start.as_bytes()) else {
        return Err(AllocError);
    };
    let mut stored: u64 = 0;
    for number in 0..count {
        let mut text = String::with_capacity(alloc, 64)?;
        push_patch(&mut text, number)?;
        if is_stored(log.receive_text(alloc, EPOCH, identity_of(number), text.as_bytes())) {
            stored = stored.saturating_add(1);
        }
    }
    Ok(Some(stored))
}

/// The same, if the log shows then what one replay of all texts gives.
pub fn agree(alloc: Global, bytes: u64, count: u64) -> Result<Option<u64>, AllocError> {
    let start = start_text(alloc, bytes)?;
    let texts = patch_texts(alloc, count)?;
    let Ok(mut log) = PatchLog::from_text(alloc, EPOCH, start.as_bytes()) else {
        return Err(AllocError);
    };
    let mut stored: u64 = 0;
    for text in texts.iter() {
        if is_stored(log.receive_text(alloc, EPOCH, identity_of(stored), text.as_bytes())) {
            stored = stored.saturating_add(1);
        }
    }
    let all = bytes_of(alloc, texts.as_slice())?;
    match (
        log.document_text(alloc, usize::MAX),
        replay_texts(alloc, start.as_bytes(), all.as_slice(), usize::MAX),
    ) {
        (Ok(shown), Ok(replayed)) => Ok(if shown == replayed {
            Some(stored)
        } else {
            None
        }),
        _ => Err(AllocError),
    }
}
