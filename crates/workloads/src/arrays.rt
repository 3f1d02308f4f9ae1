// Operations at the front, in the middle and at the end of a large array.
use crate::digest::Digest;
use crate::numbers::Numbers;
use mp_texts::patch_text;
use std::alloc::{AllocError, Global};

/// How many elements there are, and how many operations.
const ELEMENTS: u64 = 20_000;

const OPERATIONS: u64 = 1_000;

pub fn run(alloc: Global, numbers: &mut Numbers, digest: &mut Digest) -> Result<(), AllocError> {
    let mut document = String::new(alloc);
    document.push_str("{\"queue\":[0")?;
    for _ in 0..ELEMENTS {
        let value = numbers.below(100_000);
        write!(document, ",{value}")?;
    }
    document.push_str("]}")?;
    let mut operations = String::new(alloc);
    operations.push_str("[{\"op\":\"remove\",\"path\":\"/queue/0\"}")?;
    for operation in 0..OPERATIONS {
        push_operation(&mut operations, numbers, operation)?;
    }
    operations.push_str("]")?;
    digest.add_answer(
        alloc,
        patch_text(
            alloc,
            document.as_bytes(),
            operations.as_bytes(),
            usize::MAX,
        ),
    )
}

fn push_operation(
    text: &mut String,
    numbers: &mut Numbers,
    operation: u64,
) -> Result<(), AllocError> {
    let drawn = numbers.below(10_000);
    match operation % 4 {
        0 => text.push_str(",{\"op\":\"remove\",\"path\":\"/queue/0\"}"),
        1 => write!(
            text,
            ",{{\"op\":\"add\",\"path\":\"/queue/-\",\"value\":{drawn}}}"
        ),
        2 => write!(
            text,
            ",{{\"op\":\"add\",\"path\":\"/queue/{drawn}\",\"value\":[]}}"
        ),
        _ => write!(
            text,
            ",{{\"op\":\"move\",\"from\":\"/queue/{drawn}\",\"path\":\"/queue/0\"}}"
        ),
    }
}
