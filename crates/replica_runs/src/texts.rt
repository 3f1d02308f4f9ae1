// The texts of a start and of patches, no two of which conflict.
use std::alloc::{AllocError, Global};

/// About how many bytes a service of a start has.
const SERVICE: u64 = 74;

/// A start of about so many bytes: services of some 74 bytes each.
pub fn start_text(alloc: Global, bytes: u64) -> Result<String, AllocError> {
    let mut text = String::new(alloc);
    text.push_str("{")?;
    for service in 0..bytes / SERVICE {
        if service > 0 {
            text.push_str(",")?;
        }
        let port = 10_000 + service % 50_000;
        write!(
            text,
            "\"s{service:05}\":{{\"image\":\"registry/app:{service:06}\",\"ports\":[80,443,{port}],\"on\":true}}"
        )?;
    }
    text.push_str("}")?;
    Ok(text)
}

/// A patch of 40 bytes: a new name of one service, which stands in the start or is new.
pub fn push_patch(text: &mut String, number: u64) -> Result<(), AllocError> {
    let service = number % 100;
    let value = 100_000_000 + number % 100_000;
    write!(
        text,
        "{{\"s{service:05}\":{{\"settings-{number:06}\":{value}}}}}"
    )
}

/// A patch of 33 bytes that nests two objects, of a service of its own.
pub fn push_apart(text: &mut String, number: u64) -> Result<(), AllocError> {
    write!(text, "{{\"s{number:06}\":{{\"limits\":{{\"cpus\":1}}}}}}")
}

/// So many patches.
pub fn patch_texts(alloc: Global, count: u64) -> Result<Vec<String>, AllocError> {
    let mut texts = Vec::new(alloc);
    for number in 0..count {
        let mut text = String::new(alloc);
        push_patch(&mut text, number)?;
        texts.push(text)?;
    }
    Ok(texts)
}

/// The bytes of each.
pub fn bytes_of(alloc: Global, texts: &[String]) -> Result<Vec<&[u8]>, AllocError> {
    let mut all = Vec::new(alloc);
    for text in texts {
        all.push(text.as_bytes())?;
    }
    Ok(all)
}
