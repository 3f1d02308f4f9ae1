// A JSON Patch of some thousand operations of all six kinds on a configuration.
use crate::configuration::Configuration;
use crate::digest::Digest;
use crate::numbers::Numbers;
use mp_texts::patch_text;
use std::alloc::{AllocError, Global};

/// How many operations each service gets.
const OPERATIONS: u64 = 7;

pub fn run(alloc: Global, count: u64, seed: u64, digest: &mut Digest) -> Result<(), AllocError> {
    for input in 0..count {
        let mut numbers = Numbers::new(seed, input);
        let configuration = Configuration::new(&mut numbers, 500);
        let mut document = String::new(alloc);
        configuration.push_text(&mut document)?;
        let mut operations = String::new(alloc);
        push_operations(&mut operations, &mut numbers, configuration.services)?;
        let answer = patch_text(
            alloc,
            document.as_bytes(),
            operations.as_bytes(),
            usize::MAX,
        );
        digest.add_answer(alloc, answer)?;
    }
    Ok(())
}

fn push_operations(
    text: &mut String,
    numbers: &mut Numbers,
    services: u64,
) -> Result<(), AllocError> {
    text.push_str("[{\"op\":\"add\",\"path\":\"/hosts\",\"value\":[\"front\"]}")?;
    for service in 0..services {
        push_service(text, numbers, service)?;
    }
    text.push_str("]")
}

fn push_service(text: &mut String, numbers: &mut Numbers, service: u64) -> Result<(), AllocError> {
    let drawn = numbers.below(1_000_000);
    for operation in 0..OPERATIONS {
        text.push_str(",{\"op\":")?;
        match operation {
            0 => write!(
                text,
                "\"replace\",\"path\":\"/services/svc-{service:05}/limits/limit-9\",\"value\":{drawn}}}"
            )?,
            1 => write!(
                text,
                "\"add\",\"path\":\"/services/svc-{service:05}/labels\",\"value\":{{\"tier\":\"t{drawn}\",\"x\":[]}}}}"
            )?,
            2 => write!(
                text,
                "\"copy\",\"from\":\"/services/svc-{service:05}/limits\",\"path\":\"/services/svc-{service:05}/labels/old\"}}"
            )?,
            3 => write!(
                text,
                "\"move\",\"from\":\"/services/svc-{service:05}/env/KEY_03\",\"path\":\"/services/svc-{service:05}/labels/key\"}}"
            )?,
            4 => write!(
                text,
                "\"remove\",\"path\":\"/services/svc-{service:05}/env/KEY_07\"}}"
            )?,
            5 => write!(
                text,
                "\"test\",\"path\":\"/services/svc-{service:05}/labels/tier\",\"value\":\"t{drawn}\"}}"
            )?,
            _ => write!(
                text,
                "\"add\",\"path\":\"/hosts/-\",\"value\":\"host-{drawn}.example.org\"}}"
            )?,
        }
    }
    Ok(())
}
