// The configuration that several jobs work on: services of some 25 values, three objects down, and small patches of it. What a
// patch sets at a place depends on the place alone, so that two patches never conflict.
use crate::numbers::{Numbers, mixed};
use std::alloc::{AllocError, Global};

/// The values of a service: texts, then numbers, then short arrays and truth values.
const TEXTS: u64 = 9;

const COUNTS: u64 = 17;

const VALUES: u64 = 25;

/// A configuration of so many services, by its number, and what patches change in it.
#[derive(Clone, Copy)]
pub struct Configuration {
    /// The number that its values come from.
    pub key: u64,
    /// How many services it has.
    pub services: u64,
}

impl Configuration {
    /// A configuration of between `least` services and twice as many.
    pub fn new(numbers: &mut Numbers, least: u64) -> Configuration {
        Configuration {
            key: numbers.next(),
            services: least.wrapping_add(numbers.below(least)),
        }
    }

    /// Its text.
    pub fn push_text(&self, text: &mut String) -> Result<(), AllocError> {
        text.push_str("{\"revision\":1,\"services\":{")?;
        for service in 0..self.services {
            if service > 0 {
                text.push_str(",")?;
            }
            push_service(text, self.key, service)?;
        }
        text.push_str("}}")
    }

    /// A merge patch of one to three values of one service, all of one group.
    pub fn push_patch(&self, text: &mut String, number: u64) -> Result<(), AllocError> {
        let mut numbers = Numbers::new(self.key, number);
        let service = numbers.below(self.services);
        let first = numbers.below(VALUES);
        let count = numbers.below(3).wrapping_add(1);
        push_patch_head(text, service, first)?;
        for value in first..first.saturating_add(count) {
            if group_of(value) == group_of(first) && value < VALUES {
                if value > first {
                    text.push_str(",")?;
                }
                push_value(text, self.key ^ CHANGED, service, value)?;
            }
        }
        text.push_str("}}}}")
    }

    /// A merge patch that touches each of so many services at ten values: some are removed, some are new.
    pub fn push_wide_patch(&self, text: &mut String, services: u64) -> Result<(), AllocError> {
        text.push_str("{\"revision\":2,\"services\":{")?;
        for service in 0..services {
            if service > 0 {
                text.push_str(",")?;
            }
            write!(text, "\"svc-{service:05}\":{{\"limits\":{{")?;
            for value in TEXTS..COUNTS {
                push_change(text, self.key ^ CHANGED, service, value)?;
            }
            let port = mixed(service ^ self.key) % 30_000;
            write!(
                text,
                "\"port\":{port}}},\"labels\":{{\"tier\":\"t{port}\"}}}}"
            )?;
        }
        text.push_str("}}")
    }
}

/// What sets the values of patches apart from those of the start.
const CHANGED: u64 = 0x5bd1_e995;

/// The texts of so many patches, each with its text alone: a tenth of them comes twice, the second time later.
pub fn patches_of(
    alloc: Global,
    configuration: &Configuration,
    count: u64,
) -> Result<Vec<String>, AllocError> {
    let mut patches = Vec::new(alloc);
    for number in 0..count {
        let mut text = String::new(alloc);
        let first = if number % 10 == 9 {
            number.saturating_sub(number % 97)
        } else {
            number
        };
        configuration.push_patch(&mut text, first)?;
        patches.push(text)?;
    }
    Ok(patches)
}

fn push_service(text: &mut String, key: u64, service: u64) -> Result<(), AllocError> {
    write!(text, "\"svc-{service:05}\":{{\"env\":{{")?;
    for value in 0..VALUES {
        if value == TEXTS {
            text.push_str("},\"limits\":{")?;
        } else if value == COUNTS {
            text.push_str("},\"state\":{")?;
        } else if value > 0 {
            text.push_str(",")?;
        }
        push_value(text, key, service, value)?;
    }
    text.push_str("}}")
}

fn push_patch_head(text: &mut String, service: u64, value: u64) -> Result<(), AllocError> {
    let group = match group_of(value) {
        0 => "env",
        1 => "limits",
        _ => "state",
    };
    write!(
        text,
        "{{\"services\":{{\"svc-{service:05}\":{{\"{group}\":{{"
    )
}

fn group_of(value: u64) -> u8 {
    if value < TEXTS {
        0
    } else if value < COUNTS {
        1
    } else {
        2
    }
}

/// A name and its value.
fn push_value(text: &mut String, key: u64, service: u64, value: u64) -> Result<(), AllocError> {
    let drawn = mixed(key ^ mixed(service.wrapping_mul(32) ^ value));
    let small = drawn % 10_000;
    if value < TEXTS {
        let large = drawn >> 40;
        write!(text, "\"KEY_{value:02}\":\"value {large} of {small}\"")
    } else if value < COUNTS {
        write!(text, "\"limit-{value}\":{small}")
    } else if drawn % 4 == 0 {
        write!(text, "\"is-{value}\":[{small},true]")
    } else if drawn % 4 == 1 {
        write!(text, "\"is-{value}\":null")
    } else {
        write!(text, "\"is-{value}\":\"on\"")
    }
}

/// A name and its new value, or null, and a comma.
fn push_change(text: &mut String, key: u64, service: u64, value: u64) -> Result<(), AllocError> {
    let drawn = mixed(key ^ mixed(service.wrapping_mul(32) ^ value));
    if drawn % 8 == 0 {
        write!(text, "\"limit-{value}\":null,")
    } else {
        write!(text, "\"limit-{value}\":{drawn},")
    }
}
