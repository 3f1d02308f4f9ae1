// Numbers that look random, and are the same everywhere (Steele, Lea and Flood, "Fast splittable pseudorandom number
// generators", 2014).

/// A generator of numbers.
#[derive(Drop)]
pub struct Numbers {
    state: u64,
}

impl Numbers {
    /// The numbers of one input of a run: of its seed, and of its number among the inputs.
    pub fn new(seed: u64, input: u64) -> Numbers {
        Numbers {
            state: mixed(seed).wrapping_add(mixed(input.wrapping_add(1))),
        }
    }

    /// The next number.
    pub fn next(&mut self) -> u64 {
        self.state = self.state.wrapping_add(0x9e37_79b9_7f4a_7c15);
        mixed(self.state)
    }

    /// The next number, brought below a limit; 0 if the limit is 0.
    pub fn below(&mut self, limit: u64) -> u64 {
        let number = self.next();
        if limit == 0 { 0 } else { number % limit }
    }
}

/// A number that looks random, and is always the same for the one that it is made of.
pub fn mixed(number: u64) -> u64 {
    let first = (number ^ (number >> 30)).wrapping_mul(0xbf58_476d_1ce4_e5b9);
    let second = (first ^ (first >> 27)).wrapping_mul(0x94d0_49bb_1331_11eb);
    second ^ (second >> 31)
}
