//! Readers and writers that count their calls.
ghost use Rattle.std.specs.Prelude.{◌≡◌, ◌≤◌};

mod device;

/// A reader or a writer, the device, with three counts: the calls that were made of it, how many
/// of them failed, and how many bytes they gave or took. It also knows how many calls gave or took
/// at least one byte, and whether the last call was a flush that did not fail.
///
/// The calls are made by `run` alone. A call counts as failed where the device answered an error,
/// also that it was interrupted, and if a write of at least one byte took none. No count goes
/// past the range of `u64`.
///
/// ```text
/// let mut input = Counted::new(rt.stdin());
/// let status = run(alloc, &Command::Merge, &mut input, &mut out, &mut err);
/// let bytes_read = input.bytes();
/// ```
#[derive(Debug, Drop)]
pub struct Counted<T> {
    /// The reader or the writer.
    device: T,
    /// The calls that were made of it.
    calls: u64,
    /// The calls that failed.
    failures: u64,
    /// The calls that read or wrote at least one byte.
    moving_calls: u64,
    /// The bytes that were read or written.
    bytes: u64,
    /// Whether the last call was a flush that did not fail.
    flushed: bool,
    ghost failures_within_calls: { failures ≤ calls },
    ghost moving_within_calls: { moving_calls ≤ calls },
    ghost no_bytes_before_calls: { calls ≡ 0 → bytes ≡ 0 },
}

impl<T> Counted<T> {
    ghost use Rattle.mp_cli.specs.Counted.{device_of, calls_of, failures_of, moving_calls_of};
    ghost use Rattle.mp_cli.specs.Counted.{bytes_of, IsFlushed};

    /// The device with all counts 0.
    pub fn new(device: T) -> Counted<T>
        ensures device { device_of result ≡ device }
        ensures calls { calls_of result ≡ 0 }
        ensures failures { failures_of result ≡ 0 }
        ensures moving { moving_calls_of result ≡ 0 }
        ensures bytes { bytes_of result ≡ 0 }
        ensures unflushed { IsFlushed result → ⊥ }
    {
        Counted {
            device,
            calls: 0,
            failures: 0,
            moving_calls: 0,
            bytes: 0,
            flushed: false,
        }
    }

    /// How many reads, writes and flushes were made of the device.
    pub fn calls(&self) -> u64
        ensures { result ≡ calls_of self.now }
    {
        self.calls
    }

    /// How many of the calls failed: at most `calls()`.
    pub fn failures(&self) -> u64
        ensures value { result ≡ failures_of self.now }
        ensures within_calls { result ≤ calls_of self.now }
    {
        self.failures
    }

    /// How many bytes the reads gave or the writes took: 0 if no call was made.
    pub fn bytes(&self) -> u64
        ensures value { result ≡ bytes_of self.now }
        ensures none_before_calls { calls_of self.now ≡ 0 → result ≡ 0 }
    {
        self.bytes
    }

    /// The device, without its counts.
    pub fn into_device(self) -> T
        ensures { result ≡ device_of self }
    {
        let Counted {
            device,
            calls: _,
            failures: _,
            moving_calls: _,
            bytes: _,
            flushed: _,
        } = self;
        device
    }
}
